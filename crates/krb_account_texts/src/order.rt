//! The order of the lines of a text of accounts.
ghost use Rattle.std.specs.Prelude.{◌≡◌, ◌≤◌, ◌<◌, [], false, length, IfSome};
ghost use Rattle.std.specs.List.{position_from};
ghost use Rattle.std.specs.Option.{option_map};
ghost use Rattle.krb_realm_accounts.specs.Accounts.{name_cmp};
ghost use Rattle.krb_account_texts.specs.Order.{in_order, is_after, is_before, judged_next, place_for, realm_among};

use crate::fault::{LineFault, TextFault};
use crate::line::{Line, RealmLine};
use picky_asn1::wrapper::GeneralStringAsn1;
use std::cmp::Ordering;

/// Says whether the lines are in order: one line of a realm before all accounts, and the accounts in the order of their names, each name
/// once. The fault has the number of the first line that is not.
pub fn check_order(lines: &[Line]) -> Result<(), TextFault>
    ensures { result ≡ in_order 1 false [] lines.now }
{
    let mut has_realm = false;
    let mut last: &[GeneralStringAsn1] = &[];
    for (index, line) in lines.iter().enumerate() {
        if let Err(fault) = check_next(has_realm, last, line) {
            return Err(TextFault::Line(index + 1, fault));
        }
        match line {
            Line::Comment(_) => {}
            Line::Realm(_) => has_realm = true,
            Line::Account(own) => last = own.name.name_string.0.as_slice(),
        }
    }
    if has_realm {
        Ok(())
    } else {
        Err(TextFault::Line(lines.len() + 1, LineFault::NoRealm))
    }
}

/// Says whether a line may follow: whether there is a realm's line before it, and `last` is the name of the account before it, or empty.
pub fn check_next(has_realm: bool, last: &[GeneralStringAsn1], line: &Line) -> Result<(), LineFault>
    ensures { result ≡ judged_next has_realm last.now line.now }
{
    match line {
        Line::Comment(_) => Ok(()),
        Line::Realm(_) => {
            if has_realm {
                return Err(LineFault::SecondRealm);
            }
            Ok(())
        }
        Line::Account(own) => {
            if !has_realm {
                return Err(LineFault::NoRealm);
            }
            if !is_before(last, own.name.name_string.0.as_slice()) {
                return Err(LineFault::Order);
            }
            Ok(())
        }
    }
}

/// The line of the realm, if there is one.
pub fn realm_among(lines: &[Line]) -> Option<&RealmLine>
    ensures { option_map (λ realm. realm.now) result ≡ realm_among lines.now }
{
    for line in lines {
        match line {
            Line::Realm(realm) => return Some(realm),
            Line::Comment(_) | Line::Account(_) => {}
        }
    }
    None
}

/// The place of a further account of this name: before the first account whose name is after it.
pub(crate) fn place_for(lines: &[Line], name: &[GeneralStringAsn1]) -> usize
    ensures place { result ≡ place_for name.now lines.now }
    ensures within { result ≤ length lines.now }
{
    match first_after(lines, name) {
        Some(place) => place,
        None => lines.len(),
    }
}

// The place of the first account whose name is after this one.
fn first_after(lines: &[Line], name: &[GeneralStringAsn1]) -> Option<usize>
    ensures first { result ≡ position_from (is_after name.now) 0 lines.now }
    ensures within { IfSome result (λ place. place < length lines.now) }
{
    lines.iter().position(|line| is_after(line, name))
}

// Whether the line is an account's whose name is after this one.
fn is_after(line: &Line, name: &[GeneralStringAsn1]) -> bool
    ensures { result ≡ is_after name.now line.now }
{
    match line {
        Line::Account(own) => is_before(name, own.name.name_string.0.as_slice()),
        _ => false,
    }
}

// Whether a name is before another: by the first component that differs, and there by the first character that differs.
fn is_before(name: &[GeneralStringAsn1], other: &[GeneralStringAsn1]) -> bool
    ensures { result ≡ is_before name.now other.now }
{
    compare_names(name, other).is_lt()
}

fn compare_names(name: &[GeneralStringAsn1], other: &[GeneralStringAsn1]) -> Ordering
    ensures { result ≡ name_cmp name.now other.now }
{
    let others = other.iter().map(|component| component.as_bytes());
    name.iter()
        .map(|component| component.as_bytes())
        .cmp(others)
}
