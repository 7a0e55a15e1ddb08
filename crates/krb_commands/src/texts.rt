//! Texts of accounts in files.

use crate::kinds::FileKind;
use crate::reading::octets_of;
use crate::stop::{Stop, refused};
use krb_account_texts::{
    AccountLine, Line, RealmLine, TextFault, check_order, place_of, read_lines, realm_among,
    text_of,
};
use picky_asn1::wrapper::GeneralStringAsn1;
use std::alloc::Global;

/// The lines of the text in a file.
pub fn lines_of(rt: &HostRuntime, path: &str) -> Result<Vec<Line>, Stop> {
    let octets = octets_of(rt, path, FileKind::Accounts)?;
    let text = text_in(rt, path, &octets)?;
    match ordered_lines(rt.alloc(), text) {
        Ok(lines) => Ok(lines),
        Err(fault) => Err(stop_of(rt, path, fault)),
    }
}

// The lines of a text, if they are in order.
fn ordered_lines(alloc: Global, text: &str) -> Result<Vec<Line>, TextFault> {
    let lines = read_lines(alloc, text)?;
    match check_order(&lines) {
        Ok(()) => Ok(lines),
        Err(fault) => Err(fault),
    }
}

/// The text of a file's octets.
pub fn text_in<'a>(rt: &HostRuntime, path: &str, octets: &'a [u8]) -> Result<&'a str, Stop> {
    match str::from_utf8(octets) {
        Ok(text) => Ok(text),
        Err(_) => Err(refused(
            rt.alloc(),
            format_args!("{path}: expected a text of accounts, in UTF-8"),
        )),
    }
}

/// The stop of a fault in the text of this path.
pub fn stop_of(rt: &HostRuntime, path: &str, fault: TextFault) -> Stop {
    match fault {
        TextFault::Memory => Stop::Memory,
        TextFault::Line(_, _) | TextFault::NoEnd(_) => {
            refused(rt.alloc(), format_args!("{path}:{fault}"))
        }
    }
}

/// The line of the realm.
pub fn realm_of<'a>(
    rt: &HostRuntime,
    path: &str,
    lines: &'a [Line],
) -> Result<&'a RealmLine, Stop> {
    match realm_among(lines) {
        Some(realm) => Ok(realm),
        None => Err(unnamed_realm(rt.alloc(), path)),
    }
}

/// The stop of a text without a realm.
pub fn unnamed_realm(alloc: Global, path: &str) -> Stop {
    refused(alloc, format_args!("{path}: expected the line of a realm"))
}

/// The account of a name.
pub fn account_among<'a>(lines: &'a [Line], name: &[GeneralStringAsn1]) -> Option<&'a AccountLine> {
    let place = place_of(lines, name)?;
    match &lines[place] {
        Line::Account(own) => Some(own),
        _ => None,
    }
}

/// The text of lines. It is read again before it is written: a text that is not read as these lines is none.
pub fn whole_text(rt: &HostRuntime, lines: &[Line]) -> Result<String, Stop> {
    let alloc = rt.alloc();
    let text = text_of(alloc, lines)?;
    let is_read = match ordered_lines(alloc, text.as_str()) {
        Ok(again) => have_same_kinds(&again, lines),
        Err(TextFault::Memory) => return Err(Stop::Memory),
        Err(_) => false,
    };
    if !is_read {
        return Err(refused(
            alloc,
            "the new text would not be read again: expected a realm of printable characters",
        ));
    }
    Ok(text)
}

// What a line is of.
#[derive(Clone, Copy, PartialEq, Eq)]
enum LineKind {
    Comment,
    Realm,
    Account,
}

// Whether there are as many lines as others, and each is of the kind of the other one in its place.
fn have_same_kinds(lines: &[Line], others: &[Line]) -> bool {
    for (line, other) in lines.iter().zip(others) {
        if line_kind(line) != line_kind(other) {
            return false;
        }
    }
    lines.len() == others.len()
}

fn line_kind(line: &Line) -> LineKind {
    match line {
        Line::Comment(_) => LineKind::Comment,
        Line::Realm(_) => LineKind::Realm,
        Line::Account(_) => LineKind::Account,
    }
}
