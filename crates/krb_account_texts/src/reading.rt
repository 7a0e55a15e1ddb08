//! Reading a text of accounts.
ghost use Rattle.std.specs.Prelude.{◌≡◌, ◌==◌, ◌-◌, nat_eq, true, false, drop, length, map, slice_index, take, pos, IfOk, MatchOption, List, [], ◌∷◌};
ghost use Rattle.std.specs.List.{slice_split};
ghost use Rattle.std.specs.Option.{option_map};
ghost use Rattle.krb_constants.specs.declared.types.TheConstants.{NT_PRINCIPAL};
ghost use Rattle.krb_account_texts.specs.Lines.{disabled_mark, written};
ghost use Rattle.krb_account_texts.specs.Reading.{account_in, active_of, disabled_of, fields, has_realm_fields, is_disabled, is_ended, line_in, line_of, lines_in, lines_of, name_in, numbered, realm_by, realm_in, realm_line_of};
ghost use Rattle.krb_account_texts.specs.Steps.{IsAside, each_from};

use crate::fault::{LineFault, TextFault};
use crate::fields::{
    kvno_of, name_of, pkinit_of, read_key, realm_name_of_text, salt_of, seconds_of, settings_of,
    suite_of,
};
use crate::further::further_of;
use crate::line::{AccountLine, Line, RealmLine, principal_name};
use crate::words::{Words, words_of};
use krb_messages::data_types::PrincipalName;
use krb_realm_accounts::{Account, NO_POLICY, Policy};
use std::alloc::{AllocError, Global};

/// The lines that a text writes. It is refused with the number of the first line that is none, and with what was expected there.
///
/// Whether the lines are in order says [`check_order`](crate::check_order).
#[tactic(auto, unfolding(crate::specs::Reading::lines_in))]
pub fn read_lines(alloc: Global, text: &str) -> Result<Vec<Line>, TextFault>
    ensures { IsAside TextFault.Memory (λ v. map written v.items) (lines_in text.now) result }
{
    let parts = parts_of(alloc, text)?;
    let split = parts.as_slice();
    read_split(alloc, split)
}

// The lines of the parts between line feeds.
fn read_split(alloc: Global, parts: &[&str]) -> Result<Vec<Line>, TextFault>
    ensures { IsAside TextFault.Memory (λ v. map written v.items) (lines_of (map (λ part. part.now) parts.now)) result }
{
    if !is_ended(parts) {
        return Err(TextFault::NoEnd(parts.len()));
    }
    read_parts(alloc, front_of(parts))
}

// The parts before the last one.
fn front_of<'a, 'b>(parts: &'a [&'b str]) -> &'a [&'b str]
    ensures { result.now ≡ take (length parts.now - 1) parts.now }
{
    let count = parts.len().saturating_sub(1);
    &parts[..count]
}

// Whether the last part is empty.
fn is_ended(parts: &[&str]) -> bool
    ensures { result ≡ is_ended (map (λ part. part.now) parts.now) }
{
    match parts.last() {
        Some(part) => part.is_empty(),
        None => true,
    }
}

fn read_parts(alloc: Global, parts: &[&str]) -> Result<Vec<Line>, TextFault>
    ensures { IsAside TextFault.Memory (λ v. map written v.items) (each_from numbered 1 (map (λ part. part.now) parts.now)) result }
{
    let mut lines = Vec::new(alloc);
    for (index, part) in parts.iter().enumerate() {
        lines.push(numbered(alloc, index + 1, part)?)?;
    }
    Ok(lines)
}

// The line of this number.
fn numbered(alloc: Global, number: usize, text: &str) -> Result<Line, TextFault>
    ensures { IsAside TextFault.Memory written (numbered number text.now) result }
{
    match read_line(alloc, text) {
        Ok(line) => Ok(line),
        Err(LineFault::Memory) => Err(TextFault::Memory),
        Err(fault) => Err(TextFault::Line(number, fault)),
    }
}

/// What the line of a disabled account begins with.
const DISABLED: &str = "#disabled\t";

/// The line that a text without a line feed writes. A text is read line by line so where its lines aren't kept: as [`read_lines`] reads it.
#[tactic(auto, unfolding(crate::specs::Reading::line_in))]
pub fn read_line(alloc: Global, text: &str) -> Result<Line, LineFault>
    ensures { IsAside LineFault.Memory written (line_in text.now) result }
{
    if let Some(fields) = disabled_fields(text) {
        return read_disabled(alloc, fields);
    }
    if is_comment(text.as_bytes()) {
        let text = String::from_str(alloc, text)?;
        return Ok(Line::Comment(text));
    }
    let fields = fields_of(alloc, text)?;
    line_of(alloc, &fields)
}

// The fields after the mark of a disabled account, if the text begins with it.
fn disabled_fields(text: &str) -> Option<&str>
    ensures { MatchOption result (is_disabled text.now ≡ false) (λ fields. (is_disabled text.now ≡ true) × (fields.now ≡ drop (length disabled_mark) text.now)) }
{
    text.strip_prefix(DISABLED)
}

// The line of a disabled account, of the text of its fields.
fn read_disabled(alloc: Global, text: &str) -> Result<Line, LineFault>
    ensures { IsAside LineFault.Memory written (disabled_of (fields text.now)) result }
{
    let fields = fields_of(alloc, text)?;
    disabled_of(alloc, &fields)
}

// The line of a disabled account, of these fields.
fn disabled_of(alloc: Global, fields: &[&str]) -> Result<Line, LineFault>
    ensures { IsAside LineFault.Memory written (disabled_of (map (λ field. field.now) fields.now)) result }
{
    match fields {
        [name, suite, kvno, salt, key, further @ ..] => {
            let start = AccountStart {
                name,
                suite,
                kvno,
                salt,
                key,
            };
            account_of(alloc, true, start, further)
        }
        _ => Err(LineFault::DisabledFields),
    }
}

/// Whether a text begins as a comment does.
pub(crate) fn is_comment(text: &[u8]) -> bool
    ensures { result ≡ (slice_index text.now 0 == 35) }
{
    match text.first() {
        Some(first) => *first == b'#',
        None => false,
    }
}

// The line of these fields.
fn line_of(alloc: Global, fields: &[&str]) -> Result<Line, LineFault>
    ensures { IsAside LineFault.Memory written (line_of (map (λ field. field.now) fields.now)) result }
{
    if has_realm_fields(fields) {
        return realm_line_of(alloc, fields);
    }
    active_of(alloc, fields)
}

// Whether there are as many fields as the realm's line has.
fn has_realm_fields(fields: &[&str]) -> bool
    ensures { result ≡ has_realm_fields (map (λ field. field.now) fields.now) }
{
    fields.len() == 4 || fields.len() == 6
}

// The realm's line of these fields.
fn realm_line_of(alloc: Global, fields: &[&str]) -> Result<Line, LineFault>
    ensures { IsAside LineFault.Memory written (realm_line_of (map (λ field. field.now) fields.now)) result }
{
    match fields {
        [word, name, skew, lifetime] => {
            let start = RealmStart {
                word,
                name,
                skew,
                lifetime,
            };
            plain_realm_of(alloc, start)
        }
        [word, name, skew, lifetime, words, digits] => {
            let start = RealmStart {
                word,
                name,
                skew,
                lifetime,
            };
            realm_with(alloc, start, Further { words, digits })
        }
        _ => Err(LineFault::Fields),
    }
}

// The line of an account of these fields.
fn active_of(alloc: Global, fields: &[&str]) -> Result<Line, LineFault>
    ensures { IsAside LineFault.Memory written (active_of (map (λ field. field.now) fields.now)) result }
{
    match fields {
        [name, suite, kvno, salt, key, further @ ..] => {
            let start = AccountStart {
                name,
                suite,
                kvno,
                salt,
                key,
            };
            account_of(alloc, false, start, further)
        }
        _ => Err(LineFault::Fields),
    }
}

// The first five fields of an account's line.
#[derive(Clone, Copy)]
struct AccountStart<'a> {
    name: &'a str,
    suite: &'a str,
    kvno: &'a str,
    salt: &'a str,
    key: &'a str,
}

// The first four fields of a realm's line.
#[derive(Clone, Copy)]
struct RealmStart<'a> {
    word: &'a str,
    name: &'a str,
    skew: &'a str,
    lifetime: &'a str,
}

// What follows in a realm's line: the words of policy, guarded passwords and logins by certificate, and what these are answered by.
#[derive(Clone, Copy)]
struct Further<'a> {
    words: &'a str,
    digits: &'a str,
}

// The realm's line of four fields.
fn plain_realm_of(alloc: Global, start: RealmStart<'_>) -> Result<Line, LineFault>
    ensures { IsAside LineFault.Memory written (line_of (start.entry.word.now ∷ start.entry.name.now ∷ start.entry.skew.now ∷ start.entry.lifetime.now ∷ [])) result }
{
    if start.word == "realm" {
        return realm_of(alloc, start, NO_POLICY, false, None);
    }
    Err(LineFault::Fields)
}

// The realm's line with the further fields.
fn realm_with(alloc: Global, start: RealmStart<'_>, further: Further<'_>) -> Result<Line, LineFault>
    ensures { IsAside LineFault.Memory written
        (line_of (start.entry.word.now ∷ start.entry.name.now ∷ start.entry.skew.now ∷ start.entry.lifetime.now ∷ further.entry.words.now ∷ further.entry.digits.now ∷ [])) result }
{
    if start.word != "realm" {
        return Err(LineFault::Fields);
    }
    let words = words_of(alloc, further.words)?;
    realm_by(alloc, start, further.digits, words)
}

// The realm's line of these words.
fn realm_by(
    alloc: Global,
    start: RealmStart<'_>,
    digits: &str,
    words: Words,
) -> Result<Line, LineFault>
    ensures { IsAside LineFault.Memory written (realm_by start.entry.name.now start.entry.skew.now start.entry.lifetime.now digits.now words) result }
{
    let guards = words.guards_passwords;
    if words.is_certified {
        return realm_of(alloc, start, words.policy, guards, Some(digits));
    }
    if digits == "-" {
        return realm_of(alloc, start, words.policy, guards, None);
    }
    Err(LineFault::NoPkinit)
}

#[tactic(auto, unfolding(crate::specs::Reading::realm_in))]
fn realm_of(
    alloc: Global,
    start: RealmStart<'_>,
    policy: Policy,
    guards: bool,
    digits: Option<&str>,
) -> Result<Line, LineFault>
    ensures { IsAside LineFault.Memory written
        (realm_in start.entry.name.now start.entry.skew.now start.entry.lifetime.now policy guards (option_map (λ digits. digits.now) digits.entry)) result }
{
    let name = realm_name_of_text(alloc, start.name)?;
    let skew = seconds_of(start.skew)?;
    let lifetime = seconds_of(start.lifetime)?;
    let settings = settings_of(skew, lifetime)?;
    let pkinit = pkinit_of(alloc, digits)?;
    Ok(Line::Realm(RealmLine {
        name,
        settings: settings.with_policy(policy),
        guards_passwords: guards,
        pkinit,
    }))
}

#[tactic(auto, unfolding(crate::specs::Reading::account_in))]
fn account_of(
    alloc: Global,
    is_disabled: bool,
    start: AccountStart<'_>,
    further: &[&str],
) -> Result<Line, LineFault>
    ensures { IsAside LineFault.Memory written
        (account_in is_disabled start.entry.name.now start.entry.suite.now start.entry.kvno.now start.entry.salt.now start.entry.key.now (map (λ field. field.now) further.now)) result }
{
    let name = read_name(alloc, start.name)?;
    let suite = suite_of(start.suite)?;
    let kvno = kvno_of(start.kvno)?;
    let salt = salt_of(alloc, start.salt)?;
    let key = read_key(alloc, suite, start.key)?;
    let further = further_of(alloc, kvno, further)?;
    let account = Account::of_keys(key, kvno, salt, further.former, further.attributes);
    Ok(Line::Account(AccountLine {
        name,
        account,
        is_disabled,
    }))
}

/// The name that a text writes, as RFC 1964 has it (section 2.1.3), if it is one of a principal. Its type is NT-PRINCIPAL.
pub fn read_name(alloc: Global, text: &str) -> Result<PrincipalName, LineFault>
    ensures components { IsAside LineFault.Memory (λ name. name.name_string.0) (name_in text.now) result }
    ensures kind { IfOk result (λ name. name.name_type.0 ≡ pos NT_PRINCIPAL) }
{
    let components = name_of(alloc, text)?;
    let name = principal_name(alloc, components)?;
    Ok(name)
}

// The parts between line feeds.
fn parts_of<'a>(alloc: Global, text: &'a str) -> Result<Vec<&'a str>, AllocError>
    ensures { IfOk result (λ v. map (λ part. part.now) v.items ≡ slice_split (λ octet. octet == 10) text.now) }
{
    text.split('\n').collect(alloc)
}

// The parts between tabs.
fn fields_of<'a>(alloc: Global, text: &'a str) -> Result<Vec<&'a str>, AllocError>
    ensures { IfOk result (λ v. map (λ part. part.now) v.items ≡ fields text.now) }
{
    text.split('\t').collect(alloc)
}
