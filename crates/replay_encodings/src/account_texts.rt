//! Texts of accounts: how a text is read, and what it is after a change. The rows come from an independent writer of texts, and their
//! faults were written by hand (`data/account_texts.py`).
//!
//! A row has fields with `|` between: what is done, the text, arguments, and the outcome. In a field `^n` is a line feed and `^t` a tab. Two
//! kinds of rows have no text: of `typed` a realm's name, and of `matches` a pattern and a name. What is done with a key of a password has
//! `-salted` behind it, and the salt as its last argument.

use anyhow::bail;
use krb_account_texts::{
    AccountLine, EditRefusal, Line, LineFault, Pattern, TextFault, add, allow, can_be_typed,
    certify, change_key, check_order, disable, enable, keep_key, purge, read_key, read_lines,
    read_name, remove, suite_named, text_of,
};
use krb_crypto::Key;
use krb_realm_accounts::{Account, Attributes, NO_ATTRIBUTES};
use picky_asn1::wrapper::OctetStringAsn1;
use std::alloc::Global;
use test_support::rows::replay;
use test_support::{Row, Rows};

/// Replays the rows on texts of accounts.
pub(crate) fn replay_account_texts(rt: &HostRuntime) -> anyhow::Result<()> {
    replay(rt, &mut AccountTexts, "account_texts.txt")
}

#[derive(Clone, Copy)]
struct AccountTexts;

/// The attributes that `off` sets.
const OFF: Attributes = Attributes {
    ends: 0,
    is_off: true,
    must_change: false,
    lifetime: 0,
    is_no_service: false,
};

/// What is done with a text, and its arguments, which are empty where there are none. The name of `certify` is what logins by certificate are
/// answered by. The salt is that of a password's key.
#[derive(Clone, Copy)]
struct Edit<'a> {
    what: &'a str,
    name: &'a str,
    suite: &'a str,
    key: &'a str,
    salt: Option<&'a str>,
}

impl Rows for AccountTexts {
    const COLUMNS: &'static str = "|";

    fn agrees(&mut self, rt: &HostRuntime, row: &mut Row<'_>) -> anyhow::Result<bool> {
        let what = row.word();
        if what == "typed" || what == "matches" {
            return is_as_told(rt.alloc(), what, row);
        }
        let text = row.word();
        let edit = edit_of(what, row);
        let expected = row.word();
        let found = outcome(rt.alloc(), text, &edit)?;
        Ok(found.as_str() == expected)
    }
}

/// Whether a name can be typed, or a pattern matches a name, where the row has `yes`.
fn is_as_told(alloc: Global, what: &str, row: &mut Row<'_>) -> anyhow::Result<bool> {
    let first = unfolded(alloc, row.word())?;
    let found = if what == "typed" {
        can_be_typed(first.as_bytes())
    } else {
        let marks = first.as_bytes();
        Pattern { marks }.matches(alloc, row.word().as_bytes())?
    };
    Ok(found == (row.word() == "yes"))
}

/// Reads the arguments of what is done with a text.
fn edit_of<'a>(what: &'a str, row: &mut Row<'a>) -> Edit<'a> {
    let (what, has_salt) = match what.strip_suffix("-salted") {
        Some(what) => (what, true),
        None => (what, false),
    };
    let has_name = what != "read";
    let has_key = what == "key" || what == "keep" || what == "add";
    Edit {
        what,
        name: if has_name { row.word() } else { "" },
        suite: if has_key { row.word() } else { "" },
        key: if has_key { row.word() } else { "" },
        salt: if has_salt { Some(row.word()) } else { None },
    }
}

/// The outcome: the text, or the fault.
fn outcome(alloc: Global, text: &str, edit: &Edit<'_>) -> anyhow::Result<String> {
    let text = unfolded(alloc, text)?;
    let mut lines = match read_lines(alloc, text.as_str()) {
        Ok(lines) => lines,
        Err(fault) => return fault_text(alloc, fault),
    };
    if let Err(fault) = check_order(&lines) {
        return fault_text(alloc, fault);
    }
    match edited(alloc, &mut lines, edit)? {
        None => lines_text(alloc, &lines),
        Some(refusal) => Ok(format!(in alloc; "{refusal}")?),
    }
}

fn fault_text(alloc: Global, fault: TextFault) -> anyhow::Result<String> {
    Ok(format!(in alloc; "{fault}")?)
}

fn lines_text(alloc: Global, lines: &[Line]) -> anyhow::Result<String> {
    let text = text_of(alloc, lines)?;
    folded(alloc, text.as_str())
}

/// Changes the lines, and returns the refusal if there is one.
fn edited(
    alloc: Global,
    lines: &mut Vec<Line>,
    edit: &Edit<'_>,
) -> anyhow::Result<Option<EditRefusal>> {
    if edit.what == "read" {
        return Ok(None);
    }
    if edit.what == "certify" {
        let pkinit = pkinit_of(alloc, edit.name)?;
        return Ok(certify(lines, pkinit).err());
    }
    let Ok(name) = read_name(alloc, edit.name) else {
        bail!("no name");
    };
    let components = name.name_string.0.as_slice();
    match edit.what {
        "remove" => return Ok(remove(lines, components).err()),
        "disable" => return Ok(disable(lines, components).err()),
        "enable" => return Ok(enable(lines, components).err()),
        "purge" => return Ok(purge(lines, components).err()),
        "off" => return Ok(allow(lines, components, OFF).err()),
        _ => {}
    }
    let key = key_of(alloc, edit)?;
    let salt = salt_of(alloc, edit)?;
    if edit.what == "key" {
        return Ok(change_key(lines, components, key, salt).err());
    }
    if edit.what == "keep" {
        return Ok(keep_key(alloc, lines, components, key, salt).err());
    }
    let line = AccountLine {
        name,
        account: Account::new(key, 1, salt),
        is_disabled: false,
    };
    Ok(add(lines, line).err())
}

/// What logins by certificate are answered by, or nothing for `-`.
fn pkinit_of(alloc: Global, digits: &str) -> anyhow::Result<Option<OctetStringAsn1>> {
    if digits == "-" {
        return Ok(None);
    }
    let octets = hex::decode(alloc, digits)?;
    Ok(Some(OctetStringAsn1::from(octets)))
}

/// The salt of a password's key.
fn salt_of(alloc: Global, edit: &Edit<'_>) -> anyhow::Result<Option<OctetStringAsn1>> {
    let Some(digits) = edit.salt else {
        return Ok(None);
    };
    let octets = hex::decode(alloc, digits)?;
    Ok(Some(OctetStringAsn1::from(octets)))
}

fn key_of(alloc: Global, edit: &Edit<'_>) -> anyhow::Result<Key> {
    let Some(suite) = suite_named(edit.suite) else {
        bail!("no suite");
    };
    match read_key(alloc, suite, edit.key) {
        Ok(key) => Ok(key),
        Err(LineFault::Memory) => bail!("out of memory"),
        Err(_) => bail!("no key"),
    }
}

/// The text of a field.
fn unfolded(alloc: Global, field: &str) -> anyhow::Result<String> {
    let mut text = String::new(alloc);
    let mut is_quoted = false;
    for character in field.chars() {
        if is_quoted {
            text.push(quoted(character))?;
            is_quoted = false;
        } else if character == '^' {
            is_quoted = true;
        } else {
            text.push(character)?;
        }
    }
    Ok(text)
}

fn quoted(character: char) -> char {
    match character {
        'n' => '\n',
        't' => '\t',
        _ => character,
    }
}

/// The field of a text.
fn folded(alloc: Global, text: &str) -> anyhow::Result<String> {
    let mut field = String::new(alloc);
    for character in text.chars() {
        match character {
            '\n' => field.push_str("^n")?,
            '\t' => field.push_str("^t")?,
            '^' => field.push_str("^^")?,
            _ => field.push(character)?,
        }
    }
    Ok(field)
}
