//! The messages of the faults of settings files: line, word, and what was expected.

use crate::lines::Section;
use crate::outline::Outline;
use crate::rules::key_digits;
use crate::words::{Names, Word, expected, kind};
use crate::{
    ACCOUNT_FIELDS, Field, Place, REALM_FIELDS, Remark, SettingsFault, TableFault, is_among,
};
use std::alloc::{AllocError, Global};
use std::{fmt, str};
use toml::{Value, de};

/// The message of a file's fault: its line, the word, and what was expected. It shows no key and no password.
pub fn explain(alloc: Global, text: &[u8], fault: SettingsFault) -> Result<Remark, AllocError> {
    match fault {
        SettingsFault::NotToml(error) => explain_toml(alloc, text, &error),
        SettingsFault::File(fault) => explain_table(alloc, text, Place::File, fault),
        SettingsFault::Account(number, fault) => {
            explain_table(alloc, text, Place::Account(number), fault)
        }
        SettingsFault::TooLong | SettingsFault::Memory => {
            Remark::on_file(alloc, format_args!("{fault}"))
        }
    }
}

// The message of a text that is no TOML.
fn explain_toml(alloc: Global, text: &[u8], error: &de::Error) -> Result<Remark, AllocError> {
    if is_utf_16(text) {
        return Remark::on_file(alloc, "text in UTF-16: expected UTF-8");
    }
    let message = error.message();
    match error.span() {
        Some(span) => explain_toml_at(alloc, text, span.start, message),
        None => Remark::on_file(alloc, message),
    }
}

// The message of a text that is no TOML from this byte on.
fn explain_toml_at(
    alloc: Global,
    text: &[u8],
    start: usize,
    message: &str,
) -> Result<Remark, AllocError> {
    let (before, rest) = text.split_at_checked(start).unwrap_or((text, text));
    let spot = spot_after(before);
    match message {
        "duplicate key" => duplicate_key(alloc, spot, line_at(text, spot.line), rest),
        "number out of range" => out_of_range(alloc, spot, line_at(text, spot.line)),
        "invalid string" if is_line_end(rest) => {
            spot.remark(alloc, "unclosed string: expected its closing quote")
        }
        _ => spot.remark(alloc, message),
    }
}

// The message of a key that stands a second time: in this line, and at the start of the rest.
fn duplicate_key(alloc: Global, spot: Spot, line: &str, rest: &[u8]) -> Result<Remark, AllocError> {
    let Some(key) = first_key(alloc, str::from_utf8(rest).unwrap_or(""))? else {
        return spot.remark(alloc, "duplicate key");
    };
    let number = Some(spot.line);
    if key.as_str() == Field::Account.name() && line.trim_start().starts_with('[') {
        let wanted = expected(Field::Account);
        let words = format_args!("a second [account]: expected {wanted}");
        Remark::on_table(alloc, Place::File, number, words)
    } else {
        let key = Word(key.as_str());
        let words = format_args!("duplicate key {key}: expected it once in a table");
        Remark::on_table(alloc, Place::File, number, words)
    }
}

// The message of a number in this line that doesn't fit 64 bits.
fn out_of_range(alloc: Global, spot: Spot, line: &str) -> Result<Remark, AllocError> {
    let key = first_key(alloc, line)?;
    let key = match &key {
        Some(key) => key.as_str(),
        None => "",
    };
    let field = if key == Field::Skew.name() {
        Field::Skew
    } else if key == Field::Lifetime.name() {
        Field::Lifetime
    } else {
        return spot.remark(alloc, "number out of range");
    };
    other_than_expected(alloc, Place::File, Some(spot.line), field, "out of range")
}

// Whether a text ends here, or its line.
fn is_line_end(rest: &[u8]) -> bool {
    match rest.first() {
        None => true,
        Some(byte) => *byte == b'\n' || *byte == b'\r',
    }
}

// Whether a text begins with the byte-order mark of UTF-16.
fn is_utf_16(text: &[u8]) -> bool {
    let [first, second, ..] = text else {
        return false;
    };
    (*first == 0xff && *second == 0xfe) || (*first == 0xfe && *second == 0xff)
}

// The line of this number. A text that isn't UTF-8 has none.
fn line_at(text: &[u8], number: usize) -> &str {
    let text = str::from_utf8(text).unwrap_or("");
    text.lines().nth(number.saturating_sub(1)).unwrap_or("")
}

/// Where a text is no TOML: the line and the column, both from 1 on. A column counts characters.
#[derive(Clone, Copy)]
struct Spot {
    line: usize,
    column: usize,
}

impl Spot {
    // What is said of the column.
    fn remark(self, alloc: Global, words: &str) -> Result<Remark, AllocError> {
        let column = self.column;
        let words = format_args!("column {column}: {words}");
        Remark::on_table(alloc, Place::File, Some(self.line), words)
    }
}

// The spot of what follows these bytes.
fn spot_after(before: &[u8]) -> Spot {
    let mut line = 1usize;
    let mut column = 1usize;
    for byte in before {
        if *byte == b'\n' {
            line = line.saturating_add(1);
            column = 1;
        } else if *byte & 0xc0 != 0x80 {
            column = column.saturating_add(1);
        }
    }
    Spot { line, column }
}

// The key with which a text begins, or that its header names.
fn first_key(alloc: Global, text: &str) -> Result<Option<String>, AllocError> {
    let Some(line) = text.lines().next() else {
        return Ok(None);
    };
    let mut section = Section::new();
    let found = section.read(alloc, line, 1)?;
    Ok(match found {
        Some(found) => Some(found.key),
        None => None,
    })
}

// The message of a fault of this table.
fn explain_table(
    alloc: Global,
    text: &[u8],
    place: Place,
    fault: TableFault,
) -> Result<Remark, AllocError> {
    let Some(outline) = Outline::read(alloc, text)? else {
        return Remark::on_table(alloc, place, None, fault);
    };
    match fault {
        TableFault::UnknownKey => unknown_key(alloc, &outline, place),
        TableFault::Missing(field) => missing(alloc, &outline, place, field),
        TableFault::WrongType(field) => wrong_type(alloc, &outline, place, field),
        TableFault::UnknownSuite => unknown_suite(alloc, &outline, place),
        TableFault::BadDigits => key_digits(alloc, &outline, place),
        TableFault::BothSecrets => {
            let password = outline.line(place, Field::Password);
            let line = password.max(outline.line(place, Field::Key));
            let words = "both password and key: expected one of them";
            Remark::on_table(alloc, place, line, words)
        }
        TableFault::NeitherSecret => {
            let line = outline.head(place);
            let words = "neither password nor key: expected one of them";
            Remark::on_table(alloc, place, line, words)
        }
        TableFault::Memory => Remark::on_table(alloc, place, None, fault),
    }
}

fn unknown_key(alloc: Global, outline: &Outline, place: Place) -> Result<Remark, AllocError> {
    let fields: &[Field] = match place {
        Place::File => &REALM_FIELDS,
        Place::Account(_) => &ACCOUNT_FIELDS,
    };
    let names = Names(fields);
    let Some(found) = outline.unknown_key(place, fields) else {
        let line = outline.head(place);
        let words = format_args!("unknown key: expected one of {names}");
        return Remark::on_table(alloc, place, line, words);
    };
    let key = found.key.as_str();
    let word = Word(key);
    let hint = match place {
        Place::Account(_) if is_among(&REALM_FIELDS, key) =>
            " (the realm's own fields are above the first [[account]])",
        _ => "",
    };
    let words = format_args!("unknown key {word}: expected one of {names}{hint}");
    Remark::on_table(alloc, place, Some(found.line), words)
}

fn missing(
    alloc: Global,
    outline: &Outline,
    place: Place,
    field: Field,
) -> Result<Remark, AllocError> {
    let wanted = expected(field);
    Remark::on_table(
        alloc,
        place,
        outline.head(place),
        format_args!("no {field}: expected {wanted}"),
    )
}

fn wrong_type(
    alloc: Global,
    outline: &Outline,
    place: Place,
    field: Field,
) -> Result<Remark, AllocError> {
    let line = outline.line(place, field);
    match outline.value(place, field) {
        Some(Value::Integer(number)) if field == Field::Skew || field == Field::Lifetime => {
            other_than_expected(alloc, place, line, field, *number)
        }
        Some(Value::Array(values)) => wrong_list(alloc, place, line, field, values),
        Some(value) => other_than_expected(alloc, place, line, field, kind(value)),
        None => other_than_expected(alloc, place, line, field, "of another type"),
    }
}

/// The message of a field that is this, and may not be.
pub(crate) fn other_than_expected<D: fmt::Display + Drop>(
    alloc: Global,
    place: Place,
    line: Option<usize>,
    field: Field,
    found: D,
) -> Result<Remark, AllocError> {
    let wanted = expected(field);
    let words = format_args!("{field} is {found}: expected {wanted}");
    Remark::on_table(alloc, place, line, words)
}

// The message of a list: of its first element that the field may not have, by its number and what it is.
fn wrong_list(
    alloc: Global,
    place: Place,
    line: Option<usize>,
    field: Field,
    values: &[Value],
) -> Result<Remark, AllocError> {
    for (index, value) in values.iter().enumerate() {
        let is_right = match field {
            Field::Account => value.as_table().is_some(),
            Field::Name => value.as_str().is_some(),
            _ => true,
        };
        if !is_right {
            let number = index.saturating_add(1);
            let kind = kind(value);
            let wanted = expected(field);
            let words = format_args!("element {number} of {field} is {kind}: expected {wanted}");
            return Remark::on_table(alloc, place, line, words);
        }
    }
    other_than_expected(alloc, place, line, field, "a list")
}

fn unknown_suite(alloc: Global, outline: &Outline, place: Place) -> Result<Remark, AllocError> {
    let wanted = expected(Field::Suite);
    let line = outline.line(place, Field::Suite);
    Remark::on_table(
        alloc,
        place,
        line,
        format_args!("unknown suite: expected {wanted}"),
    )
}
