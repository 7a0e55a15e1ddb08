//! The messages of what a realm refuses in a settings file: line, word, and what was expected.

use crate::messages::other_than_expected;
use crate::outline::Outline;
use crate::{Field, Place, Remark, suite_at, suite_name};
use krb_crypto::CipherSuite;
use krb_realm_accounts::{CHARACTER_LIMIT, COMPONENT_LIMIT, SKEW_LIMIT};
use std::alloc::{AllocError, Global};
use std::fmt;
use toml::Value;

/// What a realm refuses in a settings file.
#[derive(Clone, Copy, Debug, PartialEq, Eq)]
pub enum Rule {
    /// The skew or the lifetime is out of its range.
    Range,
    /// The name of the realm or of an account breaks the rules for names.
    Name,
    /// A key's length isn't its suite's.
    KeyLength,
    /// An account is there already.
    Exists,
}

/// The message of a rule that a table of a file breaks: its line, the word, and what was expected. It shows no key and no
/// password.
pub fn explain_rule(
    alloc: Global,
    text: &[u8],
    place: Place,
    rule: Rule,
) -> Result<Remark, AllocError> {
    let Some(outline) = Outline::read(alloc, text)? else {
        return Remark::on_table(alloc, place, None, "refused");
    };
    match rule {
        Rule::Range => range(alloc, &outline, place),
        Rule::Name => name(alloc, &outline, place),
        Rule::KeyLength => key_digits(alloc, &outline, place),
        Rule::Exists => exists(alloc, &outline, place),
    }
}

fn range(alloc: Global, outline: &Outline, place: Place) -> Result<Remark, AllocError> {
    let skew = whole_number(outline, place, Field::Skew);
    let (field, number) = if (SKEW_LIMIT as i64) < skew {
        (Field::Skew, skew)
    } else {
        (
            Field::Lifetime,
            whole_number(outline, place, Field::Lifetime),
        )
    };
    let line = outline.line(place, field);
    other_than_expected(alloc, place, line, field, number)
}

fn whole_number(outline: &Outline, place: Place, field: Field) -> i64 {
    match outline.value(place, field) {
        Some(Value::Integer(number)) => *number,
        _ => 0,
    }
}

fn name(alloc: Global, outline: &Outline, place: Place) -> Result<Remark, AllocError> {
    let field = match place {
        Place::File => Field::Realm,
        Place::Account(_) => Field::Name,
    };
    let line = outline.line(place, field);
    match outline.value(place, field) {
        Some(Value::Array(components)) => { name_of_components(alloc, place, line, components) }
        Some(Value::String(name)) => {
            let slip = slip_of(name.as_str()).unwrap_or(Slip::Other);
            let words = format_args!("realm {slip}: expected 1 to 255 ASCII characters");
            Remark::on_table(alloc, place, line, words)
        }
        _ => Remark::on_table(alloc, place, line, "no name of a realm or a principal"),
    }
}

fn name_of_components(
    alloc: Global,
    place: Place,
    line: Option<usize>,
    components: &[Value],
) -> Result<Remark, AllocError> {
    let count = components.len();
    if count == 0 || COMPONENT_LIMIT < count {
        let words = format_args!("name has {count} components: expected 1 to 16");
        return Remark::on_table(alloc, place, line, words);
    }
    let (number, slip) = first_slip(components).unwrap_or((1, Slip::Other));
    let words = format_args!(
        "component {number} of name {slip}: expected 1 to 255 ASCII characters"
    );
    Remark::on_table(alloc, place, line, words)
}

// The first component that is none, by its number, and why.
fn first_slip(components: &[Value]) -> Option<(usize, Slip)> {
    for (index, component) in components.iter().enumerate() {
        if let Some(slip) = slip_of(component.as_str().unwrap_or("")) {
            return Some((index.saturating_add(1), slip));
        }
    }
    None
}

/// Why a text is no name of a realm and no component.
#[derive(Clone, Copy)]
enum Slip {
    /// It is empty.
    Empty,
    /// It has so many characters.
    TooLong(usize),
    /// The character of this number isn't ASCII.
    NotAscii(usize),
    /// It is wrong in another way.
    Other,
}

impl fmt::Display for Slip {
    ghost use Rattle.std.specs.Prelude.{Some};
    ghost use Rattle.krb_settings.specs.Messages.{slip_text};

    ghost output = { λ slip. Some (slip_text slip) };

    fn fmt<W: fmt::Write>(&self, f: &mut fmt::Formatter<W>) -> fmt::Result {
        match *self {
            Slip::Empty => f.write_str("is empty"),
            Slip::TooLong(length) => write!(f, "has {length} characters"),
            Slip::NotAscii(number) => write!(f, "has a character that is not ASCII at {number}"),
            Slip::Other => f.write_str("is no name"),
        }
    }
}

fn slip_of(text: &str) -> Option<Slip> {
    for (index, character) in text.chars().enumerate() {
        if !character.is_ascii() {
            return Some(Slip::NotAscii(index.saturating_add(1)));
        }
    }
    match text.len() {
        0 => Some(Slip::Empty),
        length if CHARACTER_LIMIT < length => Some(Slip::TooLong(length)),
        _ => None,
    }
}

// The message of a key that isn't the digits of one of its suite's.
pub(crate) fn key_digits(
    alloc: Global,
    outline: &Outline,
    place: Place,
) -> Result<Remark, AllocError> {
    let line = outline.line(place, Field::Key);
    let digits = match outline.value(place, Field::Key) {
        Some(Value::String(digits)) => digits.as_str(),
        _ => "",
    };
    let Some(suite) = suite_of(outline, place) else {
        return Remark::on_table(alloc, place, line, "key is not pairs of hexadecimal digits");
    };
    let wanted = suite.key_size().saturating_mul(2);
    let name = suite_name(suite);
    for (index, digit) in digits.chars().enumerate() {
        if !digit.is_ascii_hexdigit() {
            let number = index.saturating_add(1);
            let words = format_args!(
                "character {number} of key is no hexadecimal digit: expected {wanted} digits for {name}"
            );
            return Remark::on_table(alloc, place, line, words);
        }
    }
    let count = digits.len();
    let words = format_args!("key has {count} hexadecimal digits: expected {wanted} for {name}");
    Remark::on_table(alloc, place, line, words)
}

// The suite of a table.
fn suite_of(outline: &Outline, place: Place) -> Option<CipherSuite> {
    match suite_at(outline.table(place)?) {
        Ok(suite) => Some(suite),
        Err(_) => None,
    }
}

fn exists(alloc: Global, outline: &Outline, place: Place) -> Result<Remark, AllocError> {
    let line = outline.line(place, Field::Name);
    let components = components_at(outline, place);
    let name = Components(components);
    let number = match first_of_name(outline, components) {
        Some(number) if Place::Account(number) != place => number,
        _ => {
            let words = format_args!(
                "name {name} is the ticket-granting service's, whose key is the realm's: expected another name"
            );
            return Remark::on_table(alloc, place, line, words);
        }
    };
    match outline.line(Place::Account(number), Field::Name) {
        Some(other_line) => Remark::on_table(
            alloc,
            place,
            line,
            format_args!(
                "name {name} is account {number}'s, on line {other_line}: expected another name"
            ),
        ),
        None => Remark::on_table(
            alloc,
            place,
            line,
            format_args!("name {name} is account {number}'s: expected another name"),
        ),
    }
}

// The number of the first account with these components.
fn first_of_name(outline: &Outline, components: &[Value]) -> Option<usize> {
    for index in 0..outline.accounts() {
        let number = index.saturating_add(1);
        if are_same(components_at(outline, Place::Account(number)), components) {
            return Some(number);
        }
    }
    None
}

fn components_at<'a>(outline: &'a Outline, place: Place) -> &'a [Value] {
    match outline.value(place, Field::Name) {
        Some(Value::Array(components)) => components,
        _ => &[],
    }
}

fn are_same(components: &[Value], others: &[Value]) -> bool {
    if components.len() != others.len() {
        return false;
    }
    for (component, other) in components.iter().zip(others) {
        if component.as_str() != other.as_str() {
            return false;
        }
    }
    true
}

/// The components of a name, as a settings file has them.
#[derive(Clone, Copy)]
struct Components<'a>(&'a [Value]);

impl<'a> fmt::Display for Components<'a> {
    ghost use Rattle.krb_settings.specs.Messages.{components_text};

    ghost output = { λ components. components_text components.0.now };

    fn fmt<W: fmt::Write>(&self, f: &mut fmt::Formatter<W>) -> fmt::Result {
        let [first, further @ ..] = self.0 else {
            return f.write_str("]");
        };
        let first = Component(first);
        let further = FurtherComponents(further);
        write!(f, "[{first}{further}]")
    }
}

// The components after the first one.
#[derive(Clone, Copy)]
struct FurtherComponents<'a>(&'a [Value]);

impl<'a> fmt::Display for FurtherComponents<'a> {
    ghost use Rattle.std.specs.Prelude.{codes};
    ghost use Rattle.std.specs.Fmt.{debug_items};
    ghost use Rattle.krb_settings.specs.Messages.{component_text};

    ghost output = { λ further. debug_items component_text (codes ", ") further.0.now };

    fn fmt<W: fmt::Write>(&self, f: &mut fmt::Formatter<W>) -> fmt::Result {
        for component in self.0 {
            let component = Component(component);
            write!(f, ", {component}")?;
        }
        Ok(())
    }
}

// A component, in quotes and with escapes.
#[derive(Clone, Copy)]
struct Component<'a>(&'a Value);

impl<'a> fmt::Display for Component<'a> {
    ghost use Rattle.krb_settings.specs.Messages.{component_text};

    ghost output = { λ component. component_text component.0.now };

    fn fmt<W: fmt::Write>(&self, f: &mut fmt::Formatter<W>) -> fmt::Result {
        let text = self.0.as_str().unwrap_or("");
        write!(f, "{text:?}")
    }
}
