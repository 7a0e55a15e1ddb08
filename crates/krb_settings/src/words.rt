//! The words of messages about settings files.
use crate::Field;
use std::fmt;
use toml::Value;

/// How many bytes a word of a file may have to be shown. The names of fields and suites have fewer, and keys have more.
const SHOWN_LIMIT: usize = 30;

/// A word of a file, as messages show it: with quotes and escapes, or its length alone.
#[derive(Clone, Copy)]
pub(crate) struct Word<'a>(pub(crate) &'a str);

impl<'a> fmt::Display for Word<'a> {
    ghost use Rattle.krb_settings.specs.Messages.{word_text};

    ghost output = { λ word. word_text word.0.now };

    fn fmt<W: fmt::Write>(&self, f: &mut fmt::Formatter<W>) -> fmt::Result {
        let word = self.0;
        let length = word.len();
        if length <= SHOWN_LIMIT {
            write!(f, "{word:?}")
        } else {
            write!(f, "of {length} bytes")
        }
    }
}

/// The names of fields, one after another.
#[derive(Clone, Copy)]
pub(crate) struct Names<'a>(pub(crate) &'a [Field]);

impl<'a> fmt::Display for Names<'a> {
    ghost use Rattle.std.specs.Prelude.{Some};
    ghost use Rattle.krb_settings.specs.Messages.{names_text};

    ghost output = { λ names. Some (names_text names.0.now) };

    fn fmt<W: fmt::Write>(&self, f: &mut fmt::Formatter<W>) -> fmt::Result {
        let [first, further @ ..] = self.0 else {
            return Ok(());
        };
        let further = FurtherNames(further);
        write!(f, "{first}{further}")
    }
}

// The names after the first one.
#[derive(Clone, Copy)]
struct FurtherNames<'a>(&'a [Field]);

impl<'a> fmt::Display for FurtherNames<'a> {
    ghost use Rattle.std.specs.Prelude.{Some};
    ghost use Rattle.krb_settings.specs.Messages.{further_names_text};

    ghost output = { λ further. Some (further_names_text further.0.now) };

    fn fmt<W: fmt::Write>(&self, f: &mut fmt::Formatter<W>) -> fmt::Result {
        for field in self.0 {
            write!(f, ", {field}")?;
        }
        Ok(())
    }
}

/// What a field may hold.
pub(crate) fn expected(field: Field) -> &'static str {
    match field {
        Field::Account => "a table under [[account]] for each account",
        Field::Key => "a text of hexadecimal digits",
        Field::Lifetime => "a whole number of seconds from 1 to 31536000",
        Field::Name => "a list of texts, as [\"host\", \"server.example.com\"]",
        Field::Password => "a text",
        Field::Realm => "a text of 1 to 255 ASCII characters",
        Field::Skew => "a whole number of seconds from 0 to 86400",
        Field::Suite =>
            "aes128-cts-hmac-sha1-96, aes256-cts-hmac-sha1-96, des3-cbc-sha1-kd, aes128-cts-hmac-sha256-128 or aes256-cts-hmac-sha384-192",
    }
}

/// What a value is.
pub(crate) fn kind(value: &Value) -> &'static str {
    match value {
        Value::String(_) => "a text",
        Value::Integer(_) => "a whole number",
        Value::Float(_) => "a number with a fraction",
        Value::Boolean(_) => "true or false",
        Value::Datetime(_) => "a date or a time",
        Value::Array(_) => "a list",
        Value::Table(_) => "a table",
    }
}
