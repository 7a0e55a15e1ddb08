//! Texts that are escaped as RFC 4514 has it (section 2.4).
ghost use Rattle.std.specs.Prelude.{◌≡◌};
ghost use Rattle.x509_fields.specs.Rfc4514.{is_plain, is_special};

use crate::name_text::Octet;
use std::fmt;

/// The octets of a text. A backslash precedes each mark of the notation, a space at either end and `#` at the beginning. An
/// octet that isn't a character of ASCII that prints is a backslash and two hexadecimal digits.
#[derive(Clone, Copy)]
pub(crate) struct Escaped<'a>(pub(crate) &'a [u8]);

impl<'a> fmt::Display for Escaped<'a> {
    ghost use Rattle.std.specs.Prelude.{Some};
    ghost use Rattle.x509_fields.specs.Rfc4514.{escaped_text};

    ghost output = { λ text. Some (escaped_text text.0.now) };

    fn fmt<W: fmt::Write>(&self, f: &mut fmt::Formatter<W>) -> fmt::Result {
        let [first, behind @ ..] = self.0 else {
            return Ok(());
        };
        let first = First(*first);
        let behind = Behind(behind);
        write!(f, "{first}{behind}")
    }
}

// The octets after the first.
#[derive(Clone, Copy)]
struct Behind<'a>(&'a [u8]);

impl<'a> fmt::Display for Behind<'a> {
    ghost use Rattle.std.specs.Prelude.{Some};
    ghost use Rattle.x509_fields.specs.Rfc4514.{escaped_behind};

    ghost output = { λ behind. Some (escaped_behind behind.0.now) };

    fn fmt<W: fmt::Write>(&self, f: &mut fmt::Formatter<W>) -> fmt::Result {
        let [inside @ .., last] = self.0 else {
            return Ok(());
        };
        let inside = Inside(inside);
        let last = Last(*last);
        write!(f, "{inside}{last}")
    }
}

// The octets between the first and the last.
#[derive(Clone, Copy)]
struct Inside<'a>(&'a [u8]);

impl<'a> fmt::Display for Inside<'a> {
    ghost use Rattle.std.specs.Prelude.{Some};
    ghost use Rattle.std.specs.List.{flat_map};
    ghost use Rattle.x509_fields.specs.Rfc4514.{escaped};

    ghost output = { λ inside. Some (flat_map escaped inside.0.now) };

    fn fmt<W: fmt::Write>(&self, f: &mut fmt::Formatter<W>) -> fmt::Result {
        for octet in self.0 {
            let escaped = EscapedOctet(*octet);
            write!(f, "{escaped}")?;
        }
        Ok(())
    }
}

// The first octet of a text.
#[derive(Clone, Copy)]
struct First(u8);

impl fmt::Display for First {
    ghost use Rattle.std.specs.Prelude.{Some};
    ghost use Rattle.x509_fields.specs.Rfc4514.{first_escaped};

    ghost output = { λ first. Some (first_escaped first.0) };

    fn fmt<W: fmt::Write>(&self, f: &mut fmt::Formatter<W>) -> fmt::Result {
        let octet = self.0;
        if octet == b' ' || octet == b'#' {
            let character = char::from(octet);
            return write!(f, "\\{character}");
        }
        let escaped = EscapedOctet(octet);
        write!(f, "{escaped}")
    }
}

// The last octet of a text.
#[derive(Clone, Copy)]
struct Last(u8);

impl fmt::Display for Last {
    ghost use Rattle.std.specs.Prelude.{Some};
    ghost use Rattle.x509_fields.specs.Rfc4514.{last_escaped};

    ghost output = { λ last. Some (last_escaped last.0) };

    fn fmt<W: fmt::Write>(&self, f: &mut fmt::Formatter<W>) -> fmt::Result {
        let octet = self.0;
        if octet == b' ' {
            let character = char::from(octet);
            return write!(f, "\\{character}");
        }
        let escaped = EscapedOctet(octet);
        write!(f, "{escaped}")
    }
}

// An octet inside a text.
#[derive(Clone, Copy)]
struct EscapedOctet(u8);

impl fmt::Display for EscapedOctet {
    ghost use Rattle.std.specs.Prelude.{Some};
    ghost use Rattle.x509_fields.specs.Rfc4514.{escaped};

    ghost output = { λ octet. Some (escaped octet.0) };

    fn fmt<W: fmt::Write>(&self, f: &mut fmt::Formatter<W>) -> fmt::Result {
        let octet = self.0;
        let character = char::from(octet);
        if is_special(octet) {
            return write!(f, "\\{character}");
        }
        if is_plain(octet) {
            return write!(f, "{character}");
        }
        let digits = Octet(octet);
        write!(f, "\\{digits}")
    }
}

// Whether a backslash precedes the character wherever it stands.
fn is_special(octet: u8) -> bool
    ensures { result ≡ is_special octet }
{
    matches!(octet, b'"' | b'+' | b',' | b';' | b'<' | b'>' | b'\\')
}

// Whether the character is one of ASCII that prints.
fn is_plain(octet: u8) -> bool
    ensures { result ≡ is_plain octet }
{
    32 <= octet && octet <= 126
}
