//! Octets of files and peers, as a line shows them.
ghost use Rattle.std.specs.Prelude.{◌≡◌, ◌<◌, IfOk, IfSome, string_bytes};
ghost use Rattle.krb_messages.specs.NameText.{escape_letter};
ghost use Rattle.krb_commands.specs.Printable.{hex_digit, is_printable, printable_text};

use picky_asn1::wrapper::GeneralStringAsn1;
use std::alloc::{AllocError, Global};
use std::fmt;

/// Octets as a line shows them: a printable character of ASCII as it is, and each other octet as `\x` and its two hexadecimal digits. So
/// no octet of a file or a peer begins a line, moves the cursor or changes a terminal.
#[derive(Clone, Copy)]
pub struct Printable<'a>(pub &'a [u8]);

impl<'a> fmt::Display for Printable<'a> {
    ghost use Rattle.std.specs.Prelude.{Some};

    ghost output = { λ octets. Some (printable_text octets.0.now) };

    fn fmt<W: fmt::Write>(&self, f: &mut fmt::Formatter<W>) -> fmt::Result {
        for octet in self.0 {
            let octet = Octet(*octet);
            write!(f, "{octet}")?;
        }
        Ok(())
    }
}

// An octet of such a text.
#[derive(Clone, Copy)]
struct Octet(u8);

impl fmt::Display for Octet {
    ghost use Rattle.std.specs.Prelude.{Some};
    ghost use Rattle.krb_commands.specs.Printable.{octet_text};

    ghost output = { λ octet. Some (octet_text octet.0) };

    fn fmt<W: fmt::Write>(&self, f: &mut fmt::Formatter<W>) -> fmt::Result {
        if is_printable(self.0) {
            let character = char::from(self.0);
            write!(f, "{character}")
        } else {
            let (high, low) = (hex_digit(self.0 / 16), hex_digit(self.0 % 16));
            write!(f, "\\x{high}{low}")
        }
    }
}

// Whether an octet is a printable character of ASCII.
fn is_printable(octet: u8) -> bool
    ensures { result ≡ is_printable octet }
{
    octet >= b' ' && octet <= b'~'
}

// The hexadecimal digit of a number.
fn hex_digit(number: u8) -> char
    requires { number < 16 }
    ensures { result ≡ hex_digit number }
{
    if number < 10 {
        char::from(b'0' + number)
    } else {
        char::from(b'a' - 10 + number)
    }
}

/// The text of a value, as [`Printable`] shows its octets.
pub fn printable_of<D: fmt::Display + Drop>(alloc: Global, words: D) -> Result<String, AllocError>
    ensures { IfOk result (λ text. IfSome (D.output words) (λ shown. string_bytes text ≡ printable_text shown)) }
{
    let text = format!(in alloc; "{words}")?;
    let shown = Printable(text.as_bytes());
    format!(in alloc; "{shown}")
}

/// A principal's name in its realm: `host/server@REALM`. In a component and in the realm a backslash precedes `/`, `@` and a backslash, and
/// NUL, backspace, tab and newline are `\0`, `\b`, `\t` and `\n` (RFC 1964, section 2.1.3). Each other octet is as [`Printable`] shows it.
#[derive(Clone, Copy)]
pub struct PrintableName<'a> {
    /// The components.
    pub components: &'a [GeneralStringAsn1],
    /// The realm.
    pub realm: &'a GeneralStringAsn1,
}

impl<'a> fmt::Display for PrintableName<'a> {
    ghost use Rattle.std.specs.Prelude.{Some};
    ghost use Rattle.krb_commands.specs.Printable.{printable_name};

    ghost output = { λ name. Some (printable_name name.components.now name.realm.now) };

    fn fmt<W: fmt::Write>(&self, f: &mut fmt::Formatter<W>) -> fmt::Result {
        let realm = NamePart(self.realm);
        let [first, further @ ..] = self.components else {
            return write!(f, "@{realm}");
        };
        let first = NamePart(first);
        let further = FurtherParts(further);
        write!(f, "{first}{further}@{realm}")
    }
}

// The components after the first one.
#[derive(Clone, Copy)]
struct FurtherParts<'a>(&'a [GeneralStringAsn1]);

impl<'a> fmt::Display for FurtherParts<'a> {
    ghost use Rattle.std.specs.Prelude.{Some, ◌∷◌};
    ghost use Rattle.std.specs.List.{flat_map};
    ghost use Rattle.krb_commands.specs.Printable.{part_text};

    ghost output = { λ further. Some (flat_map (λ component. 47 ∷ part_text component) further.0.now) };

    fn fmt<W: fmt::Write>(&self, f: &mut fmt::Formatter<W>) -> fmt::Result {
        for component in self.0 {
            let component = NamePart(component);
            write!(f, "/{component}")?;
        }
        Ok(())
    }
}

// A component or a realm.
#[derive(Clone, Copy)]
struct NamePart<'a>(&'a GeneralStringAsn1);

impl<'a> fmt::Display for NamePart<'a> {
    ghost use Rattle.std.specs.Prelude.{Some};
    ghost use Rattle.krb_commands.specs.Printable.{part_text};

    ghost output = { λ part. Some (part_text part.0.now) };

    fn fmt<W: fmt::Write>(&self, f: &mut fmt::Formatter<W>) -> fmt::Result {
        for octet in self.0.as_bytes() {
            let octet = NameOctet(*octet);
            write!(f, "{octet}")?;
        }
        Ok(())
    }
}

// An octet of a component or of a realm.
#[derive(Clone, Copy)]
struct NameOctet(u8);

impl fmt::Display for NameOctet {
    ghost use Rattle.std.specs.Prelude.{Some};
    ghost use Rattle.krb_commands.specs.Printable.{name_octet};

    ghost output = { λ octet. Some (name_octet octet.0) };

    fn fmt<W: fmt::Write>(&self, f: &mut fmt::Formatter<W>) -> fmt::Result {
        match escape_letter(self.0) {
            Some(letter) => {
                let letter = Octet(letter);
                write!(f, "\\{letter}")
            }
            None => {
                let octet = Octet(self.0);
                write!(f, "{octet}")
            }
        }
    }
}

// The letter that follows a backslash in an octet's place, if it has one.
fn escape_letter(octet: u8) -> Option<u8>
    ensures { result ≡ escape_letter octet }
{
    match octet {
        0 => Some(b'0'),
        8 => Some(b'b'),
        b'\t' => Some(b't'),
        b'\n' => Some(b'n'),
        b'/' | b'@' | b'\\' => Some(octet),
        _ => None,
    }
}
