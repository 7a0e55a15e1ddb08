//! Names as text in the notation of RFC 4514.
ghost use Rattle.std.specs.Prelude.{◌≡◌};
ghost use Rattle.x509_fields.specs.Attributes.{value_raw};
ghost use Rattle.x509_fields.specs.Rfc4514.{arc_name, id_at_name, is_text, short_name};

use crate::DirectoryString;
use crate::attribute_type_and_value::{AttributeTypeAndValue, AttributeValue};
use crate::escaped::Escaped;
use crate::name::{Name, RelativeDistinguishedName};
use crate::name_text::Element;
use asn1_der::octets::{BMP_STRING, IA5_STRING, PRINTABLE_STRING, UTF8_STRING};
use std::fmt;

/// A name, which prints in the notation of RFC 4514, as `CN=server.example.com,O=Example\, Inc.,C=SE`: its sets of
/// attributes from the last to the first with commas between them, and the attributes of a set with `+` between them.
///
/// The types of section 3 have their short names there (CN, L, ST, O, OU, C, STREET, DC and UID), and their values are
/// text. Any other type is its identifier in dotted text, and its value `#` and the hexadecimal digits of its encoding, as is
/// a BMPString. In a text each octet that isn't a character of ASCII that prints is a backslash and two digits, so one name
/// prints as one line. Names are compared by themselves, not by this text.
#[derive(Clone, Copy, Debug, PartialEq, Eq)]
pub struct Rfc4514<'a>(&'a Name);

impl Name {
    /// The name in the notation of RFC 4514, for printing.
    pub fn rfc4514(&self) -> Rfc4514<'_>
        ensures { result.0.now ≡ self.now }
    {
        Rfc4514(self)
    }
}

impl<'a> fmt::Display for Rfc4514<'a> {
    ghost use Rattle.std.specs.Prelude.{Some};
    ghost use Rattle.x509_fields.specs.Rfc4514.{rfc4514_text};

    ghost output = { λ name. Some (rfc4514_text name.0.now) };

    fn fmt<W: fmt::Write>(&self, f: &mut fmt::Formatter<W>) -> fmt::Result {
        let [sets @ .., last] = self.0.as_slice() else {
            return Ok(());
        };
        let last = AttributeSet(last.as_slice());
        let before = SetsBefore(sets);
        write!(f, "{last}{before}")
    }
}

// The sets before the last, from their last to their first.
#[derive(Clone, Copy)]
struct SetsBefore<'a>(&'a [RelativeDistinguishedName]);

impl<'a> fmt::Display for SetsBefore<'a> {
    ghost use Rattle.std.specs.Prelude.{Some, ◌++◌, codes, reverse};
    ghost use Rattle.std.specs.List.{flat_map};
    ghost use Rattle.x509_fields.specs.Rfc4514.{set_text};

    ghost output = { λ before. Some (flat_map (λ set. codes "," ++ set_text set) (reverse before.0.now)) };

    fn fmt<W: fmt::Write>(&self, f: &mut fmt::Formatter<W>) -> fmt::Result {
        for index in (0..self.0.len()).rev() {
            let set = AttributeSet(self.0[index].as_slice());
            write!(f, ",{set}")?;
        }
        Ok(())
    }
}

// The attributes of a set.
#[derive(Clone, Copy)]
struct AttributeSet<'a>(&'a [AttributeTypeAndValue]);

impl<'a> fmt::Display for AttributeSet<'a> {
    ghost use Rattle.std.specs.Prelude.{Some};
    ghost use Rattle.x509_fields.specs.Rfc4514.{set_text};

    ghost output = { λ set. Some (set_text set.0.now) };

    fn fmt<W: fmt::Write>(&self, f: &mut fmt::Formatter<W>) -> fmt::Result {
        let [first, further @ ..] = self.0 else {
            return Ok(());
        };
        let first = Pair(first);
        let further = FurtherPairs(further);
        write!(f, "{first}{further}")
    }
}

// The attributes of a set after the first.
#[derive(Clone, Copy)]
struct FurtherPairs<'a>(&'a [AttributeTypeAndValue]);

impl<'a> fmt::Display for FurtherPairs<'a> {
    ghost use Rattle.std.specs.Prelude.{Some, ◌++◌, codes};
    ghost use Rattle.std.specs.List.{flat_map};
    ghost use Rattle.x509_fields.specs.Rfc4514.{pair_text};

    ghost output = { λ further. Some (flat_map (λ pair. codes "+" ++ pair_text pair) further.0.now) };

    fn fmt<W: fmt::Write>(&self, f: &mut fmt::Formatter<W>) -> fmt::Result {
        for pair in self.0 {
            let pair = Pair(pair);
            write!(f, "+{pair}")?;
        }
        Ok(())
    }
}

// An attribute: its type, `=` and its value.
#[derive(Clone, Copy)]
struct Pair<'a>(&'a AttributeTypeAndValue);

impl<'a> fmt::Display for Pair<'a> {
    ghost use Rattle.std.specs.Prelude.{Some};
    ghost use Rattle.x509_fields.specs.Rfc4514.{pair_text};

    ghost output = { λ pair. Some (pair_text pair.0.now) };

    fn fmt<W: fmt::Write>(&self, f: &mut fmt::Formatter<W>) -> fmt::Result {
        let oid = &self.0.ty().0;
        let name = short_name(oid.as_bytes());
        let (first, content) = octets_of(self.0.typed_value());
        if name.is_empty() {
            let element = Element::new(first, content);
            return write!(f, "{oid}=#{element}");
        }
        let value = NamedValue { first, content };
        write!(f, "{name}={value}")
    }
}

// The value of an attribute that has a short name, as identifier octet and content.
#[derive(Clone, Copy)]
struct NamedValue<'a> {
    first: u8,
    content: &'a [u8],
}

impl<'a> fmt::Display for NamedValue<'a> {
    ghost use Rattle.std.specs.Prelude.{Some};
    ghost use Rattle.x509_fields.specs.Rfc4514.{named_value};

    ghost output = { λ value. Some (named_value (record { first = value.first; content = value.content.now })) };

    fn fmt<W: fmt::Write>(&self, f: &mut fmt::Formatter<W>) -> fmt::Result {
        if is_text(self.first) {
            let text = Escaped(self.content);
            return write!(f, "{text}");
        }
        let element = Element::new(self.first, self.content);
        write!(f, "#{element}")
    }
}

// Whether the octets of a string of this type are printed as text.
fn is_text(first: u8) -> bool
    ensures { result ≡ is_text first }
{
    first == UTF8_STRING || first == PRINTABLE_STRING || first == IA5_STRING
}

// The identifier octet and the content of the element that the value is written as.
fn octets_of(value: &AttributeValue) -> (u8, &[u8])
    ensures first { result.0 ≡ (value_raw value.now).first }
    ensures content { result.1.now ≡ (value_raw value.now).content }
{
    match value {
        AttributeValue::Directory(DirectoryString::PrintableString(string)) => (
            PRINTABLE_STRING,
            string.as_bytes(),
        ),
        AttributeValue::Directory(DirectoryString::Utf8String(string)) => (
            UTF8_STRING,
            string.as_bytes(),
        ),
        AttributeValue::Directory(DirectoryString::BmpString(string)) => (
            BMP_STRING,
            string.as_bytes(),
        ),
        AttributeValue::Email(address) => (IA5_STRING, address.as_bytes()),
        AttributeValue::Custom(raw) => (raw.first(), raw.content()),
    }
}

// The short name of the type whose identifier has this content (RFC 4514, section 3), empty where it has none.
fn short_name(content: &[u8]) -> &'static str
    ensures { result.now ≡ short_name content.now }
{
    if content == [0x09, 0x92, 0x26, 0x89, 0x93, 0xF2, 0x2C, 0x64, 1, 25].as_slice() {
        return "DC";
    }
    if content == [0x09, 0x92, 0x26, 0x89, 0x93, 0xF2, 0x2C, 0x64, 1, 1].as_slice() {
        return "UID";
    }
    id_at_name(content)
}

// The short name of a type behind id-at.
fn id_at_name(content: &[u8]) -> &'static str
    ensures { result.now ≡ id_at_name content.now }
{
    let [first, second, arc] = content else {
        return "";
    };
    if *first == 0x55 && *second == 4 {
        arc_name(*arc)
    } else {
        ""
    }
}

// The short name of the type with this arc behind id-at.
fn arc_name(arc: u8) -> &'static str
    ensures { result.now ≡ arc_name arc }
{
    match arc {
        3 => "CN",
        6 => "C",
        7 => "L",
        8 => "ST",
        9 => "STREET",
        10 => "O",
        11 => "OU",
        _ => "",
    }
}
