//! Names as text.
ghost use Rattle.std.specs.Prelude.{◌≡◌, [], ◌∷◌, ◌++◌, MatchOption};
ghost use Rattle.x509_fields.specs.NameText.{attributes_of};

use crate::attribute_type_and_value::{AttributeTypeAndValue, AttributeValue};
use crate::name::{Name, RelativeDistinguishedName};
use asn1_der::LengthOctets;
use picky_asn1_der::RawElement;
use std::fmt;

/// A name as text: its attributes in order with commas between them, each as its identifier in dotted text, `=`, and its
/// string or address. A value of any other type is the hexadecimal digits of its element.
#[derive(Clone, Copy, Debug, PartialEq, Eq)]
pub struct NamePrettyFormatter<'a>(pub &'a Name);

impl<'a> fmt::Display for NamePrettyFormatter<'a> {
    ghost use Rattle.std.specs.Prelude.{Some};
    ghost use Rattle.x509_fields.specs.NameText.{name_text};

    ghost output = { λ formatter. Some (name_text formatter.0.now) };

    fn fmt<W: fmt::Write>(&self, f: &mut fmt::Formatter<W>) -> fmt::Result {
        let name = self.0;
        write!(f, "{name}")
    }
}

/// The text that a [`NamePrettyFormatter`] writes.
impl fmt::Display for Name {
    ghost use Rattle.std.specs.Prelude.{Some};
    ghost use Rattle.x509_fields.specs.NameText.{name_text};

    ghost output = { λ name. Some (name_text name) };

    fn fmt<W: fmt::Write>(&self, f: &mut fmt::Formatter<W>) -> fmt::Result {
        let Some(leading) = leading_of(self.as_slice()) else {
            return Ok(());
        };
        let first = Attribute(leading.first);
        let further = FurtherAttributes(leading.further);
        let sets = FurtherSets(leading.sets);
        write!(f, "{first}{further}{sets}")
    }
}

// The first attribute of a name, those behind it in its set, and the sets behind.
#[derive(Drop)]
struct Leading<'a> {
    first: &'a AttributeTypeAndValue,
    further: &'a [AttributeTypeAndValue],
    sets: &'a [RelativeDistinguishedName],
}

// The first attribute and what is behind it, if one of the sets has an attribute.
fn leading_of(sets: &[RelativeDistinguishedName]) -> Option<Leading<'_>>
    ensures { MatchOption result
        (attributes_of sets.now ≡ [])
        (λ leading. attributes_of sets.now ≡ leading.first.now ∷ (leading.further.now ++ attributes_of leading.sets.now)) }
{
    let mut rest = sets;
    'sets: while let [set, sets @ ..] = rest {
        if let [first, further @ ..] = set.as_slice() {
            return Some(Leading {
                first,
                further,
                sets,
            });
        }
        rest = sets;
    }
    None
}

// The sets of attributes after the first attribute.
#[derive(Clone, Copy)]
struct FurtherSets<'a>(&'a [RelativeDistinguishedName]);

impl<'a> fmt::Display for FurtherSets<'a> {
    ghost use Rattle.std.specs.Prelude.{Some};
    ghost use Rattle.std.specs.List.{flat_map};
    ghost use Rattle.x509_fields.specs.NameText.{further_text};

    ghost output = { λ further. Some (flat_map further_text further.0.now) };

    fn fmt<W: fmt::Write>(&self, f: &mut fmt::Formatter<W>) -> fmt::Result {
        for set in self.0 {
            let attributes = FurtherAttributes(set.as_slice());
            write!(f, "{attributes}")?;
        }
        Ok(())
    }
}

// Attributes of one set after the first attribute.
#[derive(Clone, Copy)]
struct FurtherAttributes<'a>(&'a [AttributeTypeAndValue]);

impl<'a> fmt::Display for FurtherAttributes<'a> {
    ghost use Rattle.std.specs.Prelude.{Some};
    ghost use Rattle.x509_fields.specs.NameText.{further_text};

    ghost output = { λ further. Some (further_text further.0.now) };

    fn fmt<W: fmt::Write>(&self, f: &mut fmt::Formatter<W>) -> fmt::Result {
        for attribute in self.0 {
            let attribute = Attribute(attribute);
            write!(f, ",{attribute}")?;
        }
        Ok(())
    }
}

// An attribute.
#[derive(Clone, Copy)]
struct Attribute<'a>(&'a AttributeTypeAndValue);

impl<'a> fmt::Display for Attribute<'a> {
    ghost use Rattle.std.specs.Prelude.{Some};
    ghost use Rattle.x509_fields.specs.NameText.{attribute_text};

    ghost output = { λ attribute. Some (attribute_text attribute.0.now) };

    fn fmt<W: fmt::Write>(&self, f: &mut fmt::Formatter<W>) -> fmt::Result {
        let oid = &self.0.ty().0;
        let value = Value(self.0.typed_value());
        write!(f, "{oid}={value}")
    }
}

// The value of an attribute.
#[derive(Clone, Copy)]
struct Value<'a>(&'a AttributeValue);

impl<'a> fmt::Display for Value<'a> {
    ghost use Rattle.std.specs.Prelude.{Some};
    ghost use Rattle.x509_fields.specs.NameText.{value_text};

    ghost output = { λ value. Some (value_text value.0.now) };

    fn fmt<W: fmt::Write>(&self, f: &mut fmt::Formatter<W>) -> fmt::Result {
        match self.0 {
            AttributeValue::Directory(string) => write!(f, "{string}"),
            AttributeValue::Email(address) => write!(f, "{address}"),
            AttributeValue::Custom(raw) => {
                let element = Element::of_raw(raw);
                write!(f, "{element}")
            }
        }
    }
}

/// An element, its octets in hexadecimal.
#[derive(Clone, Copy)]
pub(crate) struct Element<'a> {
    first: u8,
    content: &'a [u8],
}

impl<'a> Element<'a> {
    /// The element with this identifier octet and this content.
    pub(crate) fn new(first: u8, content: &'a [u8]) -> Element<'a>
        ensures first { result.first ≡ first }
        ensures content { result.content.now ≡ content.now }
    {
        Element { first, content }
    }

    /// An element that was kept as it stood.
    pub(crate) fn of_raw(raw: &'a RawElement) -> Element<'a>
        ensures first { result.first ≡ raw.now.first }
        ensures content { result.content.now ≡ raw.now.content }
    {
        Element::new(raw.first(), raw.content())
    }
}

impl<'a> fmt::Display for Element<'a> {
    ghost use Rattle.std.specs.Prelude.{Some};
    ghost use Rattle.x509_fields.specs.NameText.{element_text};

    ghost output = { λ element. Some (element_text (record { first = element.first; content = element.content.now })) };

    fn fmt<W: fmt::Write>(&self, f: &mut fmt::Formatter<W>) -> fmt::Result {
        let first = Octet(self.first);
        let octets = LengthOctets::of(self.content.len());
        let length = Octets(octets.as_bytes());
        let content = Octets(self.content);
        write!(f, "{first}{length}{content}")
    }
}

/// Octets, each as two hexadecimal digits.
#[derive(Clone, Copy)]
pub(crate) struct Octets<'a>(pub(crate) &'a [u8]);

impl<'a> fmt::Display for Octets<'a> {
    ghost use Rattle.std.specs.Prelude.{Some};
    ghost use Rattle.std.specs.List.{flat_map};
    ghost use Rattle.picky_asn1.specs.IntegerText.{hexadecimal};

    ghost output = { λ octets. Some (flat_map hexadecimal octets.0.now) };

    fn fmt<W: fmt::Write>(&self, f: &mut fmt::Formatter<W>) -> fmt::Result {
        for octet in self.0 {
            let digits = Octet(*octet);
            write!(f, "{digits}")?;
        }
        Ok(())
    }
}

/// An octet as two hexadecimal digits.
#[derive(Clone, Copy)]
pub(crate) struct Octet(pub(crate) u8);

impl fmt::Display for Octet {
    ghost use Rattle.std.specs.Prelude.{Some};
    ghost use Rattle.picky_asn1.specs.IntegerText.{hexadecimal};

    ghost output = { λ octet. Some (hexadecimal octet.0) };

    fn fmt<W: fmt::Write>(&self, f: &mut fmt::Formatter<W>) -> fmt::Result {
        let octet = self.0;
        write!(f, "{octet:02X}")
    }
}
