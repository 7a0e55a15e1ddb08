//! Strings of names (RFC 5280, section 4.1.2.4).
ghost use Rattle.std.specs.Prelude.{◌≡◌, MatchResult, IfOk};
ghost use Rattle.x509_fields.specs.DirectoryStrings.{utf16_units};

use crate::bmp_text::BmpText;
use byte_streams::{Sink, Source};
use picky_asn1::wrapper::{BmpStringAsn1, PrintableStringAsn1, Utf8StringAsn1};
use picky_asn1_der::{
    Alternatives, Asn1DerError, Choice, Deserialize, Deserializer, Last, Serialize, Serializer,
};
use std::alloc::{AllocError, Global};
use std::fmt;
use x509_spelling::Exact;

/// A string of a name.
///
/// ```text
/// DirectoryString ::= CHOICE {
///      teletexString       TeletexString   (SIZE (1..MAX)),
///      printableString     PrintableString (SIZE (1..MAX)),
///      universalString     UniversalString (SIZE (1..MAX)),
///      utf8String          UTF8String      (SIZE (1..MAX)),
///      bmpString           BMPString       (SIZE (1..MAX)) }
/// ```
///
/// Three of these are read, and empty ones too.
#[derive(Debug, Drop, PartialEq, Eq)]
pub enum DirectoryString {
    /// Letters, digits and a few marks.
    PrintableString(PrintableStringAsn1),
    /// Any text.
    Utf8String(Utf8StringAsn1),
    /// Characters of two octets.
    BmpString(BmpStringAsn1),
}

impl Clone for DirectoryString {
    ghost is_clone = { λ string copy. copy ≡ string };

    fn clone(&self) -> Result<DirectoryString, AllocError> {
        Ok(match self {
            DirectoryString::PrintableString(text) => DirectoryString::PrintableString(
                text.clone()?,
            ),
            DirectoryString::Utf8String(text) => DirectoryString::Utf8String(text.clone()?),
            DirectoryString::BmpString(text) => DirectoryString::BmpString(text.clone()?),
        })
    }
}

type StringChoice = Choice<PrintableStringAsn1, Choice<Utf8StringAsn1, Last<BmpStringAsn1>>>;

impl DirectoryString {
    ghost use Rattle.std.specs.String.{string_bytes};
    ghost use Rattle.x509_fields.specs.DirectoryStrings.{string_octets, lossy_text};
    ghost use Rattle.x509_fields.specs.declared.directory_string.DirectoryString.TheVariants as kind;

    /// The text as a UTF8String.
    pub fn from_text(alloc: Global, text: &str) -> Result<DirectoryString, AllocError>
        ensures { IfOk result (λ string. string ≡ kind.Utf8String text.now) }
    {
        match Utf8StringAsn1::from_content(alloc, text.as_bytes())? {
            Some(string) => Ok(DirectoryString::Utf8String(string)),
            None => unreachable!(),
        }
    }

    /// The content octets.
    pub fn as_bytes(&self) -> &[u8]
        ensures { result.now ≡ string_octets self.now }
    {
        match self {
            DirectoryString::PrintableString(string) => string.as_bytes(),
            DirectoryString::Utf8String(string) => string.as_bytes(),
            DirectoryString::BmpString(string) => string.as_bytes(),
        }
    }

    /// The text. Half a pair of surrogates is U+FFFD there.
    pub fn to_utf8_lossy(&self, alloc: Global) -> Result<String, AllocError>
        ensures { IfOk result (λ text. string_bytes text ≡ lossy_text self.now) }
    {
        match self {
            DirectoryString::PrintableString(string) => String::from_utf8_lossy(
                alloc,
                string.as_bytes(),
            ),
            DirectoryString::Utf8String(string) => String::from_str(alloc, string.as_str()),
            DirectoryString::BmpString(string) => {
                let units = units_of(alloc, string.as_bytes())?;
                String::from_utf16_lossy(alloc, units.as_slice())
            }
        }
    }
}

// The characters of a BMPString, two octets each.
fn units_of(alloc: Global, octets: &[u8]) -> Result<Vec<u16>, AllocError>
    ensures { IfOk result (λ units. units.items ≡ utf16_units octets.now) }
{
    let mut units = Vec::new(alloc);
    let mut rest = octets;
    'units: while let [high, low, more @ ..] = rest {
        units.push(u16::from_be_bytes([*high, *low]))?;
        rest = more;
    }
    Ok(units)
}

/// The text, as [`DirectoryString::to_utf8_lossy`] makes it.
impl fmt::Display for DirectoryString {
    ghost use Rattle.std.specs.Prelude.{Some};
    ghost use Rattle.x509_fields.specs.DirectoryStrings.{lossy_text};

    ghost output = { λ string. Some (lossy_text string) };

    fn fmt<W: fmt::Write>(&self, f: &mut fmt::Formatter<W>) -> fmt::Result {
        match self {
            DirectoryString::PrintableString(string) => f.write_str(string.as_str()),
            DirectoryString::Utf8String(string) => write!(f, "{string}"),
            DirectoryString::BmpString(string) => {
                let text = BmpText(string.as_bytes());
                write!(f, "{text}")
            }
        }
    }
}

impl From<PrintableStringAsn1> for DirectoryString {
    ghost use Rattle.x509_fields.specs.declared.directory_string.DirectoryString.TheVariants.{PrintableString};

    ghost from_gives = { λ content string. string ≡ PrintableString content };

    fn from(content: PrintableStringAsn1) -> DirectoryString {
        DirectoryString::PrintableString(content)
    }
}

impl From<Utf8StringAsn1> for DirectoryString {
    ghost use Rattle.x509_fields.specs.declared.directory_string.DirectoryString.TheVariants.{Utf8String};

    ghost from_gives = { λ content string. string ≡ Utf8String content };

    fn from(content: Utf8StringAsn1) -> DirectoryString {
        DirectoryString::Utf8String(content)
    }
}

impl From<BmpStringAsn1> for DirectoryString {
    ghost use Rattle.x509_fields.specs.declared.directory_string.DirectoryString.TheVariants.{BmpString};

    ghost from_gives = { λ content string. string ≡ BmpString content };

    fn from(content: BmpStringAsn1) -> DirectoryString {
        DirectoryString::BmpString(content)
    }
}

impl Serialize for DirectoryString {
    ghost use Rattle.std.proofs.Common.{refl, true};
    ghost use Rattle.asn1_der.proofs.Choices.{injective_as};
    ghost use Rattle.x509_fields.specs.DirectoryStrings.{string_choice, string_made, string_back};

    ghost tree = { λ v. ⟦<StringChoice as Alternatives>⟧.tree (string_choice v) };

    ghost firsts = { ⟦<StringChoice as Alternatives>⟧.firsts };

    ghost begins = { λ v. ⟦<StringChoice as Alternatives>⟧.begins (string_choice v) };

    ghost injective = { injective_as ⟦<StringChoice as Alternatives>⟧.tree (⟦<StringChoice as Alternatives>⟧.injective (refl {a = true})) string_choice string_made string_back };

    fn serialize<W: Sink>(&self, to: &mut Serializer<W>) -> Result<usize, Asn1DerError> {
        match self {
            DirectoryString::PrintableString(string) => string.serialize(to),
            DirectoryString::Utf8String(string) => string.serialize(to),
            DirectoryString::BmpString(string) => string.serialize(to),
        }
    }
}

impl Deserialize for DirectoryString {
    fn may_start(first: u8) -> bool {
        StringChoice::may_start_any(first)
    }

    fn deserialize<R: Source>(from: &mut Deserializer<R>) -> Result<Self, Asn1DerError> {
        let choice: StringChoice = Alternatives::read_one(from)?;
        Ok(match choice {
            Choice::This(string) => DirectoryString::PrintableString(string),
            Choice::Other(Choice::This(string)) => DirectoryString::Utf8String(string),
            Choice::Other(Choice::Other(Last(string))) => DirectoryString::BmpString(string),
        })
    }
}

impl Exact for DirectoryString {
    ghost plain = { tt };
}
