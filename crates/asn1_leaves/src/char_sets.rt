//! The character sets of the string types (X.680, section 41).
ghost use Rattle.std.specs.Prelude.{◌≡◌, ℕ, List, Bool, IsTrue};
ghost use Rattle.std.specs.Str.{is_utf8};
ghost use Rattle.asn1_leaves.specs.CharSets.{is_general_string, is_printable, is_printable_string, is_bmp_string};

use std::fmt::Debug;
use std::str;

/// A character set: which octets are a text of it.
pub trait CharSet: Debug + Drop {
    ghost is_text: { List ℕ → Bool };

    ghost NUMBER: { ℕ };

    /// The number of the string type in the universal class (X.680, section 8.4).
    const NUMBER: u8;

    /// Whether the octets are a text of this set.
    fn has_text(octets: &[u8]) -> bool
        ensures { result ≡ is_text octets.now };
}

/// A character set of which each text is UTF-8.
pub trait TextCharSet: CharSet {
    ghost is_text_utf8: { (octets : List ℕ) → IsTrue (Self.is_text octets) → IsTrue (is_utf8 octets) };
}

/// Characters below 128, the only ones that Kerberos has in a GeneralString (RFC 4120, section 5.2.1).
#[derive(Clone, Copy, Debug)]
pub struct GeneralCharSet;

/// UTF-8 (X.680, section 41.16; RFC 3629).
#[derive(Clone, Copy, Debug)]
pub struct Utf8CharSet;

/// The letters, the digits, the space and `'()+,-./:=?` (X.680, section 41.4).
#[derive(Clone, Copy, Debug)]
pub struct PrintableCharSet;

/// Characters below 128, the International Reference Alphabet with its controls (X.680, table 8).
#[derive(Clone, Copy, Debug)]
pub struct Ia5CharSet;

/// Pairs of octets (X.680, section 41.15).
#[derive(Clone, Copy, Debug)]
pub struct BmpCharSet;

impl CharSet for GeneralCharSet {
    ghost is_text = { is_general_string };

    ghost NUMBER = { 27 };

    const NUMBER: u8 = 27;

    fn has_text(octets: &[u8]) -> bool {
        is_below_128(octets)
    }
}

impl CharSet for Utf8CharSet {
    ghost is_text = { is_utf8 };

    ghost NUMBER = { 12 };

    const NUMBER: u8 = 12;

    fn has_text(octets: &[u8]) -> bool {
        str::from_utf8(octets).is_ok()
    }
}

impl CharSet for PrintableCharSet {
    ghost is_text = { is_printable_string };

    ghost NUMBER = { 19 };

    const NUMBER: u8 = 19;

    fn has_text(octets: &[u8]) -> bool {
        octets.iter().all(|octet| is_printable(*octet))
    }
}

impl CharSet for Ia5CharSet {
    ghost is_text = { is_general_string };

    ghost NUMBER = { 22 };

    const NUMBER: u8 = 22;

    fn has_text(octets: &[u8]) -> bool {
        is_below_128(octets)
    }
}

impl CharSet for BmpCharSet {
    ghost is_text = { is_bmp_string };

    ghost NUMBER = { 30 };

    const NUMBER: u8 = 30;

    fn has_text(octets: &[u8]) -> bool {
        octets.len() % 2 == 0
    }
}

impl TextCharSet for GeneralCharSet {
    ghost use Rattle.asn1_leaves.specs.TextLaws.{utf8_of_general};

    ghost is_text_utf8 = { utf8_of_general };
}

impl TextCharSet for Utf8CharSet {
    ghost is_text_utf8 = { λ octets h. h };
}

impl TextCharSet for PrintableCharSet {
    ghost use Rattle.asn1_leaves.specs.TextLaws.{utf8_of_printable};

    ghost is_text_utf8 = { utf8_of_printable };
}

impl TextCharSet for Ia5CharSet {
    ghost use Rattle.asn1_leaves.specs.TextLaws.{utf8_of_general};

    ghost is_text_utf8 = { utf8_of_general };
}

fn is_below_128(octets: &[u8]) -> bool
    ensures { result ≡ is_general_string octets.now }
{
    octets.iter().all(|octet| *octet < 128)
}

fn is_printable(octet: u8) -> bool
    ensures { result ≡ is_printable octet }
{
    match octet {
        b'A'..=b'Z' | b'a'..=b'z' | b'0'..=b'9' => true,
        b' ' | b'\'' | b'(' | b')' | b'+' | b',' | b'-' | b'.' | b'/' | b':' | b'=' | b'?' => true,
        _ => false,
    }
}
