//! Unsigned integers.
ghost use Rattle.std.specs.Prelude.{◌≡◌, ℕ, ◌+◌, ◌^◌, ◌<◌, ◌≤◌, List, length, drop, None, MatchResult};
ghost use Rattle.asn1_der.specs.Length.{element};
ghost use Rattle.asn1_codec.specs.Reading.{TookValue, IsSpelling, Refused};
ghost use Rattle.asn1_codec.specs.Writing.{WroteValue, NotWroteValue};
ghost use Rattle.asn1_codec.specs.Unsigned.{unsigned_content, unsigned_tree, unsigned_fault, IsUnsigned};

use crate::de::Deserializer;
use crate::ser::Serializer;
use asn1_der::Asn1DerError;
use byte_streams::{Sink, Source};
use std::marker::Model;

/// Takes an INTEGER of at most `most`, under the identifier octet `tag`.
pub(crate) fn read_unsigned<R: Source>(
    tag: u8,
    from: &mut Deserializer<R>,
    most: u128,
) -> Result<u128, Asn1DerError>
    ensures { MatchResult result
        (λ number. TookValue (unsigned_tree (most + 1) tag) number from.old from.new)
        (λ fault. Refused (IsSpelling (unsigned_tree (most + 1) tag)) from.old from.new fault) }
{
    let content = from.short_content(tag)?;
    match unsigned_of(content.as_bytes(), most) {
        Ok(number) => Ok(number),
        Err(fault) => Err(from.refuse(fault)),
    }
}

/// Writes `number` as an INTEGER (X.690, section 8.3), under the identifier octet `tag`.
pub fn write_unsigned<W: Sink>(
    tag: u8,
    to: &mut Serializer<W>,
    number: u128,
) -> Result<usize, Asn1DerError>
    ensures { MatchResult result
        (WroteValue None (element tag (unsigned_content number)) to.old to.new)
        (NotWroteValue None (element tag (unsigned_content number)) to.old to.new) }
{
    to.element(tag, UnsignedContent::of(number).as_bytes())
}

/// The number of at most `most` whose content octets these are (X.690, section 8.3).
///
/// It answers `TruncatedData` where there is no octet, `InvalidData` for a needless zero octet at the front, and
/// `UnsupportedValue` for a number that is negative or past `most`.
pub fn unsigned_of(content: &[u8], most: u128) -> Result<u128, Asn1DerError>
    ensures { MatchResult result
        (λ number. (number ≤ most) × (unsigned_content number ≡ content.now))
        (λ fault. (fault ≡ unsigned_fault content.now)
        × ((n : ℕ) → n ≤ most → unsigned_content n ≡ content.now → ⊥)) }
{
    check_unsigned(content)?;
    let mut number: u128 = 0;
    for octet in content {
        let Some(shifted) = number.checked_mul(256) else {
            return Err(Asn1DerError::UnsupportedValue);
        };
        number = shifted + u128::from(*octet);
    }
    if number > most {
        return Err(Asn1DerError::UnsupportedValue);
    }
    Ok(number)
}

/// Refuses octets that are the content of no number that isn't negative (X.690, section 8.3.2).
fn check_unsigned(content: &[u8]) -> Result<(), Asn1DerError>
    ensures { MatchResult result
        (λ _. IsUnsigned content.now)
        (λ fault. (fault ≡ unsigned_fault content.now) × (IsUnsigned content.now → ⊥)) }
{
    match content {
        [] => Err(Asn1DerError::TruncatedData),
        [first, ..] if *first >= 128 => Err(Asn1DerError::UnsupportedValue),
        [0, second, ..] if *second < 128 => Err(Asn1DerError::InvalidData),
        _ => Ok(()),
    }
}

/// The content octets of one number: one to seventeen of them.
#[derive(Drop)]
struct UnsignedContent {
    // The octets are at the end of the array, since the last digit is known first.
    octets: [u8; 17],
    start: usize,
}

impl Model for UnsignedContent {
    ghost use Rattle.std.specs.Prelude.{ℕ, ◌≤◌, List, drop};

    ghost Value = { List ℕ };

    ghost view = { λ c. drop c.start c.octets };

    ghost invariant = { λ c. c.start ≤ 16 };
}

impl UnsignedContent {
    /// The content octets of `number`: its digits to the base 256, and a zero before a first digit that
    /// would say that the number is negative (X.690, section 8.3.3).
    fn of(number: u128) -> UnsignedContent
        ensures { result ≡ unsigned_content number }
    {
        let mut octets = [0; 17];
        let mut start = 16;
        let mut rest = number;
        while rest >= 128 {
            octets[start] = (rest % 256) as u8;
            start -= 1;
            rest /= 256;
        }
        octets[start] = rest as u8;
        UnsignedContent { octets, start }
    }

    /// The octets, as they are written.
    fn as_bytes(&self) -> &[u8]
        ensures { result.now ≡ self.now }
    {
        &self.octets[self.start..]
    }
}
