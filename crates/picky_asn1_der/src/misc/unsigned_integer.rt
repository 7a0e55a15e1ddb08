//! INTEGER of what isn't negative, by its content.
ghost use Rattle.std.specs.Prelude.{◌≡◌, ℕ, ◌≤◌, None, MatchResult};
ghost use Rattle.asn1_der.specs.Length.{element};
ghost use Rattle.asn1_codec.specs.Unsigned.{unsigned_content, unsigned_fault};
ghost use Rattle.asn1_codec.specs.Writing.{WroteValue, NotWroteValue};
ghost use Rattle.asn1_der.specs.Octets.{integer_octet};

use crate::misc::uint::UInt;
use asn1_codec::{Serializer, unsigned_of, write_unsigned};
use asn1_der::Asn1DerError;
use asn1_der::octets::INTEGER;
use byte_streams::Sink;

/// An INTEGER (X.690, section 8.3) that isn't negative.
pub struct UnsignedInteger;

impl UnsignedInteger {
    /// Writes an INTEGER, and gives how many bytes that took.
    pub fn serialize<T: UInt, W: Sink>(
        value: T,
        to: &mut Serializer<W>,
    ) -> Result<usize, Asn1DerError>
        ensures { MatchResult result
            (WroteValue None (element integer_octet (unsigned_content (T.number_of value))) to.old to.new)
            (NotWroteValue None (element integer_octet (unsigned_content (T.number_of value))) to.old to.new) }
    {
        write_unsigned(INTEGER, to, value.into_u128())
    }

    /// The number whose content octets these are: `TruncatedData` for no octet, `InvalidData` for a needless zero octet
    /// at the front, `UnsupportedValue` for a number that is negative or past the type.
    pub fn deserialize<T: UInt>(content: &[u8]) -> Result<T, Asn1DerError>
        ensures { MatchResult result
            (λ value. unsigned_content (T.number_of value) ≡ content.now)
            (λ fault. (fault ≡ unsigned_fault content.now)
            × ((n : ℕ) → n ≤ T.MOST → unsigned_content n ≡ content.now → ⊥)) }
    {
        let number = unsigned_of(content, T::MOST)?;
        match T::from_u128(number) {
            Ok(value) => Ok(value),
            Err(fault) => Err(fault),
        }
    }
}
