//! UTF8String, by its content.
ghost use Rattle.std.specs.Prelude.{◌≡◌, None, MatchResult};
ghost use Rattle.std.specs.Str.{IsUtf8};
ghost use Rattle.asn1_der.specs.Length.{element};
ghost use Rattle.asn1_codec.specs.Writing.{WroteValue, NotWroteValue};
ghost use Rattle.asn1_der.specs.Octets.{utf8_string_octet};

use asn1_codec::Serializer;
use asn1_der::Asn1DerError;
use byte_streams::Sink;
use std::str;

/// A UTF8String (X.690, section 8.23): its content is the text.
pub struct Utf8String;

impl Utf8String {
    /// Writes a UTF8String, and gives how many bytes that took.
    pub fn serialize<W: Sink>(value: &str, to: &mut Serializer<W>) -> Result<usize, Asn1DerError>
        ensures { MatchResult result
            (WroteValue None (element utf8_string_octet value.now) to.old to.new)
            (NotWroteValue None (element utf8_string_octet value.now) to.old to.new) }
    {
        to.serialize_str(value)
    }

    /// The text that the content is: `InvalidData` for what is no UTF-8.
    pub fn deserialize(content: &[u8]) -> Result<&str, Asn1DerError>
        ensures { MatchResult result
            (λ text. text.now ≡ content.now)
            (λ fault. (fault ≡ Asn1DerError.InvalidData) × (IsUtf8 content.now → ⊥)) }
    {
        match str::from_utf8(content) {
            Ok(text) => Ok(text),
            Err(_) => Err(Asn1DerError::InvalidData),
        }
    }
}
