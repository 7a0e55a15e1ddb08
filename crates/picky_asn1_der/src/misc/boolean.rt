//! BOOLEAN, by its content.
ghost use Rattle.std.specs.Prelude.{◌≡◌, Bool, None, MatchResult};
ghost use Rattle.asn1_der.specs.Length.{element};
ghost use Rattle.asn1_codec.specs.Booleans.{bool_content};
ghost use Rattle.asn1_codec.specs.Writing.{WroteValue, NotWroteValue};
ghost use Rattle.picky_asn1_der.specs.Contents.{boolean_fault};
ghost use Rattle.asn1_der.specs.Octets.{boolean_octet};

use asn1_codec::Serializer;
use asn1_der::Asn1DerError;
use byte_streams::Sink;

/// BOOLEAN (X.690, sections 8.2 and 11.1): the content `00` is false and `FF` true.
pub struct Boolean;

impl Boolean {
    /// Writes a BOOLEAN, and gives how many bytes that took.
    pub fn serialize<W: Sink>(value: bool, to: &mut Serializer<W>) -> Result<usize, Asn1DerError>
        ensures { MatchResult result
            (WroteValue None (element boolean_octet (bool_content value)) to.old to.new)
            (NotWroteValue None (element boolean_octet (bool_content value)) to.old to.new) }
    {
        to.serialize_bool(value)
    }

    /// The BOOLEAN whose content this is: `TruncatedData` for no octet, `InvalidData` for any others.
    pub fn deserialize(content: &[u8]) -> Result<bool, Asn1DerError>
        ensures { MatchResult result
            (λ value. bool_content value ≡ content.now)
            (λ fault. (fault ≡ boolean_fault content.now)
            × ((value : Bool) → bool_content value ≡ content.now → ⊥)) }
    {
        match content {
            [] => Err(Asn1DerError::TruncatedData),
            [0x00] => Ok(false),
            [0xFF] => Ok(true),
            _ => Err(Asn1DerError::InvalidData),
        }
    }
}
