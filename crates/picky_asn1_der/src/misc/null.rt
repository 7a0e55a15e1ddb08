//! NULL, by its content.
ghost use Rattle.std.specs.Prelude.{◌≡◌, [], None, MatchResult};
ghost use Rattle.asn1_der.specs.Length.{element};
ghost use Rattle.asn1_codec.specs.Writing.{WroteValue, NotWroteValue};
ghost use Rattle.asn1_der.specs.Octets.{null_octet};

use asn1_codec::Serializer;
use asn1_der::Asn1DerError;
use byte_streams::Sink;

/// NULL (X.690, section 8.8), which has no content octets.
pub struct Null;

impl Null {
    /// Writes `05 00`, and gives how many bytes that took.
    pub fn serialize<W: Sink>(to: &mut Serializer<W>) -> Result<usize, Asn1DerError>
        ensures { MatchResult result
            (WroteValue None (element null_octet []) to.old to.new)
            (NotWroteValue None (element null_octet []) to.old to.new) }
    {
        to.serialize_unit()
    }

    /// Whether the content is that of NULL: `InvalidData` for any octets.
    pub fn deserialize(content: &[u8]) -> Result<(), Asn1DerError>
        ensures { MatchResult result
            (λ _. content.now ≡ [])
            (λ fault. (fault ≡ Asn1DerError.InvalidData) × (content.now ≡ [] → ⊥)) }
    {
        if content.is_empty() {
            Ok(())
        } else {
            Err(Asn1DerError::InvalidData)
        }
    }
}
