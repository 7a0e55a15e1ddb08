//! A signer, by any identifier (RFC 5652, section 5.3).
ghost use Rattle.asn1_der.specs.Octets.{sequence_octet};

use crate::general_form::any_algorithm::AnyAlgorithm;
use crate::general_form::attributes::GeneralAttributes;
use asn1_der::octets::SEQUENCE;
use byte_streams::{Sink, Source};
use picky_asn1::wrapper::OctetStringAsn1;
use picky_asn1_der::{
    Asn1DerError, Asn1RawDer, Deserializer, Fields, RawElement, Row6, Serializer, Tagged,
    fields_of, from_fields, read_sequence,
};

/// A signer, and its signature over the signed attributes. Unsigned attributes aren't read.
///
/// ```text
/// SignerInfo ::= SEQUENCE {
///   version CMSVersion,
///   sid SignerIdentifier,
///   digestAlgorithm DigestAlgorithmIdentifier,
///   signedAttrs [0] IMPLICIT SignedAttributes OPTIONAL,
///   signatureAlgorithm SignatureAlgorithmIdentifier,
///   signature SignatureValue }
/// ```
#[derive(Drop)]
pub struct GeneralSigner {
    /// The version.
    pub version: u8,
    /// The signer's certificate, as the signer names it: any element.
    pub sid: RawElement,
    /// The digest algorithm.
    pub digest_algorithm: AnyAlgorithm,
    /// What the signature covers.
    pub signed_attributes: GeneralAttributes,
    /// The signature algorithm: any element.
    pub signature_algorithm: Asn1RawDer,
    /// The signature.
    pub signature: OctetStringAsn1,
}

type GeneralSignerRow = Row6<
    u8,
    RawElement,
    AnyAlgorithm,
    GeneralAttributes,
    Asn1RawDer,
    OctetStringAsn1,
>;

impl Tagged for GeneralSigner {
    ghost use Rattle.std.proofs.Common.{ap, refl, true};
    ghost use Rattle.asn1_der.specs.Tagged.{sequence};
    ghost use Rattle.asn1_der.proofs.Tagged.{sequence_laws};

    type Row = GeneralSignerRow;

    const FIRST: u8 = SEQUENCE;

    ghost FIRST = { sequence_octet };

    ghost row_tree = { sequence ⟦<GeneralSignerRow as Fields>⟧.trees };

    ghost row_laws = { sequence_laws ⟦<GeneralSignerRow as Fields>⟧.trees (⟦<GeneralSignerRow as Fields>⟧.injective (refl {a = true})) };

    ghost row_of = { λ v. (v.version, (v.sid, (v.digest_algorithm, (v.signed_attributes, (v.signature_algorithm, (v.signature, tt)))))) };

    ghost one_row = { λ v w e. ap (λ f. record { version = f.0; sid = f.1.0; digest_algorithm = f.1.1.0; signed_attributes = f.1.1.1.0; signature_algorithm = f.1.1.1.1.0; signature = f.1.1.1.1.1.0 }) e };

    fn read_row<R: Source>(tag: u8, from: &mut Deserializer<R>) -> Result<Self::Row, Asn1DerError> {
        read_sequence(tag, from)
    }

    fn of_row(row: Self::Row) -> Self {
        from_fields![row; version, sid, digest_algorithm, signed_attributes, signature_algorithm, signature]
    }

    fn write_row<W: Sink>(&self, tag: u8, to: &mut Serializer<W>) -> Result<usize, Asn1DerError> {
        to.list(
            tag,
            &fields_of![self; version, sid, digest_algorithm, signed_attributes, signature_algorithm, signature],
        )
    }
}
