//! Signed data (RFC 5652, section 5.1).
ghost use Rattle.asn1_der.specs.Octets.{sequence_octet};

use crate::general_form::certificates::CertificateElements;
use crate::general_form::general_signer::GeneralSigner;
use crate::{EncapsulatedContentInfo, SetOfOne};
use asn1_der::octets::SEQUENCE;
use byte_streams::{Sink, Source};
use picky_asn1::wrapper::Asn1SetOf;
use picky_asn1_der::{
    Asn1DerError, Asn1RawDer, Deserializer, Fields, Row5, Serializer, Tagged, fields_of,
    from_fields, read_sequence,
};

/// A content, certificates, and the signer with its signature. Lists of revocation aren't read, not even an empty one.
///
/// ```text
/// SignedData ::= SEQUENCE {
///   version CMSVersion,
///   digestAlgorithms DigestAlgorithmIdentifiers,
///   encapContentInfo EncapsulatedContentInfo,
///   certificates [0] IMPLICIT CertificateSet OPTIONAL,
///   crls [1] IMPLICIT RevocationInfoChoices OPTIONAL,
///   signerInfos SignerInfos }
/// ```
#[derive(Drop)]
pub struct GeneralSigned {
    /// The version.
    pub version: u8,
    /// The digest algorithms, which say no more than the signer's does: any elements.
    pub digest_algorithms: Asn1SetOf<Asn1RawDer>,
    /// The content with its type.
    pub encap_content_info: EncapsulatedContentInfo,
    /// The certificates.
    pub certificates: CertificateElements,
    /// The signer.
    pub signer_infos: SetOfOne<GeneralSigner>,
}

type GeneralSignedRow = Row5<
    u8,
    Asn1SetOf<Asn1RawDer>,
    EncapsulatedContentInfo,
    CertificateElements,
    SetOfOne<GeneralSigner>,
>;

impl Tagged for GeneralSigned {
    ghost use Rattle.std.proofs.Common.{ap, refl, true};
    ghost use Rattle.asn1_der.specs.Tagged.{sequence};
    ghost use Rattle.asn1_der.proofs.Tagged.{sequence_laws};

    type Row = GeneralSignedRow;

    const FIRST: u8 = SEQUENCE;

    ghost FIRST = { sequence_octet };

    ghost row_tree = { sequence ⟦<GeneralSignedRow as Fields>⟧.trees };

    ghost row_laws = { sequence_laws ⟦<GeneralSignedRow as Fields>⟧.trees (⟦<GeneralSignedRow as Fields>⟧.injective (refl {a = true})) };

    ghost row_of = { λ v. (v.version, (v.digest_algorithms, (v.encap_content_info, (v.certificates, (v.signer_infos, tt))))) };

    ghost one_row = { λ v w e. ap (λ f. record { version = f.0; digest_algorithms = f.1.0; encap_content_info = f.1.1.0; certificates = f.1.1.1.0; signer_infos = f.1.1.1.1.0 }) e };

    fn read_row<R: Source>(tag: u8, from: &mut Deserializer<R>) -> Result<Self::Row, Asn1DerError> {
        read_sequence(tag, from)
    }

    fn of_row(row: Self::Row) -> Self {
        from_fields![row; version, digest_algorithms, encap_content_info, certificates, signer_infos]
    }

    fn write_row<W: Sink>(&self, tag: u8, to: &mut Serializer<W>) -> Result<usize, Asn1DerError> {
        to.list(
            tag,
            &fields_of![self; version, digest_algorithms, encap_content_info, certificates, signer_infos],
        )
    }
}
