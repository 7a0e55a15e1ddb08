//! Preauthentication by certificate.
ghost use Rattle.asn1_der.specs.Octets.{sequence_octet};

use crate::external_principal_identifier::ExternalPrincipalIdentifier;
use asn1_der::octets::SEQUENCE;
use byte_streams::{Sink, Source};
use picky_asn1::wrapper::{Asn1SequenceOf, OctetStringAsn1};
use picky_asn1_der::{
    Asn1DerError, Deserializer, ExplicitContextTag1, Fields, ImplicitContextTag0,
    ImplicitContextTag2, Optional, Row3, Serializer, Tagged, fields_of, from_fields, read_sequence,
};

/// What a client authenticates by in an AS request (RFC 4556, section 3.2.1).
///
/// ```text
/// PA-PK-AS-REQ ::= SEQUENCE {
///      signedAuthPack      [0] IMPLICIT OCTET STRING,
///      trustedCertifiers   [1] SEQUENCE OF
///                              ExternalPrincipalIdentifier OPTIONAL,
///      kdcPkId             [2] IMPLICIT OCTET STRING OPTIONAL,
///      ... }
/// ```
#[derive(Debug, Drop, PartialEq, Eq, Clone)]
pub struct PaPkAsReq {
    /// The DER of a ContentInfo (RFC 5652, section 3) over an AuthPack.
    pub signed_auth_pack: ImplicitContextTag0<OctetStringAsn1>,
    /// Whom the client trusts, the best first.
    pub trusted_certifiers: Optional<
        Option<ExplicitContextTag1<Asn1SequenceOf<ExternalPrincipalIdentifier>>>,
    >,
    /// The KDC's key that the client knows already.
    pub kdc_pk_id: Optional<Option<ImplicitContextTag2<OctetStringAsn1>>>,
}

type PaPkAsReqRow = Row3<
    ImplicitContextTag0<OctetStringAsn1>,
    Optional<Option<ExplicitContextTag1<Asn1SequenceOf<ExternalPrincipalIdentifier>>>>,
    Optional<Option<ImplicitContextTag2<OctetStringAsn1>>>,
>;

impl Tagged for PaPkAsReq {
    ghost use Rattle.std.proofs.Common.{ap, refl, true};
    ghost use Rattle.asn1_der.specs.Tagged.{sequence};
    ghost use Rattle.asn1_der.proofs.Tagged.{sequence_laws};

    type Row = PaPkAsReqRow;

    const FIRST: u8 = SEQUENCE;

    ghost FIRST = { sequence_octet };

    ghost row_tree = { sequence ⟦<PaPkAsReqRow as Fields>⟧.trees };

    ghost row_laws = { sequence_laws ⟦<PaPkAsReqRow as Fields>⟧.trees (⟦<PaPkAsReqRow as Fields>⟧.injective (refl {a = true})) };

    ghost row_of = { λ v. (v.signed_auth_pack, (v.trusted_certifiers, (v.kdc_pk_id, tt))) };

    ghost one_row = { λ v w e. ap (λ f. record { signed_auth_pack = f.0; trusted_certifiers = f.1.0; kdc_pk_id = f.1.1.0 }) e };

    fn read_row<R: Source>(tag: u8, from: &mut Deserializer<R>) -> Result<Self::Row, Asn1DerError> {
        read_sequence(tag, from)
    }

    fn of_row(row: Self::Row) -> Self {
        from_fields![row; signed_auth_pack, trusted_certifiers, kdc_pk_id]
    }

    fn write_row<W: Sink>(&self, tag: u8, to: &mut Serializer<W>) -> Result<usize, Asn1DerError> {
        to.list(
            tag,
            &fields_of![self; signed_auth_pack, trusted_certifiers, kdc_pk_id],
        )
    }
}
