//! A KDC's share of an agreement.
ghost use Rattle.asn1_der.specs.Octets.{sequence_octet};

use crate::dh_nonce::DhNonce;
use asn1_der::octets::SEQUENCE;
use byte_streams::{Sink, Source};
use picky_asn1::wrapper::OctetStringAsn1;
use picky_asn1_der::{
    Asn1DerError, Deserializer, ExplicitContextTag1, Fields, ImplicitContextTag0, Optional, Row2,
    Serializer, Tagged, fields_of, from_fields, read_sequence,
};

/// What a KDC answers for an agreement (RFC 4556, section 3.2.3).
///
/// ```text
/// DHRepInfo ::= SEQUENCE {
///      dhSignedData    [0] IMPLICIT OCTET STRING,
///      serverDHNonce   [1] DHNonce OPTIONAL,
///      ... }
/// ```
#[derive(Debug, Drop, PartialEq, Eq, Clone)]
pub struct DhRepInfo {
    /// The DER of a ContentInfo (RFC 5652, section 3) over a KDCDHKeyInfo.
    pub dh_signed_data: ImplicitContextTag0<OctetStringAsn1>,
    /// The KDC's nonce, where it uses its public value again.
    pub server_dh_nonce: Optional<Option<ExplicitContextTag1<DhNonce>>>,
}

type DhRepInfoRow = Row2<
    ImplicitContextTag0<OctetStringAsn1>,
    Optional<Option<ExplicitContextTag1<DhNonce>>>,
>;

impl Tagged for DhRepInfo {
    ghost use Rattle.std.proofs.Common.{ap, refl, true};
    ghost use Rattle.asn1_der.specs.Tagged.{sequence};
    ghost use Rattle.asn1_der.proofs.Tagged.{sequence_laws};

    type Row = DhRepInfoRow;

    const FIRST: u8 = SEQUENCE;

    ghost FIRST = { sequence_octet };

    ghost row_tree = { sequence ⟦<DhRepInfoRow as Fields>⟧.trees };

    ghost row_laws = { sequence_laws ⟦<DhRepInfoRow as Fields>⟧.trees (⟦<DhRepInfoRow as Fields>⟧.injective (refl {a = true})) };

    ghost row_of = { λ v. (v.dh_signed_data, (v.server_dh_nonce, tt)) };

    ghost one_row = { λ v w e. ap (λ f. record { dh_signed_data = f.0; server_dh_nonce = f.1.0 }) e };

    fn read_row<R: Source>(tag: u8, from: &mut Deserializer<R>) -> Result<Self::Row, Asn1DerError> {
        read_sequence(tag, from)
    }

    fn of_row(row: Self::Row) -> Self {
        from_fields![row; dh_signed_data, server_dh_nonce]
    }

    fn write_row<W: Sink>(&self, tag: u8, to: &mut Serializer<W>) -> Result<usize, Asn1DerError> {
        to.list(tag, &fields_of![self; dh_signed_data, server_dh_nonce])
    }
}
