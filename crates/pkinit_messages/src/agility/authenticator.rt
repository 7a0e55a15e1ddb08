//! The PKAuthenticator with fields that later documents add.
ghost use Rattle.asn1_der.specs.Octets.{sequence_octet};

use crate::agility::further::FurtherField;
use asn1_der::octets::SEQUENCE;
use byte_streams::{Sink, Source};
use krb_messages::data_types::KerberosTime;
use picky_asn1::wrapper::{IntegerAsn1, OctetStringAsn1};
use picky_asn1_der::{
    Asn1DerError, Deserializer, Elements, ExplicitContextTag0, ExplicitContextTag1,
    ExplicitContextTag2, ExplicitContextTag3, ExplicitContextTag4, Fields, Optional, Serializer,
    Tagged, fields_of, from_fields, read_sequence,
};

/// What a client signs with its public value (RFC 4556, section 3.2.1; RFC 8070, section 4; MS-PKCA, section 2.2.3).
///
/// ```text
/// PKAuthenticator ::= SEQUENCE {
///      cusec           [0] INTEGER (0..999999),
///      ctime           [1] KerberosTime,
///      nonce           [2] INTEGER (0..4294967295),
///      paChecksum      [3] OCTET STRING OPTIONAL,
///      ...,
///      freshnessToken  [4] OCTET STRING OPTIONAL,
///      ...,
///      paChecksum2     [5] PAChecksum2 OPTIONAL,
///      ... }
/// ```
#[derive(Drop)]
pub struct ExtensiblePkAuthenticator {
    /// The microseconds of the client's time.
    pub cusec: ExplicitContextTag0<IntegerAsn1>,
    /// The client's time, in seconds.
    pub ctime: ExplicitContextTag1<KerberosTime>,
    /// The request's nonce.
    pub nonce: ExplicitContextTag2<IntegerAsn1>,
    /// The SHA-1 of the request's body.
    pub pa_checksum: Optional<Option<ExplicitContextTag3<OctetStringAsn1>>>,
    /// The token by which the KDC knows that the request is new.
    pub freshness_token: Optional<Option<ExplicitContextTag4<OctetStringAsn1>>>,
    /// Further fields, paChecksum2 among them.
    pub further: Elements<FurtherField>,
}

type ExtensiblePkAuthenticatorRow = (
    ExplicitContextTag0<IntegerAsn1>,
    (
        ExplicitContextTag1<KerberosTime>,
        (
            ExplicitContextTag2<IntegerAsn1>,
            (
                Optional<Option<ExplicitContextTag3<OctetStringAsn1>>>,
                (
                    Optional<Option<ExplicitContextTag4<OctetStringAsn1>>>,
                    Elements<FurtherField>,
                ),
            ),
        ),
    ),
);

impl Tagged for ExtensiblePkAuthenticator {
    ghost use Rattle.std.proofs.Common.{ap, refl, true};
    ghost use Rattle.asn1_der.specs.Tagged.{sequence};
    ghost use Rattle.asn1_der.proofs.Tagged.{sequence_laws};

    type Row = ExtensiblePkAuthenticatorRow;

    const FIRST: u8 = SEQUENCE;

    ghost FIRST = { sequence_octet };

    ghost row_tree = { sequence ⟦<ExtensiblePkAuthenticatorRow as Fields>⟧.trees };

    ghost row_laws = { sequence_laws ⟦<ExtensiblePkAuthenticatorRow as Fields>⟧.trees (⟦<ExtensiblePkAuthenticatorRow as Fields>⟧.injective (refl {a = true})) };

    ghost row_of = { λ v. (v.cusec, (v.ctime, (v.nonce, (v.pa_checksum, (v.freshness_token, v.further))))) };

    ghost one_row = { λ v w e. ap (λ f. record { cusec = f.0; ctime = f.1.0; nonce = f.1.1.0; pa_checksum = f.1.1.1.0; freshness_token = f.1.1.1.1.0; further = f.1.1.1.1.1 }) e };

    fn read_row<R: Source>(tag: u8, from: &mut Deserializer<R>) -> Result<Self::Row, Asn1DerError> {
        read_sequence(tag, from)
    }

    fn of_row(row: Self::Row) -> Self {
        from_fields![row; cusec, ctime, nonce, pa_checksum, freshness_token; further]
    }

    fn write_row<W: Sink>(&self, tag: u8, to: &mut Serializer<W>) -> Result<usize, Asn1DerError> {
        to.list(
            tag,
            &fields_of![self; cusec, ctime, nonce, pa_checksum, freshness_token; further],
        )
    }
}
