//! A KDC's public value.
ghost use Rattle.asn1_der.specs.Octets.{sequence_octet};

use asn1_der::octets::SEQUENCE;
use byte_streams::{Sink, Source};
use krb_messages::data_types::KerberosTime;
use picky_asn1::wrapper::{BitStringAsn1, IntegerAsn1};
use picky_asn1_der::{
    Asn1DerError, Deserializer, ExplicitContextTag0, ExplicitContextTag1, ExplicitContextTag2,
    Fields, Optional, Row3, Serializer, Tagged, fields_of, from_fields, read_sequence,
};

/// What a KDC signs (RFC 4556, section 3.2.3.1).
///
/// ```text
/// KDCDHKeyInfo ::= SEQUENCE {
///      subjectPublicKey   [0] BIT STRING,
///      nonce              [1] INTEGER (0..4294967295),
///      dhKeyExpiration    [2] KerberosTime OPTIONAL,
///      ... }
/// ```
#[derive(Debug, Drop, PartialEq, Eq, Clone)]
pub struct KdcDhKeyInfo {
    /// The public value, as the DER of an INTEGER.
    pub subject_public_key: ExplicitContextTag0<BitStringAsn1>,
    /// The nonce of the client's authenticator.
    pub nonce: ExplicitContextTag1<IntegerAsn1>,
    /// When the KDC's value is used no more.
    pub dh_key_expiration: Optional<Option<ExplicitContextTag2<KerberosTime>>>,
}

type KdcDhKeyInfoRow = Row3<
    ExplicitContextTag0<BitStringAsn1>,
    ExplicitContextTag1<IntegerAsn1>,
    Optional<Option<ExplicitContextTag2<KerberosTime>>>,
>;

impl Tagged for KdcDhKeyInfo {
    ghost use Rattle.std.proofs.Common.{ap, refl, true};
    ghost use Rattle.asn1_der.specs.Tagged.{sequence};
    ghost use Rattle.asn1_der.proofs.Tagged.{sequence_laws};

    type Row = KdcDhKeyInfoRow;

    const FIRST: u8 = SEQUENCE;

    ghost FIRST = { sequence_octet };

    ghost row_tree = { sequence ⟦<KdcDhKeyInfoRow as Fields>⟧.trees };

    ghost row_laws = { sequence_laws ⟦<KdcDhKeyInfoRow as Fields>⟧.trees (⟦<KdcDhKeyInfoRow as Fields>⟧.injective (refl {a = true})) };

    ghost row_of = { λ v. (v.subject_public_key, (v.nonce, (v.dh_key_expiration, tt))) };

    ghost one_row = { λ v w e. ap (λ f. record { subject_public_key = f.0; nonce = f.1.0; dh_key_expiration = f.1.1.0 }) e };

    fn read_row<R: Source>(tag: u8, from: &mut Deserializer<R>) -> Result<Self::Row, Asn1DerError> {
        read_sequence(tag, from)
    }

    fn of_row(row: Self::Row) -> Self {
        from_fields![row; subject_public_key, nonce, dh_key_expiration]
    }

    fn write_row<W: Sink>(&self, tag: u8, to: &mut Serializer<W>) -> Result<usize, Asn1DerError> {
        to.list(
            tag,
            &fields_of![self; subject_public_key, nonce, dh_key_expiration],
        )
    }
}
