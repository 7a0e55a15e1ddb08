//! The PKAuthenticator, which binds a signature to its request.
ghost use Rattle.asn1_der.specs.Octets.{sequence_octet};

use asn1_der::octets::SEQUENCE;
use byte_streams::{Sink, Source};
use krb_messages::data_types::KerberosTime;
use picky_asn1::wrapper::{IntegerAsn1, OctetStringAsn1};
use picky_asn1_der::{
    Asn1DerError, Deserializer, ExplicitContextTag0, ExplicitContextTag1, ExplicitContextTag2,
    ExplicitContextTag3, Fields, LentFields, Optional, RecordFields, Row4, Serializer, Tagged,
    fields_of, from_fields, read_sequence,
};
use std::alloc::AllocError;

/// What a client signs with its public value (RFC 4556, section 3.2.1).
///
/// ```text
/// PKAuthenticator ::= SEQUENCE {
///      cusec        [0] INTEGER (0..999999),
///      ctime        [1] KerberosTime,
///      nonce        [2] INTEGER (0..4294967295),
///      paChecksum   [3] OCTET STRING OPTIONAL,
///      ... }
/// ```
#[derive(Debug, Drop, PartialEq, Eq)]
pub struct PkAuthenticator {
    /// The microseconds of the client's time.
    pub cusec: ExplicitContextTag0<IntegerAsn1>,
    /// The client's time, in seconds.
    pub ctime: ExplicitContextTag1<KerberosTime>,
    /// The request's nonce.
    pub nonce: ExplicitContextTag2<IntegerAsn1>,
    /// The SHA-1 of the request's body.
    pub pa_checksum: Optional<Option<ExplicitContextTag3<OctetStringAsn1>>>,
}

type PkAuthenticatorRow = Row4<
    ExplicitContextTag0<IntegerAsn1>,
    ExplicitContextTag1<KerberosTime>,
    ExplicitContextTag2<IntegerAsn1>,
    Optional<Option<ExplicitContextTag3<OctetStringAsn1>>>,
>;

impl Clone for PkAuthenticator {
    ghost is_clone = { λ value copy. ⟦<PkAuthenticatorRow as RecordFields>⟧.are_copies (⟦<PkAuthenticator as Tagged>⟧.row_of value) (⟦<PkAuthenticator as Tagged>⟧.row_of copy) };

    fn clone(&self) -> Result<PkAuthenticator, AllocError> {
        let fields = fields_of![self; cusec, ctime, nonce, pa_checksum].copied()?;
        Ok(PkAuthenticator::of_row(fields))
    }
}

impl Tagged for PkAuthenticator {
    ghost use Rattle.std.proofs.Common.{ap, refl, true};
    ghost use Rattle.asn1_der.specs.Tagged.{sequence};
    ghost use Rattle.asn1_der.proofs.Tagged.{sequence_laws};

    type Row = PkAuthenticatorRow;

    const FIRST: u8 = SEQUENCE;

    ghost FIRST = { sequence_octet };

    ghost row_tree = { sequence ⟦<PkAuthenticatorRow as Fields>⟧.trees };

    ghost row_laws = { sequence_laws ⟦<PkAuthenticatorRow as Fields>⟧.trees (⟦<PkAuthenticatorRow as Fields>⟧.injective (refl {a = true})) };

    ghost row_of = { λ v. (v.cusec, (v.ctime, (v.nonce, (v.pa_checksum, tt)))) };

    ghost one_row = { λ v w e. ap (λ f. record { cusec = f.0; ctime = f.1.0; nonce = f.1.1.0; pa_checksum = f.1.1.1.0 }) e };

    fn read_row<R: Source>(tag: u8, from: &mut Deserializer<R>) -> Result<Self::Row, Asn1DerError> {
        read_sequence(tag, from)
    }

    fn of_row(row: Self::Row) -> Self {
        from_fields![row; cusec, ctime, nonce, pa_checksum]
    }

    fn write_row<W: Sink>(&self, tag: u8, to: &mut Serializer<W>) -> Result<usize, Asn1DerError> {
        to.list(tag, &fields_of![self; cusec, ctime, nonce, pa_checksum])
    }
}
