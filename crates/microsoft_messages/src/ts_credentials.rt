//! Credentials of any kind.
ghost use Rattle.asn1_der.specs.Octets.{sequence_octet};

use asn1_der::octets::SEQUENCE;
use byte_streams::{Sink, Source};
use picky_asn1::wrapper::{IntegerAsn1, OctetStringAsn1};
use picky_asn1_der::{
    Asn1DerError, Deserializer, ExplicitContextTag0, ExplicitContextTag1, Fields, Row2, Serializer,
    Tagged, fields_of, from_fields, read_sequence,
};

/// What a client delegates to a server (MS-CSSP, section 2.2.1.2).
///
/// ```text
/// TSCredentials ::= SEQUENCE {
///      credType      [0] INTEGER,
///      credentials   [1] OCTET STRING }
/// ```
#[derive(Debug, Drop, PartialEq, Eq, Clone)]
pub struct TsCredentials {
    /// The kind: 1 by password, 2 by smart card, 6 of remote guard.
    pub cred_type: ExplicitContextTag0<IntegerAsn1>,
    /// The encoding of credentials of that kind.
    pub credentials: ExplicitContextTag1<OctetStringAsn1>,
}

type TsCredentialsRow = Row2<
    ExplicitContextTag0<IntegerAsn1>,
    ExplicitContextTag1<OctetStringAsn1>,
>;

impl Tagged for TsCredentials {
    ghost use Rattle.std.proofs.Common.{ap, refl, true};
    ghost use Rattle.asn1_der.specs.Tagged.{sequence};
    ghost use Rattle.asn1_der.proofs.Tagged.{sequence_laws};

    type Row = TsCredentialsRow;

    const FIRST: u8 = SEQUENCE;

    ghost FIRST = { sequence_octet };

    ghost row_tree = { sequence ⟦<TsCredentialsRow as Fields>⟧.trees };

    ghost row_laws = { sequence_laws ⟦<TsCredentialsRow as Fields>⟧.trees (⟦<TsCredentialsRow as Fields>⟧.injective (refl {a = true})) };

    ghost row_of = { λ v. (v.cred_type, (v.credentials, tt)) };

    ghost one_row = { λ v w e. ap (λ f. record { cred_type = f.0; credentials = f.1.0 }) e };

    fn read_row<R: Source>(tag: u8, from: &mut Deserializer<R>) -> Result<Self::Row, Asn1DerError> {
        read_sequence(tag, from)
    }

    fn of_row(row: Self::Row) -> Self {
        from_fields![row; cred_type, credentials]
    }

    fn write_row<W: Sink>(&self, tag: u8, to: &mut Serializer<W>) -> Result<usize, Asn1DerError> {
        to.list(tag, &fields_of![self; cred_type, credentials])
    }
}
