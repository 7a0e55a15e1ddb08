//! Credentials by password.
ghost use Rattle.asn1_der.specs.Octets.{sequence_octet};

use asn1_der::octets::SEQUENCE;
use byte_streams::{Sink, Source};
use picky_asn1::wrapper::OctetStringAsn1;
use picky_asn1_der::{
    Asn1DerError, Deserializer, ExplicitContextTag0, ExplicitContextTag1, ExplicitContextTag2,
    Fields, Row3, Serializer, Tagged, fields_of, from_fields, read_sequence,
};

/// Credentials by password (MS-CSSP, section 2.2.1.2.1).
///
/// ```text
/// TSPasswordCreds ::= SEQUENCE {
///      domainName   [0] OCTET STRING,
///      userName     [1] OCTET STRING,
///      password     [2] OCTET STRING }
/// ```
#[derive(Debug, Drop, PartialEq, Eq, Clone)]
pub struct TsPasswordCreds {
    /// The user's domain, in UTF-16.
    pub domain_name: ExplicitContextTag0<OctetStringAsn1>,
    /// The user, in UTF-16.
    pub user_name: ExplicitContextTag1<OctetStringAsn1>,
    /// The user's password, in UTF-16.
    pub password: ExplicitContextTag2<OctetStringAsn1>,
}

type TsPasswordCredsRow = Row3<
    ExplicitContextTag0<OctetStringAsn1>,
    ExplicitContextTag1<OctetStringAsn1>,
    ExplicitContextTag2<OctetStringAsn1>,
>;

impl Tagged for TsPasswordCreds {
    ghost use Rattle.std.proofs.Common.{ap, refl, true};
    ghost use Rattle.asn1_der.specs.Tagged.{sequence};
    ghost use Rattle.asn1_der.proofs.Tagged.{sequence_laws};

    type Row = TsPasswordCredsRow;

    const FIRST: u8 = SEQUENCE;

    ghost FIRST = { sequence_octet };

    ghost row_tree = { sequence ⟦<TsPasswordCredsRow as Fields>⟧.trees };

    ghost row_laws = { sequence_laws ⟦<TsPasswordCredsRow as Fields>⟧.trees (⟦<TsPasswordCredsRow as Fields>⟧.injective (refl {a = true})) };

    ghost row_of = { λ v. (v.domain_name, (v.user_name, (v.password, tt))) };

    ghost one_row = { λ v w e. ap (λ f. record { domain_name = f.0; user_name = f.1.0; password = f.1.1.0 }) e };

    fn read_row<R: Source>(tag: u8, from: &mut Deserializer<R>) -> Result<Self::Row, Asn1DerError> {
        read_sequence(tag, from)
    }

    fn of_row(row: Self::Row) -> Self {
        from_fields![row; domain_name, user_name, password]
    }

    fn write_row<W: Sink>(&self, tag: u8, to: &mut Serializer<W>) -> Result<usize, Asn1DerError> {
        to.list(tag, &fields_of![self; domain_name, user_name, password])
    }
}
