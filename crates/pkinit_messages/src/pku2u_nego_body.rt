//! Whom a negotiation is with.
ghost use Rattle.asn1_der.specs.Octets.{sequence_octet};

use asn1_der::octets::SEQUENCE;
use byte_streams::{Sink, Source};
use krb_messages::data_types::{PrincipalName, Realm};
use picky_asn1_der::{
    Asn1DerError, Deserializer, ExplicitContextTag0, ExplicitContextTag1, Fields, Row2, Serializer,
    Tagged, fields_of, from_fields, read_sequence,
};

/// The service that a negotiation of PKU2U is with, as Windows sends it.
///
/// ```text
/// SEQUENCE {
///      realm   [0] Realm,
///      sname   [1] PrincipalName }
/// ```
#[derive(Debug, Drop, PartialEq, Eq, Clone)]
pub struct Pku2uNegoBody {
    /// Its realm.
    pub realm: ExplicitContextTag0<Realm>,
    /// Its name.
    pub sname: ExplicitContextTag1<PrincipalName>,
}

type Pku2uNegoBodyRow = Row2<ExplicitContextTag0<Realm>, ExplicitContextTag1<PrincipalName>>;

impl Tagged for Pku2uNegoBody {
    ghost use Rattle.std.proofs.Common.{ap, refl, true};
    ghost use Rattle.asn1_der.specs.Tagged.{sequence};
    ghost use Rattle.asn1_der.proofs.Tagged.{sequence_laws};

    type Row = Pku2uNegoBodyRow;

    const FIRST: u8 = SEQUENCE;

    ghost FIRST = { sequence_octet };

    ghost row_tree = { sequence ⟦<Pku2uNegoBodyRow as Fields>⟧.trees };

    ghost row_laws = { sequence_laws ⟦<Pku2uNegoBodyRow as Fields>⟧.trees (⟦<Pku2uNegoBodyRow as Fields>⟧.injective (refl {a = true})) };

    ghost row_of = { λ v. (v.realm, (v.sname, tt)) };

    ghost one_row = { λ v w e. ap (λ f. record { realm = f.0; sname = f.1.0 }) e };

    fn read_row<R: Source>(tag: u8, from: &mut Deserializer<R>) -> Result<Self::Row, Asn1DerError> {
        read_sequence(tag, from)
    }

    fn of_row(row: Self::Row) -> Self {
        from_fields![row; realm, sname]
    }

    fn write_row<W: Sink>(&self, tag: u8, to: &mut Serializer<W>) -> Result<usize, Asn1DerError> {
        to.list(tag, &fields_of![self; realm, sname])
    }
}
