//! The name of a principal in a certificate.
ghost use Rattle.asn1_der.specs.Octets.{sequence_octet};

use asn1_der::octets::SEQUENCE;
use byte_streams::{Sink, Source};
use krb_messages::data_types::{PrincipalName, Realm};
use picky_asn1_der::{
    Asn1DerError, Deserializer, ExplicitContextTag0, ExplicitContextTag1, Fields, Row2, Serializer,
    Tagged, fields_of, from_fields, read_sequence,
};

/// A principal with its realm, as a certificate names it in an other name of the type id-pkinit-san (RFC 4556, section
/// 3.2.2).
///
/// ```text
/// KRB5PrincipalName ::= SEQUENCE {
///      realm          [0] Realm,
///      principalName  [1] PrincipalName }
/// ```
#[derive(Drop)]
pub struct Krb5PrincipalName {
    /// The realm.
    pub realm: ExplicitContextTag0<Realm>,
    /// The principal's name.
    pub principal_name: ExplicitContextTag1<PrincipalName>,
}

type Krb5PrincipalNameRow = Row2<ExplicitContextTag0<Realm>, ExplicitContextTag1<PrincipalName>>;

impl Tagged for Krb5PrincipalName {
    ghost use Rattle.std.proofs.Common.{ap, refl, true};
    ghost use Rattle.asn1_der.specs.Tagged.{sequence};
    ghost use Rattle.asn1_der.proofs.Tagged.{sequence_laws};

    type Row = Krb5PrincipalNameRow;

    const FIRST: u8 = SEQUENCE;

    ghost FIRST = { sequence_octet };

    ghost row_tree = { sequence ⟦<Krb5PrincipalNameRow as Fields>⟧.trees };

    ghost row_laws = { sequence_laws ⟦<Krb5PrincipalNameRow as Fields>⟧.trees (⟦<Krb5PrincipalNameRow as Fields>⟧.injective (refl {a = true})) };

    ghost row_of = { λ v. (v.realm, (v.principal_name, tt)) };

    ghost one_row = { λ v w e. ap (λ f. record { realm = f.0; principal_name = f.1.0 }) e };

    fn read_row<R: Source>(tag: u8, from: &mut Deserializer<R>) -> Result<Self::Row, Asn1DerError> {
        read_sequence(tag, from)
    }

    fn of_row(row: Self::Row) -> Self {
        from_fields![row; realm, principal_name]
    }

    fn write_row<W: Sink>(&self, tag: u8, to: &mut Serializer<W>) -> Result<usize, Asn1DerError> {
        to.list(tag, &fields_of![self; realm, principal_name])
    }
}
