//! New passwords.
ghost use Rattle.asn1_der.specs.Octets.{sequence_octet};

use asn1_der::octets::SEQUENCE;
use byte_streams::{Sink, Source};
use krb_messages::data_types::{PrincipalName, Realm};
use picky_asn1::wrapper::OctetStringAsn1;
use picky_asn1_der::{
    Asn1DerError, Deserializer, ExplicitContextTag0, ExplicitContextTag1, ExplicitContextTag2,
    Fields, Optional, Row3, Serializer, Tagged, fields_of, from_fields, read_sequence,
};

/// A new password, and the principal that gets it (RFC 3244, section 2).
///
/// ```text
/// ChangePasswdData ::= SEQUENCE {
///      newpasswd   [0] OCTET STRING,
///      targname    [1] PrincipalName OPTIONAL,
///      targrealm   [2] Realm OPTIONAL }
/// ```
#[derive(Debug, Drop, PartialEq, Eq, Clone)]
pub struct ChangePasswdData {
    /// The password.
    pub new_passwd: ExplicitContextTag0<OctetStringAsn1>,
    /// The principal that gets the password; where it is missing, the sender.
    pub target_name: Optional<Option<ExplicitContextTag1<PrincipalName>>>,
    /// The realm of that principal.
    pub target_realm: Optional<Option<ExplicitContextTag2<Realm>>>,
}

type ChangePasswdDataRow = Row3<
    ExplicitContextTag0<OctetStringAsn1>,
    Optional<Option<ExplicitContextTag1<PrincipalName>>>,
    Optional<Option<ExplicitContextTag2<Realm>>>,
>;

impl Tagged for ChangePasswdData {
    ghost use Rattle.std.proofs.Common.{ap, refl, true};
    ghost use Rattle.asn1_der.specs.Tagged.{sequence};
    ghost use Rattle.asn1_der.proofs.Tagged.{sequence_laws};

    type Row = ChangePasswdDataRow;

    const FIRST: u8 = SEQUENCE;

    ghost FIRST = { sequence_octet };

    ghost row_tree = { sequence ⟦<ChangePasswdDataRow as Fields>⟧.trees };

    ghost row_laws = { sequence_laws ⟦<ChangePasswdDataRow as Fields>⟧.trees (⟦<ChangePasswdDataRow as Fields>⟧.injective (refl {a = true})) };

    ghost row_of = { λ v. (v.new_passwd, (v.target_name, (v.target_realm, tt))) };

    ghost one_row = { λ v w e. ap (λ f. record { new_passwd = f.0; target_name = f.1.0; target_realm = f.1.1.0 }) e };

    fn read_row<R: Source>(tag: u8, from: &mut Deserializer<R>) -> Result<Self::Row, Asn1DerError> {
        read_sequence(tag, from)
    }

    fn of_row(row: Self::Row) -> Self {
        from_fields![row; new_passwd, target_name, target_realm]
    }

    fn write_row<W: Sink>(&self, tag: u8, to: &mut Serializer<W>) -> Result<usize, Asn1DerError> {
        to.list(
            tag,
            &fields_of![self; new_passwd, target_name, target_realm],
        )
    }
}
