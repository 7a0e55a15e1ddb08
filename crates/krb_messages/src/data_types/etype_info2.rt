//! How a client makes its key.
ghost use Rattle.asn1_der.specs.Octets.{sequence_octet};

use crate::data_types::KerberosStringAsn1;
use asn1_der::octets::SEQUENCE;
use byte_streams::{Sink, Source};
use picky_asn1::wrapper::{Asn1SequenceOf, IntegerAsn1, OctetStringAsn1};
use picky_asn1_der::{
    Asn1DerError, Deserializer, ExplicitContextTag0, ExplicitContextTag1, ExplicitContextTag2,
    Fields, Optional, Row3, Serializer, Tagged, fields_of, from_fields, read_sequence,
};

/// How a key of one encryption type is made of a password (RFC 4120, section 5.2.7.5).
///
/// ```text
/// ETYPE-INFO2-ENTRY ::= SEQUENCE {
///      etype       [0] Int32,
///      salt        [1] KerberosString OPTIONAL,
///      s2kparams   [2] OCTET STRING OPTIONAL }
/// ```
#[derive(Debug, PartialEq, Eq, Clone)]
pub struct EtypeInfo2Entry {
    /// The encryption type.
    pub etype: ExplicitContextTag0<IntegerAsn1>,
    /// The salt; where it is missing, the realm and the principal's components are one (RFC 4120, section 4).
    pub salt: Optional<Option<ExplicitContextTag1<KerberosStringAsn1>>>,
    /// Further parameters of the encryption type's own.
    pub s2kparams: Optional<Option<ExplicitContextTag2<OctetStringAsn1>>>,
}

impl Drop for EtypeInfo2Entry {
    fn drop(self) {
        let EtypeInfo2Entry {
            etype: _,
            salt: _,
            s2kparams: _,
        } = self;
    }
}

/// The entries of ETYPE-INFO2, in the KDC's order of preference (RFC 4120, section 5.2.7.5). The standard's list is never empty. An
/// empty list is read and written.
///
/// ```text
/// ETYPE-INFO2 ::= SEQUENCE SIZE (1..MAX)
///      OF ETYPE-INFO2-ENTRY
/// ```
pub type EtypeInfo2 = Asn1SequenceOf<EtypeInfo2Entry>;

type EtypeInfo2EntryRow = Row3<
    ExplicitContextTag0<IntegerAsn1>,
    Optional<Option<ExplicitContextTag1<KerberosStringAsn1>>>,
    Optional<Option<ExplicitContextTag2<OctetStringAsn1>>>,
>;

impl Tagged for EtypeInfo2Entry {
    ghost use Rattle.std.proofs.Common.{ap, refl, true};
    ghost use Rattle.asn1_der.specs.Tagged.{sequence};
    ghost use Rattle.asn1_der.proofs.Tagged.{sequence_laws};

    type Row = EtypeInfo2EntryRow;

    const FIRST: u8 = SEQUENCE;

    ghost FIRST = { sequence_octet };

    ghost row_tree = { sequence ⟦<EtypeInfo2EntryRow as Fields>⟧.trees };

    ghost row_laws = { sequence_laws ⟦<EtypeInfo2EntryRow as Fields>⟧.trees (⟦<EtypeInfo2EntryRow as Fields>⟧.injective (refl {a = true})) };

    ghost row_of = { λ v. (v.etype, (v.salt, (v.s2kparams, tt))) };

    ghost one_row = { λ v w e. ap (λ f. record { etype = f.0; salt = f.1.0; s2kparams = f.1.1.0 }) e };

    fn read_row<R: Source>(tag: u8, from: &mut Deserializer<R>) -> Result<Self::Row, Asn1DerError> {
        read_sequence(tag, from)
    }

    fn of_row(row: Self::Row) -> Self {
        from_fields![row; etype, salt, s2kparams]
    }

    fn write_row<W: Sink>(&self, tag: u8, to: &mut Serializer<W>) -> Result<usize, Asn1DerError> {
        to.list(tag, &fields_of![self; etype, salt, s2kparams])
    }
}
