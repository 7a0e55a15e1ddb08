//! Restrictions of tokens.
ghost use Rattle.asn1_der.specs.Octets.{sequence_octet};

use asn1_der::octets::SEQUENCE;
use byte_streams::{Sink, Source};
use picky_asn1::wrapper::{IntegerAsn1, OctetStringAsn1};
use picky_asn1_der::{
    Asn1DerError, Deserializer, ExplicitContextTag0, ExplicitContextTag1, Fields, Row2, Serializer,
    Tagged, fields_of, from_fields, read_sequence,
};

/// Authorization data with the integrity level of the client's process (MS-KILE, section 2.2.6).
///
/// ```text
/// KERB-AD-RESTRICTION-ENTRY ::= SEQUENCE {
///      restriction-type   [0] Int32,
///      restriction        [1] OCTET STRING }
/// ```
#[derive(Debug, Drop, PartialEq, Eq, Clone)]
pub struct KerbAdRestrictionEntry {
    /// The type, 0.
    pub restriction_type: ExplicitContextTag0<IntegerAsn1>,
    /// The record of the integrity level (MS-KILE, section 2.2.5).
    pub restriction: ExplicitContextTag1<OctetStringAsn1>,
}

type KerbAdRestrictionEntryRow = Row2<
    ExplicitContextTag0<IntegerAsn1>,
    ExplicitContextTag1<OctetStringAsn1>,
>;

impl Tagged for KerbAdRestrictionEntry {
    ghost use Rattle.std.proofs.Common.{ap, refl, true};
    ghost use Rattle.asn1_der.specs.Tagged.{sequence};
    ghost use Rattle.asn1_der.proofs.Tagged.{sequence_laws};

    type Row = KerbAdRestrictionEntryRow;

    const FIRST: u8 = SEQUENCE;

    ghost FIRST = { sequence_octet };

    ghost row_tree = { sequence ⟦<KerbAdRestrictionEntryRow as Fields>⟧.trees };

    ghost row_laws = { sequence_laws ⟦<KerbAdRestrictionEntryRow as Fields>⟧.trees (⟦<KerbAdRestrictionEntryRow as Fields>⟧.injective (refl {a = true})) };

    ghost row_of = { λ v. (v.restriction_type, (v.restriction, tt)) };

    ghost one_row = { λ v w e. ap (λ f. record { restriction_type = f.0; restriction = f.1.0 }) e };

    fn read_row<R: Source>(tag: u8, from: &mut Deserializer<R>) -> Result<Self::Row, Asn1DerError> {
        read_sequence(tag, from)
    }

    fn of_row(row: Self::Row) -> Self {
        from_fields![row; restriction_type, restriction]
    }

    fn write_row<W: Sink>(&self, tag: u8, to: &mut Serializer<W>) -> Result<usize, Asn1DerError> {
        to.list(tag, &fields_of![self; restriction_type, restriction])
    }
}
