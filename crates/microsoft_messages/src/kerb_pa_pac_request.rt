//! Whether a PAC is to be included.
ghost use Rattle.asn1_der.specs.Octets.{sequence_octet};

use asn1_der::octets::SEQUENCE;
use byte_streams::{Sink, Source};
use picky_asn1_der::{
    Asn1DerError, Deserializer, ExplicitContextTag0, Fields, Row1, Serializer, Tagged, fields_of,
    from_fields, read_sequence,
};

/// Whether the client wants a PAC in its ticket (MS-KILE, section 2.2.3).
///
/// ```text
/// KERB-PA-PAC-REQUEST ::= SEQUENCE {
///      include-pac   [0] BOOLEAN }
/// ```
#[derive(Debug, Drop, PartialEq, Eq, Clone)]
pub struct KerbPaPacRequest {
    /// Whether it does.
    pub include_pac: ExplicitContextTag0<bool>,
}

type KerbPaPacRequestRow = Row1<ExplicitContextTag0<bool>>;

impl Tagged for KerbPaPacRequest {
    ghost use Rattle.std.proofs.Common.{ap, refl, true};
    ghost use Rattle.asn1_der.specs.Tagged.{sequence};
    ghost use Rattle.asn1_der.proofs.Tagged.{sequence_laws};

    type Row = KerbPaPacRequestRow;

    const FIRST: u8 = SEQUENCE;

    ghost FIRST = { sequence_octet };

    ghost row_tree = { sequence ⟦<KerbPaPacRequestRow as Fields>⟧.trees };

    ghost row_laws = { sequence_laws ⟦<KerbPaPacRequestRow as Fields>⟧.trees (⟦<KerbPaPacRequestRow as Fields>⟧.injective (refl {a = true})) };

    ghost row_of = { λ v. (v.include_pac, tt) };

    ghost one_row = { λ v w e. ap (λ f. record { include_pac = f.0 }) e };

    fn read_row<R: Source>(tag: u8, from: &mut Deserializer<R>) -> Result<Self::Row, Asn1DerError> {
        read_sequence(tag, from)
    }

    fn of_row(row: Self::Row) -> Self {
        from_fields![row; include_pac]
    }

    fn write_row<W: Sink>(&self, tag: u8, to: &mut Serializer<W>) -> Result<usize, Asn1DerError> {
        to.list(tag, &fields_of![self; include_pac])
    }
}
