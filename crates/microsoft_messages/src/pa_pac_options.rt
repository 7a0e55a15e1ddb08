//! Options of PACs.
ghost use Rattle.asn1_der.specs.Octets.{sequence_octet};

use asn1_der::octets::SEQUENCE;
use byte_streams::{Sink, Source};
use krb_messages::data_types::KerberosFlags;
use picky_asn1_der::{
    Asn1DerError, Deserializer, ExplicitContextTag0, Fields, Row1, Serializer, Tagged, fields_of,
    from_fields, read_sequence,
};

/// What a client or a KDC supports (MS-KILE, section 2.2.10).
///
/// ```text
/// PA-PAC-OPTIONS ::= SEQUENCE {
///      flags   [0] KerberosFlags }
/// ```
#[derive(Debug, Drop, PartialEq, Eq, Clone)]
pub struct PaPacOptions {
    /// Claims, branch awareness, forwarding to a full domain controller, constrained delegation by resource.
    pub flags: ExplicitContextTag0<KerberosFlags>,
}

type PaPacOptionsRow = Row1<ExplicitContextTag0<KerberosFlags>>;

impl Tagged for PaPacOptions {
    ghost use Rattle.std.proofs.Common.{ap, refl, true};
    ghost use Rattle.asn1_der.specs.Tagged.{sequence};
    ghost use Rattle.asn1_der.proofs.Tagged.{sequence_laws};

    type Row = PaPacOptionsRow;

    const FIRST: u8 = SEQUENCE;

    ghost FIRST = { sequence_octet };

    ghost row_tree = { sequence ⟦<PaPacOptionsRow as Fields>⟧.trees };

    ghost row_laws = { sequence_laws ⟦<PaPacOptionsRow as Fields>⟧.trees (⟦<PaPacOptionsRow as Fields>⟧.injective (refl {a = true})) };

    ghost row_of = { λ v. (v.flags, tt) };

    ghost one_row = { λ v w e. ap (λ f. record { flags = f.0 }) e };

    fn read_row<R: Source>(tag: u8, from: &mut Deserializer<R>) -> Result<Self::Row, Asn1DerError> {
        read_sequence(tag, from)
    }

    fn of_row(row: Self::Row) -> Self {
        from_fields![row; flags]
    }

    fn write_row<W: Sink>(&self, tag: u8, to: &mut Serializer<W>) -> Result<usize, Asn1DerError> {
        to.list(tag, &fields_of![self; flags])
    }
}
