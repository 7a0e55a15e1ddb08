//! The time in which a certificate is valid (RFC 5280, section 4.1.2.5).
ghost use Rattle.std.specs.Prelude.{◌≡◌, MatchResult};
ghost use Rattle.asn1_der.specs.Octets.{sequence_octet};

use crate::time::Time;
use asn1_der::octets::SEQUENCE;
use byte_streams::{Sink, Source};
use picky_asn1_der::{
    Asn1DerError, Deserializer, Fields, Row2, Serializer, Tagged, fields_of, from_fields,
    read_sequence,
};
use x509_spelling::Exact;

/// From when to when a certificate is valid.
///
/// ```text
/// Validity ::= SEQUENCE {
///      notBefore      Time,
///      notAfter       Time }
/// ```
#[derive(Clone, Copy, Debug, PartialEq, Eq)]
pub struct Validity {
    /// The first moment.
    pub not_before: Time,
    /// The last moment.
    pub not_after: Time,
}

type ValidityRow = Row2<Time, Time>;

impl Tagged for Validity {
    ghost use Rattle.std.proofs.Common.{ap, refl, true};
    ghost use Rattle.asn1_der.specs.Tagged.{sequence};
    ghost use Rattle.asn1_der.proofs.Tagged.{sequence_laws};

    type Row = ValidityRow;

    const FIRST: u8 = SEQUENCE;

    ghost FIRST = { sequence_octet };

    ghost row_tree = { sequence ⟦<ValidityRow as Fields>⟧.trees };

    ghost row_laws = { sequence_laws ⟦<ValidityRow as Fields>⟧.trees (⟦<ValidityRow as Fields>⟧.injective (refl {a = true})) };

    ghost row_of = { λ v. (v.not_before, (v.not_after, tt)) };

    ghost one_row = { λ v w e. ap (λ f. record { not_before = f.0; not_after = f.1.0 }) e };

    fn read_row<R: Source>(tag: u8, from: &mut Deserializer<R>) -> Result<Self::Row, Asn1DerError> {
        read_sequence(tag, from)
    }

    fn of_row(row: Self::Row) -> Self {
        from_fields![row; not_before, not_after]
    }

    fn write_row<W: Sink>(&self, tag: u8, to: &mut Serializer<W>) -> Result<usize, Asn1DerError> {
        to.list(tag, &fields_of![self; not_before, not_after])
    }
}

impl Exact for Validity {
    ghost plain = { tt };
}
