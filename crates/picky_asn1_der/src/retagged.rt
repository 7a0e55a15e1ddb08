//! Values under another identifier octet than their type's own.
ghost use Rattle.std.specs.Prelude.{◌≡◌};

use asn1_codec::{Deserializer, Serializer, Tagged};
use asn1_der::Asn1DerError;
use byte_streams::{Sink, Source};

/// A value under the identifier octet `OCTET` in place of its type's own: a SET of fields (X.690, section 8.11) and a SET OF
/// (8.12) are a SEQUENCE under 49.
#[derive(Clone, Copy, Debug, Drop, PartialEq, Eq)]
pub struct Retagged<const OCTET: u8, T>(pub T);

impl<const OCTET: u8, T> From<T> for Retagged<OCTET, T> {
    ghost from_gives = { λ value made. made.0 ≡ value };

    fn from(value: T) -> Self {
        Retagged(value)
    }
}

impl<const OCTET: u8, T: Tagged> Tagged for Retagged<OCTET, T> {
    ghost use Rattle.std.specs.Prelude.{refl};
    ghost use Rattle.asn1_der.specs.Seen.{seen_part};
    ghost use Rattle.asn1_der.proofs.Alike.{alike-part};

    type Row = T::Row;

    const FIRST: u8 = OCTET;

    ghost FIRST = { OCTET };

    ghost row_tree = { T.row_tree };

    ghost row_seen = { T.row_seen };

    ghost seen = { seen_part (λ value. value.0) T.seen };

    ghost row_laws = { T.row_laws };

    ghost row_of = { λ value. T.row_of value.0 };

    ghost use Rattle.asn1_der.specs.Refusals.{part_refusal};

    ghost refuses = { part_refusal (λ value. value.0) T.refuses };

    ghost one_row = { λ v w e. let same = T.one_row v.0 w.0 e in alike-part T.seen v w (λ value. value.0) (λ held. record { 0 = held }) (λ value. refl) same };

    fn read_row<R: Source>(tag: u8, from: &mut Deserializer<R>) -> Result<Self::Row, Asn1DerError> {
        T::read_row(tag, from)
    }

    fn of_row(row: Self::Row) -> Self {
        Retagged(T::of_row(row))
    }

    fn write_row<W: Sink>(&self, tag: u8, to: &mut Serializer<W>) -> Result<usize, Asn1DerError> {
        self.0.write_row(tag, to)
    }
}
