//! Strings of bits that hold an encoding.
ghost use Rattle.std.specs.Prelude.{◌≡◌};
ghost use Rattle.asn1_der.specs.Tree.{wrapped, behind};
ghost use Rattle.asn1_der.specs.Octets.{bit_string_octet};

use asn1_codec::{Deserialize, Deserializer, Serializer, Tagged};
use asn1_der::Asn1DerError;
use asn1_der::octets::BIT_STRING;
use byte_streams::{Sink, Source};

/// A BIT STRING whose bits, of which none is unused, are the encoding of one value (X.690, section 8.6).
///
/// If the count of unused bits isn't 0, reading fails with `InvalidData`.
#[derive(Clone, Copy, Debug, Drop, PartialEq, Eq)]
pub struct BitStringContainer<T>(pub T);

impl<T> From<T> for BitStringContainer<T> {
    ghost from_gives = { λ value made. made.0 ≡ value };

    fn from(value: T) -> Self {
        BitStringContainer(value)
    }
}

impl<T: Deserialize + Drop> Tagged for BitStringContainer<T> {
    ghost use Rattle.asn1_der.proofs.Tagged.{wrapped_laws_as, behind_laws_as};
    ghost use Rattle.std.specs.Prelude.{refl};
    ghost use Rattle.asn1_der.specs.Seen.{Alike, seen_part};
    ghost use Rattle.asn1_der.proofs.Alike.{alike-part};

    type Row = T;

    const FIRST: u8 = BIT_STRING;

    ghost FIRST = { bit_string_octet };

    ghost row_tree = { λ octet value. behind 0 (wrapped octet (T.tree value)) };

    ghost row_seen = { T.seen };

    ghost seen = { seen_part (λ value. value.0) T.seen };

    ghost row_laws = { behind_laws_as (Alike T.seen) 0 (λ octet value. wrapped octet (T.tree value)) (wrapped_laws_as (Alike T.seen) T.tree T.injective) };

    ghost use Rattle.asn1_der.specs.Refusals.{part_refusal};

    ghost refuses = { part_refusal (λ value. value.0) T.refusal };

    ghost row_of = { λ value. value.0 };

    ghost one_row = { λ v w e. alike-part T.seen v w (λ value. value.0) (λ held. record { 0 = held }) (λ value. refl) e };

    fn read_row<R: Source>(tag: u8, from: &mut Deserializer<R>) -> Result<T, Asn1DerError> {
        from.wrapped_behind(tag, 0)
    }

    fn of_row(row: T) -> Self {
        BitStringContainer(row)
    }

    fn write_row<W: Sink>(&self, tag: u8, to: &mut Serializer<W>) -> Result<usize, Asn1DerError> {
        to.wrapped_behind(tag, 0, &self.0)
    }
}
