//! Tuples, each a SEQUENCE of just its elements (X.690, section 8.9).
//!
//! An element that may be missing wants a type of its own (`Tagged`), and so do more than four.
ghost use Rattle.std.specs.Prelude.{◌≡◌};
ghost use Rattle.asn1_der.specs.Octets.{sequence_octet};

use crate::de::{Deserialize, Deserializer};
use crate::fields::Fields;
use crate::row::{Row1, Row2, Row3, Row4};
use crate::ser::Serializer;
use crate::tagged::{Tagged, read_sequence};
use asn1_der::Asn1DerError;
use asn1_der::octets::SEQUENCE;
use byte_streams::{Sink, Source};

impl<A: Deserialize + Drop> Tagged for (A,) {
    ghost use Rattle.std.proofs.Common.{refl, true, None, Some};
    ghost use Rattle.asn1_der.specs.Tagged.{sequence};
    ghost use Rattle.asn1_der.proofs.Tagged.{sequence_laws_as};
    ghost use Rattle.asn1_der.specs.Seen.{Alike, seen_part};
    ghost use Rattle.asn1_der.proofs.Alike.{alike-part};
    ghost use Rattle.asn1_der.specs.Refusals.{refusal_of, first_refusal};

    type Row = Row1<A>;

    const FIRST: u8 = SEQUENCE;

    ghost FIRST = { sequence_octet };

    ghost row_tree = { sequence ⟦<Row1<A> as Fields>⟧.trees };

    ghost row_seen = { ⟦<Row1<A> as Fields>⟧.seen };

    ghost seen = { seen_part (λ v. (v.0, tt)) ⟦<Row1<A> as Fields>⟧.seen };

    ghost row_laws = { sequence_laws_as (Alike ⟦<Row1<A> as Fields>⟧.seen) ⟦<Row1<A> as Fields>⟧.trees (⟦<Row1<A> as Fields>⟧.injective (refl {a = true})) };

    ghost row_of = { λ v. (v.0, tt) };

    ghost one_row = { λ v w e. alike-part ⟦<Row1<A> as Fields>⟧.seen v w (λ v. (v.0, tt)) (λ f. record { 0 = f.0 }) (λ v. refl) e };

    ghost refuses = { Some (λ v. first_refusal (refusal_of A.refusal v.0) None) };

    fn read_row<R: Source>(tag: u8, from: &mut Deserializer<R>) -> Result<Self::Row, Asn1DerError> {
        read_sequence(tag, from)
    }

    fn of_row(row: Self::Row) -> Self {
        let (only, ()) = row;
        (only,)
    }

    fn write_row<W: Sink>(&self, tag: u8, to: &mut Serializer<W>) -> Result<usize, Asn1DerError> {
        to.list(tag, &(&self.0, ()))
    }
}

impl<A: Deserialize + Drop, B: Deserialize + Drop> Tagged for (A, B) {
    ghost use Rattle.std.proofs.Common.{refl, true, None, Some};
    ghost use Rattle.asn1_der.specs.Tagged.{sequence};
    ghost use Rattle.asn1_der.proofs.Tagged.{sequence_laws_as};
    ghost use Rattle.asn1_der.specs.Seen.{Alike, seen_part};
    ghost use Rattle.asn1_der.proofs.Alike.{alike-part};
    ghost use Rattle.asn1_der.specs.Refusals.{refusal_of, first_refusal};

    type Row = Row2<A, B>;

    const FIRST: u8 = SEQUENCE;

    ghost FIRST = { sequence_octet };

    ghost row_tree = { sequence ⟦<Row2<A, B> as Fields>⟧.trees };

    ghost row_seen = { ⟦<Row2<A, B> as Fields>⟧.seen };

    ghost seen = { seen_part (λ v. (v.0, (v.1, tt))) ⟦<Row2<A, B> as Fields>⟧.seen };

    ghost row_laws = { sequence_laws_as (Alike ⟦<Row2<A, B> as Fields>⟧.seen) ⟦<Row2<A, B> as Fields>⟧.trees (⟦<Row2<A, B> as Fields>⟧.injective (refl {a = true})) };

    ghost row_of = { λ v. (v.0, (v.1, tt)) };

    ghost one_row = { λ v w e. alike-part ⟦<Row2<A, B> as Fields>⟧.seen v w (λ v. (v.0, (v.1, tt))) (λ f. (f.0, f.1.0)) (λ v. refl) e };

    ghost refuses = { Some (λ v. first_refusal (refusal_of A.refusal v.0) (first_refusal (refusal_of B.refusal v.1) None)) };

    fn read_row<R: Source>(tag: u8, from: &mut Deserializer<R>) -> Result<Self::Row, Asn1DerError> {
        read_sequence(tag, from)
    }

    fn of_row(row: Self::Row) -> Self {
        let (first, (second, ())) = row;
        (first, second)
    }

    fn write_row<W: Sink>(&self, tag: u8, to: &mut Serializer<W>) -> Result<usize, Asn1DerError> {
        to.list(tag, &(&self.0, (&self.1, ())))
    }
}

impl<A: Deserialize + Drop, B: Deserialize + Drop, C: Deserialize + Drop> Tagged for (A, B, C) {
    ghost use Rattle.std.proofs.Common.{refl, true, None, Some};
    ghost use Rattle.asn1_der.specs.Tagged.{sequence};
    ghost use Rattle.asn1_der.proofs.Tagged.{sequence_laws_as};
    ghost use Rattle.asn1_der.specs.Seen.{Alike, seen_part};
    ghost use Rattle.asn1_der.proofs.Alike.{alike-part};
    ghost use Rattle.asn1_der.specs.Refusals.{refusal_of, first_refusal};

    type Row = Row3<A, B, C>;

    const FIRST: u8 = SEQUENCE;

    ghost FIRST = { sequence_octet };

    ghost row_tree = { sequence ⟦<Row3<A, B, C> as Fields>⟧.trees };

    ghost row_seen = { ⟦<Row3<A, B, C> as Fields>⟧.seen };

    ghost seen = { seen_part (λ v. (v.0, (v.1, (v.2, tt)))) ⟦<Row3<A, B, C> as Fields>⟧.seen };

    ghost row_laws = { sequence_laws_as (Alike ⟦<Row3<A, B, C> as Fields>⟧.seen) ⟦<Row3<A, B, C> as Fields>⟧.trees (⟦<Row3<A, B, C> as Fields>⟧.injective (refl {a = true})) };

    ghost row_of = { λ v. (v.0, (v.1, (v.2, tt))) };

    ghost one_row = { λ v w e. alike-part ⟦<Row3<A, B, C> as Fields>⟧.seen v w (λ v. (v.0, (v.1, (v.2, tt)))) (λ f. (f.0, f.1.0, f.1.1.0)) (λ v. refl) e };

    ghost refuses = { Some (λ v. first_refusal (refusal_of A.refusal v.0) (first_refusal (refusal_of B.refusal v.1) (first_refusal (refusal_of C.refusal v.2) None))) };

    fn read_row<R: Source>(tag: u8, from: &mut Deserializer<R>) -> Result<Self::Row, Asn1DerError> {
        read_sequence(tag, from)
    }

    fn of_row(row: Self::Row) -> Self {
        let (first, (second, (third, ()))) = row;
        (first, second, third)
    }

    fn write_row<W: Sink>(&self, tag: u8, to: &mut Serializer<W>) -> Result<usize, Asn1DerError> {
        to.list(tag, &(&self.0, (&self.1, (&self.2, ()))))
    }
}

impl<
    A: Deserialize + Drop,
    B: Deserialize + Drop,
    C: Deserialize + Drop,
    D: Deserialize + Drop,
> Tagged for (A, B, C, D) {
    ghost use Rattle.std.proofs.Common.{refl, true, None, Some};
    ghost use Rattle.asn1_der.specs.Tagged.{sequence};
    ghost use Rattle.asn1_der.proofs.Tagged.{sequence_laws_as};
    ghost use Rattle.asn1_der.specs.Seen.{Alike, seen_part};
    ghost use Rattle.asn1_der.proofs.Alike.{alike-part};
    ghost use Rattle.asn1_der.specs.Refusals.{refusal_of, first_refusal};

    type Row = Row4<A, B, C, D>;

    const FIRST: u8 = SEQUENCE;

    ghost FIRST = { sequence_octet };

    ghost row_tree = { sequence ⟦<Row4<A, B, C, D> as Fields>⟧.trees };

    ghost row_seen = { ⟦<Row4<A, B, C, D> as Fields>⟧.seen };

    ghost seen = { seen_part (λ v. (v.0, (v.1, (v.2, (v.3, tt))))) ⟦<Row4<A, B, C, D> as Fields>⟧.seen };

    ghost row_laws = { sequence_laws_as (Alike ⟦<Row4<A, B, C, D> as Fields>⟧.seen) ⟦<Row4<A, B, C, D> as Fields>⟧.trees (⟦<Row4<A, B, C, D> as Fields>⟧.injective (refl {a = true})) };

    ghost row_of = { λ v. (v.0, (v.1, (v.2, (v.3, tt)))) };

    ghost one_row = { λ v w e. alike-part ⟦<Row4<A, B, C, D> as Fields>⟧.seen v w (λ v. (v.0, (v.1, (v.2, (v.3, tt))))) (λ f. (f.0, f.1.0, f.1.1.0, f.1.1.1.0)) (λ v. refl) e };

    ghost refuses = { Some (λ v. first_refusal (refusal_of A.refusal v.0) (first_refusal (refusal_of B.refusal v.1) (first_refusal (refusal_of C.refusal v.2) (first_refusal (refusal_of D.refusal v.3) None)))) };

    fn read_row<R: Source>(tag: u8, from: &mut Deserializer<R>) -> Result<Self::Row, Asn1DerError> {
        read_sequence(tag, from)
    }

    fn of_row(row: Self::Row) -> Self {
        let (first, (second, (third, (fourth, ())))) = row;
        (first, second, third, fourth)
    }

    fn write_row<W: Sink>(&self, tag: u8, to: &mut Serializer<W>) -> Result<usize, Asn1DerError> {
        to.list(tag, &(&self.0, (&self.1, (&self.2, (&self.3, ())))))
    }
}
