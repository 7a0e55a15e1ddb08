//! Rows of fields as pairs: `(A, (B, ()))` is an A and then a B.
//!
//! A field may be missing as `Optional<Option<A>>`. [`Item`] says how a single field precedes others. `sound`
//! computes whether each optional field differs in its first octet from all that may follow it.
ghost use Rattle.std.specs.Prelude.{◌≡◌, ℕ, Bool, true, false, ◌&&◌, List, [], ◌∷◌, Option, None, MatchResult, IsTrue};
ghost use Rattle.asn1_der.specs.Tree.{Tree, Trees, none, more, der, ders, IsWhole, AreWhole, put};
ghost use Rattle.asn1_der.specs.Firsts.{Firsts, one_of, may_begin, either, apart};
ghost use Rattle.asn1_codec.specs.Reading.{Refused, IsSpelling};
ghost use Rattle.asn1_codec.specs.Optionals.{ReadIf};

use crate::de::{Deserialize, Deserializer};
use crate::fields::{Fields, WriteFields, write_field};
use crate::optional::Optional;
use crate::ser::{Serialize, Serializer};
use asn1_der::Asn1DerError;
use byte_streams::{Sink, Source};

/// A field that is written, in front of others.
pub trait WriteItem {
    ghost use Rattle.asn1_der.specs.declared.error.Unsupported.{Unsupported};
    ghost use Rattle.asn1_der.specs.Refusals.{first_refusal};
    ghost use Rattle.asn1_codec.specs.Writing.{Writing, WroteValue, NotWroteFields};

    ghost put_before: { Self → Trees → Trees };

    ghost own_refusal: { Self → Option Unsupported };

    /// Writes the field, and the fields after it, and gives how many bytes that took.
    fn write_before<T: WriteFields, W: Sink>(
        &self,
        others: &T,
        to: &mut Serializer<W>,
    ) -> Result<usize, Asn1DerError>
        ensures { MatchResult result
            (WroteValue (first_refusal (own_refusal self.now) (T.refusal others.now))
            (ders (put_before self.now (T.trees others.now))) to.old to.new)
            (NotWroteFields (first_refusal (own_refusal self.now) (T.refusal others.now))
            (ders (put_before self.now (T.trees others.now))) to.old to.new) };
}

/// A field that is read, in front of others.
pub trait Item: Sized {
    ghost use Rattle.asn1_der.proofs.Rows.{StartAmong, AreInjectiveAs};
    ghost use Rattle.asn1_der.specs.Seen.{Seen, as_is, Alike};
    ghost use Rattle.asn1_codec.specs.Reading.{Reading, TookFields, AreFields, Refused};

    ghost put: { Self → Trees → Trees };

    ghost seen: { Seen Self } = { as_is };

    ghost firsts_before: { Firsts → Firsts };

    ghost is_told: { Firsts → Bool };

    ghost starts: { (B : Type 0) (trees : B → Trees) (others : Firsts) → StartAmong others trees
        → (item : Self) (b : B) → AreWhole (put item (trees b)) → (octet : ℕ) (rest : List ℕ)
        → ders (put item (trees b)) ≡ octet ∷ rest → IsTrue (may_begin (firsts_before others) octet) };

    ghost injective: { (B : Type 0) (trees : B → Trees) (others : Firsts) (Same : B → B → Type 0) → StartAmong others trees
        → AreInjectiveAs Same trees → IsTrue (is_told others) → (v w : Self) (x y : B)
        → AreWhole (put v (trees x)) → AreWhole (put w (trees y))
        → ders (put v (trees x)) ≡ ders (put w (trees y)) → Alike seen v w × Same x y };

    /// Reads the field, and the fields after it, which are all that is left up to the limit.
    fn read_before<T: Fields, R: Source>(
        from: &mut Deserializer<R>,
    ) -> Result<(Self, T), Asn1DerError>
        requires told { IsTrue (is_told T.firsts) }
        requires sound { IsTrue T.sound }
        ensures { MatchResult result
            (λ fields. TookFields (λ f. put f.0 (T.trees f.1)) fields from.old from.new)
            (λ fault. Refused (AreFields (λ (f : Self × T). put f.0 (T.trees f.1)) from.old.limit) from.old from.new fault) };
}

impl WriteFields for () {
    ghost trees = { λ _. none };

    ghost refusal = { λ _. None };

    fn write<W: Sink>(&self, to: &mut Serializer<W>) -> Result<usize, Asn1DerError> {
        to.ready()?;
        Ok(0)
    }
}

impl<'a, H: WriteItem, T: WriteFields> WriteFields for (&'a H, T) {
    ghost use Rattle.asn1_der.specs.Refusals.{first_refusal};

    ghost trees = { λ fields. H.put_before fields.0.now (T.trees fields.1) };

    ghost refusal = { λ fields. first_refusal (H.own_refusal fields.0.now) (T.refusal fields.1) };

    fn write<W: Sink>(&self, to: &mut Serializer<W>) -> Result<usize, Asn1DerError> {
        self.0.write_before(&self.1, to)
    }
}

impl<H: Serialize> WriteItem for H {
    ghost use Rattle.asn1_der.specs.Refusals.{refusal_of};

    ghost put_before = { λ item trees. more (H.tree item) trees };

    ghost own_refusal = { λ item. refusal_of H.refusal item };

    fn write_before<T: WriteFields, W: Sink>(
        &self,
        others: &T,
        to: &mut Serializer<W>,
    ) -> Result<usize, Asn1DerError> {
        write_field(self, others, to)
    }
}

impl<H: Serialize> WriteItem for Optional<Option<H>> {
    ghost use Rattle.asn1_der.specs.Refusals.{refusal_of_option};

    ghost put_before = { λ item trees. put H.tree item.0 trees };

    ghost own_refusal = { λ item. refusal_of_option H.refusal item.0 };

    fn write_before<T: WriteFields, W: Sink>(
        &self,
        others: &T,
        to: &mut Serializer<W>,
    ) -> Result<usize, Asn1DerError> {
        match &self.0 {
            Some(head) => write_field(head, others, to),
            None => others.write(to),
        }
    }
}

impl Fields for () {
    ghost use Rattle.std.specs.Prelude.{refl};
    ghost use Rattle.asn1_codec.specs.Ends.{no_start};

    ghost trees = { λ _. none };

    ghost firsts = { one_of [] };

    ghost sound = { true };

    ghost starts = { λ _ _ octet rest e. no_start octet rest e };

    ghost injective = { λ _ v w _ _ _. refl };

    fn read<R: Source>(from: &mut Deserializer<R>) -> Result<Self, Asn1DerError> {
        from.finish()?;
        Ok(())
    }
}

impl<H: Item, T: Fields> Fields for (H, T) {
    ghost use Rattle.std.proofs.lemmas.Bool.{and_parts};
    ghost use Rattle.asn1_der.specs.Seen.{Alike, seen_pair};
    ghost use Rattle.asn1_der.proofs.Alike.{alike-pair};

    ghost trees = { λ fields. H.put fields.0 (T.trees fields.1) };

    ghost seen = { seen_pair H.seen T.seen };

    ghost firsts = { H.firsts_before T.firsts };

    ghost sound = { H.is_told T.firsts && T.sound };

    ghost starts = { λ fields whole octet rest e.
        H.starts T T.trees T.firsts T.starts fields.0 fields.1 whole octet rest e };

    ghost injective = { λ sound v w whole also e.
        let parts = and_parts (H.is_told T.firsts) T.sound sound in
        let same = H.injective T T.trees T.firsts (Alike T.seen) T.starts (T.injective parts.1) parts.0 v.0 w.0 v.1 w.1 whole also e
        in alike-pair H.seen T.seen v w same.0 same.1 };

    fn read<R: Source>(from: &mut Deserializer<R>) -> Result<Self, Asn1DerError> {
        H::read_before::<T, R>(from)
    }
}

impl<H: Deserialize + Drop> Item for H {
    ghost use Rattle.asn1_der.proofs.Rows.{required-starts, required-injective_as};
    ghost use Rattle.asn1_der.specs.Seen.{Alike};

    ghost put = { λ item trees. more (H.tree item) trees };

    ghost seen = { H.seen };

    ghost firsts_before = { λ _. H.firsts };

    ghost is_told = { λ _. true };

    ghost starts = { λ B trees others starts item b whole octet rest e.
        required-starts H B H.tree trees H.firsts others H.begins item b whole octet rest e };

    ghost injective = { λ B trees others Same starts one told v w x y whole also e.
        required-injective_as H B H.tree trees H.firsts others (Alike H.seen) Same H.injective one v w x y whole also e };

    fn read_before<T: Fields, R: Source>(
        from: &mut Deserializer<R>,
    ) -> Result<(Self, T), Asn1DerError> {
        let head = H::deserialize(from)?;
        let tail = T::read(from)?;
        Ok((head, tail))
    }
}

impl<H: Deserialize + Drop> Item for Optional<Option<H>> {
    ghost use Rattle.asn1_der.proofs.Rows.{optional-starts, optional-injective_as};
    ghost use Rattle.std.specs.Prelude.{refl};
    ghost use Rattle.asn1_der.specs.Seen.{Alike, seen_option, seen_part};
    ghost use Rattle.asn1_der.proofs.Alike.{alike-part};

    ghost put = { λ item trees. put H.tree item.0 trees };

    ghost seen = { seen_part (λ item. item.0) (seen_option H.seen) };

    ghost firsts_before = { λ others. either H.firsts others };

    ghost is_told = { λ others. apart H.firsts others };

    ghost starts = { λ B trees others starts item b whole octet rest e.
        optional-starts H B H.tree trees H.firsts others H.begins starts item.0 b whole octet rest e };

    ghost injective = { λ B trees others Same starts one told v w x y whole also e.
        let same = optional-injective_as H B H.tree trees H.firsts others H.seen Same H.injective one told H.begins starts v.0 w.0 x y whole also e
        in (alike-part (seen_option H.seen) v w (λ item. item.0) (λ o. record { 0 = o }) (λ item. refl) same.0, same.1) };

    fn read_before<T: Fields, R: Source>(
        from: &mut Deserializer<R>,
    ) -> Result<(Self, T), Asn1DerError> {
        let begins = from.starts::<H>()?;
        let head = read_if::<H, R>(begins, from)?;
        let tail = T::read(from)?;
        Ok((Optional(head), tail))
    }
}

/// Reads a value where `begins` says that one begins, else none.
///
/// The fields after an optional one are read at one place then, whichever it is: a function pays for the room of
/// each such place as it begins.
fn read_if<H: Deserialize, R: Source>(
    begins: bool,
    from: &mut Deserializer<R>,
) -> Result<Option<H>, Asn1DerError>
    ensures { MatchResult result
        (λ read. ReadIf H.tree begins read from.old from.new)
        (λ fault. (begins ≡ true) × Refused (IsSpelling H.tree) from.old from.new fault) }
{
    if !begins {
        return Ok(None);
    }
    let value = H::deserialize(from)?;
    Ok(Some(value))
}

/// A row of one field.
pub type Row1<A> = (A, ());

/// A row of two fields.
pub type Row2<A, B> = (A, Row1<B>);

/// A row of three fields.
pub type Row3<A, B, C> = (A, Row2<B, C>);

/// A row of four fields.
pub type Row4<A, B, C, D> = (A, Row3<B, C, D>);

/// A row of five fields.
pub type Row5<A, B, C, D, E> = (A, Row4<B, C, D, E>);

/// A row of six fields.
pub type Row6<A, B, C, D, E, F> = (A, Row5<B, C, D, E, F>);

/// A row of seven fields.
pub type Row7<A, B, C, D, E, F, G> = (A, Row6<B, C, D, E, F, G>);

/// A row of eight fields.
pub type Row8<A, B, C, D, E, F, G, H> = (A, Row7<B, C, D, E, F, G, H>);

/// A row of nine fields.
pub type Row9<A, B, C, D, E, F, G, H, I> = (A, Row8<B, C, D, E, F, G, H, I>);

/// A row of ten fields.
pub type Row10<A, B, C, D, E, F, G, H, I, J> = (A, Row9<B, C, D, E, F, G, H, I, J>);

/// A row of eleven fields.
pub type Row11<A, B, C, D, E, F, G, H, I, J, K> = (A, Row10<B, C, D, E, F, G, H, I, J, K>);

/// A row of twelve fields.
pub type Row12<A, B, C, D, E, F, G, H, I, J, K, L> = (A, Row11<B, C, D, E, F, G, H, I, J, K, L>);

/// A row of thirteen fields.
pub type Row13<A, B, C, D, E, F, G, H, I, J, K, L, M> = (
    A,
    Row12<B, C, D, E, F, G, H, I, J, K, L, M>,
);
