//! The alternatives of a CHOICE, as a type: `Choice<A, Last<B>>` is an A or a B.
//!
//! The alternatives are distinguished by their first octets; `sound` computes whether they are.
ghost use Rattle.std.specs.Prelude.{◌≡◌, Bool, true, ◌&&◌, MatchResult, IsTrue};
ghost use Rattle.asn1_der.specs.Tree.{Tree, der, IsWhole};
ghost use Rattle.asn1_der.specs.Firsts.{Firsts, may_begin, either, apart, BeginsAmong};
ghost use Rattle.picky_asn1_der.specs.Choices.{choice_tree};

use asn1_codec::{Deserialize, Deserializer};
use asn1_der::Asn1DerError;
use byte_streams::Source;

/// Alternatives that are read.
pub trait Alternatives: Sized {
    ghost use Rattle.asn1_der.specs.Seen.{Seen, as_is, Alike};
    ghost use Rattle.asn1_codec.specs.Reading.{Reading, TookValue, IsSpelling, Refused};

    ghost tree: { Self → Tree };

    ghost seen: { Seen Self } = { as_is };

    ghost firsts: { Firsts };

    ghost sound: { Bool };

    ghost begins: { (value : Self) → BeginsAmong firsts (tree value) };

    ghost injective: { IsTrue sound → (v w : Self) → IsWhole (tree v) → IsWhole (tree w) → der (tree v) ≡ der (tree w) → Alike seen v w };

    /// Whether one of the alternatives may begin with this identifier octet.
    fn may_start_any(first: u8) -> bool
        ensures { result ≡ may_begin firsts first };

    /// Reads the one alternative that the next octet begins.
    fn read_one<R: Source>(from: &mut Deserializer<R>) -> Result<Self, Asn1DerError>
        requires { IsTrue sound }
        ensures { MatchResult result
            (λ value. TookValue tree value from.old from.new)
            (λ fault. Refused (IsSpelling tree) from.old from.new fault) };
}

/// The last alternative.
#[derive(Drop)]
pub struct Last<T>(pub T);

/// An alternative, or one of others.
#[derive(Drop)]
pub enum Choice<A, B> {
    /// The first alternative.
    This(A),
    /// One of the other alternatives.
    Other(B),
}

impl<T: Deserialize> Alternatives for Last<T> {
    ghost use Rattle.std.specs.Prelude.{refl};
    ghost use Rattle.asn1_der.specs.Seen.{seen_part};
    ghost use Rattle.asn1_der.proofs.Alike.{alike-part};

    ghost tree = { λ last. T.tree last.0 };

    ghost seen = { seen_part (λ last. last.0) T.seen };

    ghost firsts = { T.firsts };

    ghost sound = { true };

    ghost begins = { λ last. T.begins last.0 };

    ghost injective = { λ sound v w whole also e.
        let same = T.injective v.0 w.0 whole also e
        in alike-part T.seen v w (λ last. last.0) (λ held. record { 0 = held }) (λ last. refl) same };

    fn may_start_any(first: u8) -> bool {
        T::may_start(first)
    }

    fn read_one<R: Source>(from: &mut Deserializer<R>) -> Result<Self, Asn1DerError> {
        let value = T::deserialize(from)?;
        Ok(Last(value))
    }
}

impl<A: Deserialize, B: Alternatives> Alternatives for Choice<A, B> {
    ghost use Rattle.std.proofs.lemmas.Bool.{and_parts};
    ghost use Rattle.picky_asn1_der.specs.ChoiceLaws.{choice-begins, choice-injective_as};
    ghost use Rattle.picky_asn1_der.specs.Choices.{seen_choice};

    ghost tree = { choice_tree A.tree B.tree };

    ghost seen = { seen_choice A.seen B.seen };

    ghost firsts = { either A.firsts B.firsts };

    ghost sound = { apart A.firsts B.firsts && B.sound };

    ghost begins = { choice-begins A.tree B.tree A.firsts B.firsts A.begins B.begins };

    ghost injective = { λ sound.
        let parts = and_parts (apart A.firsts B.firsts) B.sound sound in
        choice-injective_as A.tree B.tree A.firsts B.firsts A.begins B.begins A.seen B.seen parts.0 A.injective (B.injective parts.1) };

    fn may_start_any(first: u8) -> bool {
        A::may_start(first) || B::may_start_any(first)
    }

    fn read_one<R: Source>(from: &mut Deserializer<R>) -> Result<Self, Asn1DerError> {
        let begins = from.starts::<A>()?;
        if begins {
            let value = A::deserialize(from)?;
            return Ok(Choice::This(value));
        }
        let others = B::read_one(from)?;
        Ok(Choice::Other(others))
    }
}
