//! What is read from a source, as a law.
ghost use Rattle.std.specs.Prelude.{◌≡◌, ℕ, List, Option, Some, Result};
ghost use Rattle.asn1_der.specs.declared.error.Asn1DerError.{Asn1DerError};
ghost use Rattle.asn1_codec.specs.Cuts.{IsNextAnswer, ReadsNext, IsExcused, IsSameReading};

use crate::de::FromDer;

/// What `from_reader_with_max_len` answers is distinguished by the reader's bytes alone, and not by how it cuts them. The device and
/// the memory aside, it gives the value that the bytes begin with, within the limit, and leaves what follows; so two readers
/// of the same bytes give the same value and leave the same, or both give none. It does nothing when it runs: its contract is
/// the law.
pub fn one_reading<T: FromDer>()
    ensures exact { (limit : ℕ) (old new : Option (List ℕ)) (answer : Result T Asn1DerError)
        → IsNextAnswer T.reads limit old new answer → ReadsNext T.seen T.reads limit old new answer }
    ensures same { (limit : ℕ) (input : List ℕ) (left other : Option (List ℕ)) (a b : Result T Asn1DerError)
        → IsNextAnswer T.reads limit (Some input) left a → IsNextAnswer T.reads limit (Some input) other b
        → (IsExcused a → ⊥) → (IsExcused b → ⊥) → IsSameReading T.seen a left b other }
{}
