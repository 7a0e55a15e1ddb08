//! Which values can be written, as a law.
ghost use Rattle.std.specs.Prelude.{IsTrue};
ghost use Rattle.asn1_der.specs.Tree.{IsWhole};

use picky_asn1_der::{Leaf, Serialize};

/// The law that a value of a primitive type can be written if it meets the type's condition, as each value that a maker or a
/// reader of the type returns does. So [`to_vec`](crate::calls::to_vec) returns its strict spelling, unless memory runs out. It does
/// nothing when it runs: its contract is the law.
pub fn valid_leaf_is_whole<T: Leaf>()
    ensures { (value : T) → IsTrue (T.is_valid value) → IsWhole (⟦<T as Serialize>⟧.tree value) }
{}
