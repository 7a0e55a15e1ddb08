//! Values that are borrowed to be written: what writes a value's fields needn't own them.

ghost use Rattle.std.specs.Prelude.{◌≡◌, MatchResult};

use crate::{Asn1DerError, Serialize, Serializer};
use byte_streams::Sink;
use std::marker::Model;

/// A value that is borrowed to be written. A contract sees the value itself.
#[derive(Drop)]
pub struct Lent<'a, T>(&'a T);

impl<'a, T> Model for Lent<'a, T> {
    ghost Value = { T };

    ghost view = { λ lent. lent.0.now };
}

impl<'a, T> Lent<'a, T> {
    /// Borrows the value.
    pub fn new(value: &'a T) -> Self
        ensures { result ≡ value.now }
    {
        Lent(value)
    }
}

impl<'a, T: Serialize> Serialize for Lent<'a, T> {
    ghost tree = { T.tree };

    ghost seen = { T.seen };

    ghost refusal = { T.refusal };

    ghost firsts = { T.firsts };

    ghost begins = { T.begins };

    ghost injective = { T.injective };

    fn serialize<W: Sink>(&self, to: &mut Serializer<W>) -> Result<usize, Asn1DerError> {
        self.0.serialize(to)
    }
}
