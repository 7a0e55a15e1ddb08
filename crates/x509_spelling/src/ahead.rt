//! Values that are written as their spellings say.
ghost use Rattle.std.specs.Prelude.{◌≡◌, MatchResult};
ghost use Rattle.asn1_der.specs.Tree.{more};

use crate::spelled::Spelled;
use byte_streams::Sink;
use picky_asn1_der::{Asn1DerError, Serializer, WriteFields};

/// A value that is borrowed to be written in front of fields. Its tree is the one that its spellings speak of.
#[derive(Drop)]
pub struct Ahead<'a, A, F>(pub &'a A, pub F);

impl<'a, A: Spelled, F: WriteFields> WriteFields for Ahead<'a, A, F> {
    ghost use Rattle.asn1_der.specs.Refusals.{first_refusal, refusal_of};

    ghost trees = { λ ahead. more (A.written ahead.0.now) (F.trees ahead.1) };

    ghost refusal = { λ ahead. first_refusal (refusal_of A.refusal ahead.0.now) (F.refusal ahead.1) };

    fn write<W: Sink>(&self, to: &mut Serializer<W>) -> Result<usize, Asn1DerError> {
        asn1_codec::write_field(self.0, &self.1, to)
    }
}
