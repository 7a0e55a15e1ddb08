//! The elements of a slice, as fields that are written.
ghost use Rattle.std.specs.Prelude.{MatchResult};
ghost use Rattle.asn1_der.specs.Tree.{ders, trees_of};
ghost use Rattle.asn1_codec.specs.Writing.{WroteValue, NotWroteFields};
ghost use Rattle.asn1_der.specs.Refusals.{refusal_of_list};

use crate::fields::WriteFields;
use crate::ser::{Serialize, Serializer};
use asn1_der::Asn1DerError;
use byte_streams::Sink;

impl<'a, T: Serialize> WriteFields for &'a [T] {
    ghost trees = { λ items. trees_of T.tree items.now };

    ghost refusal = { λ items. refusal_of_list T.refusal items.now };

    fn write<W: Sink>(&self, to: &mut Serializer<W>) -> Result<usize, Asn1DerError> {
        write_elements(self, to)
    }
}

/// Writes the spellings of `items`, one after another, and gives how many bytes that took.
fn write_elements<T: Serialize, W: Sink>(
    items: &[T],
    to: &mut Serializer<W>,
) -> Result<usize, Asn1DerError>
    ensures { MatchResult result
        (WroteValue (refusal_of_list T.refusal items.now) (ders (trees_of T.tree items.now)) to.old to.new)
        (NotWroteFields (refusal_of_list T.refusal items.now) (ders (trees_of T.tree items.now)) to.old to.new) }
{
    to.ready()?;
    let mut count = 0;
    for item in items {
        let size = item.serialize(to)?;
        count = to.sum(count, size)?;
    }
    Ok(count)
}
