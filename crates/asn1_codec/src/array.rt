//! Arrays, each a SEQUENCE of just so many elements.
ghost use Rattle.std.specs.Prelude.{◌≡◌, ◌≢◌, length, MatchOption};
ghost use Rattle.asn1_der.specs.Octets.{sequence_octet};

use crate::de::{Deserialize, Deserializer};
use crate::elements::Elements;
use crate::ser::Serializer;
use crate::tagged::{Tagged, read_sequence};
use asn1_der::Asn1DerError;
use asn1_der::octets::SEQUENCE;
use byte_streams::{Sink, Source};

/// A SEQUENCE OF (X.690, section 8.10) of exactly `N` elements. Of another count is `InvalidData`.
impl<const N: usize, T: Deserialize + Drop> Tagged for [T; N] {
    ghost use Rattle.asn1_der.specs.Tagged.{sequence};
    ghost use Rattle.asn1_der.proofs.Tagged.{sequence_laws_as};
    ghost use Rattle.asn1_der.specs.Seen.{Alike, seen_list};
    ghost use Rattle.asn1_codec.specs.Arrays.{array_trees};
    ghost use Rattle.asn1_codec.specs.ArrayLaws.{array_trees-injective_as};
    ghost use Rattle.asn1_der.specs.Refusals.{list_refusal};

    type Row = [T; N];

    const FIRST: u8 = SEQUENCE;

    ghost FIRST = { sequence_octet };

    ghost row_tree = { sequence (array_trees N T.tree) };

    ghost row_seen = { seen_list T.seen };

    ghost seen = { seen_list T.seen };

    ghost row_laws = { sequence_laws_as (Alike (seen_list T.seen)) (array_trees N T.tree) (array_trees-injective_as N T.tree T.seen T.injective) };

    ghost refuses = { list_refusal T.refusal };

    ghost row_of = { λ items. items };

    ghost one_row = { λ v w e. e };

    fn read_row<R: Source>(tag: u8, from: &mut Deserializer<R>) -> Result<[T; N], Asn1DerError> {
        let elements: Elements<T> = read_sequence(tag, from)?;
        let Some(items) = array_of(elements.into_vec()) else {
            return Err(from.refuse(Asn1DerError::InvalidData));
        };
        Ok(items)
    }

    fn of_row(items: [T; N]) -> [T; N] {
        items
    }

    fn write_row<W: Sink>(&self, tag: u8, to: &mut Serializer<W>) -> Result<usize, Asn1DerError> {
        to.list(tag, &self.as_slice())
    }
}

/// The elements as an array, where they are as many.
fn array_of<const N: usize, T: Drop>(items: Vec<T>) -> Option<[T; N]>
    ensures { MatchOption result
        (length items.items ≢ N)
        (λ array. (array ≡ items.items) × (length items.items ≡ N)) }
{
    match <[T; N]>::try_from(items) {
        Ok(array) => Some(array),
        Err(_) => None,
    }
}
