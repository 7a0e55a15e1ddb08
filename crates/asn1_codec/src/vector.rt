//! Vectors.
ghost use Rattle.std.specs.Prelude.{◌≡◌};
ghost use Rattle.asn1_der.specs.Octets.{sequence_octet};
ghost use Rattle.asn1_der.specs.Tree.{trees_of};

use crate::de::{Deserialize, Deserializer};
use crate::elements::Elements;
use crate::ser::{Serialize, Serializer};
use crate::tagged::{ReadImplicit, WriteImplicit, read_sequence};
use asn1_der::Asn1DerError;
use asn1_der::octets::SEQUENCE;
use byte_streams::{Sink, Source};

/// A SEQUENCE OF (X.690, section 8.10), which is written where its elements are. Two vectors of the same elements have one spelling,
/// whatever memory they hold.
impl<T: Serialize> Serialize for Vec<T> {
    ghost use Rattle.asn1_der.specs.Firsts.{only};
    ghost use Rattle.asn1_der.specs.Tagged.{sequence};
    ghost use Rattle.asn1_der.specs.Seen.{Alike, seen_list, seen_items};
    ghost use Rattle.asn1_der.specs.Refusals.{list_refusal, part_refusal};
    ghost use Rattle.asn1_der.proofs.Alike.{alike-items};
    ghost use Rattle.asn1_der.proofs.Rows.{many-injective_as};
    ghost use Rattle.asn1_der.proofs.Spelling.{may_begin-only};
    ghost use Rattle.asn1_der.proofs.Tagged.{sequence_laws_as};

    ghost tree = { λ v. sequence (trees_of T.tree) sequence_octet v.items };

    ghost seen = { seen_items (λ v. v.items) T.seen };

    ghost firsts = { only sequence_octet };

    ghost begins = { λ v. may_begin-only sequence_octet };

    ghost refusal = { part_refusal (λ v. v.items) (list_refusal T.refusal) };

    ghost injective = { λ v w whole also e.
        let laws = sequence_laws_as (Alike (seen_list T.seen)) (trees_of T.tree) (many-injective_as _ T.tree T.seen T.injective)
        in alike-items T.seen v w (λ v. v.items) (laws.injective sequence_octet v.items w.items whole also e) };

    fn serialize<W: Sink>(&self, to: &mut Serializer<W>) -> Result<usize, Asn1DerError> {
        to.list(SEQUENCE, &self.as_slice())
    }
}

impl<T: Deserialize + Drop> Deserialize for Vec<T> {
    fn may_start(first: u8) -> bool {
        first == SEQUENCE
    }

    fn deserialize<R: Source>(from: &mut Deserializer<R>) -> Result<Self, Asn1DerError> {
        let elements: Elements<T> = read_sequence(SEQUENCE, from)?;
        Ok(elements.into_vec())
    }
}

impl<T: Serialize> WriteImplicit for Vec<T> {
    ghost use Rattle.asn1_der.specs.Tagged.{sequence};
    ghost use Rattle.asn1_der.specs.Seen.{Alike, seen_list, seen_items};
    ghost use Rattle.asn1_der.specs.Refusals.{list_refusal, part_refusal};
    ghost use Rattle.asn1_der.proofs.Alike.{alike-items};
    ghost use Rattle.asn1_der.proofs.Rows.{many-injective_as};
    ghost use Rattle.asn1_der.proofs.Spelling.{may_begin-only};
    ghost use Rattle.asn1_der.proofs.Tagged.{sequence_laws_as};

    const OWN: u8 = SEQUENCE;

    ghost OWN = { sequence_octet };

    ghost tree_under = { λ tag v. sequence (trees_of T.tree) tag v.items };

    ghost seen_under = { seen_items (λ v. v.items) T.seen };

    ghost refusal_under = { part_refusal (λ v. v.items) (list_refusal T.refusal) };

    ghost laws_under = { record {
      begins = λ octet v. may_begin-only octet;
      injective = λ octet v w whole also e.
          let laws = sequence_laws_as (Alike (seen_list T.seen)) (trees_of T.tree) (many-injective_as _ T.tree T.seen T.injective)
          in alike-items T.seen v w (λ v. v.items) (laws.injective octet v.items w.items whole also e);
    } };

    fn write_under<W: Sink>(&self, tag: u8, to: &mut Serializer<W>) -> Result<usize, Asn1DerError> {
        to.list(tag, &self.as_slice())
    }
}

impl<T: Deserialize + Drop> ReadImplicit for Vec<T> {
    fn read_under<R: Source>(tag: u8, from: &mut Deserializer<R>) -> Result<Self, Asn1DerError> {
        let elements: Elements<T> = read_sequence(tag, from)?;
        Ok(elements.into_vec())
    }
}
