//! Fields that later documents add.
ghost use Rattle.std.specs.Prelude.{◌≡◌, ◌==◌};
ghost use Rattle.std.specs.List.{list_any};
ghost use Rattle.pkinit_messages.specs.Further.{ascend, is_further};

use byte_streams::{Sink, Source};
use picky_asn1_der::{Asn1DerError, Deserialize, Deserializer, Serialize, Serializer};
use std::marker::Model;

/// The identifier octets of a field from [5] to [30], primitive or constructed.
pub(crate) const FURTHER: [u8; 52] = [
    0x85, 0x86, 0x87, 0x88, 0x89, 0x8A, 0x8B, 0x8C, 0x8D, 0x8E, 0x8F, 0x90, 0x91, 0x92, 0x93, 0x94,
    0x95, 0x96, 0x97, 0x98, 0x99, 0x9A, 0x9B, 0x9C, 0x9D, 0x9E, 0xA5, 0xA6, 0xA7, 0xA8, 0xA9, 0xAA,
    0xAB, 0xAC, 0xAD, 0xAE, 0xAF, 0xB0, 0xB1, 0xB2, 0xB3, 0xB4, 0xB5, 0xB6, 0xB7, 0xB8, 0xB9, 0xBA,
    0xBB, 0xBC, 0xBD, 0xBE,
];

/// A field from [5] to [30] that a later document adds at the end of a SEQUENCE, as a whole element (X.680, section 25.2). A contract sees
/// its identifier octet and its content.
#[derive(Drop)]
pub struct FurtherField {
    first: u8,
    content: Vec<u8>,
}

impl Model for FurtherField {
    ghost use Rattle.std.specs.Prelude.{IsTrue};
    ghost use Rattle.picky_asn1_der.specs.Raw.{Raw};
    ghost use Rattle.pkinit_messages.specs.Further.{is_further};

    ghost Value = { Raw };

    ghost view = { λ f. record { first = f.first; content = f.content.items } };

    ghost invariant = { λ f. IsTrue (is_further f.first) };
}

impl FurtherField {
    /// The identifier octet.
    pub fn first(&self) -> u8
        ensures { result ≡ self.now.first }
    {
        self.first
    }

    /// The content octets.
    pub fn content(&self) -> &[u8]
        ensures { result.now ≡ self.now.content }
    {
        self.content.as_slice()
    }
}

impl Serialize for FurtherField {
    ghost use Rattle.pkinit_messages.specs.Further.{further_octets, further_tree};
    ghost use Rattle.pkinit_messages.specs.FurtherLaws.{further-begins, further-injective};

    ghost tree = { further_tree };

    ghost firsts = { further_octets };

    ghost begins = { further-begins };

    ghost injective = { further-injective };

    fn serialize<W: Sink>(&self, to: &mut Serializer<W>) -> Result<usize, Asn1DerError> {
        to.element(self.first, self.content.as_slice())
    }
}

impl Deserialize for FurtherField {
    fn may_start(first: u8) -> bool {
        is_one_of(&FURTHER, first)
    }

    fn deserialize<R: Source>(from: &mut Deserializer<R>) -> Result<Self, Asn1DerError> {
        let first = from.peek_in_limit()?;
        if !is_further(first) {
            return Err(from.refuse(Asn1DerError::InvalidData));
        }
        let content = from.content(first)?;
        Ok(FurtherField { first, content })
    }
}

#[tactic(auto, unfolding(crate::specs::Further::is_further))]
fn is_further(first: u8) -> bool
    ensures { result ≡ is_further first }
{
    is_one_of(&FURTHER, first)
}

fn is_one_of(octets: &[u8], first: u8) -> bool
    ensures { result ≡ list_any (λ octet. octet == first) octets.now }
{
    octets.iter().any(|octet| *octet == first)
}

/// Whether the numbers of the tags ascend, each beyond `last`: so no field is there twice.
pub fn ascend(last: u8, fields: &[FurtherField]) -> bool
    ensures { result ≡ ascend last fields.now }
{
    let [field, more @ ..] = fields else {
        return true;
    };
    let number = field.first() % 32;
    last < number && ascend(number, more)
}
