//! The content of an element that was read.
ghost use Rattle.std.specs.Prelude.{◌≡◌, ℕ, ◌≤◌, List, take};

use std::marker::Model;

/// How many octets take no memory.
///
/// A deserializer reads so many into the stack.
pub const MOST_IN_PLACE: usize = 32;

#[derive(Drop)]
enum Octets {
    // So many octets at the front.
    InPlace([u8; MOST_IN_PLACE], usize),
    Owned(Vec<u8>),
}

/// The content octets of an element that was read. Short ones take no memory. A contract sees their list.
#[derive(Drop)]
pub struct Content {
    octets: Octets,
}

impl Model for Content {
    ghost use Rattle.std.specs.Prelude.{ℕ, List};

    ghost Value = { List ℕ };

    ghost use Rattle.asn1_der.specs.Contents.{octets_in, IsInPlace};

    ghost view = { λ c. octets_in c.octets };

    ghost invariant = { λ c. IsInPlace c.octets };
}

impl Content {
    /// The first octets of these.
    ///
    /// A deserializer makes a short content by it.
    pub fn in_place(octets: [u8; MOST_IN_PLACE], count: usize) -> Content
        requires { count ≤ MOST_IN_PLACE }
        ensures { result ≡ take count octets }
    {
        Content {
            octets: Octets::InPlace(octets, count),
        }
    }

    /// The octets.
    pub fn as_bytes(&self) -> &[u8]
        ensures { result.now ≡ self.now }
    {
        match &self.octets {
            Octets::InPlace(octets, count) => &octets[..*count],
            Octets::Owned(octets) => octets.as_slice(),
        }
    }
}

impl From<Vec<u8>> for Content {
    ghost from_gives = { λ octets content. content ≡ octets.items };

    fn from(octets: Vec<u8>) -> Content {
        Content {
            octets: Octets::Owned(octets),
        }
    }
}
