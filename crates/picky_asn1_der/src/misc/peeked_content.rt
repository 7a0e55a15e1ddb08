//! Octets that were looked at.
ghost use Rattle.std.specs.Prelude.{◌≡◌, ◌<◌, ◌≤◌, [], ◌∷◌, ◌++◌, length, take, MatchOption};

use std::marker::Model;

/// How many octets are looked at, at most.
pub const PEEKED_BUFFER_SIZE: usize = 10;

/// Octets that were looked at, at most ten. A contract sees their list.
#[derive(Drop)]
pub struct PeekedContent {
    octets: [u8; PEEKED_BUFFER_SIZE],
    count: usize,
}

impl Model for PeekedContent {
    ghost use Rattle.std.specs.Prelude.{ℕ, List, take, ◌≤◌};

    ghost Value = { List ℕ };

    ghost view = { λ c. take c.count c.octets };

    ghost invariant = { λ c. c.count ≤ 10 };
}

impl PeekedContent {
    // No octets.
    pub(crate) fn new() -> PeekedContent
        ensures { result ≡ [] }
    {
        PeekedContent {
            octets: [0; PEEKED_BUFFER_SIZE],
            count: 0,
        }
    }

    /// The octets, of which none is left here.
    pub fn take(&mut self) -> PeekedContent
        ensures taken { result ≡ self.old }
        ensures left { self.new ≡ [] }
    {
        let taken = self.copy();
        self.count = 0;
        taken
    }

    /// How many they are.
    pub fn len(&self) -> usize
        ensures { result ≡ length self.now }
    {
        self.count
    }

    /// The octets, at the front of a buffer.
    pub fn buffer(&self) -> [u8; PEEKED_BUFFER_SIZE]
        ensures { take (length self.now) result ≡ self.now }
    {
        self.octets
    }

    // A copy of the octets.
    pub(crate) fn copy(&self) -> PeekedContent
        ensures { result ≡ self.now }
    {
        PeekedContent {
            octets: self.octets,
            count: self.count,
        }
    }

    // One octet more, behind the others.
    pub(crate) fn push(&mut self, octet: u8)
        requires { length self.old < 10 }
        ensures { self.new ≡ self.old ++ (octet ∷ []) }
    {
        self.octets[self.count] = octet;
        self.count += 1;
    }

    // The first octet, which is left here no longer.
    pub(crate) fn take_one(&mut self) -> u8
        requires { 1 ≤ length self.old }
        ensures { self.old ≡ result ∷ self.new }
    {
        let octet = self.octets[0];
        self.octets.rotate_left(1);
        self.count -= 1;
        octet
    }

    // The first octet, or none.
    pub(crate) fn first(&self) -> Option<u8>
        ensures { MatchOption result (self.now ≡ []) (λ octet. take 1 self.now ≡ octet ∷ []) }
    {
        if self.count == 0 {
            return None;
        }
        Some(self.octets[0])
    }
}
