//! Groups, and what two sides make in them.
ghost use Rattle.std.specs.Prelude.{◌≡◌, ℕ, ◌≤◌, List, IfOk, IsTrue};
ghost use Rattle.std.specs.Option.{option_map};
ghost use Rattle.public_key_cryptography.specs.Agreements.{group_of, in_range, octets_of, prime_of, public_of, shared_of, size_of};

use crate::encoding::are_octets;
use crate::group_primes::{PRIME_1024, PRIME_2048, PRIME_4096};
use modular_arithmetic::Modulus;
use std::alloc::{AllocError, Global};
use thiserror::Error;

/// A group of numbers modulo a prime, whose generator is 2.
#[derive(Clone, Copy, Debug, Drop, PartialEq, Eq)]
pub enum Group {
    /// The 1024-bit group 2 (RFC 2409, section 6.2).
    Modp1024,
    /// The 2048-bit group 14 (RFC 3526, section 3).
    Modp2048,
    /// The 4096-bit group 16 (RFC 3526, section 5).
    Modp4096,
}

/// What becomes of the 1024-bit group.
#[derive(Clone, Copy, Debug, Drop, PartialEq, Eq)]
pub enum WeakGroup {
    Refused,
    Taken,
}

/// Why no group has a prime.
#[derive(Clone, Copy, Debug, Drop, PartialEq, Eq, Error)]
pub enum GroupRefusal {
    /// The prime is that of the 1024-bit group.
    #[error("the prime is that of the 1024-bit group, which is too weak")]
    GroupTooWeak,
    /// The prime is of none of the groups.
    #[error("the prime is of no known group")]
    UnknownGroup,
}

/// What a side makes the shared secret of.
#[derive(Clone, Copy, Drop)]
pub struct Exchange<'a> {
    /// The peer's public value.
    pub value: &'a [u8],
    /// The side's own secret number.
    pub secret: &'a [u8],
}

impl Group {
    /// The group of a prime, given as octets without a zero in front.
    #[tactic(auto, unfolding(crate::specs::Agreements::group_of))]
    pub fn of_prime(octets: &[u8], weak: WeakGroup) -> Result<Group, GroupRefusal>
        ensures { result ≡ group_of octets.now weak }
    {
        if octets == PRIME_2048.as_slice() {
            return Ok(Group::Modp2048);
        }
        if octets == PRIME_4096.as_slice() {
            return Ok(Group::Modp4096);
        }
        if octets == PRIME_1024.as_slice() {
            return match weak {
                WeakGroup::Refused => Err(GroupRefusal::GroupTooWeak),
                WeakGroup::Taken => Ok(Group::Modp1024),
            };
        }
        Err(GroupRefusal::UnknownGroup)
    }

    /// The prime, as octets without a zero in front.
    pub fn prime(self) -> &'static [u8]
        ensures { result.now ≡ octets_of self }
    {
        match self {
            Group::Modp1024 => &PRIME_1024,
            Group::Modp2048 => &PRIME_2048,
            Group::Modp4096 => &PRIME_4096,
        }
    }

    /// How many octets the prime has.
    pub fn size(self) -> usize
        ensures { result ≡ size_of self }
    {
        match self {
            Group::Modp1024 => 128,
            Group::Modp2048 => 256,
            Group::Modp4096 => 512,
        }
    }

    /// The modulus that is the prime.
    fn modulus(self) -> Modulus
        ensures room { size_of self ≤ result.size }
        ensures value { result.value ≡ prime_of self }
    {
        Modulus::of(self.prime())
    }

    /// Whether a value, in no more octets than the prime has, is one of 2 to the prime less 2.
    pub fn is_in_range(self, value: &[u8]) -> bool
        ensures { result ≡ in_range self value.now }
    {
        if value.len() > self.size() {
            return false;
        }
        self.modulus().has_inside(value)
    }

    /// The public value of a secret number, in as many octets as the prime has.
    pub fn public_value(self, alloc: Global, secret: &[u8]) -> Result<Vec<u8>, AllocError>
        ensures { IfOk result (λ value. value.items ≡ public_of self secret.now) }
    {
        let mut value = vec![in alloc; 0u8; self.size()]?;
        let modulus = self.modulus();
        modulus.hidden_power(&mut value, &[2], secret);
        Ok(value)
    }

    /// The secret that is shared with the peer, in as many octets as the prime has, or `None` if the peer's value isn't one of 2 to
    /// the prime less 2.
    pub fn shared_secret(
        self,
        alloc: Global,
        exchange: &Exchange<'_>,
    ) -> Result<Option<Vec<u8>>, AllocError>
        ensures { IfOk result (λ made. option_map (λ shared. shared.items) made
            ≡ shared_of self exchange.now.value.now exchange.now.secret.now) }
    {
        if exchange.value.len() > self.size() {
            return Ok(None);
        }
        let modulus = self.modulus();
        if !modulus.has_inside(exchange.value) {
            return Ok(None);
        }
        let mut shared = vec![in alloc; 0u8; self.size()]?;
        modulus.hidden_power(&mut shared, exchange.value, exchange.secret);
        Ok(Some(shared))
    }
}

/// Two sides with public values in range come to one secret. It does nothing when it runs: its contract is the law.
pub fn agree(group: Group)
    ensures { (ours theirs : List ℕ) → IsTrue (in_range group (public_of group ours)) → IsTrue (in_range group (public_of group theirs))
        → shared_of group (public_of group theirs) ours ≡ shared_of group (public_of group ours) theirs }
{
    are_octets(group.prime());
}
