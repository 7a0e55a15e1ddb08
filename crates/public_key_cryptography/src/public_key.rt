//! Public keys, and signatures that verify under them (RFC 8017, section 8.2.2).
ghost use Rattle.std.specs.Prelude.{◌≡◌, ◌-◌, ◌^◌, ◌<◌, ◌≤◌, length, nat_eq, slice_index, Some, MatchResult};
ghost use Rattle.modular_arithmetic.specs.Naturals.{os2ip};
ghost use Rattle.public_key_cryptography.specs.Keys.{exponent_refusal, further_refusal, is_weak, refusal_of};

use crate::encoding::{are_octets, encode};
use crate::hash::HashFunction;
use modular_arithmetic::octets::read_octets;
use modular_arithmetic::{Modulus, ModulusRefusal};
use thiserror::Error;

/// The octets of the longest modulus.
pub(crate) const MOST_OCTETS: usize = 512;

/// Why a key is refused.
#[derive(Clone, Copy, Debug, Drop, PartialEq, Eq, Error)]
pub enum KeyRefusal {
    /// The modulus is even, too short, too long, or begins with a zero octet.
    #[error("{0}")]
    Modulus(ModulusRefusal),
    /// The modulus has fewer than 2,048 bits.
    #[error("the modulus has fewer than 2,048 bits")]
    KeyTooWeak,
    /// The public exponent has more than eight octets.
    #[error("the public exponent has more than eight octets")]
    ExponentTooLong,
    /// The public exponent is 0 or 1.
    #[error("the public exponent is 0 or 1")]
    ExponentTooSmall,
    /// The public exponent begins with a zero octet.
    #[error("the public exponent has a zero octet in front")]
    ExponentZeroInFront,
    /// The public exponent is even.
    #[error("the public exponent is even")]
    EvenExponent,
}

/// The numbers of a public key as octets, the most significant first (RFC 8017, section 3.1).
#[derive(Clone, Copy, Drop)]
pub struct PublicNumbers<'a> {
    pub modulus: &'a [u8],
    pub exponent: &'a [u8],
}

/// A public key.
#[derive(Drop)]
pub struct PublicKey {
    pub(crate) modulus: Modulus,
    pub(crate) len: usize,
    pub(crate) exponent: u64,
    ghost least: { 256 ≤ len },
    ghost most: { len ≤ 512 },
    ghost room: { len ≤ modulus.size },
    ghost some: { 0 < exponent },
    ghost fits: { modulus.value < 256 ^ len },
    ghost high: { 256 ^ (len - 1) ≤ modulus.value },
}

/// Whether a modulus has fewer than 2,048 bits.
fn is_weak(modulus: &[u8]) -> bool
    requires { 0 < length modulus.now }
    ensures { result ≡ is_weak modulus.now }
{
    modulus.len() < 256 || modulus.len() == 256 && modulus[0] < 128
}

/// The number of a public exponent.
fn exponent_of(octets: &[u8]) -> u64
    requires { length octets.now ≤ 8 }
    ensures { result ≡ os2ip octets.now }
{
    let mut words = [0u64; 1];
    read_octets(&mut words, octets);
    words[0]
}

/// Whether no octet is the first, or a zero octet.
fn has_zero_in_front(octets: &[u8]) -> bool
    ensures { result ≡ nat_eq (slice_index octets.now 0) 0 }
{
    match octets {
        [first, ..] => *first == 0,
        [] => true,
    }
}

/// Why a public exponent is refused, if it is.
fn exponent_refusal(exponent: &[u8]) -> Option<KeyRefusal>
    ensures { result ≡ exponent_refusal exponent.now }
{
    if exponent.len() > 8 {
        return Some(KeyRefusal::ExponentTooLong);
    }
    if exponent_of(exponent) < 2 {
        return Some(KeyRefusal::ExponentTooSmall);
    }
    if has_zero_in_front(exponent) {
        return Some(KeyRefusal::ExponentZeroInFront);
    }
    if exponent_of(exponent) % 2 == 0 {
        return Some(KeyRefusal::EvenExponent);
    }
    None
}

/// Why the numbers are refused, if they are, whose modulus is odd and of a fit length.
fn further_refusal(numbers: &PublicNumbers<'_>) -> Option<KeyRefusal>
    requires { 0 < length numbers.now.modulus.now }
    ensures { result ≡ further_refusal numbers.now.modulus.now numbers.now.exponent.now }
{
    if is_weak(numbers.modulus) {
        return Some(KeyRefusal::KeyTooWeak);
    }
    exponent_refusal(numbers.exponent)
}

impl PublicKey {
    ghost use Rattle.public_key_cryptography.specs.Pkcs1.{verifies, IsKeyOf};

    /// The key of these numbers.
    pub fn new(numbers: &PublicNumbers<'_>) -> Result<PublicKey, KeyRefusal>
        ensures { MatchResult result (λ key. IsKeyOf key numbers.now.modulus.now numbers.now.exponent.now)
            (λ refusal. refusal_of numbers.now.modulus.now numbers.now.exponent.now ≡ Some refusal) }
    {
        let modulus = match Modulus::new(numbers.modulus) {
            Ok(modulus) => modulus,
            Err(refusal) => return Err(KeyRefusal::Modulus(refusal)),
        };
        match further_refusal(numbers) {
            Some(refusal) => return Err(refusal),
            None => {}
        }
        are_octets(numbers.modulus);
        let len = numbers.modulus.len();
        let exponent = exponent_of(numbers.exponent);
        Ok(PublicKey {
            modulus,
            len,
            exponent,
        })
    }

    /// Whether a signature is valid for a message.
    #[tactic(auto, unfolding(crate::specs::Pkcs1::verifies))]
    pub fn verifies(&self, hash: HashFunction, message: &[u8], signature: &[u8]) -> bool
        ensures { result ≡ verifies self.now hash message.now signature.now }
    {
        if signature.len() != self.len {
            return false;
        }
        if !self.modulus.exceeds(signature) {
            return false;
        }
        let mut recovered = [0u8; MOST_OCTETS];
        let mut expected = [0u8; MOST_OCTETS];
        let recovered = &mut recovered[..self.len];
        let expected = &mut expected[..self.len];
        self.modulus.power(recovered, signature, self.exponent);
        encode(expected, hash, message);
        &*recovered == &*expected
    }
}
