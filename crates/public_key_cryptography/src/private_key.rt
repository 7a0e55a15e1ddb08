//! Private keys, and signatures that they make (RFC 8017, section 8.2.1).
ghost use Rattle.std.specs.Prelude.{◌≡◌, ◌*◌, ◌≤◌, length, Some, None, IfOk, IfSome, IsTrue, if◌then◌else◌};
ghost use Rattle.std.specs.Option.{option_map};
ghost use Rattle.modular_arithmetic.specs.Naturals.{i2osp, os2ip};
ghost use Rattle.public_key_cryptography.specs.PrimeSizes.{all_fit, fits};

use crate::encoding::encode;
use crate::hash::HashFunction;
use crate::public_key::{MOST_OCTETS, PublicKey};
use crate::rsa_primes::Primes;
use std::alloc::{AllocError, Global};

/// A private key: its public key, and the private exponent as octets, the most significant first. It may have the two primes, by which
/// signing takes a third of the time (RFC 8017, section 3.2).
#[derive(Drop)]
pub struct PrivateKey {
    pub(crate) public: PublicKey,
    pub(crate) exponent: Vec<u8>,
    primes: Option<Primes>,
    ghost fit: { IsTrue (all_fit primes public) },
}

impl PrivateKey {
    ghost use Rattle.public_key_cryptography.specs.Pkcs1.{private_root, signature_of, signed, verifies};
    ghost use Rattle.public_key_cryptography.specs.RightKeys.{IsRight};

    /// The key of this private exponent.
    pub fn new(public: PublicKey, exponent: Vec<u8>) -> PrivateKey
        ensures public { result.public ≡ public }
        ensures exponent { result.exponent ≡ exponent }
        ensures primes { result.primes ≡ None }
    {
        PrivateKey {
            public,
            exponent,
            primes: None,
        }
    }

    /// This key, which then signs by these primes. Where their length doesn't fit the modulus's, it signs by the exponent.
    pub fn with_primes(self, primes: Primes) -> PrivateKey
        ensures public { result.public ≡ self.public }
        ensures exponent { result.exponent ≡ self.exponent }
        ensures primes { result.primes ≡ (if fits primes self.public then Some primes else None) }
    {
        let PrivateKey {
            public,
            exponent,
            ..
        } = self;
        let fits = primes.fits(&public);
        PrivateKey {
            public,
            exponent,
            primes: if fits { Some(primes) } else { None },
        }
    }

    /// The public key.
    pub fn public(&self) -> &PublicKey
        ensures { result.now ≡ self.now.public }
    {
        &self.public
    }

    /// The signature of a message, or `None` if it doesn't verify under the public key. The steps up to that test do not depend on
    /// the private exponent, but on how many octets it has.
    pub fn sign(
        &self,
        alloc: Global,
        hash: HashFunction,
        message: &[u8],
    ) -> Result<Option<Vec<u8>>, AllocError>
        ensures made { IfOk result (λ made. option_map (λ signature. signature.items) made ≡ signed self.now hash message.now) }
        ensures verified { IfOk result (λ made. IfSome made (λ signature.
            IsTrue (verifies self.now.public hash message.now signature.items))) }
        ensures right { IsRight self.now → IfOk result (λ made.
            option_map (λ signature. signature.items) made ≡ Some (signature_of self.now hash message.now)) }
    {
        let mut encoded = [0u8; MOST_OCTETS];
        let encoded = &mut encoded[..self.public.len];
        encode(encoded, hash, message);
        let mut signature = vec![in alloc; 0u8; self.public.len]?;
        self.root(&mut signature, encoded);
        Ok(self.unless_wrong(hash, message, signature))
    }

    /// The signature that was made, or `None` if it doesn't verify under the public key.
    fn unless_wrong(
        &self,
        hash: HashFunction,
        message: &[u8],
        signature: Vec<u8>,
    ) -> Option<Vec<u8>>
        requires { signature.items ≡ signature_of self.now hash message.now }
        ensures made { option_map (λ signature. signature.items) result ≡ signed self.now hash message.now }
        ensures verified { IfSome result (λ signature. IsTrue (verifies self.now.public hash message.now signature.items)) }
    {
        if !self.public.verifies(hash, message, &signature) {
            return None;
        }
        Some(signature)
    }

    /// Writes a number to the private exponent, by the primes where the key has them (RFC 8017, section 5.2.1).
    fn root(&self, out: &mut [u8], number: &[u8])
        requires out_len { length out.old ≡ self.now.public.len }
        requires number_len { length number.now ≡ self.now.public.len }
        ensures { out.new ≡ i2osp (length out.old) (private_root self.now (os2ip number.now)) }
    {
        match &self.primes {
            Some(primes) => primes.root(out, number, &self.public.modulus),
            None => self
                .public
                .modulus
                .hidden_power(out, number, &self.exponent),
        }
    }
}
