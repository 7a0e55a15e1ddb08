//! Private keys by which a party signs.
ghost use Rattle.std.specs.Prelude.{◌≡◌, length, IfOk, IsTrue, MatchResult, None, Some, if◌then◌else◌};
ghost use Rattle.std.specs.Option.{option_map};
ghost use Rattle.picky_asn1.specs.Integer.{unsigned_octets};
ghost use Rattle.modular_arithmetic.specs.Naturals.{os2ip};
ghost use Rattle.public_key_cryptography.specs.Keys.{refusal_of};
ghost use Rattle.public_key_cryptography.specs.Pkcs1.{IsKeyOf};
ghost use Rattle.public_key_cryptography.specs.PrimeSizes.{fits};
ghost use Rattle.rsa_keys.specs.OwnKeys.{IsUsable, has_naturals, is_sha256, is_taken, key_refusal};
ghost use Rattle.rsa_keys.specs.PrivateNumbers.{AreNumbersOf, HaveNumbers};
ghost use Rattle.rsa_keys.specs.Signatures.{refusal_named};

use crate::refusal::RsaKeyRefusal;
use crate::signature::{numbers_of, refusal_named};
use picky_asn1::wrapper::IntegerAsn1;
use public_key_cryptography::{PrimeNumbers, Primes, PrivateKey, PublicKey, PublicNumbers};
use std::alloc::{AllocError, Global};
use x509_algorithms::AlgorithmIdentifier;
use x509_keys::{RsaPrivateKey, RsaPublicKey, SignatureAlgorithm};

/// A private key of RSA with its public key, and the algorithm that its signatures name: sha256WithRSAEncryption.
#[derive(Drop)]
pub struct OwnKey {
    public: RsaPublicKey,
    private: PrivateKey,
    algorithm: SignatureAlgorithm,
    pub ghost naturals: { IsTrue (has_naturals public) },
    pub ghost taken: { IsTrue (is_taken public) },
    pub ghost len: { private.public.len ≡ length (unsigned_octets public.modulus) },
    pub ghost exponent: { private.public.exponent ≡ os2ip (unsigned_octets public.public_exponent) },
    pub ghost value: { private.public.modulus.value ≡ os2ip (unsigned_octets public.modulus) },
    pub ghost sha256: { IsTrue (is_sha256 algorithm) },
}

impl OwnKey {
    ghost use Rattle.rsa_keys.specs.PrivateKeys.{IsOwnKeyOf, public_part};

    /// The key of a public key and the private exponent, as octets, the most significant first. Whether they are a pair isn't tested:
    /// where they aren't, the key doesn't sign.
    pub fn new(
        alloc: Global,
        public: RsaPublicKey,
        exponent: Vec<u8>,
    ) -> Result<Result<OwnKey, RsaKeyRefusal>, AllocError>
        ensures { IfOk result (λ made. MatchResult made (λ own. (own.public ≡ public) × (own.private.exponent ≡ exponent) × (own.private.primes ≡ None)) (λ refusal. key_refusal public ≡ Some refusal)) }
    {
        let algorithm = AlgorithmIdentifier::new_sha256_with_rsa_encryption(alloc)?;
        Ok(OwnKey::of(SignatureAlgorithm::new(algorithm), public, exponent))
    }

    fn of(
        algorithm: SignatureAlgorithm,
        public: RsaPublicKey,
        exponent: Vec<u8>,
    ) -> Result<OwnKey, RsaKeyRefusal>
        requires { IsTrue (is_sha256 algorithm) }
        ensures { MatchResult result (λ own. (own.public ≡ public) × (own.private.exponent ≡ exponent) × (own.private.primes ≡ None)) (λ refusal. key_refusal public ≡ Some refusal) }
    {
        match public_key_of(&public) {
            Ok(key) => Ok(OwnKey {
                public,
                private: PrivateKey::new(key, exponent),
                algorithm,
            }),
            Err(refusal) => Err(refusal),
        }
    }

    /// The key of a private key of PKCS#1 (RFC 8017, appendix A.1.2). It signs by its primes where their lengths fit.
    pub fn of_private(
        alloc: Global,
        key: &RsaPrivateKey,
    ) -> Result<Result<OwnKey, RsaKeyRefusal>, AllocError>
        ensures { IfOk result (λ made. MatchResult made (IsOwnKeyOf key.now) (λ refusal. key_refusal (public_part key.now) ≡ Some refusal)) }
    {
        let numbers = prime_numbers(alloc, key)?;
        let public = public_part(key)?;
        let exponent = octets_of(alloc, &key.private_exponent)?;
        match OwnKey::new(alloc, public, exponent)? {
            Ok(own) => Ok(Ok(own.by_numbers(numbers))),
            Err(refusal) => Ok(Err(refusal)),
        }
    }

    // This key, which then signs by the primes of these numbers if they are taken.
    fn by_numbers(self, numbers: PrimeNumbers) -> OwnKey
        requires { self.private.primes ≡ None }
        ensures public { result.public ≡ self.public }
        ensures exponent { result.private.exponent ≡ self.private.exponent }
        ensures primes { HaveNumbers numbers result.private.primes }
    {
        match Primes::new(numbers) {
            Ok(primes) => self.with_primes(primes),
            Err(_) => self,
        }
    }

    /// This key, which then signs by its two primes, in a third of the time (RFC 8017, section 5.2.1). Where their length doesn't fit the
    /// modulus's, it signs by the exponent.
    pub fn with_primes(self, primes: Primes) -> OwnKey
        ensures public { result.public ≡ self.public }
        ensures arithmetic { result.private.public ≡ self.private.public }
        ensures exponent { result.private.exponent ≡ self.private.exponent }
        ensures primes { result.private.primes ≡ (if fits primes self.private.public then Some primes else None) }
        ensures algorithm { result.algorithm ≡ self.algorithm }
    {
        let OwnKey {
            public,
            private,
            algorithm,
        } = self;
        OwnKey {
            public,
            private: private.with_primes(primes),
            algorithm,
        }
    }

    /// The public key.
    pub fn public(&self) -> &RsaPublicKey
        ensures { result.now ≡ self.now.public }
    {
        &self.public
    }

    /// The private key.
    pub(crate) fn private(&self) -> &PrivateKey
        ensures { result.now ≡ self.now.private }
    {
        &self.private
    }

    /// The algorithm that signatures name.
    pub(crate) fn algorithm(&self) -> &AlgorithmIdentifier
        ensures { result.now ≡ self.now.algorithm.algorithm }
    {
        self.algorithm.identifier()
    }
}

/// The public part of a private key (RFC 8017, section 3.2).
fn public_part(key: &RsaPrivateKey) -> Result<RsaPublicKey, AllocError>
    ensures { IfOk result (λ public. public ≡ record { modulus = key.now.modulus; public_exponent = key.now.public_exponent }) }
{
    let modulus = key.modulus.clone()?;
    let public_exponent = key.public_exponent.clone()?;
    Ok(RsaPublicKey {
        modulus,
        public_exponent,
    })
}

/// The primes of a private key, and what goes with them.
fn prime_numbers(alloc: Global, key: &RsaPrivateKey) -> Result<PrimeNumbers, AllocError>
    ensures { IfOk result (λ numbers. AreNumbersOf key.now numbers) }
{
    let prime1 = octets_of(alloc, &key.prime_1)?;
    let prime2 = octets_of(alloc, &key.prime_2)?;
    let exponent1 = octets_of(alloc, &key.exponent_1)?;
    let exponent2 = octets_of(alloc, &key.exponent_2)?;
    let coefficient = octets_of(alloc, &key.coefficient)?;
    Ok(PrimeNumbers {
        prime1,
        prime2,
        exponent1,
        exponent2,
        coefficient,
    })
}

/// The octets of a number, the most significant first.
fn octets_of(alloc: Global, number: &IntegerAsn1) -> Result<Vec<u8>, AllocError>
    ensures { IfOk result (λ octets. octets.items ≡ unsigned_octets number.now) }
{
    Vec::from_slice(alloc, number.as_unsigned_bytes_be())
}

/// The key of RSA's arithmetic.
fn public_key_of(key: &RsaPublicKey) -> Result<PublicKey, RsaKeyRefusal>
    ensures { MatchResult result (λ made. IsUsable made key.now) (λ refusal. key_refusal key.now ≡ Some refusal) }
{
    match numbers_of(key) {
        Ok(numbers) => key_of_numbers(&numbers),
        Err(refusal) => Err(refusal),
    }
}

fn key_of_numbers(numbers: &PublicNumbers<'_>) -> Result<PublicKey, RsaKeyRefusal>
    ensures { MatchResult result (λ made. IsKeyOf made numbers.now.modulus.now numbers.now.exponent.now)
        (λ refusal. option_map refusal_named (refusal_of numbers.now.modulus.now numbers.now.exponent.now) ≡ Some refusal) }
{
    match PublicKey::new(numbers) {
        Ok(made) => Ok(made),
        Err(refusal) => Err(refusal_named(refusal)),
    }
}
