//! Signatures that are verified.
ghost use Rattle.std.specs.Prelude.{◌≡◌, Ok, Err, MatchResult};
ghost use Rattle.rsa_keys.specs.Signatures.{by_hash, by_numbers, checked, hash_named, hash_of, modulus_named, numbers_in, numbers_of, refusal_named, sha1_checked, verdict};

use crate::is_natural;
use crate::refusal::{RsaKeyRefusal, SignatureRefusal};
use modular_arithmetic::ModulusRefusal;
use public_key_cryptography::{HashFunction, KeyRefusal, PublicNumbers};
use x509_algorithms::{AlgorithmIdentifier, octet_behind};
use x509_keys::{PublicKey, RsaPublicKey, SubjectPublicKeyInfo};

/// Whether a signature by this algorithm is valid for the bytes under the key (RFC 8017, section 8.2.2), and if not, why. The first
/// refusal that holds counts, in the order of [`SignatureRefusal`].
///
/// `rsaEncryption` names no hash. In CMS it is next to the digest algorithm (RFC 3370, section 3.2), which is SHA-256 here.
#[tactic(auto, unfolding(crate::specs::Signatures::checked))]
pub fn check_signature(
    key: &SubjectPublicKeyInfo,
    algorithm: &AlgorithmIdentifier,
    signed: &[u8],
    signature: &[u8],
) -> Result<(), SignatureRefusal>
    ensures { result ≡ checked key.now algorithm.now signed.now signature.now }
{
    match hash_of(algorithm) {
        Ok(hash) => check_by_hash(hash, key.subject_public_key(), signed, signature),
        Err(refusal) => Err(refusal),
    }
}

/// The same for a signature with SHA-1, which no algorithm of [`check_signature`] names.
#[tactic(auto, unfolding(crate::specs::Signatures::sha1_checked))]
pub fn check_sha1_signature(
    key: &SubjectPublicKeyInfo,
    signed: &[u8],
    signature: &[u8],
) -> Result<(), SignatureRefusal>
    ensures { result ≡ sha1_checked key.now signed.now signature.now }
{
    check_by_hash(
        HashFunction::Sha1,
        key.subject_public_key(),
        signed,
        signature,
    )
}

fn check_by_hash(
    hash: HashFunction,
    key: &PublicKey,
    signed: &[u8],
    signature: &[u8],
) -> Result<(), SignatureRefusal>
    ensures { result ≡ by_hash (Ok hash) key.now signed.now signature.now }
{
    match numbers_in(key) {
        Ok(numbers) => check_by_numbers(hash, &numbers, signed, signature),
        Err(refusal) => Err(SignatureRefusal::Key(refusal)),
    }
}

fn check_by_numbers(
    hash: HashFunction,
    numbers: &PublicNumbers<'_>,
    signed: &[u8],
    signature: &[u8],
) -> Result<(), SignatureRefusal>
    ensures { result ≡ by_numbers hash (numbers.now.modulus.now, numbers.now.exponent.now) signed.now signature.now }
{
    match public_key_cryptography::PublicKey::new(numbers) {
        Ok(key) => verdict(key.verifies(hash, signed, signature)),
        Err(refusal) => Err(SignatureRefusal::Key(refusal_named(refusal))),
    }
}

/// The answer to a signature that is valid or not.
fn verdict(valid: bool) -> Result<(), SignatureRefusal>
    ensures { result ≡ verdict valid }
{
    if valid {
        Ok(())
    } else {
        Err(SignatureRefusal::NotValid)
    }
}

/// The hash function of a signature's algorithm.
#[tactic(auto, unfolding(crate::specs::Signatures::hash_of))]
fn hash_of(algorithm: &AlgorithmIdentifier) -> Result<HashFunction, SignatureRefusal>
    ensures { result ≡ hash_of algorithm.now }
{
    let content = algorithm.oid().as_bytes();
    match octet_behind(&[0x2A, 0x86, 0x48, 0x86, 0xF7, 0x0D, 1, 1], content) {
        Some(arc) => hash_named(arc),
        None => Err(SignatureRefusal::OtherAlgorithm),
    }
}

fn hash_named(arc: u8) -> Result<HashFunction, SignatureRefusal>
    ensures { result ≡ hash_named arc }
{
    match arc {
        1 | 11 => Ok(HashFunction::Sha256),
        12 => Ok(HashFunction::Sha384),
        13 => Ok(HashFunction::Sha512),
        4 => Err(SignatureRefusal::Md5),
        5 => Err(SignatureRefusal::Sha1),
        _ => Err(SignatureRefusal::OtherAlgorithm),
    }
}

/// The modulus and the exponent of a public key, which has to be an RSA key.
fn numbers_in(key: &PublicKey) -> Result<PublicNumbers<'_>, RsaKeyRefusal>
    ensures { MatchResult result (λ numbers. numbers_in key.now ≡ Ok (numbers.modulus.now, numbers.exponent.now)) (λ refusal. numbers_in key.now ≡ Err refusal) }
{
    match key {
        PublicKey::Rsa(key) => numbers_of(&key.0),
        PublicKey::Ec(_) => Err(RsaKeyRefusal::NotRsa),
        PublicKey::Ed(_) => Err(RsaKeyRefusal::NotRsa),
        PublicKey::Mldsa(_) => Err(RsaKeyRefusal::NotRsa),
    }
}

/// The modulus and the exponent of an RSA key. Neither may be negative.
pub(crate) fn numbers_of(key: &RsaPublicKey) -> Result<PublicNumbers<'_>, RsaKeyRefusal>
    ensures { MatchResult result (λ numbers. numbers_of key.now ≡ Ok (numbers.modulus.now, numbers.exponent.now)) (λ refusal. numbers_of key.now ≡ Err refusal) }
{
    if !is_natural(&key.modulus) {
        return Err(RsaKeyRefusal::NegativeNumber);
    }
    if !is_natural(&key.public_exponent) {
        return Err(RsaKeyRefusal::NegativeNumber);
    }
    Ok(PublicNumbers {
        modulus: key.modulus.as_unsigned_bytes_be(),
        exponent: key.public_exponent.as_unsigned_bytes_be(),
    })
}

/// The name of a key's refusal.
pub(crate) fn refusal_named(refusal: KeyRefusal) -> RsaKeyRefusal
    ensures { result ≡ refusal_named refusal }
{
    match refusal {
        KeyRefusal::Modulus(refusal) => modulus_named(refusal),
        KeyRefusal::KeyTooWeak => RsaKeyRefusal::KeyTooWeak,
        KeyRefusal::ExponentTooLong => RsaKeyRefusal::ExponentTooLong,
        KeyRefusal::ExponentTooSmall => RsaKeyRefusal::ExponentTooSmall,
        KeyRefusal::ExponentZeroInFront => RsaKeyRefusal::ZeroInFront,
        KeyRefusal::EvenExponent => RsaKeyRefusal::EvenExponent,
    }
}

fn modulus_named(refusal: ModulusRefusal) -> RsaKeyRefusal
    ensures { result ≡ modulus_named refusal }
{
    match refusal {
        ModulusRefusal::TooShort => RsaKeyRefusal::KeyTooWeak,
        ModulusRefusal::TooLong => RsaKeyRefusal::ModulusTooLong,
        ModulusRefusal::ZeroInFront => RsaKeyRefusal::ZeroInFront,
        ModulusRefusal::Even => RsaKeyRefusal::EvenModulus,
    }
}
