//! Keys and signatures of RSA.

use crate::signed::key_rows::KeyRow;
use public_key_cryptography::Group;
use rsa_keys::{OwnKey, RsaKeyRefusal, RsaKeys, SignatureRefusal, check_signature};
use std::alloc::Global;
use x509_algorithms::AlgorithmIdentifier;
use x509_codec::{from_bytes, to_vec};
use x509_keys::{KeyFunctions, PublicKey, RsaPublicKey, Signed, SubjectPublicKeyInfo};

/// AlgorithmIdentifier of sha256WithRSAEncryption, with NULL (RFC 4055, section 5).
const SHA256_WITH_RSA: [u8; 15] = [
    0x30, 0x0d, 0x06, 0x09, 0x2a, 0x86, 0x48, 0x86, 0xf7, 0x0d, 0x01, 0x01, 0x0b, 0x05, 0x00,
];

fn key_name(refusal: RsaKeyRefusal) -> &'static str {
    match refusal {
        RsaKeyRefusal::NotRsa => "NotRsa",
        RsaKeyRefusal::NegativeNumber => "NegativeNumber",
        RsaKeyRefusal::KeyTooWeak => "KeyTooWeak",
        RsaKeyRefusal::ModulusTooLong => "ModulusTooLong",
        RsaKeyRefusal::EvenModulus => "EvenModulus",
        RsaKeyRefusal::ExponentTooSmall => "ExponentTooSmall",
        RsaKeyRefusal::EvenExponent => "EvenExponent",
        RsaKeyRefusal::ExponentTooLong => "ExponentTooLong",
        RsaKeyRefusal::ZeroInFront => "ZeroInFront",
    }
}

fn signature_name(refusal: SignatureRefusal) -> &'static str {
    match refusal {
        SignatureRefusal::Md5 => "Md5",
        SignatureRefusal::Sha1 => "Sha1",
        SignatureRefusal::OtherAlgorithm => "OtherAlgorithm",
        SignatureRefusal::Key(refusal) => key_name(refusal),
        SignatureRefusal::NotValid => "NotValid",
    }
}

/// The key of a SubjectPublicKeyInfo, if it is one of RSA.
fn rsa_key_in(alloc: Global, bytes: &[u8]) -> Option<RsaPublicKey> {
    let info = from_bytes::<SubjectPublicKeyInfo>(alloc, bytes).ok()?;
    match info.subject_public_key() {
        PublicKey::Rsa(key) => key.0.clone().ok(),
        _ => None,
    }
}

/// The key functions of a public key, as SubjectPublicKeyInfo, and its private exponent.
fn keys_of(
    alloc: Global,
    public: &[u8],
    exponent: &[u8],
) -> Option<Result<RsaKeys, RsaKeyRefusal>> {
    let public = rsa_key_in(alloc, public)?;
    let exponent = Vec::from_slice(alloc, exponent).ok()?;
    match OwnKey::new(alloc, public, exponent).ok()? {
        Ok(own) => Some(Ok(RsaKeys::new(Group::Modp2048, Some(own)))),
        Err(refusal) => Some(Err(refusal)),
    }
}

/// A key, an algorithm, a message and a signature, which is valid or refused by name.
pub(crate) fn is_checked(alloc: Global, row: &KeyRow<'_>) -> Option<bool> {
    let [key, algorithm, message, signature] = row.columns.as_slice() else {
        return None;
    };
    let key = from_bytes::<SubjectPublicKeyInfo>(alloc, key).ok()?;
    let refusal = refusal_under(alloc, &key, algorithm, (message, signature));
    drop(key);
    Some(refusal? == row.first)
}

/// Why a message and its signature are refused, or `valid`.
fn refusal_under(
    alloc: Global,
    key: &SubjectPublicKeyInfo,
    algorithm: &[u8],
    signed: (&[u8], &[u8]),
) -> Option<&'static str> {
    let algorithm = from_bytes::<AlgorithmIdentifier>(alloc, algorithm).ok()?;
    match check_signature(key, &algorithm, signed.0, signed.1) {
        Ok(()) => Some("valid"),
        Err(refusal) => Some(signature_name(refusal)),
    }
}

/// A key, its private exponent, a message and the signature, if there is one.
pub(crate) fn is_signed(alloc: Global, row: &KeyRow<'_>) -> Option<bool> {
    let [key, exponent, message, signature] = row.columns.as_slice() else {
        return None;
    };
    match keys_of(alloc, key, exponent)? {
        Ok(keys) => is_signed_by(alloc, &keys, message, signature),
        Err(_) => None,
    }
}

fn is_signed_by(alloc: Global, keys: &RsaKeys, message: &[u8], signature: &[u8]) -> Option<bool> {
    match keys.sign(alloc, message).ok()? {
        Some(made) => is_of_sha256(alloc, &made, signature),
        None => Some(signature.is_empty()),
    }
}

/// Whether a signature has these octets, and the name of RSA with SHA-256.
fn is_of_sha256(alloc: Global, made: &Signed, signature: &[u8]) -> Option<bool> {
    let name = to_vec(alloc, &made.algorithm).ok()?;
    Some(made.signature.as_bytes() == signature && name.as_slice() == SHA256_WITH_RSA.as_slice())
}

/// A key with a private exponent that is taken, or refused by name.
pub(crate) fn is_own(alloc: Global, row: &KeyRow<'_>) -> Option<bool> {
    let [key, exponent] = row.columns.as_slice() else {
        return None;
    };
    match keys_of(alloc, key, exponent)? {
        Ok(_) => Some(row.first == "taken"),
        Err(refusal) => Some(key_name(refusal) == row.first),
    }
}
