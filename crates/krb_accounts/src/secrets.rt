//! Passwords and keys, which come by standard input.

use crate::arguments::KeySource;
use krb_account_texts::{LineFault, read_key};
use krb_commands::{Stop, failed, read_input, refused};
use krb_crypto::{Cipher, CipherSuite, KerberosCryptoError, Key};
use krb_realm_accounts::password_salt;
use picky_asn1::wrapper::{GeneralStringAsn1, OctetStringAsn1};
use std::alloc::{AllocError, Global};
use std::random::RandomSource;

/// How many octets standard input may have.
const SECRET_LIMIT: usize = 4_096;

/// How many octets the largest seed of a key has.
const SEED_ROOM: usize = 32;

/// A key, and the salt with which it was made of a password, if it was.
#[derive(Drop)]
pub(crate) struct SaltedKey {
    /// The key.
    pub(crate) key: Key,
    /// The salt.
    pub(crate) salt: Option<OctetStringAsn1>,
}

/// Of what a key is made.
#[derive(Drop)]
pub(crate) enum KeyInput {
    /// A password.
    Password(Vec<u8>),
    /// The key's hexadecimal digits.
    Digits(Vec<u8>),
    /// Random octets.
    Random,
}

/// What this source gives: where a line of standard input is wanted, that line.
pub(crate) fn input_of(rt: &HostRuntime, source: KeySource) -> Result<KeyInput, Stop> {
    match source {
        KeySource::Password => Ok(KeyInput::Password(read_secret(rt)?)),
        KeySource::Digits => Ok(KeyInput::Digits(read_secret(rt)?)),
        KeySource::Random => Ok(KeyInput::Random),
    }
}

/// The key of a suite that is made of no password: that of hexadecimal digits, or of random octets.
pub(crate) fn key_without_password(
    rt: &HostRuntime,
    suite: CipherSuite,
    input: &KeyInput,
) -> Result<SaltedKey, Stop> {
    match input {
        KeyInput::Random => random_key(rt, suite),
        KeyInput::Password(line) | KeyInput::Digits(line) => key_of_digits(rt.alloc(), suite, line),
    }
}

// A key of the system's random octets (RFC 3961, section 3, random-to-key): of triple DES it has odd parity and no weak part.
#[tactic(auto, using(crate::proofs::Seeds::seed_room))]
fn random_key(rt: &HostRuntime, suite: CipherSuite) -> Result<SaltedKey, Stop> {
    let octets = random_octets(rt)?;
    let size = suite.seed_bit_len() / 8;
    let Ok(key) = Key::of_seed(rt.alloc(), suite, &octets[..size]) else {
        return Err(Stop::Memory);
    };
    Ok(SaltedKey { key, salt: None })
}

// The system's random octets, as many as the largest seed has.
fn random_octets(rt: &HostRuntime) -> Result<[u8; SEED_ROOM], Stop> {
    let mut octets = [0; SEED_ROOM];
    match rt.fill_bytes(&mut octets) {
        Ok(()) => Ok(octets),
        Err(fault) => Err(failed(
            rt.alloc(),
            format_args!("the system's random octets can't be read: {fault}"),
        )),
    }
}

/// The one line of standard input, without its end.
fn read_secret(rt: &HostRuntime) -> Result<Vec<u8>, Stop> {
    let mut octets = read_input(rt, SECRET_LIMIT as u64 + 1)?;
    if octets.last() == Some(&b'\n') {
        let _end = octets.pop();
    }
    if octets.is_empty() || SECRET_LIMIT < octets.len() || octets.contains(&b'\n') {
        return Err(refused(
            rt.alloc(),
            "standard input: expected one line of 1 to 4096 octets, the password or the key",
        ));
    }
    Ok(octets)
}

// The key of a suite that hexadecimal digits write.
fn key_of_digits(alloc: Global, suite: CipherSuite, digits: &[u8]) -> Result<SaltedKey, Stop> {
    let digits = str::from_utf8(digits).unwrap_or("");
    match read_key(alloc, suite, digits) {
        Ok(key) => Ok(SaltedKey { key, salt: None }),
        Err(LineFault::Memory) => Err(Stop::Memory),
        Err(_) => Err(refused(
            alloc,
            format_args!(
                "standard input: expected {} hexadecimal digits",
                suite.key_size().saturating_mul(2)
            ),
        )),
    }
}

/// The key of a password, with the salt that a realm and a name have (RFC 4120, section 4).
pub(crate) fn key_of_password(
    alloc: Global,
    suite: CipherSuite,
    password: &[u8],
    realm: &[u8],
    name: &[GeneralStringAsn1],
) -> Result<SaltedKey, Stop> {
    let salt = salt_of(alloc, realm, name)?;
    match Key::of_password(alloc, suite, password, &salt) {
        Ok(key) => Ok(SaltedKey {
            key,
            salt: Some(OctetStringAsn1::from(salt)),
        }),
        Err(KerberosCryptoError::Memory) => Err(Stop::Memory),
        Err(_) => Err(refused(alloc, "standard input: expected a password")),
    }
}

fn salt_of(alloc: Global, realm: &[u8], name: &[GeneralStringAsn1]) -> Result<Vec<u8>, AllocError> {
    let components = octets_of(alloc, name)?;
    password_salt(alloc, realm, &components)
}

/// The octets of each component.
pub(crate) fn octets_of(
    alloc: Global,
    name: &[GeneralStringAsn1],
) -> Result<Vec<Vec<u8>>, AllocError> {
    let mut components = Vec::new(alloc);
    for component in name {
        components.push(Vec::from_slice(alloc, component.as_bytes())?)?;
    }
    Ok(components)
}
