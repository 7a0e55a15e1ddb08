//! The octets that a key is made from: digests with a counter in front, one after the other.
ghost use Rattle.std.specs.Prelude.{◌≡◌, ◌≤◌, ◌++◌, IfOk};
ghost use Rattle.std.specs.Int.{div_ceil, to_be_bytes, w32};
ghost use Rattle.sha1.specs.Sha1.{sha1};
ghost use Rattle.sha2.specs.Sha256.{sha256};
ghost use Rattle.sha2.specs.Sha512.{sha512};
ghost use Rattle.pkinit_messages.specs.Kdfs.{digest_size, hash_of, kdf_octets};

use crate::agility::kdf::Kdf;
use sha1::Sha1;
use sha2::{Digest, Sha256, Sha512};
use std::alloc::{AllocError, Global};

/// The first `len` octets of the digests that the function makes of these octets.
pub(crate) fn kdf_octets(
    alloc: Global,
    kdf: Kdf,
    octets: &[u8],
    len: usize,
) -> Result<Vec<u8>, AllocError>
    requires { len ≤ 5120 }
    ensures { IfOk result (λ v. v.items ≡ kdf_octets kdf len octets.now) }
{
    let mut bytes = Vec::new(alloc);
    for done in 0..digest_count(kdf, len) {
        push_digest(&mut bytes, kdf, done + 1, octets)?;
    }
    bytes.truncate(len);
    Ok(bytes)
}

// How many digests are enough for so many octets.
fn digest_count(kdf: Kdf, len: usize) -> u32
    requires { len ≤ 5120 }
    ensures enough { result ≡ div_ceil len (digest_size kdf) }
    ensures few { result ≤ 256 }
{
    match kdf {
        Kdf::Sha1 => len.div_ceil(20) as u32,
        Kdf::Sha256 => len.div_ceil(32) as u32,
        Kdf::Sha512 => len.div_ceil(64) as u32,
    }
}

// Appends the digest of a counter in four octets, and of these octets.
fn push_digest(bytes: &mut Vec<u8>, kdf: Kdf, counter: u32, octets: &[u8]) -> Result<(), AllocError>
    ensures { IfOk result (λ _. bytes.new.items ≡ bytes.old.items ++ hash_of kdf (to_be_bytes w32 counter ++ octets.now)) }
{
    match kdf {
        Kdf::Sha1 => bytes.extend_from_slice(&counted_sha1(counter, octets)),
        Kdf::Sha256 => bytes.extend_from_slice(&counted_sha256(counter, octets)),
        Kdf::Sha512 => bytes.extend_from_slice(&counted_sha512(counter, octets)),
    }
}

fn counted_sha1(counter: u32, octets: &[u8]) -> [u8; 20]
    ensures { result ≡ sha1 (to_be_bytes w32 counter ++ octets.now) }
{
    let mut hasher = Sha1::new();
    hasher.update(&counter.to_be_bytes());
    hasher.update(octets);
    hasher.finalize()
}

fn counted_sha256(counter: u32, octets: &[u8]) -> [u8; 32]
    ensures { result ≡ sha256 (to_be_bytes w32 counter ++ octets.now) }
{
    let mut hasher = Sha256::new();
    hasher.update(&counter.to_be_bytes());
    hasher.update(octets);
    hasher.finalize()
}

fn counted_sha512(counter: u32, octets: &[u8]) -> [u8; 64]
    ensures { result ≡ sha512 (to_be_bytes w32 counter ++ octets.now) }
{
    let mut hasher = Sha512::new();
    hasher.update(&counter.to_be_bytes());
    hasher.update(octets);
    hasher.finalize()
}
