//! HMAC (RFC 2104).

ghost use Rattle.std.specs.Prelude.{◌≡◌, ℕ, ◌≤◌, List, ◌++◌, length, take, IfOk};
ghost use Rattle.encryption_profiles.specs.Hmac.{fitted, hmac_of, hmac_sha1_of, key_block, xored_with};

use crate::hash::BlockHash;
use sha1::Sha1;
use std::alloc::{AllocError, Global};

/// The bytes that SHA-1 hashes at a time.
const SHA1_BLOCK_LEN: usize = 64;

/// The bytes that the key is xored with for the inner and for the outer hash (ipad and opad; RFC 2104, section 2).
pub(crate) const INNER_PAD: u8 = 0x36;

pub(crate) const OUTER_PAD: u8 = 0x5C;

/// The authentication code of a message in two parts. A key that is longer than a block is hashed first.
pub fn hmac<H: BlockHash<N, B>, const N: usize, const B: usize>(
    key: &[u8],
    front: &[u8],
    back: &[u8],
) -> [u8; N]
    ensures { result ≡ hmac_of H.digest_of B key.now (front.now ++ back.now) }
{
    let inner = keyed::<H, N, B>(key, INNER_PAD);
    let outer = keyed::<H, N, B>(key, OUTER_PAD);
    code(&inner, &outer, front, back)
}

/// HMAC-SHA1 as the encryption of Kerberos calls it: the first 64 bytes of `key` are the key, longer keys are not hashed,
/// and the answer has `mac_size` bytes, zeros following the digest's 20.
pub fn hmac_sha1(
    alloc: Global,
    key: &[u8],
    payload: &[u8],
    mac_size: usize,
) -> Result<Vec<u8>, AllocError>
    ensures fitted { IfOk result (λ v. v.items ≡ fitted mac_size (hmac_sha1_of (take 64 key.now) payload.now)) }

    // A key of a block at most, and an answer of a digest at most.
    ensures cut { length key.now ≤ 64 → mac_size ≤ 20
        → IfOk result (λ v. v.items ≡ take mac_size (hmac_sha1_of key.now payload.now)) }
{
    let kept = &key[..key.len().min(SHA1_BLOCK_LEN)];
    let code = hmac::<Sha1, 20, 64>(kept, &[], payload);
    let mut mac = Vec::from_slice(alloc, &code)?;
    mac.resize(mac_size, 0)?;
    Ok(mac)
}

/// HMAC-SHA1 of a message in two parts, which takes no memory.
pub fn hmac_sha1_code(key: &[u8], front: &[u8], back: &[u8]) -> [u8; 20]
    ensures code { result ≡ hmac_sha1_of key.now (front.now ++ back.now) }
    ensures sized { length result ≡ 20 }
{
    hmac::<Sha1, 20, 64>(key, front, back)
}

/// A hasher that has hashed the key's block under a pad.
pub(crate) fn keyed<H: BlockHash<N, B>, const N: usize, const B: usize>(key: &[u8], pad: u8) -> H
    ensures { H.holds result (xored_with pad (key_block H.digest_of B key.now)) }
{
    let block = block_of_key::<H, N, B>(key);
    let mut hasher = H::begin();
    hasher.absorb(&xored(&block, pad));
    hasher
}

/// The authentication code of a message in two parts, by the two hashers that have hashed the key. So a further message
/// costs two blocks less.
pub(crate) fn code<H: BlockHash<N, B>, const N: usize, const B: usize>(
    inner: &H,
    outer: &H,
    front: &[u8],
    back: &[u8],
) -> [u8; N]
    ensures { (key : List ℕ) → H.holds inner.now (xored_with 0x36 (key_block H.digest_of B key))
        → H.holds outer.now (xored_with 0x5C (key_block H.digest_of B key))
        → result ≡ hmac_of H.digest_of B key (front.now ++ back.now) }
{
    let mut inner = inner.copied();
    inner.absorb(front);
    inner.absorb(back);
    let mut outer = outer.copied();
    outer.absorb(&inner.finish());
    outer.finish()
}

fn block_of_key<H: BlockHash<N, B>, const N: usize, const B: usize>(key: &[u8]) -> [u8; B]
    ensures { result ≡ key_block H.digest_of B key.now }
{
    if key.len() > B {
        let mut hasher = H::begin();
        hasher.absorb(key);
        filled(&hasher.finish())
    } else {
        filled(key)
    }
}

// Adds zeros to the bytes.
fn filled<const B: usize>(bytes: &[u8]) -> [u8; B]
    requires { length bytes.now ≤ B }
    ensures { result ≡ fitted B bytes.now }
{
    let mut block = [0; B];
    for (i, byte) in bytes.iter().enumerate() {
        block[i] = *byte;
    }
    block
}

fn xored<const B: usize>(block: &[u8; B], pad: u8) -> [u8; B]
    ensures { result ≡ xored_with pad block.now }
{
    let mut out = *block;
    for byte in out.iter_mut() {
        *byte ^= pad;
    }
    out
}
