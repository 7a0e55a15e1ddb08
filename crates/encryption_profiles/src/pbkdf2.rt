//! PBKDF2 over HMAC (RFC 8018, section 5.2).

ghost use Rattle.std.specs.Prelude.{◌≡◌, ℕ, ◌*◌, ◌-◌, ◌^◌, ◌<◌, ◌≤◌, List, vec_len, IfOk};
ghost use Rattle.encryption_profiles.specs.Hmac.{hmac_of, key_block, xored_with};
ghost use Rattle.encryption_profiles.specs.Pbkdf2.{block_of, pbkdf2_hmac_sha1_of, pbkdf2_of, xor_of};

use crate::hash::BlockHash;
use crate::mac::{INNER_PAD, OUTER_PAD, code, keyed};
use sha1::Sha1;
use std::alloc::{AllocError, Global};

/// A key of `len` bytes from a password and a salt, after `rounds` rounds of HMAC-SHA1.
///
/// The standard's bound on the length is that the blocks' numbers have four bytes.
pub fn pbkdf2_hmac_sha1(
    alloc: Global,
    password: &[u8],
    salt: &[u8],
    rounds: u32,
    len: usize,
) -> Result<Vec<u8>, AllocError>
    requires some_rounds { 0 < rounds }
    requires blocks_are_numbered { len ≤ 20 * (2 ^ 32 - 1) }
    ensures derived { IfOk result (λ v. v.items ≡ pbkdf2_hmac_sha1_of password.now salt.now rounds len) }
    ensures sized { IfOk result (λ v. vec_len v ≡ len) }
{
    pbkdf2_hmac::<Sha1, 20, 64>(alloc, password, salt, rounds, len)
}

/// A key of `len` bytes from a password and a salt, after `rounds` rounds of HMAC over a hash function.
pub fn pbkdf2_hmac<H: BlockHash<N, B>, const N: usize, const B: usize>(
    alloc: Global,
    password: &[u8],
    salt: &[u8],
    rounds: u32,
    len: usize,
) -> Result<Vec<u8>, AllocError>
    requires some_rounds { 0 < rounds }
    requires blocks_are_numbered { len ≤ N * (2 ^ 32 - 1) }
    ensures derived { IfOk result
        (λ v. v.items ≡ pbkdf2_of (hmac_of H.digest_of B) N password.now salt.now rounds len) }
    ensures sized { IfOk result (λ v. vec_len v ≡ len) }
{
    let inner = keyed::<H, N, B>(password, INNER_PAD);
    let outer = keyed::<H, N, B>(password, OUTER_PAD);
    let mut bytes = Vec::new(alloc);
    for done in 0..len.div_ceil(N) {
        let block = block(&inner, &outer, salt, rounds, done as u32 + 1);
        bytes.extend_from_slice(&block)?;
    }
    bytes.truncate(len);
    Ok(bytes)
}

// The block with this number: the sum of as many iterates of the code as there are rounds.
fn block<H: BlockHash<N, B>, const N: usize, const B: usize>(
    inner: &H,
    outer: &H,
    salt: &[u8],
    rounds: u32,
    number: u32,
) -> [u8; N]
    requires { 0 < rounds }
    ensures { (password : List ℕ) → H.holds inner.now (xored_with 0x36 (key_block H.digest_of B password))
        → H.holds outer.now (xored_with 0x5C (key_block H.digest_of B password))
        → result ≡ block_of (hmac_of H.digest_of B password) salt.now rounds number }
{
    let mut last = code(inner, outer, salt, &number.to_be_bytes());
    let mut sum = last;
    for _ in 1..rounds {
        let next = code(inner, outer, &[], &last);
        add(&mut sum, &next);
        last = next;
    }
    sum
}

fn add<const N: usize>(sum: &mut [u8; N], other: &[u8; N])
    ensures { sum.new ≡ xor_of sum.old other.now }
{
    for i in 0..N {
        sum[i] ^= other[i];
    }
}
