//! KDF-HMAC-SHA2 (RFC 8009, section 3).

ghost use Rattle.std.specs.Prelude.{◌≡◌, ◌*◌, ◌^◌, ◌<◌, ◌≤◌, ◌∷◌, vec_len, IfOk};
ghost use Rattle.std.specs.Int.{w32, to_be_bytes};
ghost use Rattle.encryption_profiles.specs.Hmac.{hmac_of};
ghost use Rattle.encryption_profiles.specs.Kdf.{kdf_of};

use crate::hash::BlockHash;
use crate::mac::hmac;
use std::alloc::{AllocError, Global};

/// The key of `size` bytes that is derived from a key and a label: the front of one code.
pub fn kdf_hmac_sha2<H: BlockHash<N, B>, const N: usize, const B: usize>(
    alloc: Global,
    key: &[u8],
    label: &[u8],
    size: usize,
) -> Result<Vec<u8>, AllocError>
    requires { size ≤ N }
    ensures derived { IfOk result (λ v. v.items ≡ kdf_of (hmac_of H.digest_of B) key.now label.now size) }
    ensures sized { IfOk result (λ v. vec_len v ≡ size) }
{
    let mut message = Vec::from_slice(alloc, &[0, 0, 0, 1])?;
    message.extend_from_slice(label)?;
    let code = hmac::<H, N, B>(key, &message, &end_of_message(size));
    let derived = Vec::from_slice(alloc, &code[..size])?;
    Ok(derived)
}

// A zero byte, and the size in bits as four bytes.
fn end_of_message(size: usize) -> [u8; 5]
    requires { 8 * size < 2 ^ 32 }
    ensures { result ≡ 0 ∷ to_be_bytes w32 (8 * size) }
{
    let [first, second, third, fourth] = (8 * size as u32).to_be_bytes();
    [0, first, second, third, fourth]
}
