//! The octets that a key of an agreement is made from: numbered digests, one after the other.

ghost use Rattle.std.specs.Prelude.{◌≡◌, ◌*◌, ◌≤◌, ◌∷◌, ◌<◌, vec_len, IfOk};
ghost use Rattle.sha1.specs.Sha1.{sha1};
ghost use Rattle.krb_crypto.specs.Agreement.{seed_octets_of};

use sha1::{DIGEST_LEN, Sha1};
use std::alloc::{AllocError, Global};

/// The most octets that the digests give: a digest's number is one octet, and a digest has 20.
pub const OCTETS: usize = 256 * DIGEST_LEN;

/// The first `len` octets of the numbered digests of a secret.
pub fn seed_octets(alloc: Global, secret: &[u8], len: usize) -> Result<Vec<u8>, AllocError>
    requires { len ≤ 5120 }
    ensures made { IfOk result (λ v. v.items ≡ seed_octets_of len secret.now) }
    ensures sized { IfOk result (λ v. vec_len v ≡ len) }
{
    let mut octets = Vec::new(alloc);
    for number in 0..len.div_ceil(DIGEST_LEN) {
        octets.extend_from_slice(&numbered_digest(number as u8, secret))?;
    }
    octets.truncate(len);
    Ok(octets)
}

// Computes the digest of the number and the secret.
fn numbered_digest(number: u8, secret: &[u8]) -> [u8; DIGEST_LEN]
    ensures { result ≡ sha1 (number ∷ secret.now) }
{
    let mut hasher = Sha1::new();
    hasher.update(&[number]);
    hasher.update(secret);
    hasher.finalize()
}
