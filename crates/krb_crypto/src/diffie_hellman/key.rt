//! The key of a shared secret.

ghost use Rattle.std.specs.Prelude.{◌≡◌, ◌<◌, ◌≤◌, Err, IfOk, IfErr};
ghost use Rattle.std.specs.Int.{div_ceil};
ghost use Rattle.krb_crypto.specs.Agreement.{agreement_key_of};
ghost use Rattle.krb_crypto.specs.Secrets.{secret_with};
ghost use Rattle.krb_crypto.specs.declared.diffie_hellman.error.DiffieHellmanError.TheVariants.{DataLen, Memory};

use crate::cipher::Cipher;
use crate::diffie_hellman::digests::{OCTETS, seed_octets};
use crate::diffie_hellman::error::{DiffieHellmanError, DiffieHellmanResult};
use std::alloc::{AllocError, Global};

/// Both nonces of an exchange, by which two exchanges of one secret agree on different keys (RFC 4556, section 3.2.3.1).
#[derive(Drop)]
pub struct DhNonce<'a> {
    /// The client's nonce, n_c (clientDHNonce).
    pub client_nonce: &'a [u8],
    /// The KDC's nonce, n_k (serverDHNonce).
    pub server_nonce: &'a [u8],
}

/// The key that a shared secret and perhaps both nonces give, `octetstring2key` of RFC 4556, section 3.2.3.1.
///
/// A cipher whose seed has more octets than the 256 digests gets `DataLen`; no suite of Kerberos has.
pub fn generate_key_from_shared_secret(
    alloc: Global,
    dh_shared_secret: Vec<u8>,
    nonce: Option<DhNonce>,
    cipher: &dyn Cipher,
) -> DiffieHellmanResult<Vec<u8>>
    ensures agreed { IfOk result (λ key. key.items
        ≡ agreement_key_of (seed_key cipher.now) (seed_bits cipher.now) (secret_with dh_shared_secret.items nonce.entry)) }

    // The refusals.
    ensures data_len { 5120 < div_ceil (seed_bits cipher.now) 8
        → result ≡ Err (DataLen (div_ceil (seed_bits cipher.now) 8) 5120) }
    ensures memory { div_ceil (seed_bits cipher.now) 8 ≤ 5120 → IfErr result (λ e. e ≡ Memory) }
{
    let seed_len = cipher.seed_bit_len().div_ceil(8);
    if seed_len > OCTETS {
        return Err(DiffieHellmanError::DataLen(seed_len, OCTETS));
    }
    let secret = with_nonces(dh_shared_secret, nonce)?;
    let seed = seed_octets(alloc, &secret, seed_len)?;
    match cipher.random_to_key(alloc, &seed) {
        Ok(key) => Ok(key),
        Err(_) => Err(DiffieHellmanError::Memory),
    }
}

// Appends both nonces to the secret.
fn with_nonces(mut secret: Vec<u8>, nonce: Option<DhNonce>) -> Result<Vec<u8>, AllocError>
    ensures { IfOk result (λ made. made.items ≡ secret_with secret.items nonce.entry) }
{
    if let Some(nonce) = nonce {
        secret.extend_from_slice(nonce.client_nonce)?;
        secret.extend_from_slice(nonce.server_nonce)?;
    }
    Ok(secret)
}
