//! Encryption of a text padded with zeros in a chain (RFC 3961, section 6.3).

ghost use Rattle.std.specs.Prelude.{◌≡◌, ◌≢◌, ◌%◌, length, Err, IfOk, IfErr, OnOk};
ghost use Rattle.block_ciphers.specs.Bytes.{sum_of_bytes};
ghost use Rattle.block_ciphers.specs.Chains.{IsChained, zero_filled};
ghost use Rattle.block_ciphers.specs.declared.error.KerberosCryptoError.TheVariants.{KeyLength, Memory};
ghost use Rattle.block_ciphers.specs.Des.{triple_des_cipher};
ghost use Rattle.block_ciphers.specs.Schedule.{cipher_under};

use super::check_key_length;
use super::schedule::KeySchedule;
use crate::KerberosCryptoResult;
use std::alloc::{AllocError, Global};

/// Encrypts a text, padded with zeros to whole blocks, by triple DES in a chain from an initial vector of zeros.
/// A key that doesn't have 24 bytes is refused (`KeyLength`).
pub fn encrypt_des(alloc: Global, key: &[u8], payload: &[u8]) -> KerberosCryptoResult<Vec<u8>>
    ensures chained { IfOk result
        (λ c. IsChained 8 (triple_des_cipher key.now) (zero_filled 8 payload.now) c.items) }
    ensures whole { length payload.now % 8 ≡ 0
        → IfOk result (λ c. IsChained 8 (triple_des_cipher key.now) payload.now c.items) }
    ensures sized { OnOk result (length key.now ≡ 24) }

    // The refusals.
    ensures key_length { length key.now ≢ 24 → result ≡ Err (KeyLength (length key.now) 24) }
    ensures memory { length key.now ≡ 24 → IfErr result (λ e. e ≡ Memory) }
{
    check_key_length(key)?;
    let filled = zero_filled(alloc, payload)?;
    let keys = KeySchedule::to_encipher(key);
    let chain = encrypt_chain(alloc, &keys, &filled)?;
    Ok(chain)
}

/// Adds zeros to the text up to whole blocks.
fn zero_filled(alloc: Global, text: &[u8]) -> Result<Vec<u8>, AllocError>
    ensures filled { IfOk result (λ v. v.items ≡ zero_filled 8 text.now) }
    ensures whole { IfOk result (λ v. length v.items % 8 ≡ 0) }
{
    let missing = (8 - text.len() % 8) % 8;
    let mut filled = Vec::from_slice(alloc, text)?;
    filled.resize(text.len() + missing, 0)?;
    Ok(filled)
}

/// Encrypts whole blocks in a chain under these round keys.
fn encrypt_chain(alloc: Global, keys: &KeySchedule, text: &[u8]) -> Result<Vec<u8>, AllocError>
    requires { length text.now % 8 ≡ 0 }
    ensures { IfOk result (λ c. IsChained 8 (cipher_under keys.now) text.now c.items) }
{
    let mut chain = Vec::with_capacity(alloc, text.len())?;
    let mut last = [0u8; 8];
    for i in 0..text.len() / 8 {
        let sum = add_bytes(last, &text[8 * i..8 * i + 8]);
        last = keys.cipher_block(&sum);
        chain.extend_from_slice(&last)?;
    }
    Ok(chain)
}

/// The sum of two blocks, bit by bit.
pub(crate) fn add_bytes(a: [u8; 8], b: &[u8]) -> [u8; 8]
    requires { length b.now ≡ 8 }
    ensures { result ≡ sum_of_bytes 8 a b.now }
{
    [
        a[0] ^ b[0],
        a[1] ^ b[1],
        a[2] ^ b[2],
        a[3] ^ b[3],
        a[4] ^ b[4],
        a[5] ^ b[5],
        a[6] ^ b[6],
        a[7] ^ b[7],
    ]
}
