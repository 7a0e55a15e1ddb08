//! Decryption of a chain of whole blocks (RFC 3961, section 6.3).

ghost use Rattle.std.specs.Prelude.{◌≡◌, ◌≢◌, ◌%◌, ℕ, List, length, Err, IfOk, IfErr, OnOk};
ghost use Rattle.block_ciphers.specs.Bytes.{IsBytes};
ghost use Rattle.block_ciphers.specs.Chains.{IsBlockCipher, IsChained};
ghost use Rattle.block_ciphers.specs.declared.error.KerberosCryptoError.TheVariants.{KeyLength, CipherUnpad, Memory};
ghost use Rattle.block_ciphers.specs.Des.{triple_des_cipher, triple_des_inverse};
ghost use Rattle.block_ciphers.specs.Schedule.{cipher_under};

use super::encrypt::add_bytes;
use super::schedule::KeySchedule;
use super::{DES3_BLOCK_SIZE, check_key_length};
use crate::{KerberosCryptoError, KerberosCryptoResult};
use std::alloc::{AllocError, Global};

/// Decrypts whole blocks by triple DES in a chain, from an initial vector of zeros. A key that doesn't have 24 bytes
/// (`KeyLength`) and bytes that aren't whole blocks of eight (`CipherUnpad`) are refused.
pub fn decrypt_des(alloc: Global, key: &[u8], cipher_data: &[u8]) -> KerberosCryptoResult<Vec<u8>>
    ensures chained { IfOk result (λ p. IsChained 8 (triple_des_cipher key.now) p.items cipher_data.now) }
    ensures bytes { IfOk result (λ p. IsBytes p.items) }
    ensures only { IfOk result (λ p. (q : List ℕ) → IsBytes q
        → IsChained 8 (triple_des_cipher key.now) q cipher_data.now → q ≡ p.items) }
    ensures undone { OnOk result (IsBlockCipher 8 (triple_des_cipher key.now) (triple_des_inverse key.now)) }
    ensures sized { OnOk result (length key.now ≡ 24) }

    // The refusals, the first that holds.
    ensures key_length { length key.now ≢ 24 → result ≡ Err (KeyLength (length key.now) 24) }
    ensures unpad { length key.now ≡ 24 → length cipher_data.now % 8 ≢ 0 → result ≡ Err CipherUnpad }
    ensures memory { length key.now ≡ 24 → length cipher_data.now % 8 ≡ 0 → IfErr result (λ e. e ≡ Memory) }
{
    check_key_length(key)?;
    if cipher_data.len() % DES3_BLOCK_SIZE != 0 {
        return Err(KerberosCryptoError::CipherUnpad);
    }
    let keys = KeySchedule::to_decipher(key);
    let text = decrypt_chain(alloc, &keys, cipher_data)?;
    Ok(text)
}

/// Decrypts a chain of whole blocks by the round keys that undo its cipher.
fn decrypt_chain(alloc: Global, keys: &KeySchedule, chain: &[u8]) -> Result<Vec<u8>, AllocError>
    requires { length chain.now % 8 ≡ 0 }
    ensures bytes { (E : List ℕ → List ℕ) → IsBlockCipher 8 E (cipher_under keys.now)
        → IfOk result (λ p. IsBytes p.items) }
    ensures chained { (E : List ℕ → List ℕ) → IsBlockCipher 8 E (cipher_under keys.now)
        → IfOk result (λ p. IsChained 8 E p.items chain.now) }
{
    let mut text = Vec::with_capacity(alloc, chain.len())?;
    let mut last = [0u8; 8];
    for i in 0..chain.len() / 8 {
        let mut block = [0u8; 8];
        block.copy_from_slice(&chain[8 * i..8 * i + 8]);
        let sum = add_bytes(keys.cipher_block(&block), &last);
        text.extend_from_slice(&sum)?;
        last = block;
    }
    Ok(text)
}
