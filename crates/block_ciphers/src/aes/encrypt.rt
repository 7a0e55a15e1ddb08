//! Encryption: the chain, and the chain with ciphertext stealing (RFC 3962, section 5).

ghost use Rattle.std.specs.Prelude.{◌≡◌, ◌≢◌, ◌*◌, ◌%◌, ◌<◌, ◌≤◌, length, vec_len, Err, IfOk, IfErr, OnOk};
ghost use Rattle.block_ciphers.specs.Aes.{aes_cipher, cipher};
ghost use Rattle.block_ciphers.specs.AesSize.{key_length_of};
ghost use Rattle.block_ciphers.specs.Chains.{IsChained, IsStolen, block_at, zero_filled};
ghost use Rattle.block_ciphers.specs.Words.{schedule_of};
ghost use Rattle.block_ciphers.specs.declared.error.KerberosCryptoError.TheVariants.{KeyLength, CipherPad, Memory};

use super::block::add_blocks;
use super::schedule::KeySchedule;
use super::{AES_BLOCK_SIZE, AesSize, check_key_length, swap_two_last_blocks};
use crate::error::{KerberosCryptoError, KerberosCryptoResult};
use std::alloc::{AllocError, Global};

/// Encrypts whole blocks in a chain, from an initial vector of zeros. A key of another length (`KeyLength`) and
/// a text that isn't whole blocks (`CipherPad`) are refused.
pub fn encrypt_aes_cbc(
    alloc: Global,
    key: &[u8],
    plaintext: &[u8],
    aes_size: &AesSize,
) -> KerberosCryptoResult<Vec<u8>>
    ensures chained { IfOk result (λ c. IsChained 16 (aes_cipher key.now) plaintext.now c.items) }
    ensures sized { OnOk result (length key.now ≡ key_length_of aes_size.now) }

    // The refusals, the first that holds.
    ensures key_length { length key.now ≢ key_length_of aes_size.now
        → result ≡ Err (KeyLength (length key.now) (key_length_of aes_size.now)) }
    ensures pad { length key.now ≡ key_length_of aes_size.now → length plaintext.now % 16 ≢ 0
        → result ≡ Err CipherPad }
    ensures memory { length key.now ≡ key_length_of aes_size.now → length plaintext.now % 16 ≡ 0
        → IfErr result (λ e. e ≡ Memory) }
{
    check_key_length(key, aes_size)?;
    if plaintext.len() % AES_BLOCK_SIZE != 0 {
        return Err(KerberosCryptoError::CipherPad);
    }
    let keys = KeySchedule::new(key);
    let chain = encrypt_chain(alloc, &keys, plaintext)?;
    Ok(chain)
}

/// Encrypts a text in a chain under these round keys, with zeros added up to whole blocks.
fn encrypt_chain(alloc: Global, keys: &KeySchedule, text: &[u8]) -> Result<Vec<u8>, AllocError>
    ensures { IfOk result (λ c. IsChained 16
        (cipher (schedule_of keys.now.rounds keys.now.words) keys.now.rounds) (zero_filled 16 text.now) c.items) }
{
    let count = text.len().div_ceil(AES_BLOCK_SIZE);
    let mut chain = Vec::with_capacity(alloc, AES_BLOCK_SIZE * count)?;
    let mut last = [0u8; 16];
    for i in 0..count {
        let sum = add_blocks(&filled_block(text, i), &last);
        last = keys.encrypt_block(&sum);
        chain.extend_from_slice(&last)?;
    }
    Ok(chain)
}

/// Block `i` of a text with zeros added up to whole blocks.
fn filled_block(text: &[u8], i: usize) -> [u8; 16]
    requires { 16 * i < length text.now }
    ensures { result ≡ block_at 16 (zero_filled 16 text.now) i }
{
    let rest = &text[16 * i..];
    let mut block = [0u8; 16];
    if rest.len() < AES_BLOCK_SIZE {
        block[..rest.len()].copy_from_slice(rest);
    } else {
        block.copy_from_slice(&rest[..16]);
    }
    block
}

/// Encrypts a text in a chain with ciphertext stealing. A text of up to one block gives the cipher of the
/// zero-padded block, and no bytes give no bytes. A key of another length is refused (`KeyLength`).
pub fn encrypt_aes_cts(
    alloc: Global,
    key: &[u8],
    payload: &[u8],
    aes_size: &AesSize,
) -> KerberosCryptoResult<Vec<u8>>
    ensures stolen { IfOk result (λ c. IsStolen 16 (aes_cipher key.now) payload.now c.items) }
    ensures same_length { 16 ≤ length payload.now → IfOk result (λ c. vec_len c ≡ length payload.now) }
    ensures sized { OnOk result (length key.now ≡ key_length_of aes_size.now) }

    // The refusals.
    ensures key_length { length key.now ≢ key_length_of aes_size.now
        → result ≡ Err (KeyLength (length key.now) (key_length_of aes_size.now)) }
    ensures memory { length key.now ≡ key_length_of aes_size.now → IfErr result (λ e. e ≡ Memory) }
{
    check_key_length(key, aes_size)?;
    let keys = KeySchedule::new(key);
    let mut cipher = encrypt_chain(alloc, &keys, payload)?;
    if payload.len() <= AES_BLOCK_SIZE {
        return Ok(cipher);
    }
    swap_two_last_blocks(&mut cipher)?;
    cipher.truncate(payload.len());
    Ok(cipher)
}
