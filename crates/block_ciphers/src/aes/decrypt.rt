//! Decryption: the chain, and the chain with ciphertext stealing (RFC 3962, section 5).

ghost use Rattle.std.specs.Prelude.{◌≡◌, ◌≢◌, ◌-◌, ◌*◌, ◌%◌, ◌<◌, ◌≤◌, ◌++◌, ℕ, List, take, length, vec_len, Err, IsOk, IfOk, IfErr, OnOk};
ghost use Rattle.block_ciphers.specs.Aes.{aes_cipher, aes_inverse, cipher};
ghost use Rattle.block_ciphers.specs.AesSize.{key_length_of};
ghost use Rattle.block_ciphers.specs.Bytes.{IsBytes};
ghost use Rattle.block_ciphers.specs.Chains.{IsBlockCipher, IsChained, IsCompleted, IsStolen, before, block_count, swapped};
ghost use Rattle.block_ciphers.specs.Words.{schedule_of};
ghost use Rattle.block_ciphers.specs.declared.error.KerberosCryptoError.TheVariants.{KeyLength, CipherLength, CipherUnpad, Memory};

use super::block::add_blocks;
use super::schedule::InverseSchedule;
use super::{AES_BLOCK_SIZE, AesSize, check_key_length};
use crate::error::{KerberosCryptoError, KerberosCryptoResult};
use std::alloc::{AllocError, Global};

/// Decrypts whole blocks in a chain, from an initial vector of zeros. A key of another length (`KeyLength`) and
/// bytes that aren't whole blocks (`CipherUnpad`) are refused.
pub fn decrypt_aes_cbc(
    alloc: Global,
    key: &[u8],
    cipher_data: &[u8],
    aes_size: &AesSize,
) -> KerberosCryptoResult<Vec<u8>>
    ensures chained { IfOk result (λ p. IsChained 16 (aes_cipher key.now) p.items cipher_data.now) }
    ensures bytes { IfOk result (λ p. IsBytes p.items) }
    ensures only { IfOk result (λ p. (q : List ℕ) → IsBytes q
        → IsChained 16 (aes_cipher key.now) q cipher_data.now → q ≡ p.items) }
    ensures undone { OnOk result (IsBlockCipher 16 (aes_cipher key.now) (aes_inverse key.now)) }
    ensures sized { OnOk result (length key.now ≡ key_length_of aes_size.now) }

    // The refusals, the first that holds.
    ensures key_length { length key.now ≢ key_length_of aes_size.now
        → result ≡ Err (KeyLength (length key.now) (key_length_of aes_size.now)) }
    ensures unpad { length key.now ≡ key_length_of aes_size.now → length cipher_data.now % 16 ≢ 0
        → result ≡ Err CipherUnpad }
    ensures memory { length key.now ≡ key_length_of aes_size.now → length cipher_data.now % 16 ≡ 0
        → IfErr result (λ e. e ≡ Memory) }
{
    check_key_length(key, aes_size)?;
    if cipher_data.len() % AES_BLOCK_SIZE != 0 {
        return Err(KerberosCryptoError::CipherUnpad);
    }
    let keys = InverseSchedule::new(key);
    let text = decrypt_chain(alloc, &keys, cipher_data)?;
    Ok(text)
}

/// Decrypts a chain of whole blocks under these round keys, with room for the two blocks that stealing exchanges.
fn decrypt_chain(alloc: Global, keys: &InverseSchedule, chain: &[u8]) -> Result<Vec<u8>, AllocError>
    requires { length chain.now % 16 ≡ 0 }
    ensures bytes { IfOk result (λ p. IsBytes p.items) }
    ensures chained { IfOk result (λ p. IsChained 16
        (cipher (schedule_of keys.now.keys.rounds keys.now.keys.words) keys.now.keys.rounds) p.items chain.now) }
{
    let mut text = Vec::with_capacity(alloc, chain.len() + 2 * AES_BLOCK_SIZE)?;
    let mut last = [0u8; 16];
    for i in 0..chain.len() / 16 {
        let mut block = [0u8; 16];
        block.copy_from_slice(&chain[16 * i..16 * i + 16]);
        let sum = add_blocks(&keys.decrypt_block(&block), &last);
        text.extend_from_slice(&sum)?;
        last = block;
    }
    Ok(text)
}

/// Decrypts a chain with ciphertext stealing; of no bytes, no bytes. The refusals, in this order: 1 to 15 bytes
/// (`CipherLength`), a key of another length (`KeyLength`).
pub fn decrypt_aes_cts(
    alloc: Global,
    key: &[u8],
    cipher_data: &[u8],
    aes_size: &AesSize,
) -> KerberosCryptoResult<Vec<u8>>
    ensures stolen { IfOk result (λ p. IsStolen 16 (aes_cipher key.now) p.items cipher_data.now) }
    ensures bytes { IfOk result (λ p. IsBytes p.items) }
    ensures only { IfOk result (λ p. (q : List ℕ) → IsBytes q → 16 ≤ length q
        → IsStolen 16 (aes_cipher key.now) q cipher_data.now → q ≡ p.items) }
    ensures same_length { IfOk result (λ p. vec_len p ≡ length cipher_data.now) }
    ensures sized { 16 ≤ length cipher_data.now → OnOk result (length key.now ≡ key_length_of aes_size.now) }
    ensures none { length cipher_data.now ≡ 0 → IsOk result }

    // The refusals, the first that holds.
    ensures short { 0 < length cipher_data.now → length cipher_data.now < 16
        → result ≡ Err (CipherLength (length cipher_data.now) 16) }
    ensures key_length { 16 ≤ length cipher_data.now → length key.now ≢ key_length_of aes_size.now
        → result ≡ Err (KeyLength (length key.now) (key_length_of aes_size.now)) }
    ensures memory { 16 ≤ length cipher_data.now → length key.now ≡ key_length_of aes_size.now
        → IfErr result (λ e. e ≡ Memory) }
{
    if cipher_data.is_empty() {
        return Ok(Vec::new(alloc));
    }
    if cipher_data.len() < AES_BLOCK_SIZE {
        return Err(KerberosCryptoError::CipherLength(cipher_data.len(), AES_BLOCK_SIZE));
    }
    check_key_length(key, aes_size)?;
    if cipher_data.len() == AES_BLOCK_SIZE {
        let text = decrypt_aes_cbc(alloc, key, cipher_data, aes_size)?;
        return Ok(text);
    }
    let text = decrypt_stolen(alloc, key, cipher_data, aes_size)?;
    Ok(text)
}

/// Decrypts more than one block with ciphertext stealing.
fn decrypt_stolen(
    alloc: Global,
    key: &[u8],
    cipher_data: &[u8],
    aes_size: &AesSize,
) -> KerberosCryptoResult<Vec<u8>>
    requires key_length { length key.now ≡ key_length_of aes_size.now }
    requires more { 16 < length cipher_data.now }
    ensures text { IfOk result (λ p. IsStolen 16 (aes_cipher key.now) p.items cipher_data.now
        × ((q : List ℕ) → IsBytes q → length q ≡ length cipher_data.now → IsStolen 16 (aes_cipher key.now) q cipher_data.now → q ≡ p.items)) }
    ensures bytes { IfOk result (λ p. IsBytes p.items) }
    ensures same_length { IfOk result (λ p. vec_len p ≡ length cipher_data.now) }
    ensures memory { IfErr result (λ e. e ≡ Memory) }
{
    let keys = InverseSchedule::new(key);
    let front = (cipher_data.len() - 1) / AES_BLOCK_SIZE - 1;
    let mut text = decrypt_chain(alloc, &keys, &cipher_data[..16 * front])?;
    let ends = last_two_blocks(&keys, cipher_data, front);
    text.extend_from_slice(&ends.0)?;
    text.extend_from_slice(&ends.1)?;
    text.truncate(cipher_data.len());
    Ok(text)
}

/// The last two blocks of the zero-padded plaintext, after `front` others. With what stealing cut off, the ciphertext is
/// a chain again, and these blocks end its plaintext. Deciphering its last whole block shows what was cut off.
fn last_two_blocks(keys: &InverseSchedule, cipher_data: &[u8], front: usize) -> ([u8; 16], [u8; 16])
    requires more { 16 < length cipher_data.now }
    requires front { front ≡ block_count 16 (length cipher_data.now) - 2 }
    ensures bytes { IsBytes (result.0 ++ result.1) }
    ensures ended { let E = cipher (schedule_of keys.now.keys.rounds keys.now.keys.words) keys.now.keys.rounds in
        (p : List ℕ) → IsChained 16 E p (take (16 * front) cipher_data.now)
        → (v : List ℕ) × IsCompleted 16 front E cipher_data.now v
        × IsChained 16 E (p ++ result.0 ++ result.1) (swapped 16 v) }
{
    let last = block_before(cipher_data, front);
    let under = keys.decrypt_block(&block_before(cipher_data, front + 1));
    let rest = &cipher_data[16 * front + 16..];
    let mut stolen = under;
    stolen[..rest.len()].copy_from_slice(rest);
    (
        add_blocks(&keys.decrypt_block(&stolen), &last),
        add_blocks(&under, &stolen),
    )
}

/// The block that a chain adds to the one after its first `count`: the last of these, or zeros.
fn block_before(chain: &[u8], count: usize) -> [u8; 16]
    requires { 16 * count ≤ length chain.now }
    ensures { result ≡ before 16 chain.now count }
{
    let mut block = [0u8; 16];
    if count > 0 {
        block.copy_from_slice(&chain[16 * count - 16..16 * count]);
    }
    block
}
