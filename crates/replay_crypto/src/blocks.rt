//! Enciphers and deciphers blocks by the tables of words of block_ciphers and by the steps of FIPS 197 byte by byte, under
//! keys that follow from one another, and compares the two.

ghost use Rattle.std.specs.Prelude.{◌≡◌, ◌⊎◌, length};

use crate::plain::{RoundKeys, Substitution};
use block_ciphers::{AesSize, decrypt_aes_cbc, encrypt_aes_cbc};
use std::alloc::Global;

const BLOCKS: usize = 1000;

/// A block enciphered and deciphered byte by byte.
#[derive(Clone, Copy)]
struct Pair {
    there: [u8; 16],
    back: [u8; 16],
}

/// Prints how many blocks come out otherwise.
pub(crate) fn compare_aes(rt: &HostRuntime) -> anyhow::Result<()> {
    let substitution = Substitution::new();
    let mut key = [0u8; 32];
    let mut block = [0u8; 16];
    let mut differing = 0u64;
    for _ in 0..BLOCKS {
        let short = pair_of(&substitution, &key[..16], block);
        let long = pair_of(&substitution, &key, block);
        let alike = agrees(rt.alloc(), &key[..16], &block, &short, &AesSize::Aes128)?
            && agrees(rt.alloc(), &key, &block, &long, &AesSize::Aes256)?;
        if !alike {
            differing = differing.saturating_add(1);
        }
        key[..16].copy_from_slice(&short.there);
        key[16..].copy_from_slice(&long.there);
        block = short.back;
    }
    println!(rt; "{BLOCKS} blocks, both ways under keys of both sizes: {differing} differ")?;
    Ok(())
}

fn pair_of(substitution: &Substitution, key: &[u8], block: [u8; 16]) -> Pair
    requires { (length key.now ≡ 16) ⊎ (length key.now ≡ 32) }
{
    let keys = RoundKeys::new(substitution, key);
    Pair {
        there: keys.enciphered(substitution, block),
        back: keys.deciphered(substitution, block),
    }
}

/// Whether the tables of words come to the same.
fn agrees(
    alloc: Global,
    key: &[u8],
    block: &[u8; 16],
    pair: &Pair,
    size: &AesSize,
) -> anyhow::Result<bool> {
    let there = encrypt_aes_cbc(alloc, key, block, size)?;
    let back = decrypt_aes_cbc(alloc, key, block, size)?;
    Ok(there.as_slice() == pair.there.as_slice() && back.as_slice() == pair.back.as_slice())
}
