//! The round keys of triple DES, and the cipher of a block under them (FIPS 46-3).

ghost use Rattle.std.specs.Prelude.{◌≡◌, ◌<◌, ◌^◌, length};
ghost use Rattle.block_ciphers.specs.Bits.{low_bits, strings};
ghost use Rattle.block_ciphers.specs.Des.{round_keys, turned};

use super::permute::{
    FINAL_PERMUTATION, INITIAL_PERMUTATION, PERMUTED_CHOICE_1, PERMUTED_CHOICE_2, permute,
};
use super::round::network;

/// How many places the halves of a key are shifted to the left before each round.
const LEFT_SHIFTS: [u32; 16] = [1, 1, 2, 2, 2, 2, 2, 2, 1, 2, 2, 2, 2, 2, 2, 1];

/// The round keys of three passes over a block, each in the order of their use.
#[derive(Drop)]
pub(crate) struct KeySchedule {
    pub(crate) first: [u64; 16],
    pub(crate) second: [u64; 16],
    pub(crate) third: [u64; 16],
}

impl KeySchedule {
    ghost use Rattle.block_ciphers.specs.Schedule.{cipher_under};
    ghost use Rattle.block_ciphers.specs.Des.{triple_des_cipher, triple_des_inverse};
    ghost use Rattle.std.specs.Prelude.{List, ℕ};

    /// The round keys that encipher under a key of 24 bytes.
    pub(crate) fn to_encipher(key: &[u8]) -> KeySchedule
        requires { length key.now ≡ 24 }
        ensures { (block : List ℕ) → cipher_under result block ≡ triple_des_cipher key.now block }
    {
        let first = round_keys(&key[..8]);
        let mut second = round_keys(&key[8..16]);
        second.reverse();
        let third = round_keys(&key[16..24]);
        KeySchedule {
            first,
            second,
            third,
        }
    }

    /// The round keys that decipher under a key of 24 bytes.
    pub(crate) fn to_decipher(key: &[u8]) -> KeySchedule
        requires { length key.now ≡ 24 }
        ensures { (block : List ℕ) → cipher_under result block ≡ triple_des_inverse key.now block }
    {
        let mut first = round_keys(&key[16..24]);
        first.reverse();
        let second = round_keys(&key[8..16]);
        let mut third = round_keys(&key[..8]);
        third.reverse();
        KeySchedule {
            first,
            second,
            third,
        }
    }

    /// The block after the three passes.
    pub(crate) fn cipher_block(&self, block: &[u8; 8]) -> [u8; 8]
        ensures { result ≡ cipher_under self.now block.now }
    {
        let string = permute(&INITIAL_PERMUTATION, 64, u64::from_be_bytes(*block));
        let halves = ((string >> 32) as u32, (string & 0xffff_ffff) as u32);
        let halves = network(&self.first, halves);
        let halves = network(&self.second, halves);
        let (left, right) = network(&self.third, halves);
        let string = (u64::from(left) << 32) | u64::from(right);
        permute(&FINAL_PERMUTATION, 64, string).to_be_bytes()
    }
}

/// The sixteen round keys, of 48 bits, of a key of eight bytes.
fn round_keys(key: &[u8]) -> [u64; 16]
    requires { length key.now ≡ 8 }
    ensures { strings 48 result ≡ round_keys key.now }
{
    let mut bytes = [0u8; 8];
    bytes.copy_from_slice(key);
    let chosen = permute(&PERMUTED_CHOICE_1, 64, u64::from_be_bytes(bytes));
    let mut c = (chosen >> 28) & 0x0fff_ffff;
    let mut d = chosen & 0x0fff_ffff;
    let mut keys = [0u64; 16];
    for i in 0..16 {
        c = turn(c, LEFT_SHIFTS[i]);
        d = turn(d, LEFT_SHIFTS[i]);
        keys[i] = permute(&PERMUTED_CHOICE_2, 56, (c << 28) | d);
    }
    keys
}

/// A string of 28 bits shifted by some places to the left, those that leave it coming in at its end.
fn turn(string: u64, places: u32) -> u64
    requires small { string < 2 ^ 28 }
    requires some { 0 < places }
    requires few { places < 28 }
    ensures small { result < 2 ^ 28 }
    ensures turned { low_bits 28 result ≡ turned places (low_bits 28 string) }
{
    ((string << places) | (string >> (28 - places))) & 0x0fff_ffff
}
