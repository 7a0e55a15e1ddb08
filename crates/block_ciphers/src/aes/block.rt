//! The cipher and its inverse on one block (FIPS 197, sections 5.1 and 5.3), and the sum of two blocks.

ghost use Rattle.std.specs.Prelude.{◌≡◌, ℕ, List};
ghost use Rattle.block_ciphers.specs.Bytes.{IsBytes, sum_of_bytes};
ghost use Rattle.block_ciphers.specs.Aes.{cipher, inv_cipher};
ghost use Rattle.block_ciphers.specs.Words.{schedule_of};

use super::columns::Columns;
use super::schedule::{InverseSchedule, KeySchedule, round_key};

impl KeySchedule {
    ghost use Rattle.block_ciphers.specs.Aes.{aes_cipher};
    ghost use Rattle.block_ciphers.specs.Expanded.{IsScheduleOf};

    /// Encrypts a block. Out of line its state stays in four registers, whatever the caller does.
    #[inline(never)]
    pub fn encrypt_block(&self, block: &[u8; 16]) -> [u8; 16]
        ensures under { (key : List ℕ) → IsScheduleOf self.now key → result ≡ aes_cipher key block.now }
        ensures is_cipher { result ≡ cipher (schedule_of self.now.rounds self.now.words) self.now.rounds block.now }
        ensures undone { inv_cipher (schedule_of self.now.rounds self.now.words) self.now.rounds result ≡ block.now }
    {
        let mut state = Columns::of_bytes(block).plus(round_key(&self.words, 0));
        for n in 1..self.rounds {
            state = state.round(round_key(&self.words, n));
        }
        state
            .last_round(round_key(&self.words, self.rounds))
            .bytes()
    }
}

impl InverseSchedule {
    /// Decrypts a block by the equivalent inverse cipher (FIPS 197, section 5.3.5). Out of line as above.
    #[inline(never)]
    pub(crate) fn decrypt_block(&self, block: &[u8; 16]) -> [u8; 16]
        ensures is_inverse { result ≡ inv_cipher (schedule_of self.now.keys.rounds self.now.keys.words) self.now.keys.rounds block.now }
        ensures undone { cipher (schedule_of self.now.keys.rounds self.now.keys.words) self.now.keys.rounds result ≡ block.now }
        ensures bytes { IsBytes result }
    {
        let last = self.keys.rounds;
        let mut state = Columns::of_bytes(block).plus(round_key(&self.keys.words, last));
        for done in 1..last {
            state = state.inv_round(round_key(&self.unmixed, last - done));
        }
        state.inv_last_round(round_key(&self.keys.words, 0)).bytes()
    }
}

/// The sum of two blocks, bit by bit: a step of a chain.
pub(crate) fn add_blocks(a: &[u8; 16], b: &[u8; 16]) -> [u8; 16]
    ensures { result ≡ sum_of_bytes 16 a.now b.now }
{
    [
        a[0] ^ b[0],
        a[1] ^ b[1],
        a[2] ^ b[2],
        a[3] ^ b[3],
        a[4] ^ b[4],
        a[5] ^ b[5],
        a[6] ^ b[6],
        a[7] ^ b[7],
        a[8] ^ b[8],
        a[9] ^ b[9],
        a[10] ^ b[10],
        a[11] ^ b[11],
        a[12] ^ b[12],
        a[13] ^ b[13],
        a[14] ^ b[14],
        a[15] ^ b[15],
    ]
}
