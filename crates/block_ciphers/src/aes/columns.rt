//! A block as four words, and the rounds of the cipher and of the equivalent inverse cipher on it
//! (FIPS 197, sections 5.1 and 5.3.5).

ghost use Rattle.std.specs.Prelude.{◌≡◌, ◌+◌, ◌*◌, ◌≤◌, length};
ghost use Rattle.std.specs.Int.{w32, to_be_bytes};
ghost use Rattle.block_ciphers.specs.Aes.{word};

use super::bytes::{inv_substituted_word, substituted_word};
use super::mixing::{mixed_word, unmixed_word};

/// A state (FIPS 197, section 3.4): a word for each column, whose highest byte is in row 0.
#[derive(Clone, Copy)]
pub(crate) struct Columns {
    pub(crate) a: u32,
    pub(crate) b: u32,
    pub(crate) c: u32,
    pub(crate) d: u32,
}

impl Columns {
    ghost use Rattle.block_ciphers.specs.Aes.{add_round_key, sub_bytes, shift_rows, mix_columns, inv_sub_bytes, inv_shift_rows, inv_mix_columns};
    ghost use Rattle.block_ciphers.specs.Words.{block_of};

    /// The state of a block.
    pub(crate) fn of_bytes(block: &[u8; 16]) -> Columns
        ensures { block_of result ≡ block.now }
    {
        Columns {
            a: word_at(block, 0),
            b: word_at(block, 1),
            c: word_at(block, 2),
            d: word_at(block, 3),
        }
    }

    /// The block of a state.
    pub(crate) fn bytes(self) -> [u8; 16]
        ensures { result ≡ block_of self }
    {
        let a = self.a.to_be_bytes();
        let b = self.b.to_be_bytes();
        let c = self.c.to_be_bytes();
        let d = self.d.to_be_bytes();
        [
            a[0], a[1], a[2], a[3], b[0], b[1], b[2], b[3], c[0], c[1], c[2], c[3], d[0], d[1],
            d[2], d[3],
        ]
    }

    /// AddRoundKey (FIPS 197, section 5.1.4).
    pub(crate) fn plus(self, key: Columns) -> Columns
        ensures { block_of result ≡ add_round_key (block_of self) (block_of key) }
    {
        Columns {
            a: self.a ^ key.a,
            b: self.b ^ key.b,
            c: self.c ^ key.c,
            d: self.d ^ key.d,
        }
    }

    /// A round that mixes columns (FIPS 197, section 5.1).
    pub(crate) fn round(self, key: Columns) -> Columns
        ensures { block_of result ≡
            add_round_key (mix_columns (shift_rows (sub_bytes (block_of self)))) (block_of key) }
    {
        let a = self.a.to_be_bytes();
        let b = self.b.to_be_bytes();
        let c = self.c.to_be_bytes();
        let d = self.d.to_be_bytes();
        Columns {
            a: mixed_word(key.a, a[0], b[1], c[2], d[3]),
            b: mixed_word(key.b, b[0], c[1], d[2], a[3]),
            c: mixed_word(key.c, c[0], d[1], a[2], b[3]),
            d: mixed_word(key.d, d[0], a[1], b[2], c[3]),
        }
    }

    /// The last round, which mixes no columns (FIPS 197, section 5.1).
    pub(crate) fn last_round(self, key: Columns) -> Columns
        ensures { block_of result ≡ add_round_key (shift_rows (sub_bytes (block_of self))) (block_of key) }
    {
        let a = self.a.to_be_bytes();
        let b = self.b.to_be_bytes();
        let c = self.c.to_be_bytes();
        let d = self.d.to_be_bytes();
        Columns {
            a: substituted_word(key.a, a[0], b[1], c[2], d[3]),
            b: substituted_word(key.b, b[0], c[1], d[2], a[3]),
            c: substituted_word(key.c, c[0], d[1], a[2], b[3]),
            d: substituted_word(key.d, d[0], a[1], b[2], c[3]),
        }
    }

    /// A round of the equivalent inverse cipher that unmixes columns (FIPS 197, section 5.3.5).
    pub(crate) fn inv_round(self, key: Columns) -> Columns
        ensures { block_of result ≡
            add_round_key (inv_mix_columns (inv_sub_bytes (inv_shift_rows (block_of self)))) (block_of key) }
    {
        let a = self.a.to_be_bytes();
        let b = self.b.to_be_bytes();
        let c = self.c.to_be_bytes();
        let d = self.d.to_be_bytes();
        Columns {
            a: unmixed_word(key.a, a[0], d[1], c[2], b[3]),
            b: unmixed_word(key.b, b[0], a[1], d[2], c[3]),
            c: unmixed_word(key.c, c[0], b[1], a[2], d[3]),
            d: unmixed_word(key.d, d[0], c[1], b[2], a[3]),
        }
    }

    /// The last round of the equivalent inverse cipher (FIPS 197, section 5.3.5).
    pub(crate) fn inv_last_round(self, key: Columns) -> Columns
        ensures { block_of result ≡
            add_round_key (inv_sub_bytes (inv_shift_rows (block_of self))) (block_of key) }
    {
        let a = self.a.to_be_bytes();
        let b = self.b.to_be_bytes();
        let c = self.c.to_be_bytes();
        let d = self.d.to_be_bytes();
        Columns {
            a: inv_substituted_word(key.a, a[0], d[1], c[2], b[3]),
            b: inv_substituted_word(key.b, b[0], a[1], d[2], c[3]),
            c: inv_substituted_word(key.c, c[0], b[1], a[2], d[3]),
            d: inv_substituted_word(key.d, d[0], c[1], b[2], a[3]),
        }
    }
}

/// Word `i` of these bytes.
pub(crate) fn word_at(bytes: &[u8], i: usize) -> u32
    requires { 4 * i + 4 ≤ length bytes.now }
    ensures { to_be_bytes w32 result ≡ word bytes.now i }
{
    u32::from_be_bytes([
        bytes[4 * i],
        bytes[4 * i + 1],
        bytes[4 * i + 2],
        bytes[4 * i + 3],
    ])
}
