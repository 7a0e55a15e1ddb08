//! The key expansion (FIPS 197, section 5.2), and the round keys of the equivalent inverse cipher (5.3.5).

ghost use Rattle.std.specs.Prelude.{◌≡◌, ◌≢◌, ◌⊎◌, ◌+◌, ◌*◌, ◌/◌, ◌<◌, ◌≤◌, length, take, Err, IfOk, IsOk, OnOk};
ghost use Rattle.std.specs.Int.{w32, to_be_bytes};
ghost use Rattle.block_ciphers.specs.Aes.{IsAesKey, key_schedule, round_count, round_key, turned_word};
ghost use Rattle.block_ciphers.specs.Words.{IsUnmixed, block_of, bytes_of, schedule_of};

use super::bytes::substituted_word;
use super::columns::{Columns, word_at};
use super::mixing::unmixed_key;
use super::{AES128_KEY_SIZE, AesSize, check_key_length};
use crate::error::KerberosCryptoResult;

/// The round constants as words, from the first on (FIPS 197, section 5.2).
const ROUND_CONSTANTS: [u32; 10] = [
    0x0100_0000,
    0x0200_0000,
    0x0400_0000,
    0x0800_0000,
    0x1000_0000,
    0x2000_0000,
    0x4000_0000,
    0x8000_0000,
    0x1b00_0000,
    0x3600_0000,
];

/// The words that the round keys of 14 rounds take.
const MOST_WORDS: usize = 60;

/// The round keys of one key: four words before the first round, and four for each round, in front.
#[derive(Drop)]
pub struct KeySchedule {
    pub(crate) words: [u32; MOST_WORDS],
    pub(crate) rounds: usize,
    ghost some: { 0 < rounds },
    ghost few: { rounds < 15 },
}

impl KeySchedule {
    ghost use Rattle.block_ciphers.specs.AesSize.{key_length_of};
    ghost use Rattle.block_ciphers.specs.Expanded.{IsScheduleOf};
    ghost use Rattle.block_ciphers.specs.declared.error.KerberosCryptoError.TheVariants.{KeyLength};

    /// The round keys of a key of this size. A key of another length is refused (`KeyLength`).
    pub fn of_size(key: &[u8], aes_size: &AesSize) -> KerberosCryptoResult<KeySchedule>
        ensures made { IfOk result (λ keys. IsScheduleOf keys key.now) }
        ensures sized { OnOk result (length key.now ≡ key_length_of aes_size.now) }

        // The refusal.
        ensures right { length key.now ≡ key_length_of aes_size.now → IsOk result }
        ensures key_length { length key.now ≢ key_length_of aes_size.now
            → result ≡ Err (KeyLength (length key.now) (key_length_of aes_size.now)) }
    {
        check_key_length(key, aes_size)?;
        Ok(KeySchedule::new(key))
    }

    /// The round keys of a key of 16 or 32 bytes.
    pub(crate) fn new(key: &[u8]) -> KeySchedule
        requires sized { IsAesKey key.now }
        ensures words { schedule_of result.rounds result.words ≡ key_schedule key.now }
        ensures rounds { result.rounds ≡ round_count key.now }
    {
        let mut words = begun_words(key);
        if key.len() == AES128_KEY_SIZE {
            expand(&mut words, 4);
            return KeySchedule { words, rounds: 10 };
        }
        expand(&mut words, 8);
        KeySchedule { words, rounds: 14 }
    }
}

/// The round keys of one key, and beside them those of the middle rounds with their columns unmixed, as the
/// equivalent inverse cipher requires them.
#[derive(Drop)]
pub(crate) struct InverseSchedule {
    pub(crate) keys: KeySchedule,
    pub(crate) unmixed: [u32; MOST_WORDS],
    ghost middle: { IsUnmixed keys.rounds (bytes_of keys.words) (bytes_of unmixed) },
}

impl InverseSchedule {
    /// The round keys of a key of 16 or 32 bytes.
    pub(crate) fn new(key: &[u8]) -> InverseSchedule
        requires sized { IsAesKey key.now }
        ensures words { schedule_of result.keys.rounds result.keys.words ≡ key_schedule key.now }
        ensures rounds { result.keys.rounds ≡ round_count key.now }
    {
        let keys = KeySchedule::new(key);
        let unmixed = unmixed_words(&keys.words, keys.rounds);
        InverseSchedule { keys, unmixed }
    }
}

/// The words of a key, in front.
fn begun_words(key: &[u8]) -> [u32; MOST_WORDS]
    requires sized { IsAesKey key.now }
    ensures { bytes_of (take (length key.now / 4) result) ≡ key.now }
{
    let mut words = [0u32; MOST_WORDS];
    for i in 0..key.len() / 4 {
        words[i] = word_at(key, i);
    }
    words
}

/// Expands the `key_words` words in front. The two numbers that it is called with are known where it is called, and so
/// it divides by no variable.
#[inline(always)]
fn expand(words: &mut [u32; MOST_WORDS], key_words: usize)
    requires { (key_words ≡ 4) ⊎ (key_words ≡ 8) }
    ensures { schedule_of (key_words + 6) words.new ≡ key_schedule (bytes_of (take key_words words.old)) }
{
    for i in key_words..4 * (key_words + 6) + 4 {
        words[i] = words[i - key_words] ^ turned_word(key_words, i, words[i - 1]);
    }
}

/// The word that is added to an earlier one to make word `i`, from the word before it.
#[inline(always)]
fn turned_word(key_words: usize, i: usize, previous: u32) -> u32
    requires some { 0 < key_words }
    requires from { key_words ≤ i }
    requires to { i < 11 * key_words }
    ensures { to_be_bytes w32 result ≡ turned_word key_words i (to_be_bytes w32 previous) }
{
    if i % key_words == 0 {
        let bytes = previous.to_be_bytes();
        let constant = ROUND_CONSTANTS[i / key_words - 1];
        substituted_word(constant, bytes[1], bytes[2], bytes[3], bytes[0])
    } else if key_words > 6 && i % key_words == 4 {
        let bytes = previous.to_be_bytes();
        substituted_word(0, bytes[0], bytes[1], bytes[2], bytes[3])
    } else {
        previous
    }
}

/// Words of which those between the first round's key and the last one's are unmixed.
fn unmixed_words(words: &[u32; MOST_WORDS], rounds: usize) -> [u32; MOST_WORDS]
    requires { rounds < 15 }
    ensures { IsUnmixed rounds (bytes_of words.now) (bytes_of result) }
{
    let mut unmixed = [0u32; MOST_WORDS];
    for i in 4..4 * rounds {
        unmixed[i] = unmixed_key(words[i]);
    }
    unmixed
}

/// Round key `n` of those in these words.
pub(crate) fn round_key(words: &[u32; MOST_WORDS], n: usize) -> Columns
    requires { n < 15 }
    ensures { block_of result ≡ round_key (bytes_of words.now) n }
{
    Columns {
        a: words[4 * n],
        b: words[4 * n + 1],
        c: words[4 * n + 2],
        d: words[4 * n + 3],
    }
}
