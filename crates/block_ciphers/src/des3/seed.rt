//! Keys from random bytes (RFC 3961, section 6.3.1).

ghost use Rattle.std.specs.Prelude.{◌≡◌, ◌<◌, ◌≤◌, ℕ, length, All, IsTrue};
ghost use Rattle.block_ciphers.specs.Bits.{low_bits};
ghost use Rattle.block_ciphers.specs.Des.{part};
ghost use Rattle.block_ciphers.specs.Seeds.{HasOddParity, is_weak, mended, random_to_key, stretched, with_odd_parity};

use super::DES3_KEY_SIZE;

/// The weak and semi-weak keys (NIST SP 800-67).
#[rattlefmt::skip]
const WEAK_KEYS: [[u8; 8]; 16] = [
    [0x01; 8],
    [0x01, 0x1f, 0x01, 0x1f, 0x01, 0x0e, 0x01, 0x0e],
    [0x01, 0xe0, 0x01, 0xe0, 0x01, 0xf1, 0x01, 0xf1],
    [0x01, 0xfe, 0x01, 0xfe, 0x01, 0xfe, 0x01, 0xfe],
    [0x1f, 0x01, 0x1f, 0x01, 0x0e, 0x01, 0x0e, 0x01],
    [0x1f, 0x1f, 0x1f, 0x1f, 0x0e, 0x0e, 0x0e, 0x0e],
    [0x1f, 0xe0, 0x1f, 0xe0, 0x0e, 0xf1, 0x0e, 0xf1],
    [0x1f, 0xfe, 0x1f, 0xfe, 0x0e, 0xfe, 0x0e, 0xfe],
    [0xe0, 0x01, 0xe0, 0x01, 0xf1, 0x01, 0xf1, 0x01],
    [0xe0, 0x1f, 0xe0, 0x1f, 0xf1, 0x0e, 0xf1, 0x0e],
    [0xe0, 0xe0, 0xe0, 0xe0, 0xf1, 0xf1, 0xf1, 0xf1],
    [0xe0, 0xfe, 0xe0, 0xfe, 0xf1, 0xfe, 0xf1, 0xfe],
    [0xfe, 0x01, 0xfe, 0x01, 0xfe, 0x01, 0xfe, 0x01],
    [0xfe, 0x1f, 0xfe, 0x1f, 0xfe, 0x0e, 0xfe, 0x0e],
    [0xfe, 0xe0, 0xfe, 0xe0, 0xfe, 0xf1, 0xfe, 0xf1],
    [0xfe, 0xfe, 0xfe, 0xfe, 0xfe, 0xfe, 0xfe, 0xfe],
];

/// The key that the first 21 bytes of a seed make (RFC 3961, section 6.3.1): each seven of them stretched to eight of
/// odd parity, and a weak or semi-weak key mended. So its bytes have odd parity, and none of its three parts is weak.
pub fn random_to_key(seed: &[u8]) -> [u8; DES3_KEY_SIZE]
    requires { 21 ≤ length seed.now }
    ensures is_key { result ≡ random_to_key seed.now }
    ensures odd { All HasOddParity result }
    ensures strong { (i : ℕ) → i < 3 → ¬ IsTrue (is_weak (part result i)) }
{
    let a = mended(stretched(&seed[..7]));
    let b = mended(stretched(&seed[7..14]));
    let c = mended(stretched(&seed[14..21]));
    [
        a[0], a[1], a[2], a[3], a[4], a[5], a[6], a[7], b[0], b[1], b[2], b[3], b[4], b[5], b[6],
        b[7], c[0], c[1], c[2], c[3], c[4], c[5], c[6], c[7],
    ]
}

/// Seven bytes stretched to eight of odd parity: the upper seven bits of each, and the lowest bits of all.
fn stretched(seven: &[u8]) -> [u8; 8]
    requires { length seven.now ≡ 7 }
    ensures { result ≡ stretched seven.now }
{
    let lowest = (seven[6] & 1) * 64
        + (seven[5] & 1) * 32
        + (seven[4] & 1) * 16
        + (seven[3] & 1) * 8
        + (seven[2] & 1) * 4
        + (seven[1] & 1) * 2
        + (seven[0] & 1);
    [
        with_odd_parity(seven[0] >> 1),
        with_odd_parity(seven[1] >> 1),
        with_odd_parity(seven[2] >> 1),
        with_odd_parity(seven[3] >> 1),
        with_odd_parity(seven[4] >> 1),
        with_odd_parity(seven[5] >> 1),
        with_odd_parity(seven[6] >> 1),
        with_odd_parity(lowest),
    ]
}

/// Seven bits, and a last one that makes the number of ones odd.
fn with_odd_parity(seven: u8) -> u8
    requires { seven < 128 }
    ensures { result ≡ with_odd_parity (low_bits 7 seven) }
{
    let folded = seven ^ (seven >> 4);
    let folded = folded ^ (folded >> 2);
    let folded = folded ^ (folded >> 1);
    (seven << 1) | (1 - (folded & 1))
}

/// A key that is neither weak nor semi-weak: such a one with its last byte changed, and any other as it is.
fn mended(key: [u8; 8]) -> [u8; 8]
    ensures { result ≡ mended key }
{
    let mut key = key;
    if is_weak(&key[..]) {
        key[7] ^= 0xf0;
    }
    key
}

/// Whether the bytes are a weak or semi-weak key of DES (NIST SP 800-67). Bytes of another length than eight are neither.
#[tactic(auto, unfolding(crate::specs::Seeds::is_weak, crate::specs::Seeds::weak_keys))]
pub fn is_weak(key: &[u8]) -> bool
    ensures { result ≡ is_weak key.now }
{
    WEAK_KEYS.iter().any(|weak| &weak[..] == key)
}
