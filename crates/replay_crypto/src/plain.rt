//! AES by the steps of FIPS 197, byte by byte and with no table but the one that it makes: slow, and short
//! enough to be read beside the standard.

ghost use Rattle.std.specs.Prelude.{◌≡◌, ◌⊎◌, ◌+◌, ◌*◌, ◌<◌, ◌≤◌, length};

/// The substitution of bytes, and what undoes it (FIPS 197, sections 5.1.1 and 5.3.2).
#[derive(Drop)]
pub struct Substitution {
    there: [u8; 256],
    back: [u8; 256],
}

impl Substitution {
    pub fn new() -> Substitution {
        let mut there = [0u8; 256];
        let mut back = [0u8; 256];
        for byte in 0..=255u8 {
            let replaced = transformed(inverse_of(byte));
            there[byte as usize] = replaced;
            back[replaced as usize] = byte;
        }
        Substitution { there, back }
    }

    fn replaced(&self, block: [u8; 16]) -> [u8; 16] {
        let mut out = block;
        for i in 0..16 {
            out[i] = self.there[block[i] as usize];
        }
        out
    }

    /// What is added to an earlier word to make word `i`, from the word before it (FIPS 197, section 5.2).
    fn turned(&self, key_words: usize, i: usize, word: [u8; 4]) -> [u8; 4]
        requires { 0 < key_words }
    {
        let mut out = word;
        if i % key_words == 0 {
            for j in 0..4 {
                out[j] = self.there[word[(j + 1) % 4] as usize];
            }
            out[0] ^= constant(i / key_words);
        } else if key_words > 6 && i % key_words == 4 {
            for j in 0..4 {
                out[j] = self.there[word[j] as usize];
            }
        }
        out
    }

    fn restored(&self, block: [u8; 16]) -> [u8; 16] {
        let mut out = block;
        for i in 0..16 {
            out[i] = self.back[block[i] as usize];
        }
        out
    }
}

/// The round keys of one key (FIPS 197, section 5.2).
#[derive(Drop)]
pub struct RoundKeys {
    bytes: [u8; 240],
    rounds: usize,
    ghost few: { rounds < 15 },
}

impl RoundKeys {
    /// The round keys of a key of 16 or 32 bytes.
    pub fn new(substitution: &Substitution, key: &[u8]) -> RoundKeys
        requires { (length key.now ≡ 16) ⊎ (length key.now ≡ 32) }
    {
        let mut bytes = [0u8; 240];
        bytes[..key.len()].copy_from_slice(key);
        let key_words = key.len() / 4;
        for i in key_words..4 * (key_words + 7) {
            let last = [
                bytes[4 * i - 4],
                bytes[4 * i - 3],
                bytes[4 * i - 2],
                bytes[4 * i - 1],
            ];
            let turned = substitution.turned(key_words, i, last);
            for j in 0..4 {
                bytes[4 * i + j] = bytes[4 * (i - key_words) + j] ^ turned[j];
            }
        }
        RoundKeys {
            bytes,
            rounds: key_words + 6,
        }
    }

    /// The block and round key `n` added (FIPS 197, section 5.1.4).
    fn added(&self, block: [u8; 16], n: usize) -> [u8; 16]
        requires { n < 15 }
    {
        let mut out = block;
        for i in 0..16 {
            out[i] = block[i] ^ self.bytes[16 * n + i];
        }
        out
    }

    /// The cipher of a block (FIPS 197, section 5.1).
    pub fn enciphered(&self, substitution: &Substitution, block: [u8; 16]) -> [u8; 16] {
        let mut state = self.added(block, 0);
        for n in 1..self.rounds {
            let shifted = shifted(substitution.replaced(state), 1);
            state = self.added(multiplied(shifted, [2, 1, 1, 3]), n);
        }
        let shifted = shifted(substitution.replaced(state), 1);
        self.added(shifted, self.rounds)
    }

    /// The block whose cipher this is (FIPS 197, section 5.3).
    pub fn deciphered(&self, substitution: &Substitution, block: [u8; 16]) -> [u8; 16] {
        let mut state = self.added(block, self.rounds);
        for done in 1..self.rounds {
            let restored = substitution.restored(shifted(state, 3));
            let keyed = self.added(restored, self.rounds - done);
            state = multiplied(keyed, [14, 9, 13, 11]);
        }
        let restored = substitution.restored(shifted(state, 3));
        self.added(restored, 0)
    }
}

/// Row r rotated left by `places` times r (FIPS 197, sections 5.1.2 and 5.3.1).
fn shifted(block: [u8; 16], places: usize) -> [u8; 16]
    requires { places ≤ 3 }
{
    let mut out = block;
    for i in 0..16 {
        let row = i % 4;
        out[i] = block[row + 4 * ((i / 4 + places * row) % 4)];
    }
    out
}

/// Each column times a polynomial, modulo x^4 + 1 (FIPS 197, sections 5.1.3 and 5.3.3).
fn multiplied(block: [u8; 16], polynomial: [u8; 4]) -> [u8; 16] {
    let mut out = [0u8; 16];
    for i in 0..16 {
        let row = i % 4;
        let mut sum = 0;
        for j in 0..4 {
            sum ^= product(polynomial[(row + 4 - j) % 4], block[i - row + j]);
        }
        out[i] = sum;
    }
    out
}

/// The product with x (FIPS 197, section 4.2.1).
fn twice(byte: u8) -> u8 {
    ((byte & 0x7f) << 1) ^ ((byte >> 7) * 0x1b)
}

/// The product of the field (FIPS 197, section 4.2).
fn product(a: u8, b: u8) -> u8 {
    let mut sum = 0;
    let mut power = a;
    let mut rest = b;
    for _ in 0..8 {
        if rest % 2 == 1 {
            sum ^= power;
        }
        power = twice(power);
        rest /= 2;
    }
    sum
}

/// The multiplicative inverse, a to the power 254, and 0 of 0.
fn inverse_of(a: u8) -> u8 {
    let mut power = 1;
    for _ in 0..254 {
        power = product(power, a);
    }
    power
}

/// The affine transformation (FIPS 197, section 5.1.1).
fn transformed(b: u8) -> u8 {
    b ^ b.rotate_left(1) ^ b.rotate_left(2) ^ b.rotate_left(3) ^ b.rotate_left(4) ^ 0x63
}

/// x to the power n - 1.
fn constant(n: usize) -> u8 {
    let mut power = 1;
    for _ in 1..n {
        power = twice(power);
    }
    power
}
