//! The length octets of an element: definite, and as few as there can be (X.690, sections 8.1.3 and 10.1).
ghost use Rattle.std.specs.Prelude.{◌≡◌, ℕ, ◌+◌, ◌^◌, ◌<◌, ◌≤◌, List, ◌∷◌, length, drop, None, MatchOption};
ghost use Rattle.std.specs.Int.Digits.{number_from_digits};
ghost use Rattle.asn1_der.specs.Length.{digits, length_octets};

use std::marker::Model;

// How many digits to the base 256 the greatest length has.
const MOST_DIGITS: usize = 8;

/// The length octets of one length: one to nine of them.
#[derive(Drop, Debug)]
pub struct LengthOctets {
    // The octets are at the end of the array, since the last digit is known first.
    octets: [u8; 9],
    start: usize,
}

impl Model for LengthOctets {
    ghost Value = { List ℕ };

    ghost view = { λ o. drop o.start o.octets };

    ghost invariant = { λ o. o.start ≤ 9 };
}

impl LengthOctets {
    /// The length octets of `length`: the length itself where it is below 128, else the count of its
    /// digits to the base 256, with bit 8 set, and the digits (X.690, sections 8.1.3.4 and 8.1.3.5).
    pub fn of(length: usize) -> LengthOctets
        ensures { result ≡ length_octets length }
    {
        let mut octets = [0; 9];
        if length < 128 {
            octets[8] = length as u8;
            return LengthOctets { octets, start: 8 };
        }
        let first_digit = put_digits(&mut octets, length);
        let start = first_digit - 1;
        octets[start] = 128 + (9 - first_digit) as u8;
        LengthOctets { octets, start }
    }

    /// The octets, as they are written.
    pub fn as_bytes(&self) -> &[u8]
        ensures { result.now ≡ self.now }
    {
        &self.octets[self.start..]
    }
}

// Writes the digits of `number` at the end of the nine octets, and gives the place of the first.
fn put_digits(octets: &mut [u8], number: usize) -> usize
    requires { length octets.old ≡ 9 }
    ensures first { 1 ≤ result }
    ensures last { result ≤ 9 }
    ensures after { drop result octets.new ≡ digits number }
{
    let mut start = octets.len();
    let mut rest = number;
    while rest > 0 {
        start -= 1;
        octets[start] = (rest % 256) as u8;
        rest /= 256;
    }
    start
}

/// How many octets follow the first length octet (X.690, sections 8.1.3.4 and 8.1.3.5).
///
/// `None` where no length below 2^64 begins so in DER: the indefinite form, or more than eight digits.
pub fn following(first: u8) -> Option<usize>
    ensures count { MatchOption
        result
        ((n : ℕ) → n < 2 ^ 64 → (rest : List ℕ) → length_octets n ≡ first ∷ rest → ⊥)
        (λ k. (k ≤ 8) × ((n : ℕ) (rest : List ℕ) → length_octets n ≡ first ∷ rest → length rest ≡ k)) }
    // The indefinite form.
    ensures indefinite { first ≡ 128 → result ≡ None }
{
    match first {
        0..=127 => Some(0),
        129..=136 => Some(first as usize - 128),
        _ => None,
    }
}

/// The length that these octets, all of them, write (X.690, section 8.1.3).
///
/// `None` where they are the length octets of no length below 2^64: where one is missing or too many, and
/// where fewer would do (10.1).
pub fn length_of(octets: &[u8]) -> Option<usize>
    ensures { MatchOption
        result
        ((n : ℕ) → n < 2 ^ 64 → length_octets n ≡ octets.now → ⊥)
        (λ n. length_octets n ≡ octets.now) }
{
    let number = match octets {
        [only] => *only as usize,
        [_, digits @ ..] if digits.len() <= MOST_DIGITS => number_of(digits),
        _ => return None,
    };
    if LengthOctets::of(number).as_bytes() == octets {
        Some(number)
    } else {
        None
    }
}

// The number that the digits to the base 256 write.
fn number_of(digits: &[u8]) -> usize
    requires { length digits.now ≤ MOST_DIGITS }
    ensures { result ≡ number_from_digits 256 digits.now }
{
    let mut number = 0;
    for digit in digits {
        number = number * 256 + *digit as usize;
    }
    number
}
