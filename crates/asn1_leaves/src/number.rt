//! The numbers of which the content of an object identifier is made (X.690, section 8.19.2): digits to the
//! base 128, the highest first, where each octet but the last has bit 8 set and none is needless.
ghost use Rattle.std.specs.Prelude.{◌≡◌, ◌≢◌, ℕ, ◌+◌, ◌^◌, ◌<◌, ◌↔◌, List, ◌++◌, map, IsTrue, IfOk, MatchOption};
ghost use Rattle.std.specs.Int.Digits.{digits_of};
ghost use Rattle.asn1_leaves.specs.ObjectIdentifier.{subidentifier, AreNumbers};

use std::alloc::AllocError;

// A number from here on has no room for a further digit.
const FULL: u64 = 1 << 57;

/// The number that begins the octets, and what follows it; none where no number below 2^64 does.
pub fn take_number(octets: &[u8]) -> Option<(u64, &[u8])>
    ensures { MatchOption result
        ((n : ℕ) (rest : List ℕ) → n < 2 ^ 64 → subidentifier n ++ rest ≢ octets.now)
        (λ taken. (taken.0 < 2 ^ 64) × (subidentifier taken.0 ++ taken.1.now ≡ octets.now)) }
{
    let mut number: u64 = 0;
    for (i, octet) in octets.iter().enumerate() {
        if i == 0 && *octet == 128 {
            return None;
        }
        if number >= FULL {
            return None;
        }
        number = number * 128 + (*octet % 128) as u64;
        if *octet < 128 {
            return Some((number, &octets[i + 1..]));
        }
    }
    None
}

/// Whether the octets are numbers below 2^64, one after another.
pub fn are_numbers(octets: &[u8]) -> bool
    ensures { IsTrue result ↔ AreNumbers octets.now }
{
    let mut rest = octets;
    while !rest.is_empty() {
        let Some((_, more)) = take_number(rest) else {
            return false;
        };
        rest = more;
    }
    true
}

/// Writes the number behind the octets.
pub fn push_number(octets: &mut Vec<u8>, number: u64) -> Result<(), AllocError>
    ensures { IfOk result (λ _. octets.new.items ≡ octets.old.items ++ subidentifier number) }
{
    push_digits(octets, number / 128)?;
    octets.push((number % 128) as u8)?;
    Ok(())
}

// Writes the digits, each with bit 8 set.
fn push_digits(octets: &mut Vec<u8>, number: u64) -> Result<(), AllocError>
    ensures { IfOk result (λ _. octets.new.items
        ≡ octets.old.items ++ map (λ digit. 128 + digit) (digits_of 128 number)) }
{
    if number == 0 {
        return Ok(());
    }
    push_digits(octets, number / 128)?;
    octets.push(128 + (number % 128) as u8)?;
    Ok(())
}
