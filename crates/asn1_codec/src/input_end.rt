//! Where an input ends, and what that makes of a refusal.
ghost use Rattle.std.specs.Prelude.{◌≡◌, ℕ, ◌^◌, ◌<◌, nat_lt, List, ◌∷◌, ◌++◌, length, MatchResult};
ghost use Rattle.std.specs.Bool.{MatchBool};
ghost use Rattle.asn1_der.specs.Length.{length_octets};
ghost use Rattle.asn1_codec.specs.Lengths.{AreLengthOctets, IsWanting};
ghost use Rattle.asn1_codec.specs.Named.{EndsInside, IsNamed, as_final, is_excuse, is_truncated};

use asn1_der::{Asn1DerError, following, length_of};

/// The fault of an input of which nothing is read: `TruncatedData` exactly where it ends inside an element, memory and the device aside.
pub(crate) fn named(fault: Asn1DerError, input: &[u8]) -> Asn1DerError
    ensures { IsNamed fault input.now result }
{
    if is_excuse(fault) {
        return fault;
    }
    if ends_inside(input) {
        return Asn1DerError::TruncatedData;
    }
    as_final(fault)
}

fn is_excuse(fault: Asn1DerError) -> bool
    ensures { result ≡ is_excuse fault }
{
    matches!(fault, Asn1DerError::Memory | Asn1DerError::Other(_))
}

// The fault of an input that doesn't end inside an element.
fn as_final(fault: Asn1DerError) -> Asn1DerError
    ensures { result ≡ as_final fault }
{
    match fault {
        Asn1DerError::TruncatedData => Asn1DerError::InvalidData,
        other => other,
    }
}

// Whether further bytes complete the input to one element.
fn ends_inside(input: &[u8]) -> bool
    ensures { MatchBool result (EndsInside input.now) (EndsInside input.now → ⊥) }
{
    let Some((_first, behind)) = input.split_first() else {
        return true;
    };
    match split_length(behind) {
        Ok((count, held)) => is_shorter(held, count),
        Err(fault) => is_truncated(fault),
    }
}

fn is_shorter(held: &[u8], count: usize) -> bool
    ensures { result ≡ nat_lt (length held.now) count }
{
    held.len() < count
}

fn is_truncated(fault: Asn1DerError) -> bool
    ensures { result ≡ is_truncated fault }
{
    matches!(fault, Asn1DerError::TruncatedData)
}

/// The length that the first octets of the input encode, and the bytes after them. Else `TruncatedData` if further bytes could complete
/// them, and `InvalidData` if none could.
pub fn split_length(input: &[u8]) -> Result<(usize, &[u8]), Asn1DerError>
    ensures { MatchResult result
        (λ split. (split.0 < 2 ^ 64) × (input.now ≡ length_octets split.0 ++ split.1.now))
        (λ fault. IsWanting AreLengthOctets input.now fault) }
{
    let Some((first, digits)) = input.split_first() else {
        return Err(Asn1DerError::TruncatedData);
    };
    let Some(more) = following(*first) else {
        return Err(Asn1DerError::InvalidData);
    };
    if digits.len() < more {
        return Err(fault_of_digits(digits));
    }
    let (octets, rest) = input.split_at(1 + more);
    match length_of(octets) {
        Some(count) => Ok((count, rest)),
        None => Err(Asn1DerError::InvalidData),
    }
}

// The fault of an input that ends inside the digits of a length: a first digit 0 isn't needed.
fn fault_of_digits(digits: &[u8]) -> Asn1DerError
    ensures zero { (ds : List ℕ) → digits.now ≡ 0 ∷ ds → result ≡ Asn1DerError.InvalidData }
    ensures other { ((ds : List ℕ) → digits.now ≡ 0 ∷ ds → ⊥) → result ≡ Asn1DerError.TruncatedData }
{
    match digits.first() {
        Some(0) => Asn1DerError::InvalidData,
        _ => Asn1DerError::TruncatedData,
    }
}
