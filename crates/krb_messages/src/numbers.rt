//! Whole numbers.
ghost use Rattle.std.specs.Prelude.{◌≡◌};
ghost use Rattle.picky_asn1.specs.Numbers.{is_number};

use picky_asn1::wrapper::IntegerAsn1;

/// Whether a whole number is this one.
pub fn is_number(value: &IntegerAsn1, number: u32) -> bool
    ensures { result ≡ is_number number value.now }
{
    match value.to_i64() {
        Some(found) => found == i64::from(number),
        None => false,
    }
}
