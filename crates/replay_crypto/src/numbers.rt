//! Powers and moduli.

use crate::row::Vector;
use modular_arithmetic::{Modulus, ModulusRefusal};

/// Modulus, base, exponent and power.
pub(crate) fn is_power(row: &Vector<'_>) -> bool {
    match row.columns.as_slice() {
        [modulus, base, exponent, power] => is_raised(modulus, base, exponent, power),
        _ => false,
    }
}

fn is_raised(octets: &[u8], base: &[u8], exponent: &[u8], power: &[u8]) -> bool {
    let Ok(modulus) = Modulus::new(octets) else {
        return false;
    };
    let size = octets.len();
    if base.len() > size || size > 512 {
        return false;
    }
    let mut made = [0u8; 512];
    let made = &mut made[..size];
    modulus.hidden_power(made, base, exponent);
    if &*made != power {
        return false;
    }
    let exponent = small_number(exponent);
    if exponent == 0 {
        return true;
    }
    modulus.power(made, base, exponent);
    &*made == power
}

/// The number of at most eight octets, else 0.
fn small_number(octets: &[u8]) -> u64 {
    if octets.len() > 8 {
        return 0;
    }
    let mut number = 0u64;
    for octet in octets {
        number = number.wrapping_mul(256).wrapping_add(u64::from(*octet));
    }
    number
}

/// A refused modulus.
pub(crate) fn is_refused(row: &Vector<'_>) -> bool {
    match row.columns.as_slice() {
        [modulus] => match Modulus::new(modulus) {
            Ok(_) => false,
            Err(refusal) => name_of(refusal) == row.first,
        },
        _ => false,
    }
}

pub(crate) fn name_of(refusal: ModulusRefusal) -> &'static str {
    match refusal {
        ModulusRefusal::TooShort => "TooShort",
        ModulusRefusal::TooLong => "TooLong",
        ModulusRefusal::ZeroInFront => "ZeroInFront",
        ModulusRefusal::Even => "Even",
    }
}
