//! The unsigned integers of Rust.
ghost use Rattle.std.specs.Prelude.{◌≡◌, ℕ, ◌<◌, ◌≤◌, MatchResult};

use asn1_der::Asn1DerError;

/// An unsigned integer of Rust.
pub trait UInt: Sized + Copy {
    /// The greatest value.
    const MOST: u128;

    ghost MOST: { ℕ };

    ghost number_of: { Self → ℕ };

    /// The value that is this number: `UnsupportedValue` for one past the type.
    fn from_u128(number: u128) -> Result<Self, Asn1DerError>
        ensures { MatchResult result
            (λ value. (number_of value ≡ number) × (number ≤ MOST))
            (λ fault. (fault ≡ Asn1DerError.UnsupportedValue) × (MOST < number)) };

    /// The number that the value is.
    fn into_u128(self) -> u128
        ensures number { result ≡ number_of self }
        ensures most { result ≤ MOST };
}

impl UInt for u8 {
    ghost use Rattle.std.specs.Prelude.{◌-◌, ◌^◌};

    const MOST: u128 = u8::MAX as u128;

    ghost MOST = { 2 ^ 8 - 1 };

    ghost number_of = { λ value. value };

    fn from_u128(number: u128) -> Result<u8, Asn1DerError> {
        if number > u8::MAX as u128 {
            return Err(Asn1DerError::UnsupportedValue);
        }
        Ok(number as u8)
    }

    fn into_u128(self) -> u128 {
        u128::from(self)
    }
}

impl UInt for u16 {
    ghost use Rattle.std.specs.Prelude.{◌-◌, ◌^◌};

    const MOST: u128 = u16::MAX as u128;

    ghost MOST = { 2 ^ 16 - 1 };

    ghost number_of = { λ value. value };

    fn from_u128(number: u128) -> Result<u16, Asn1DerError> {
        if number > u16::MAX as u128 {
            return Err(Asn1DerError::UnsupportedValue);
        }
        Ok(number as u16)
    }

    fn into_u128(self) -> u128 {
        u128::from(self)
    }
}

impl UInt for u32 {
    ghost use Rattle.std.specs.Prelude.{◌-◌, ◌^◌};

    const MOST: u128 = u32::MAX as u128;

    ghost MOST = { 2 ^ 32 - 1 };

    ghost number_of = { λ value. value };

    fn from_u128(number: u128) -> Result<u32, Asn1DerError> {
        if number > u32::MAX as u128 {
            return Err(Asn1DerError::UnsupportedValue);
        }
        Ok(number as u32)
    }

    fn into_u128(self) -> u128 {
        u128::from(self)
    }
}

impl UInt for u64 {
    ghost use Rattle.std.specs.Prelude.{◌-◌, ◌^◌};

    const MOST: u128 = u64::MAX as u128;

    ghost MOST = { 2 ^ 64 - 1 };

    ghost number_of = { λ value. value };

    fn from_u128(number: u128) -> Result<u64, Asn1DerError> {
        if number > u64::MAX as u128 {
            return Err(Asn1DerError::UnsupportedValue);
        }
        Ok(number as u64)
    }

    fn into_u128(self) -> u128 {
        u128::from(self)
    }
}

impl UInt for u128 {
    ghost use Rattle.std.specs.Prelude.{◌-◌, ◌^◌};

    const MOST: u128 = u128::MAX;

    ghost MOST = { 2 ^ 128 - 1 };

    ghost number_of = { λ value. value };

    fn from_u128(number: u128) -> Result<u128, Asn1DerError> {
        Ok(number)
    }

    fn into_u128(self) -> u128 {
        self
    }
}
