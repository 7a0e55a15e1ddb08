//! Why a value was not read or written.
ghost use Rattle.std.specs.Prelude.{◌≡◌};

use std::io::ErrorKind;
use thiserror::Error;

/// A rule of a value's own type, which its content breaks.
#[derive(Clone, Copy, Debug, PartialEq, Eq)]
pub enum Rule {
    /// What a BOOLEAN is (X.690, section 11.1).
    Boolean,
    /// What an INTEGER is (X.690, section 8.3).
    Integer,
    /// What an OBJECT IDENTIFIER is (X.690, section 8.19).
    ObjectIdentifier,
    /// What a BIT STRING is (X.690, section 11.2).
    BitString,
    /// What NULL is (X.690, section 8.8).
    Null,
    /// The characters of a string type (X.680, section 41).
    Characters,
    /// What a time is (X.690, sections 11.7 and 11.8).
    Time,
}

/// Why a type doesn't write a value.
#[derive(Clone, Copy, Debug, PartialEq, Eq)]
pub enum Unsupported {
    /// This value is beyond what the type can write: `UnsupportedValue`.
    OneValue,
    /// No value of the type has a DER here: `UnsupportedType`.
    WholeType,
}

/// Why a value was not read or written. The faults are numbered from 1 to 8, in this order.
#[derive(Clone, Copy, Debug, PartialEq, Eq, Error)]
pub enum Asn1DerError {
    /// The input ended inside a value.
    #[error("the input ends inside a value")]
    TruncatedData,
    /// The bytes are no canonical DER of the wanted type; also each call after a refused one.
    #[error("the bytes are no canonical DER of the wanted type")]
    InvalidData,
    /// The value is beyond what the type holds.
    #[error("the value is beyond what the type holds")]
    UnsupportedValue,
    /// The type has no DER here.
    #[error("the type has no DER here")]
    UnsupportedType,
    /// The sink takes no more bytes; also each call after a failed one.
    #[error("the sink takes no more bytes")]
    InvalidSink,
    /// A rule of the value's own type was broken.
    #[error("the content breaks the rule of its type: {0:?}")]
    Message(Rule),
    /// The device failed.
    #[error("the device failed: {0:?}")]
    Other(ErrorKind),
    /// The memory could not grow.
    #[error("out of memory")]
    Memory,
}

impl Asn1DerError {
    ghost use Rattle.asn1_der.specs.Numbers.{fault_number};

    /// The fault's number.
    pub fn number(self) -> u8
        ensures { result ≡ fault_number self }
    {
        match self {
            Asn1DerError::TruncatedData => 1,
            Asn1DerError::InvalidData => 2,
            Asn1DerError::UnsupportedValue => 3,
            Asn1DerError::UnsupportedType => 4,
            Asn1DerError::InvalidSink => 5,
            Asn1DerError::Message(_) => 6,
            Asn1DerError::Other(_) => 7,
            Asn1DerError::Memory => 8,
        }
    }
}
