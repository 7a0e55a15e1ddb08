//! The refusals of the cryptographic calls.

ghost use Rattle.std.specs.Prelude.{◌≡◌};
ghost use Rattle.block_ciphers.specs.declared.error.KerberosCryptoError.TheVariants.{Memory};

use std::alloc::{AllocError, AllocFailed};
use thiserror::Error;

/// Why a cryptographic call was refused. The refusals are numbered from 1 to 10, in this order.
#[derive(Debug, Drop, Error)]
pub enum KerberosCryptoError {
    /// The key has a wrong length: its bytes, and those that are required.
    #[error("invalid key length: {0} bytes, expected {1}")]
    KeyLength(usize, usize),

    /// The ciphertext is too short: its bytes, and those that are required at least.
    #[error("invalid cipher text length: {0} bytes, expected at least {1}")]
    CipherLength(usize, usize),

    /// No suite has this number.
    #[error("invalid algorithm identifier: {0}")]
    AlgorithmIdentifier(usize),

    /// A suite's number is one byte: this many bytes were given.
    #[error("invalid algorithm identifier of {0} bytes")]
    AlgorithmIdentifierData(usize),

    /// The checksum isn't that of the text.
    #[error("bad integrity: the computed checksum differs from the one in the message")]
    IntegrityCheck,

    /// The cipher failed. No call of this crate returns it.
    #[error("cipher error: {0}")]
    CipherError(String),

    /// The ciphertext isn't whole blocks.
    #[error("padding error: the cipher text is not whole blocks")]
    CipherUnpad,

    /// The plaintext isn't whole blocks.
    #[error("padding error: the text is not whole blocks")]
    CipherPad,

    /// The seed has a wrong length. No call of this crate returns it.
    #[error("invalid seed bit length: {0}")]
    SeedBitLen(String),

    /// Memory ran out.
    #[error("out of memory")]
    Memory,
}

/// The result of a cryptographic call.
pub type KerberosCryptoResult<T> = Result<T, KerberosCryptoError>;

impl KerberosCryptoError {
    ghost use Rattle.block_ciphers.specs.Numbers.{refusal_number};

    /// The refusal's number.
    pub fn number(&self) -> u8
        ensures { result ≡ refusal_number self.now }
    {
        match self {
            KerberosCryptoError::KeyLength(..) => 1,
            KerberosCryptoError::CipherLength(..) => 2,
            KerberosCryptoError::AlgorithmIdentifier(_) => 3,
            KerberosCryptoError::AlgorithmIdentifierData(_) => 4,
            KerberosCryptoError::IntegrityCheck => 5,
            KerberosCryptoError::CipherError(_) => 6,
            KerberosCryptoError::CipherUnpad => 7,
            KerberosCryptoError::CipherPad => 8,
            KerberosCryptoError::SeedBitLen(_) => 9,
            KerberosCryptoError::Memory => 10,
        }
    }
}

impl From<AllocError> for KerberosCryptoError {
    ghost from_gives = { λ _ e. e ≡ Memory };

    fn from(_failed: AllocError) -> KerberosCryptoError {
        KerberosCryptoError::Memory
    }
}

impl<T: Drop> From<AllocFailed<T>> for KerberosCryptoError {
    ghost from_gives = { λ _ e. e ≡ Memory };

    fn from(_failed: AllocFailed<T>) -> KerberosCryptoError {
        KerberosCryptoError::Memory
    }
}
