//! Why no key was agreed on.

ghost use Rattle.std.specs.Prelude.{◌≡◌};
ghost use Rattle.krb_crypto.specs.declared.diffie_hellman.error.DiffieHellmanError.TheVariants.{Memory};

use std::alloc::{AllocError, AllocFailed};
use thiserror::Error;

/// Why no key was agreed on.
#[derive(Debug, Drop, Error)]
pub enum DiffieHellmanError {
    /// A seed that isn't whole bytes. No call of this crate returns it.
    #[error("invalid bit length: {0}")]
    BitLen(String),

    /// The bytes that the seed needs, and those that there are.
    #[error("invalid data length: expected at least {0} bytes, got {1}")]
    DataLen(usize, usize),

    /// Memory ran out.
    #[error("out of memory")]
    Memory,
}

/// The result of a call of this module.
pub type DiffieHellmanResult<T> = Result<T, DiffieHellmanError>;

impl From<AllocError> for DiffieHellmanError {
    ghost from_gives = { λ _ e. e ≡ Memory };

    fn from(_failed: AllocError) -> DiffieHellmanError {
        DiffieHellmanError::Memory
    }
}

impl<T: Drop> From<AllocFailed<T>> for DiffieHellmanError {
    ghost from_gives = { λ _ e. e ≡ Memory };

    fn from(_failed: AllocFailed<T>) -> DiffieHellmanError {
        DiffieHellmanError::Memory
    }
}
