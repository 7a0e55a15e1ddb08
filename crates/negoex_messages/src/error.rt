//! Why a message was not read or written.
ghost use Rattle.std.specs.Prelude.{◌≡◌};

use std::io;
use std::io::ErrorKind;
use thiserror::Error;

/// Why a message of NEGOEX, or a type of which one is made up, was not read or written.
#[derive(Clone, Copy, Debug, PartialEq, Eq, Error)]
#[error("the NEGOEX message cannot be read or written: {kind}")]
pub struct NegoexError {
    /// The fault of the bytes or of the value, the device's fault, or `OutOfMemory`.
    pub kind: ErrorKind,
}

impl From<NegoexError> for io::Error {
    ghost use Rattle.std.specs.IoError.{error_kind};

    ghost from_gives = { λ error fault. error_kind fault ≡ error.kind };

    fn from(error: NegoexError) -> io::Error {
        io::Error::from(error.kind)
    }
}
