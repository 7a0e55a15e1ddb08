//! Why a frame was not read or written.
ghost use Rattle.std.specs.Prelude.{◌≡◌};

use std::io;
use std::io::ErrorKind;
use thiserror::Error;

/// Why a frame was not read or written.
#[derive(Clone, Copy, Debug, PartialEq, Eq, Error)]
#[error("the frame of a password change cannot be read or written: {kind}")]
pub struct KrbPrivFrameError {
    /// The fault of the bytes or of a part, the device's fault, or `OutOfMemory`.
    pub kind: ErrorKind,
}

impl From<ErrorKind> for KrbPrivFrameError {
    ghost from_gives = { λ kind error. error ≡ record { kind = kind } };

    fn from(kind: ErrorKind) -> KrbPrivFrameError {
        KrbPrivFrameError { kind }
    }
}

impl From<KrbPrivFrameError> for io::Error {
    ghost use Rattle.std.specs.IoError.{error_kind};

    ghost from_gives = { λ error fault. error_kind fault ≡ error.kind };

    fn from(error: KrbPrivFrameError) -> io::Error {
        io::Error::from(error.kind)
    }
}
