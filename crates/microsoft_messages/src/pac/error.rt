//! Why a PAC was not read or written.
ghost use Rattle.std.specs.Prelude.{◌≡◌};
ghost use Rattle.microsoft_messages.specs.Faults.{of_whole_fault, short_of, range_of};
ghost use Rattle.microsoft_messages.specs.declared.pac.error.PacError.TheVariants.{Memory};

use byte_streams::WholeFault;
use std::alloc::AllocError;
use std::io;
use std::io::ErrorKind;
use thiserror::Error;

/// Why a PAC was not read or written.
#[derive(Debug, Drop, Error)]
pub enum PacError {
    /// The version isn't 0. No call returns this: see `InvalidVersion`.
    #[error("the version must be 0, but it is {0}")]
    Version(u32),

    /// The ulType is unknown: this number.
    #[error("invalid PAC buffer type: {0}")]
    PacBufferType(u32),

    /// The device failed, or the bytes end inside the table (`UnexpectedEof`).
    #[error("unable to read or write bytes: {0}")]
    IoError(ErrorKind),

    /// The version isn't 0: this number.
    #[error("invalid version: expected 0, but got {0}")]
    InvalidVersion(u32),

    /// A buffer ends past the PAC, or has another size than its content; or there are more buffers than are counted.
    #[error("invalid range of a buffer's data")]
    InvalidRange,

    /// Memory ran out.
    #[error("out of memory")]
    Memory,
}

impl From<AllocError> for PacError {
    ghost from_gives = { λ _ e. e ≡ Memory };

    fn from(_error: AllocError) -> PacError {
        PacError::Memory
    }
}

/// A device's fault, as its kind, of which `OutOfMemory` is [`PacError::Memory`].
impl From<io::Error> for PacError {
    ghost use Rattle.std.specs.IoError.{error_kind};
    ghost use Rattle.microsoft_messages.specs.Faults.{of_kind};

    ghost from_gives = { λ fault error. error ≡ of_kind (error_kind fault) };

    fn from(fault: io::Error) -> PacError {
        match fault.kind() {
            ErrorKind::OutOfMemory => PacError::Memory,
            kind => PacError::IoError(kind),
        }
    }
}

// Returns the fault where bytes are missing: that of the device that stopped, or that they end.
pub(crate) fn short_fault(stop: Option<ErrorKind>) -> PacError
    ensures { result ≡ short_of stop }
{
    match stop {
        None => PacError::IoError(ErrorKind::UnexpectedEof),
        Some(kind) => PacError::IoError(kind),
    }
}

// Returns the fault of a buffer that ends past the bytes.
pub(crate) fn range_fault(stop: Option<ErrorKind>) -> PacError
    ensures { result ≡ range_of stop }
{
    match stop {
        None => PacError::InvalidRange,
        Some(kind) => PacError::IoError(kind),
    }
}

// Returns the fault of a write that stopped.
pub(crate) fn write_fault(fault: WholeFault) -> PacError
    ensures { result ≡ of_whole_fault fault }
{
    match fault {
        WholeFault::Full => PacError::IoError(ErrorKind::WriteZero),
        WholeFault::Failed(kind) => PacError::IoError(kind),
        WholeFault::Memory => PacError::Memory,
    }
}
