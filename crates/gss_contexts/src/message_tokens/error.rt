//! Why a token was not read or written.
ghost use Rattle.std.specs.Prelude.{◌≡◌};
ghost use Rattle.gss_contexts.specs.Faults.{of_whole_fault};

use asn1_der::Asn1DerError;
use byte_streams::WholeFault;
use std::alloc::AllocError;
use std::io;
use std::io::ErrorKind;
use thiserror::Error;

/// Why a token was not read or written. The faults are numbered from 1 to 7, in this order.
#[derive(Debug, Drop, Error)]
pub enum GssApiMessageError {
    /// The token's first two bytes: those that are expected, and those that are there.
    #[error("invalid token id: expected {0:?}, but got {1:?}")]
    InvalidId([u8; 2], [u8; 2]),
    /// The mechanism's object identifier: the expected one, and the one that is there. No call of `message_tokens` returns it.
    #[error("invalid mechanism OID: expected {0}, but got {1}")]
    InvalidMechanismOid(String, String),
    /// The device failed, or the bytes end inside the token (`UnexpectedEof`).
    #[error("IO error: {0}")]
    IoError(ErrorKind),
    /// A MIC token's filler isn't all FF: these bytes are there.
    #[error("invalid MIC token filler: {0:?}")]
    InvalidMicFiller([u8; 5]),
    /// A wrap token's filler isn't FF: this byte is there.
    #[error("invalid wrap token filler: {0}")]
    InvalidWrapFiller(u8),
    /// The token's content isn't DER. No call of `message_tokens` returns it.
    #[error("ASN.1 error: {0}")]
    Asn1Error(Asn1DerError),
    /// Memory ran out.
    #[error("out of memory")]
    Memory,
}

impl GssApiMessageError {
    ghost use Rattle.gss_contexts.specs.Faults.{fault_number};

    /// The fault's number.
    pub fn number(&self) -> u8
        ensures { result ≡ fault_number self.now }
    {
        match self {
            GssApiMessageError::InvalidId(..) => 1,
            GssApiMessageError::InvalidMechanismOid(..) => 2,
            GssApiMessageError::IoError(_) => 3,
            GssApiMessageError::InvalidMicFiller(_) => 4,
            GssApiMessageError::InvalidWrapFiller(_) => 5,
            GssApiMessageError::Asn1Error(_) => 6,
            GssApiMessageError::Memory => 7,
        }
    }
}

/// A fault of DER, of which running out of memory is [`GssApiMessageError::Memory`].
impl From<Asn1DerError> for GssApiMessageError {
    ghost use Rattle.gss_contexts.specs.Faults.{of_der_fault};

    ghost from_gives = { λ fault error. error ≡ of_der_fault fault };

    fn from(fault: Asn1DerError) -> GssApiMessageError {
        match fault {
            Asn1DerError::Memory => GssApiMessageError::Memory,
            other => GssApiMessageError::Asn1Error(other),
        }
    }
}

/// A device's fault, as its kind, of which `OutOfMemory` is [`GssApiMessageError::Memory`].
impl From<io::Error> for GssApiMessageError {
    ghost use Rattle.std.specs.IoError.{error_kind};
    ghost use Rattle.gss_contexts.specs.Faults.{of_kind};

    ghost from_gives = { λ fault error. error ≡ of_kind (error_kind fault) };

    fn from(fault: io::Error) -> GssApiMessageError {
        match fault.kind() {
            ErrorKind::OutOfMemory => GssApiMessageError::Memory,
            kind => GssApiMessageError::IoError(kind),
        }
    }
}

impl From<AllocError> for GssApiMessageError {
    ghost use Rattle.gss_contexts.specs.declared.message_tokens.error.GssApiMessageError.TheVariants.{Memory};

    ghost from_gives = { λ _ error. error ≡ Memory };

    fn from(_error: AllocError) -> GssApiMessageError {
        GssApiMessageError::Memory
    }
}

// Returns the fault of a write that stopped.
pub(crate) fn write_fault(fault: WholeFault) -> GssApiMessageError
    ensures { result ≡ of_whole_fault fault }
{
    match fault {
        WholeFault::Full => GssApiMessageError::IoError(ErrorKind::WriteZero),
        WholeFault::Failed(kind) => GssApiMessageError::IoError(kind),
        WholeFault::Memory => GssApiMessageError::Memory,
    }
}
