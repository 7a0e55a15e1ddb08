//! Why signed content was not read or written.
ghost use Rattle.std.specs.Prelude.{◌≡◌};
ghost use Rattle.cms_signed_data.specs.Faults.{fault_number, fault_of};
ghost use Rattle.cms_signed_data.specs.declared.fault.SignedFault.TheVariants.{Memory};

use std::alloc::AllocError;
use thiserror::Error;
use x509_spelling::X509Fault;

/// Why signed content was not read or written. The faults are numbered from 1, in this order.
#[derive(Clone, Copy, Debug, PartialEq, Eq, Error)]
pub enum SignedFault {
    /// The bytes are no signed content of the one form. In writing: the certificate doesn't read.
    #[error("the bytes are no signed content of the form that is read here")]
    Unreadable,
    /// The memory could not grow.
    #[error("out of memory")]
    Memory,
}

impl SignedFault {
    /// The fault's number.
    pub fn number(self) -> u8
        ensures { result ≡ fault_number self }
    {
        match self {
            SignedFault::Unreadable => 1,
            SignedFault::Memory => 2,
        }
    }
}

impl From<X509Fault> for SignedFault {
    ghost from_gives = { λ fault told. told ≡ fault_of fault };

    fn from(fault: X509Fault) -> SignedFault {
        match fault {
            X509Fault::Memory => SignedFault::Memory,
            _ => SignedFault::Unreadable,
        }
    }
}

impl From<AllocError> for SignedFault {
    ghost from_gives = { λ _ told. told ≡ Memory };

    fn from(_error: AllocError) -> SignedFault {
        SignedFault::Memory
    }
}
