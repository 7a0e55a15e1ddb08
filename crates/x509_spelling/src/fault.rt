//! Why a value was not read or written.
ghost use Rattle.std.specs.Prelude.{◌≡◌};
ghost use Rattle.x509_spelling.specs.Answers.{fault_number, fault_of};
ghost use Rattle.x509_spelling.specs.declared.fault.X509Fault.TheVariants.{Memory};

use picky_asn1_der::Asn1DerError;
use std::alloc::AllocError;
use thiserror::Error;

/// Why a value was not read or written. The faults are numbered from 1 to 4, in this order.
#[derive(Clone, Copy, Debug, PartialEq, Eq, Error)]
pub enum X509Fault {
    /// The bytes are no DER of the wanted type, nor a spelling that is accepted for it.
    #[error("the bytes are no DER of the wanted type")]
    Der,
    /// A content breaks the rule of its type, as an object identifier's or a time's.
    #[error("a content breaks the rule of its type")]
    Leaf,
    /// The parts are well formed, and have no meaning together.
    #[error("the parts have no meaning together")]
    Meaning,
    /// The memory could not grow.
    #[error("out of memory")]
    Memory,
}

impl X509Fault {
    /// The fault's number.
    pub fn number(self) -> u8
        ensures { result ≡ fault_number self }
    {
        match self {
            X509Fault::Der => 1,
            X509Fault::Leaf => 2,
            X509Fault::Meaning => 3,
            X509Fault::Memory => 4,
        }
    }
}

impl From<Asn1DerError> for X509Fault {
    ghost from_gives = { λ fault told. told ≡ fault_of fault };

    fn from(fault: Asn1DerError) -> X509Fault {
        match fault {
            Asn1DerError::Memory => X509Fault::Memory,
            Asn1DerError::Message(_) => X509Fault::Leaf,
            _ => X509Fault::Der,
        }
    }
}

impl From<AllocError> for X509Fault {
    ghost from_gives = { λ _ told. told ≡ Memory };

    fn from(_error: AllocError) -> X509Fault {
        X509Fault::Memory
    }
}
