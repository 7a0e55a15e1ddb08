//! Why there is no public value.
ghost use Rattle.std.specs.Prelude.{◌≡◌};
ghost use Rattle.rsa_keys.specs.Faults.{fault_of};
ghost use Rattle.rsa_keys.specs.declared.fault.DhFault.TheVariants.{Memory};

use public_key_cryptography::GroupRefusal;
use std::alloc::AllocError;
use thiserror::Error;

/// Why there is no public value.
#[derive(Clone, Copy, Debug, Drop, PartialEq, Eq, Error)]
pub enum DhFault {
    /// The bytes are not the one DER encoding of a SubjectPublicKeyInfo whose key is an INTEGER, or the bits not of an INTEGER.
    #[error("the public value is no DER of a SubjectPublicKeyInfo with an INTEGER")]
    Unreadable,
    /// The algorithm isn't dhpublicnumber with the parameters p, g and q of a known group.
    #[error("the public value's algorithm is not dhpublicnumber with a known group")]
    UnknownGroup,
    /// The group is the 1024-bit one, which isn't taken.
    #[error("the public value is of the 1024-bit group, which is too weak")]
    GroupTooWeak,
    /// The number isn't one of 2 to the prime less 2.
    #[error("the public value is not one of 2 to the prime less 2")]
    OutOfRange,
    /// The memory could not grow.
    #[error("out of memory")]
    Memory,
}

impl From<GroupRefusal> for DhFault {
    ghost from_gives = { λ refusal fault. fault ≡ fault_of refusal };

    fn from(refusal: GroupRefusal) -> DhFault {
        match refusal {
            GroupRefusal::GroupTooWeak => DhFault::GroupTooWeak,
            GroupRefusal::UnknownGroup => DhFault::UnknownGroup,
        }
    }
}

impl From<AllocError> for DhFault {
    ghost from_gives = { λ _ fault. fault ≡ Memory };

    fn from(_error: AllocError) -> DhFault {
        DhFault::Memory
    }
}
