//! Why a client doesn't take a reply by certificate.
ghost use Rattle.std.specs.Prelude.{◌≡◌};
ghost use Rattle.pkinit_clients.specs.declared.fault.ReplyFault.TheVariants as reply_fault;

use pkinit_validation::TrustFault;
use std::alloc::AllocError;
use thiserror::Error;

/// Why a client takes no secret from a reply.
#[derive(Clone, Copy, Debug, PartialEq, Eq, Error)]
pub enum ReplyFault {
    /// It can't be read, the realm didn't sign it, it answers another request, or the key functions don't agree.
    #[error("the reply is not trusted")]
    NotTrusted,
    /// Memory ran out.
    #[error("out of memory")]
    Memory,
}

impl From<AllocError> for ReplyFault {
    ghost from_gives = { λ _ fault. fault ≡ reply_fault.Memory };

    fn from(_error: AllocError) -> ReplyFault {
        ReplyFault::Memory
    }
}

impl From<TrustFault> for ReplyFault {
    ghost use Rattle.pkinit_clients.specs.Faults.{fault_of};

    ghost from_gives = { λ fault told. told ≡ fault_of fault };

    fn from(fault: TrustFault) -> ReplyFault {
        match fault {
            TrustFault::Refused(_) => ReplyFault::NotTrusted,
            TrustFault::Memory => ReplyFault::Memory,
        }
    }
}
