//! Why an account was not looked up, and why a message has no reply.
ghost use Rattle.std.specs.Prelude.{◌≡◌};
ghost use Rattle.krb_kdc.specs.Answers.{refusal_of};
ghost use Rattle.krb_kdc.specs.declared.fault.LookupFault.TheVariants.{Memory};
ghost use Rattle.krb_kdc.specs.declared.fault.LookupRefusal.TheVariants.{Fault};

use krb_frames::AnswerRefusal;
use std::alloc::AllocError;
use std::io::ErrorKind;
use thiserror::Error;

/// Why an account was not looked up.
#[derive(Clone, Copy, Debug, PartialEq, Eq, Error)]
pub enum LookupFault {
    /// What holds the accounts could not be read, by this kind of fault.
    #[error("the accounts could not be read: {0:?}")]
    Failed(ErrorKind),
    /// What holds the accounts is damaged.
    #[error("the accounts are damaged")]
    Damaged,
    /// Memory ran out.
    #[error("out of memory")]
    Memory,
}

impl From<AllocError> for LookupFault {
    ghost from_gives = { λ _ fault. fault ≡ Memory };

    fn from(_error: AllocError) -> LookupFault {
        LookupFault::Memory
    }
}

/// Why a message has no reply.
#[derive(Clone, Copy, Debug, PartialEq, Eq, Error)]
pub enum LookupRefusal {
    /// The bytes are the one encoding of no AS request and of no TGS request.
    #[error("the message is no request")]
    Unreadable,
    /// An account was not looked up, or memory ran out.
    #[error("{0}")]
    Fault(LookupFault),
}

impl From<AllocError> for LookupRefusal {
    ghost from_gives = { λ _ refusal. refusal ≡ Fault Memory };

    fn from(_error: AllocError) -> LookupRefusal {
        LookupRefusal::Fault(LookupFault::Memory)
    }
}

impl From<LookupFault> for LookupRefusal {
    ghost from_gives = { λ fault refusal. refusal ≡ Fault fault };

    fn from(fault: LookupFault) -> LookupRefusal {
        LookupRefusal::Fault(fault)
    }
}

/// Returns the refusal of a responder for a message that has no reply by this refusal. If memory ran out in a look-up, it is `Memory`.
/// Each other fault of a look-up is `Accounts`.
pub fn refusal_of(refusal: LookupRefusal) -> AnswerRefusal
    ensures { result ≡ refusal_of refusal }
{
    match refusal {
        LookupRefusal::Unreadable => AnswerRefusal::Unreadable,
        LookupRefusal::Fault(LookupFault::Memory) => AnswerRefusal::Memory,
        LookupRefusal::Fault(LookupFault::Failed(_)) => AnswerRefusal::Accounts,
        LookupRefusal::Fault(LookupFault::Damaged) => AnswerRefusal::Accounts,
    }
}
