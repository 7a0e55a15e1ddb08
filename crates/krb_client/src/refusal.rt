//! Why a client doesn't ask, and why it doesn't take a reply.
ghost use Rattle.std.specs.Prelude.{◌≡◌};
ghost use Rattle.krb_client.specs.Refusals.{ask_number, take_number};
ghost use Rattle.krb_client.specs.declared.refusal.AskRefusal.TheVariants as ask_refusal;
ghost use Rattle.krb_client.specs.declared.refusal.TakeRefusal.TheVariants as take_refusal;

use krb_constants::error_names::ErrorCode;
use std::alloc::AllocError;
use thiserror::Error;

/// Why a client isn't made, or doesn't ask.
#[derive(Clone, Copy, Debug, PartialEq, Eq, Error)]
pub enum AskRefusal {
    /// The name breaks the rules for the names of realms or of principals.
    #[error("not a name of a realm or a principal")]
    BadName,

    /// The client's certificate isn't readable.
    #[error("not a certificate")]
    BadCertificate,

    /// The client's key functions answer none: the client can't authenticate itself.
    #[error("no key function for what is asked")]
    NoKeyFunction,

    /// Memory ran out.
    #[error("out of memory")]
    Memory,
}

impl AskRefusal {
    /// The refusal's number: 1 for a bad name, 4 for a bad certificate, 2 where key functions answer none, 3 if memory ran
    /// out.
    pub fn number(self) -> u32
        ensures { result ≡ ask_number self }
    {
        match self {
            AskRefusal::BadName => 1,
            AskRefusal::BadCertificate => 4,
            AskRefusal::NoKeyFunction => 2,
            AskRefusal::Memory => 3,
        }
    }
}

impl From<AllocError> for AskRefusal {
    ghost from_gives = { λ _ refusal. refusal ≡ ask_refusal.Memory };

    fn from(_error: AllocError) -> AskRefusal {
        AskRefusal::Memory
    }
}

/// Why a client doesn't take a reply.
#[derive(Clone, Copy, Debug, PartialEq, Eq, Error)]
pub enum TakeRefusal {
    /// It is the one encoding of no reply of the kind that was asked for, and of no error.
    #[error("no reply and no error")]
    Unreadable,

    /// It is an error with this code (RFC 4120, section 7.5.9).
    #[error("refused: {}", ErrorCode(*.0))]
    Refused(u32),

    /// It isn't the realm's, by its certificate and signature (RFC 4556, section 3.2.4).
    #[error("the reply isn't signed by the realm")]
    NotTrusted,

    /// Its part isn't sealed under the key that the client's means have for it or, where it answers by a ticket, under the
    /// session's key.
    #[error("the reply isn't sealed under the key that it is to be under")]
    NotSealed,

    /// It answers another request, or grants a key of no known suite.
    #[error("the reply answers another request")]
    NotAsked,

    /// Memory ran out.
    #[error("out of memory")]
    Memory,
}

impl TakeRefusal {
    /// The refusal's number: 1 for what isn't readable, 2 for an error, 5 for what isn't the realm's, 3 for what isn't sealed,
    /// 4 for what wasn't asked, 6 if memory ran out.
    pub fn number(self) -> u32
        ensures { result ≡ take_number self }
    {
        match self {
            TakeRefusal::Unreadable => 1,
            TakeRefusal::Refused(_) => 2,
            TakeRefusal::NotTrusted => 5,
            TakeRefusal::NotSealed => 3,
            TakeRefusal::NotAsked => 4,
            TakeRefusal::Memory => 6,
        }
    }
}

impl From<AllocError> for TakeRefusal {
    ghost from_gives = { λ _ refusal. refusal ≡ take_refusal.Memory };

    fn from(_error: AllocError) -> TakeRefusal {
        TakeRefusal::Memory
    }
}
