//! Why a KDC's answer has no hint, and why no client is made by one.
ghost use Rattle.std.specs.Prelude.{◌≡◌};
ghost use Rattle.krb_client_exchanges.specs.Refusals.{client_number, hint_number};
ghost use Rattle.krb_client_exchanges.specs.declared.refusal.HintRefusal.TheVariants as hint_refusal;
ghost use Rattle.krb_client_exchanges.specs.declared.refusal.HintedClientRefusal.TheVariants as client_refusal;

use krb_constants::error_names::ErrorCode;
use std::alloc::AllocError;
use thiserror::Error;

/// Why the client has no hint of a KDC's answer.
#[derive(Clone, Copy, Debug, PartialEq, Eq, Error)]
pub enum HintRefusal {
    /// It isn't the DER encoding of an error or, where the client takes a reply, of an AS reply.
    #[error("no error and no reply of a KDC")]
    Unreadable,

    /// It is an error with another code than KDC_ERR_PREAUTH_REQUIRED (RFC 4120, section 7.5.9).
    #[error("refused: {}", ErrorCode(*.0))]
    Refused(u32),

    /// It has no ETYPE-INFO2, or one that isn't readable.
    #[error("the KDC doesn't say how the key is made")]
    NoHint,

    /// The client takes none of the KDC's suites.
    #[error("the KDC names no suite that the client takes")]
    NoSuite,

    /// The KDC asks for another number of rounds than the suite's own.
    #[error("the KDC asks for other parameters than the suite's own")]
    OtherParameters,

    /// Memory ran out.
    #[error("out of memory")]
    Memory,
}

impl HintRefusal {
    /// The refusal's number: 1 for what isn't readable, 2 for another error, 3 where there is no hint, 4 where there is no suite, 5 for other
    /// parameters, 6 if memory ran out.
    pub fn number(self) -> u32
        ensures { result ≡ hint_number self }
    {
        match self {
            HintRefusal::Unreadable => 1,
            HintRefusal::Refused(_) => 2,
            HintRefusal::NoHint => 3,
            HintRefusal::NoSuite => 4,
            HintRefusal::OtherParameters => 5,
            HintRefusal::Memory => 6,
        }
    }
}

impl From<AllocError> for HintRefusal {
    ghost from_gives = { λ _ refusal. refusal ≡ hint_refusal.Memory };

    fn from(_error: AllocError) -> HintRefusal {
        HintRefusal::Memory
    }
}

/// Why no client is made by a hint.
#[derive(Clone, Copy, Debug, PartialEq, Eq, Error)]
pub enum HintedClientRefusal {
    /// The name breaks the rules for the names of realms or of principals.
    #[error("not a name of a realm or a principal")]
    BadName,

    /// The hint's suite isn't one that the client takes.
    #[error("the KDC names no suite that the client takes")]
    OtherSuite,

    /// The hint's salt isn't the default one, and the user named no suite.
    #[error("the KDC names a salt that isn't the default one: expected the realm, then the name's components")]
    OtherSalt,

    /// Triple DES has no key of an empty password with an empty salt.
    #[error("no key of an empty password with an empty salt")]
    NoKey,

    /// Memory ran out.
    #[error("out of memory")]
    Memory,
}

impl HintedClientRefusal {
    /// The refusal's number: 1 for a bad name, 2 where there is no key, 3 if memory ran out, 4 for another suite, 5 for another salt.
    pub fn number(self) -> u32
        ensures { result ≡ client_number self }
    {
        match self {
            HintedClientRefusal::BadName => 1,
            HintedClientRefusal::OtherSuite => 4,
            HintedClientRefusal::OtherSalt => 5,
            HintedClientRefusal::NoKey => 2,
            HintedClientRefusal::Memory => 3,
        }
    }
}

impl From<AllocError> for HintedClientRefusal {
    ghost from_gives = { λ _ refusal. refusal ≡ client_refusal.Memory };

    fn from(_error: AllocError) -> HintedClientRefusal {
        HintedClientRefusal::Memory
    }
}
