//! Why a client has no ticket.
ghost use Rattle.std.specs.Prelude.{◌≡◌};
ghost use Rattle.krb_client_exchanges.specs.declared.fault.ExchangeFault.TheVariants as exchange_fault;

use crate::{HintRefusal, HintedClientRefusal};
use krb_client::{AskRefusal, TakeRefusal};
use krb_crypto::CipherSuite;
use std::alloc::AllocError;
use std::error::Error;
use std::fmt;

/// Why the client refuses to ask, or refuses an answer. The refusals within never say that memory ran out.
#[derive(Clone, Copy, Debug, PartialEq, Eq, thiserror::Error)]
pub enum LoginRefusal {
    /// The keytab has no key of the client of a suite that is wanted, or none of the suite that the KDC names.
    #[error("the keytab has no key of the KDC's suite")]
    NoKey,

    /// The request isn't made.
    #[error("{0}")]
    NotAsked(AskRefusal),

    /// The first answer says nothing of the client's key that the client takes. It may be an error, with its code.
    #[error("{0}")]
    NotHinted(HintRefusal),

    /// The client makes no key of its password as the KDC says, which names this suite.
    #[error("{1}")]
    NotMade(CipherSuite, HintedClientRefusal),

    /// The reply isn't taken. It may be an error, with its code.
    #[error("{0}")]
    NotTaken(TakeRefusal),
}

/// Why an exchange ended without a ticket, where `F` is why requests or replies aren't carried.
#[derive(Debug, Drop, PartialEq, Eq)]
pub enum ExchangeFault<F> {
    /// The client refused to ask, or refused an answer.
    Refused(LoginRefusal),

    /// The request or its reply wasn't carried, or there was no occasion for it.
    Kdc(F),

    /// Memory ran out.
    Memory,
}

impl<F: fmt::Display> fmt::Display for ExchangeFault<F> {
    fn fmt<W: fmt::Write>(&self, f: &mut fmt::Formatter<W>) -> fmt::Result {
        match self {
            ExchangeFault::Refused(refusal) => write!(f, "{refusal}"),
            ExchangeFault::Kdc(fault) => write!(f, "{fault}"),
            ExchangeFault::Memory => f.write_str("out of memory"),
        }
    }
}

impl<F: fmt::Debug + fmt::Display + Drop> Error for ExchangeFault<F> {}

impl<F> From<AllocError> for ExchangeFault<F> {
    ghost from_gives = { λ _ fault. fault ≡ exchange_fault.Memory };

    fn from(_error: AllocError) -> ExchangeFault<F> {
        ExchangeFault::Memory
    }
}
