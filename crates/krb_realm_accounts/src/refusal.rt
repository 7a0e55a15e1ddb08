//! Why a command to a realm is refused.
ghost use Rattle.std.specs.Prelude.{◌≡◌};
ghost use Rattle.krb_realm_accounts.specs.declared.refusal.RealmRefusal.TheVariants.{Memory};

use std::alloc::{AllocError, AllocFailed};
use thiserror::Error;

/// Why settings, a name or an account were refused. A refused command changes nothing.
///
/// Where several hold, the first of this order is told: `BadName`, `BadKeyLength`, `BadSetting`, `Exists`, `Unknown`,
/// `KeptAccount`, `NumberSpent`, `Memory`.
#[derive(Clone, Copy, Debug, PartialEq, Eq, Hash, Error)]
pub enum RealmRefusal {
    /// An account has that name already.
    #[error("the account exists already")]
    Exists = 1,

    /// No account has that name.
    #[error("no such account")]
    Unknown = 2,

    /// The name breaks the rules for the names of realms or of principals.
    #[error("not a name of a realm or a principal")]
    BadName = 3,

    /// The key doesn't have as many bytes as its suite's keys.
    #[error("the key's length is not its suite's")]
    BadKeyLength = 4,

    /// The account is the realm's own, of its ticket-granting service, and is kept.
    #[error("the account of the ticket-granting service is kept")]
    KeptAccount = 5,

    /// The kvno is the greatest, and none follows.
    #[error("no key number is left")]
    NumberSpent = 6,

    /// A setting is out of its range.
    #[error("a setting is out of its range")]
    BadSetting = 7,

    /// Memory ran out.
    #[error("out of memory")]
    Memory = 8,
}

impl RealmRefusal {
    ghost use Rattle.krb_realm_accounts.specs.Refusal.{refusal_number};

    /// The refusal's number: 1 for `Exists`, 2 for `Unknown`, 3 for `BadName`, 4 for `BadKeyLength`, 5 for `KeptAccount`, 6
    /// for `NumberSpent`, 7 for `BadSetting` and 8 for `Memory`.
    pub fn number(self) -> u8
        ensures { result ≡ refusal_number self }
    {
        self as u8
    }
}

impl From<AllocError> for RealmRefusal {
    ghost from_gives = { λ _ refusal. refusal ≡ Memory };

    fn from(_error: AllocError) -> RealmRefusal {
        RealmRefusal::Memory
    }
}

impl<T: Drop> From<AllocFailed<T>> for RealmRefusal {
    ghost from_gives = { λ _ refusal. refusal ≡ Memory };

    fn from(_error: AllocFailed<T>) -> RealmRefusal {
        RealmRefusal::Memory
    }
}
