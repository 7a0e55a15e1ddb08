//! Why a keytab gives no service.
ghost use Rattle.std.specs.Prelude.{◌≡◌};
ghost use Rattle.krb_service.specs.declared.keytab_service.refusal.KeytabServiceRefusal.TheVariants.{Memory};

use std::alloc::AllocError;
use thiserror::Error;

/// Why a service was not made of a keytab, or took none of its keys.
#[derive(Clone, Copy, Debug, PartialEq, Eq, Error)]
pub enum KeytabServiceRefusal {
    /// The name breaks the rules for the names of realms or of principals.
    #[error("not a name of a realm or a principal")]
    BadName,

    /// The clock skew is more than a day.
    #[error("the clock skew is more than a day")]
    BadSetting,

    /// The keytab has no key of the service: no record of its realm and name has a kvno from 1 on and a key of a known etype.
    #[error("the keytab has no key of the service")]
    NoKey,

    /// Memory ran out.
    #[error("out of memory")]
    Memory,
}

impl From<AllocError> for KeytabServiceRefusal {
    ghost from_gives = { λ _ refusal. refusal ≡ Memory };

    fn from(_error: AllocError) -> KeytabServiceRefusal {
        KeytabServiceRefusal::Memory
    }
}
