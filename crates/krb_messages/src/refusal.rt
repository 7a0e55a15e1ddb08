//! How a request is refused.
ghost use Rattle.std.specs.Prelude.{◌≡◌};
ghost use Rattle.krb_messages.specs.declared.refusal.Refusal.TheVariants.{Memory};

use std::alloc::AllocError;

/// Why a request isn't granted or accepted.
#[derive(Clone, Copy, Debug, PartialEq, Eq)]
pub enum Refusal {
    /// It is an error with this code (RFC 4120, section 7.5.9).
    Krb(u32),
    /// Memory ran out.
    Memory,
}

impl From<AllocError> for Refusal {
    ghost from_gives = { λ _ refusal. refusal ≡ Memory };

    fn from(_error: AllocError) -> Refusal {
        Refusal::Memory
    }
}
