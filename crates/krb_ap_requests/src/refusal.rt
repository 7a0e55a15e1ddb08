//! Why a service doesn't admit a request.
ghost use Rattle.std.specs.Prelude.{◌≡◌};
ghost use Rattle.krb_ap_requests.specs.declared.refusal.AdmitRefusal.TheVariants.{Memory};

use krb_constants::error_names::ErrorCode;
use krb_messages::Refusal;
use std::alloc::AllocError;
use thiserror::Error;

/// Why a request wasn't admitted.
#[derive(Clone, Copy, Debug, PartialEq, Eq, Error)]
pub enum AdmitRefusal {
    /// The bytes are the one encoding of no AP request.
    #[error("the message is no AP request")]
    Unreadable,

    /// The request is refused, with the code of a KRB-ERROR (RFC 4120, section 7.5.9).
    #[error("refused: {}", ErrorCode(*.0))]
    Krb(u32),

    /// Memory ran out.
    #[error("out of memory")]
    Memory,
}

impl AdmitRefusal {
    ghost use Rattle.krb_ap_requests.specs.Refusal.{refusal_number};

    /// The refusal's number: 1 for `Unreadable`, 2 for `Krb` and 3 for `Memory`.
    pub fn number(self) -> u8
        ensures { result ≡ refusal_number self }
    {
        match self {
            AdmitRefusal::Unreadable => 1,
            AdmitRefusal::Krb(_) => 2,
            AdmitRefusal::Memory => 3,
        }
    }
}

impl From<AllocError> for AdmitRefusal {
    ghost from_gives = { λ _ refusal. refusal ≡ Memory };

    fn from(_error: AllocError) -> AdmitRefusal {
        AdmitRefusal::Memory
    }
}

impl From<Refusal> for AdmitRefusal {
    ghost use Rattle.krb_ap_requests.specs.Refusal.{refused_for};

    ghost from_gives = { λ error refusal. refusal ≡ refused_for error };

    fn from(error: Refusal) -> AdmitRefusal {
        match error {
            Refusal::Krb(code) => AdmitRefusal::Krb(code),
            Refusal::Memory => AdmitRefusal::Memory,
        }
    }
}
