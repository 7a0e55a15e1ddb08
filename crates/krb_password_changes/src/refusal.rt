//! Why a request isn't granted.
ghost use Rattle.std.specs.Prelude.{◌≡◌};
ghost use Rattle.krb_password_changes.specs.Refusals.{refused_as};
ghost use Rattle.krb_password_changes.specs.declared.refusal.ChangeRefusal.TheVariants.{Memory, Refused};

use crate::messages::ResultCode;
use krb_ap_requests::AdmitRefusal;
use std::alloc::AllocError;
use thiserror::Error;

/// Why a request isn't granted.
#[derive(Clone, Copy, Debug, PartialEq, Eq, Error)]
pub enum ChangeRefusal {
    /// It is refused with this result code.
    #[error("refused: {0}")]
    Refused(ResultCode),
    /// Memory ran out.
    #[error("out of memory")]
    Memory,
}

impl From<AllocError> for ChangeRefusal {
    ghost from_gives = { λ _ refusal. refusal ≡ Memory };

    fn from(_error: AllocError) -> ChangeRefusal {
        ChangeRefusal::Memory
    }
}

impl From<ResultCode> for ChangeRefusal {
    ghost from_gives = { λ code refusal. refusal ≡ Refused code };

    fn from(code: ResultCode) -> ChangeRefusal {
        ChangeRefusal::Refused(code)
    }
}

impl From<AdmitRefusal> for ChangeRefusal {
    ghost from_gives = { λ error refusal. refusal ≡ refused_as error };

    fn from(error: AdmitRefusal) -> ChangeRefusal {
        match error {
            AdmitRefusal::Unreadable => ChangeRefusal::Refused(ResultCode::Malformed),
            AdmitRefusal::Krb(_) => ChangeRefusal::Refused(ResultCode::AuthError),
            AdmitRefusal::Memory => ChangeRefusal::Memory,
        }
    }
}
