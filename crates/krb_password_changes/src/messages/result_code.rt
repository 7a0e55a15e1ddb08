//! Result codes.
ghost use Rattle.std.specs.Prelude.{◌≡◌};
ghost use Rattle.krb_password_changes.specs.ResultCodes.{code_of, result_number};

use thiserror::Error;

/// The request succeeded. A KRB-ERROR never has this code.
pub const KRB5_KPASSWD_SUCCESS: u16 = 0;

/// The request is malformed.
pub const KRB5_KPASSWD_MALFORMED: u16 = 1;

/// The request failed for a hard error, as missing memory.
pub const KRB5_KPASSWD_HARDERROR: u16 = 2;

/// The authentication failed.
pub const KRB5_KPASSWD_AUTHERROR: u16 = 3;

/// The request failed for a soft error, as a password that a policy refuses.
pub const KRB5_KPASSWD_SOFTERROR: u16 = 4;

/// The requestor isn't authorized.
pub const KRB5_KPASSWD_ACCESSDENIED: u16 = 5;

/// The version isn't supported.
pub const KRB5_KPASSWD_BAD_VERSION: u16 = 6;

/// The ticket's flag initial is needed.
pub const KRB5_KPASSWD_INITIAL_FLAG_NEEDED: u16 = 7;

/// The request failed for some other reason.
pub const KRB5_KPASSWD_OTHER: u16 = 0xFFFF;

/// What came of a request (RFC 3244, section 2). It prints as its name.
#[derive(Clone, Copy, Debug, PartialEq, Eq, Error)]
pub enum ResultCode {
    /// The request succeeded.
    #[error("KRB5_KPASSWD_SUCCESS")]
    Success,
    /// The request is malformed.
    #[error("KRB5_KPASSWD_MALFORMED")]
    Malformed,
    /// The request failed for a hard error, as missing memory.
    #[error("KRB5_KPASSWD_HARDERROR")]
    HardError,
    /// The authentication failed.
    #[error("KRB5_KPASSWD_AUTHERROR")]
    AuthError,
    /// The request failed for a soft error, as a password that a policy refuses.
    #[error("KRB5_KPASSWD_SOFTERROR")]
    SoftError,
    /// The requestor isn't authorized.
    #[error("KRB5_KPASSWD_ACCESSDENIED")]
    AccessDenied,
    /// The version isn't supported.
    #[error("KRB5_KPASSWD_BAD_VERSION")]
    BadVersion,
    /// The ticket's flag initial is needed.
    #[error("KRB5_KPASSWD_INITIAL_FLAG_NEEDED")]
    InitialFlagNeeded,
    /// The request failed for some other reason.
    #[error("KRB5_KPASSWD_OTHER")]
    Other,
}

impl ResultCode {
    /// The code's number.
    pub fn number(self) -> u16
        ensures { result ≡ result_number self }
    {
        match self {
            ResultCode::Success => KRB5_KPASSWD_SUCCESS,
            ResultCode::Malformed => KRB5_KPASSWD_MALFORMED,
            ResultCode::HardError => KRB5_KPASSWD_HARDERROR,
            ResultCode::AuthError => KRB5_KPASSWD_AUTHERROR,
            ResultCode::SoftError => KRB5_KPASSWD_SOFTERROR,
            ResultCode::AccessDenied => KRB5_KPASSWD_ACCESSDENIED,
            ResultCode::BadVersion => KRB5_KPASSWD_BAD_VERSION,
            ResultCode::InitialFlagNeeded => KRB5_KPASSWD_INITIAL_FLAG_NEEDED,
            ResultCode::Other => KRB5_KPASSWD_OTHER,
        }
    }

    /// The code of a number. One that has no name of its own is [`ResultCode::Other`]: each but 0 is a failure.
    pub fn of_number(number: u16) -> ResultCode
        ensures { result ≡ code_of number }
    {
        match number {
            KRB5_KPASSWD_SUCCESS => ResultCode::Success,
            KRB5_KPASSWD_MALFORMED => ResultCode::Malformed,
            KRB5_KPASSWD_HARDERROR => ResultCode::HardError,
            KRB5_KPASSWD_AUTHERROR => ResultCode::AuthError,
            KRB5_KPASSWD_SOFTERROR => ResultCode::SoftError,
            KRB5_KPASSWD_ACCESSDENIED => ResultCode::AccessDenied,
            KRB5_KPASSWD_BAD_VERSION => ResultCode::BadVersion,
            KRB5_KPASSWD_INITIAL_FLAG_NEEDED => ResultCode::InitialFlagNeeded,
            _ => ResultCode::Other,
        }
    }
}
