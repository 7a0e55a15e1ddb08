//! The names of error codes, as messages print them.
ghost use Rattle.std.specs.Prelude.{◌≡◌, nat_eq, map, option_map};
ghost use Rattle.std.specs.List.{find};
ghost use Rattle.krb_constants.specs.ErrorNames.{error_name, name_in};

use crate::error_codes::*;
use std::fmt;

/// Constants, each beside its own name.
macro_rules! named {
    ($($name:ident),* $(,)?) => {
        [$(($name, stringify!($name))),*]
    };
}

/// Each error code beside its name (RFC 4120, section 7.5.9; RFC 4556, section 3.1.3; draft-ietf-kitten-iakerb, section 3).
pub const ERROR_NAMES: [(u32, &str); 75] = named![
    KDC_ERR_NONE,
    KDC_ERR_NAME_EXP,
    KDC_ERR_SERVICE_EXP,
    KDC_ERR_BAD_PVNO,
    KDC_ERR_C_OLD_MAST_KVNO,
    KDC_ERR_S_OLD_MAST_KVNO,
    KDC_ERR_C_PRINCIPAL_UNKNOWN,
    KDC_ERR_S_PRINCIPAL_UNKNOWN,
    KDC_ERR_PRINCIPAL_NOT_UNIQUE,
    KDC_ERR_NULL_KEY,
    KDC_ERR_CANNOT_POSTDATE,
    KDC_ERR_NEVER_VALID,
    KDC_ERR_POLICY,
    KDC_ERR_BADOPTION,
    KDC_ERR_ETYPE_NOSUPP,
    KDC_ERR_SUMTYPE_NOSUPP,
    KDC_ERR_PADATA_TYPE_NOSUPP,
    KDC_ERR_TRTYPE_NOSUPP,
    KDC_ERR_CLIENT_REVOKED,
    KDC_ERR_SERVICE_REVOKED,
    KDC_ERR_TGT_REVOKED,
    KDC_ERR_CLIENT_NOTYET,
    KDC_ERR_SERVICE_NOTYET,
    KDC_ERR_KEY_EXPIRED,
    KDC_ERR_PREAUTH_FAILED,
    KDC_ERR_PREAUTH_REQUIRED,
    KDC_ERR_SERVER_NOMATCH,
    KDC_ERR_MUST_USE_USER2USER,
    KDC_ERR_PATH_NOT_ACCEPTED,
    KDC_ERR_SVC_UNAVAILABLE,
    KRB_AP_ERR_BAD_INTEGRITY,
    KRB_AP_ERR_TKT_EXPIRED,
    KRB_AP_ERR_TKT_NYV,
    KRB_AP_ERR_REPEAT,
    KRB_AP_ERR_NOT_US,
    KRB_AP_ERR_BADMATCH,
    KRB_AP_ERR_SKEW,
    KRB_AP_ERR_BADADDR,
    KRB_AP_ERR_BADVERSION,
    KRB_AP_ERR_MSG_TYPE,
    KRB_AP_ERR_MODIFIED,
    KRB_AP_ERR_BADORDER,
    KRB_AP_ERR_BADKEYVER,
    KRB_AP_ERR_NOKEY,
    KRB_AP_ERR_MUT_FAIL,
    KRB_AP_ERR_BADDIRECTION,
    KRB_AP_ERR_METHOD,
    KRB_AP_ERR_BADSEQ,
    KRB_AP_ERR_INAPP_CKSUM,
    KRB_AP_PATH_NOT_ACCEPTED,
    KRB_ERR_RESPONSE_TOO_BIG,
    KRB_ERR_GENERIC,
    KRB_ERR_FIELD_TOOLONG,
    KDC_ERROR_CLIENT_NOT_TRUSTED,
    KDC_ERROR_KDC_NOT_TRUSTED,
    KDC_ERROR_INVALID_SIG,
    KDC_ERR_KEY_TOO_WEAK,
    KDC_ERR_CERTIFICATE_MISMATCH,
    KRB_AP_ERR_NO_TGT,
    KDC_ERR_WRONG_REALM,
    KRB_AP_ERR_USER_TO_USER_REQUIRED,
    KDC_ERR_CANT_VERIFY_CERTIFICATE,
    KDC_ERR_INVALID_CERTIFICATE,
    KDC_ERR_REVOKED_CERTIFICATE,
    KDC_ERR_REVOCATION_STATUS_UNKNOWN,
    KDC_ERR_REVOCATION_STATUS_UNAVAILABLE,
    KDC_ERR_CLIENT_NAME_MISMATCH,
    KDC_ERR_KDC_NAME_MISMATCH,
    KDC_ERR_INCONSISTENT_KEY_PURPOSE,
    KDC_ERR_DIGEST_IN_CERT_NOT_ACCEPTED,
    KDC_ERR_PA_CHECKSUM_MUST_BE_INCLUDED,
    KDC_ERR_DIGEST_IN_SIGNED_DATA_NOT_ACCEPTED,
    KDC_ERR_PUBLIC_KEY_ENCRYPTION_NOT_SUPPORTED,
    KRB_AP_ERR_IAKERB_KDC_NOT_FOUND,
    KRB_AP_ERR_IAKERB_KDC_NO_RESPONSE
];

/// The name of an error code, as [`ERROR_NAMES`] has it. `None` for a number without a name.
#[tactic(auto, unfolding(crate::specs::ErrorNames::error_name))]
pub fn error_name(code: u32) -> Option<&'static str>
    ensures { option_map (λ name. name.now) result ≡ error_name code }
{
    name_in(&ERROR_NAMES, code)
}

// The name beside a code.
fn name_in<'a>(rows: &[(u32, &'a str)], code: u32) -> Option<&'a str>
    ensures { option_map (λ name. name.now) result ≡ name_in (map (λ row. (row.0, row.1.now)) rows.now) code }
{
    match row_of(rows, code) {
        Some((_code, name)) => Some(name),
        None => None,
    }
}

fn row_of<'a>(rows: &[(u32, &'a str)], code: u32) -> Option<(u32, &'a str)>
    ensures { result ≡ find (λ row. nat_eq row.0 code) rows.now }
{
    rows.iter().copied().find(|row| row.0 == code)
}

/// An error code, which prints as its name and its number: `KDC_ERR_PREAUTH_FAILED (24)`. One without a name prints as the number.
#[derive(Clone, Copy, Debug, PartialEq, Eq)]
pub struct ErrorCode(pub u32);

impl fmt::Display for ErrorCode {
    ghost use Rattle.std.specs.Prelude.{Some};
    ghost use Rattle.krb_constants.specs.ErrorNames.{error_text};

    ghost output = { λ code. Some (error_text code.0) };

    fn fmt<W: fmt::Write>(&self, f: &mut fmt::Formatter<W>) -> fmt::Result {
        let code = self.0;
        match error_name(code) {
            Some(name) => write!(f, "{name} ({code})"),
            None => write!(f, "{code}"),
        }
    }
}
