//! The ticket that a refused TGS request presents.
ghost use Rattle.std.specs.Prelude.{◌≡◌, IfOk};
ghost use Rattle.krb_log.specs.Reasons.{authenticator_reason, refused_reason};

use crate::reason::Reason;
use krb_ap_requests::check_authenticator;
use krb_constants::error_codes::KRB_AP_ERR_BAD_INTEGRITY;
use krb_constants::key_usages;
use krb_messages::Refusal;
use krb_messages::data_types::{EncTicketPartInner, EncryptedData};
use krb_tickets::suite_of;
use std::alloc::{AllocError, Global};

/// What is wrong where a ticket opens: its session key, the authenticator, or else the subkey.
pub(crate) fn authenticator_reason(
    alloc: Global,
    part: &EncTicketPartInner,
    authenticator: &EncryptedData,
) -> Result<Reason, AllocError>
    ensures { IfOk result (authenticator_reason part.now authenticator.now).gives }
{
    let usage = key_usages::TGS_REQ_PA_DATA_AP_REQ_AUTHENTICATOR;
    match check_authenticator(alloc, usage, part, authenticator) {
        Ok(authenticated) => {
            drop(authenticated);
            Ok(Reason::Subkey)
        }
        Err(Refusal::Krb(code)) => Ok(refused_reason(part, code)),
        Err(Refusal::Memory) => Err(AllocError),
    }
}

// The reason of an authenticator that is refused with this code.
fn refused_reason(part: &EncTicketPartInner, code: u32) -> Reason
    ensures { result ≡ refused_reason part.now code }
{
    if code != KRB_AP_ERR_BAD_INTEGRITY {
        return Reason::Subkey;
    }
    match suite_of(&part.key.0) {
        Some(_) => Reason::Authenticator,
        None => Reason::SessionKey,
    }
}
