//! The reason of a refusal that was seen.
ghost use Rattle.std.specs.Prelude.{Some, IfOk};
ghost use Rattle.std.specs.Option.{option_copied};
ghost use Rattle.krb_log.specs.SeenReasons.{as_reason, reason_by, tgs_reason, ticket_reason, value_reason};

use crate::preauthentication::preauthentication_reason;
use crate::presented::authenticator_reason;
use crate::reason::Reason;
use krb_ap_requests::read_ap_req;
use krb_constants::error_codes::{KDC_ERR_PREAUTH_FAILED, KRB_AP_ERR_BAD_INTEGRITY};
use krb_constants::padata_types::PA_TGS_REQ;
use krb_kdc::{Seen, SeenRequest};
use krb_kdc_exchanges::{account_of, client_of};
use krb_messages::data_types::EncTicketPartInner;
use krb_messages::first_in;
use krb_messages::messages::KdcReq;
use krb_realm_accounts::Accounts;
use std::alloc::{AllocError, Global};

/// Returns why a request was refused that was seen, if its error code leaves that open.
pub(crate) fn seen_reason(alloc: Global, seen: &Seen<'_>) -> Result<Option<Reason>, AllocError>
    ensures { IfOk result (reason_by seen.now.accounts.now seen.now.request seen.now.outcome).gives }
{
    match seen.outcome {
        Ok(_) => Ok(None),
        Err(code) => match seen.request {
            SeenRequest::As(request) => as_reason(alloc, seen.accounts, request, code),
            SeenRequest::Tgs(request, ticket) => tgs_reason(alloc, request, ticket, code),
        },
    }
}

// Returns why an AS request was refused with this code, of a client whose account is among these, if it has one.
fn as_reason(
    alloc: Global,
    accounts: &Accounts,
    request: &KdcReq,
    code: u32,
) -> Result<Option<Reason>, AllocError>
    ensures { IfOk result (as_reason accounts.now request.now code).gives }
{
    if code != KDC_ERR_PREAUTH_FAILED {
        return Ok(None);
    }
    let client = account_of(accounts, client_of(&request.req_body.0));
    preauthentication_reason(alloc, client, request)
}

// Returns why a TGS request was refused with this code, which presents a ticket with this part, if it opens.
fn tgs_reason(
    alloc: Global,
    request: &KdcReq,
    ticket: Option<&EncTicketPartInner>,
    code: u32,
) -> Result<Option<Reason>, AllocError>
    ensures { IfOk result (tgs_reason request.now (option_copied ticket.entry) code).gives }
{
    if code != KRB_AP_ERR_BAD_INTEGRITY {
        return Ok(None);
    }
    ticket_reason(alloc, request, ticket)
}

// The same for KRB_AP_ERR_BAD_INTEGRITY.
fn ticket_reason(
    alloc: Global,
    request: &KdcReq,
    ticket: Option<&EncTicketPartInner>,
) -> Result<Option<Reason>, AllocError>
    ensures { IfOk result (ticket_reason request.now (option_copied ticket.entry)).gives }
{
    let Some(part) = ticket else {
        return Ok(Some(Reason::Ticket));
    };
    let Some(value) = first_in(request, PA_TGS_REQ) else {
        return Ok(None);
    };
    value_reason(alloc, part, value.as_bytes())
}

// The same for the AP-REQ that these octets are, with a ticket of this part.
fn value_reason(
    alloc: Global,
    part: &EncTicketPartInner,
    value: &[u8],
) -> Result<Option<Reason>, AllocError>
    ensures { IfOk result (value_reason part.now (Some value.now)).gives }
{
    let Some(ap_req) = read_ap_req(alloc, value)? else {
        return Ok(None);
    };
    let reason = authenticator_reason(alloc, part, &ap_req.authenticator.0);
    drop(ap_req);
    Ok(Some(reason?))
}
