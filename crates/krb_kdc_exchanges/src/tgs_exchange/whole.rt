//! Judges a TGS request by the whole table. Each function owns one decrypted message, which the next one borrows.
ghost use Rattle.std.specs.Prelude.{◌≡◌, Some};
ghost use Rattle.krb_messages.specs.RandomBytes.{AreEnoughForReply};
ghost use Rattle.krb_kdc_exchanges.specs.Call.{call_of};
ghost use Rattle.krb_kdc_exchanges.specs.Granting.{IsGranted};
ghost use Rattle.krb_tickets.specs.Keys.{suite_of};
ghost use Rattle.krb_kdc_exchanges.specs.SessionKeys.{HasSessionKey};
ghost use Rattle.krb_kdc_exchanges.specs.TgsTable.{allowed_further, of_carried, of_authenticated, of_ticket, tgs_granted, tgs_table};

use crate::allowed::check_further_allowed;
use crate::tgs_exchange::checksum::check_covered;
use crate::tgs_exchange::grant::{OpenedApReq, grant};
use crate::tgs_exchange::judge::{
    carried, check_request, open_authenticator, open_ticket_granting,
};
use crate::{Call, Granted, service_of};
use krb_ap_requests::Authenticated;
use krb_constants::error_codes;
use krb_crypto::Key;
use krb_messages::data_types::{EncTicketPartInner, PrincipalName};
use krb_messages::messages::{ApReqInner, KdcReq, KdcReqBody};
use krb_messages::{Refusal, krbtgt_of, padata_in};
use krb_realm_accounts::Account;
use std::alloc::Global;

/// Judges a TGS request by the realm's table (RFC 4120, section 3.3.3). It gives the reply that grants the service ticket, or
/// the error code.
pub fn judge_tgs(alloc: Global, call: &Call<'_>, request: &KdcReq) -> Result<Granted, Refusal>
    requires { AreEnoughForReply call.now.words.now }
    ensures { IsGranted (tgs_table (call_of call.now) request.now).gives result }
{
    check_request(call.settings.policy(), call.realm, request)?;
    let ap_req = carried(alloc, padata_in(request))?;
    let body = &request.req_body.0;
    let judged = judge_carried(alloc, call, body, &ap_req);
    drop(ap_req);
    judged
}

// Judges the AP-REQ: its ticket has to be for the realm's ticket-granting service.
fn judge_carried(
    alloc: Global,
    call: &Call<'_>,
    body: &KdcReqBody,
    ap_req: &ApReqInner,
) -> Result<Granted, Refusal>
    requires { AreEnoughForReply call.now.words.now }
    ensures { IsGranted (of_carried (call_of call.now) body.now ap_req.now).gives result }
{
    let name = krbtgt_of(alloc, call.realm)?;
    let Some(granting) = call.accounts.get(&name) else {
        return Err(Refusal::Krb(error_codes::KDC_ERR_S_PRINCIPAL_UNKNOWN));
    };
    let part = open_ticket_granting(alloc, call, &name, granting, ap_req)?;
    let judged = judge_ticket(alloc, call, body, ap_req, &part);
    drop(part);
    judged
}

// Judges the ticket's part: its session key has to decrypt an authenticator of its client.
fn judge_ticket(
    alloc: Global,
    call: &Call<'_>,
    body: &KdcReqBody,
    ap_req: &ApReqInner,
    part: &EncTicketPartInner,
) -> Result<Granted, Refusal>
    requires { AreEnoughForReply call.now.words.now }
    ensures { IsGranted (of_ticket (call_of call.now) body.now ap_req.now part.now).gives result }
{
    let authenticated = open_authenticator(alloc, call, part, ap_req)?;
    let judged = judge_authenticated(alloc, call, body, part, &authenticated);
    drop(authenticated);
    judged
}

// Judges the authenticator: its checksum has to cover the request's body.
fn judge_authenticated(
    alloc: Global,
    call: &Call<'_>,
    body: &KdcReqBody,
    part: &EncTicketPartInner,
    authenticated: &Authenticated,
) -> Result<Granted, Refusal>
    requires words { AreEnoughForReply call.now.words.now }
    requires suite { suite_of part.now.key.0 ≡ Some authenticated.now.suite }
    ensures { IsGranted (of_authenticated (call_of call.now) body.now part.now authenticated.now).gives result }
{
    let key = session_key(part, authenticated);
    check_covered(alloc, &key, &authenticated.authenticator, body)?;
    let opened = OpenedApReq {
        part,
        key: &key,
        authenticated,
    };
    judge_accounts(alloc, call, &opened, body)
}

// The session key, of the suite that decrypted the authenticator.
fn session_key(part: &EncTicketPartInner, authenticated: &Authenticated) -> Key
    requires { suite_of part.now.key.0 ≡ Some authenticated.now.suite }
    ensures { result ≡ record { suite = authenticated.now.suite; bytes = part.now.key.0.key_value.0 } }
{
    match Key::new(authenticated.suite, part.key.0.key_value.0.as_bytes()) {
        Ok(key) => key,
        Err(_) => unreachable!(),
    }
}

// Judges the names of a request that its client has made: the client still has an account, and so has the service.
fn judge_accounts(
    alloc: Global,
    call: &Call<'_>,
    opened: &OpenedApReq<'_>,
    body: &KdcReqBody,
) -> Result<Granted, Refusal>
    requires words { AreEnoughForReply call.now.words.now }
    requires key { HasSessionKey opened.now }
    ensures { IsGranted (tgs_granted (call_of call.now) opened.now.part.now opened.now.authenticated.now body.now).gives result }
{
    let client_name = opened.part.cname.0.name_string.0.as_slice();
    let Some(client) = call.accounts.get(client_name) else {
        return Err(Refusal::Krb(error_codes::KDC_ERR_C_PRINCIPAL_UNKNOWN));
    };
    let Some(service_name) = service_of(body) else {
        return Err(Refusal::Krb(error_codes::KDC_ERR_S_PRINCIPAL_UNKNOWN));
    };
    let Some(service) = call.accounts.get(service_name.name_string.0.as_slice()) else {
        return Err(Refusal::Krb(error_codes::KDC_ERR_S_PRINCIPAL_UNKNOWN));
    };
    judge_allowed(alloc, call, opened, client, service_name, service, body)
}

// Judges what the attributes of both accounts allow, and makes the reply.
fn judge_allowed(
    alloc: Global,
    call: &Call<'_>,
    opened: &OpenedApReq<'_>,
    client: &Account,
    service_name: &PrincipalName,
    service: &Account,
    body: &KdcReqBody,
) -> Result<Granted, Refusal>
    requires words { AreEnoughForReply call.now.words.now }
    requires key { HasSessionKey opened.now }
    ensures { IsGranted (allowed_further (call_of call.now) opened.now.part.now opened.now.authenticated.now client.now service_name.now service.now body.now).gives result }
{
    check_further_allowed(call.moment, client, service)?;
    grant(alloc, call, opened, service_name, service, body)
}
