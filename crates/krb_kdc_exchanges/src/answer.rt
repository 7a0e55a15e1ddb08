//! Replies to requests: a ticket, or a KRB-ERROR.
ghost use Rattle.std.specs.Prelude.{◌≡◌, ◌%◌, None, Some, IfOk};
ghost use Rattle.std.specs.Option.{option_copied, option_map};
ghost use Rattle.krb_messages.specs.RandomBytes.{AreEnoughForReply};
ghost use Rattle.asn1_leaves.specs.declared.date.GeneralizedTime.{GeneralizedTime};
ghost use Rattle.krb_realm_accounts.specs.Accounts.{look_in};
ghost use Rattle.krb_kdc_exchanges.specs.AsTable.{as_table};
ghost use Rattle.krb_kdc_exchanges.specs.Call.{call_of};
ghost use Rattle.krb_kdc_exchanges.specs.Requests.{account_of, body_of, client_of, service_of};
ghost use Rattle.krb_kdc_exchanges.specs.TgsTable.{tgs_table};
ghost use Rattle.krb_kdc_exchanges.specs.Errors.{error_bytes};
ghost use Rattle.krb_time.specs.SecondOf.{IsSecondOf};
ghost use Rattle.krb_kdc_exchanges.specs.Judged.{IsAnswerWith, IsJudgement, outcome_of};
ghost use Rattle.krb_kdc_exchanges.specs.Outcomes.{IsOutcome};
ghost use Rattle.krb_kdc_exchanges.specs.Replies.{as_reply, e_data_of, named_service, tgs_reply};

use crate::error::error_message;
use crate::kdc_error::KdcError;
use crate::names::ticket_service;
use crate::{Call, Granted, Pkinit, Reply, account_of, client_of, judge_as, judge_tgs, service_of};
use krb_constants::error_codes;
use krb_messages::Refusal;
use krb_messages::data_types::PrincipalName;
use krb_messages::messages::KdcReq;
use krb_realm_accounts::Account;
use krb_tickets::method_data;
use std::alloc::{AllocError, Global};

/// The reply to an AS request: a ticket, or the KRB-ERROR with its code (RFC 4120, section 3.1; RFC 4556, section 3.1). `pkinit`
/// judges a request by certificate.
pub fn as_reply<P: Pkinit>(
    alloc: Global,
    call: &Call<'_>,
    pkinit: &P,
    request: &KdcReq,
) -> Result<Reply, AllocError>
    requires { AreEnoughForReply call.now.words.now }
    ensures reply { IfOk result (λ reply. (as_reply (call_of call.now) (P.rows pkinit.now)
        (account_of (look_in call.now.accounts.now) (client_of (body_of request.now)))
        (account_of (look_in call.now.accounts.now) (service_of (body_of request.now))) request.now).gives (Some reply.bytes.items)) }
    ensures outcome { IfOk result (λ reply. IsOutcome reply.bytes.items reply.outcome) }
{
    let judged = as_judgement(alloc, call, pkinit, request)?;
    judged_reply(alloc, call, request, judged)
}

/// The reply to a TGS request: a ticket, or the KRB-ERROR with its code (RFC 4120, section 3.3).
pub fn tgs_reply(alloc: Global, call: &Call<'_>, request: &KdcReq) -> Result<Reply, AllocError>
    requires { AreEnoughForReply call.now.words.now }
    ensures reply { IfOk result (λ reply. (tgs_reply (call_of call.now) request.now).gives (Some reply.bytes.items)) }
    ensures outcome { IfOk result (λ reply. IsOutcome reply.bytes.items reply.outcome) }
{
    let judged = tgs_judgement(alloc, call, request)?;
    judged_reply(alloc, call, request, judged)
}

// The reply that was granted, or the KRB-ERROR with this code and e-data about the request's service.
fn judged_reply(
    alloc: Global,
    call: &Call<'_>,
    request: &KdcReq,
    judged: Result<Granted, KdcError>,
) -> Result<Reply, AllocError>
    ensures reply { IfOk result (λ reply. IsAnswerWith (call_of call.now) request.now judged reply.bytes.items) }
    ensures outcome { IfOk result (λ reply. reply.outcome ≡ outcome_of judged) }
{
    match judged {
        Ok(made) => Ok(Reply {
            bytes: made.reply,
            outcome: Ok(made.ticket),
        }),
        Err(kdc_error) => {
            let code = kdc_error.code;
            let bytes = error_reply(alloc, call, service_of(&request.req_body.0), kdc_error)?;
            Ok(Reply {
                bytes,
                outcome: Err(code),
            })
        }
    }
}

// Judges an AS request: the reply with the ticket, or the code and e-data of the KRB-ERROR that answers it.
fn as_judgement<P: Pkinit>(
    alloc: Global,
    call: &Call<'_>,
    pkinit: &P,
    request: &KdcReq,
) -> Result<Result<Granted, KdcError>, AllocError>
    requires { AreEnoughForReply call.now.words.now }
    ensures { IfOk result (λ judged. IsJudgement (as_table (call_of call.now) (P.rows pkinit.now)
        (account_of (look_in call.now.accounts.now) (client_of (body_of request.now)))
        (account_of (look_in call.now.accounts.now) (service_of (body_of request.now))) request.now).gives
        (e_data_of (P.rows pkinit.now).offered (account_of (look_in call.now.accounts.now) (client_of (body_of request.now)))) judged) }
{
    let body = &request.req_body.0;
    let client = account_of(call.accounts, client_of(body));
    let service = account_of(call.accounts, service_of(body));
    match judge_as(alloc, call, pkinit, client, service, request) {
        Ok(made) => Ok(Ok(made)),
        Err(Refusal::Memory) => Err(AllocError),
        Err(Refusal::Krb(code)) => {
            let e_data = e_data_of(alloc, pkinit.is_offered(), client, code)?;
            Ok(Err(KdcError { code, e_data }))
        }
    }
}

// Judges a TGS request: the reply with the ticket, or the code of the KRB-ERROR that answers it, without e-data.
fn tgs_judgement(
    alloc: Global,
    call: &Call<'_>,
    request: &KdcReq,
) -> Result<Result<Granted, KdcError>, AllocError>
    requires { AreEnoughForReply call.now.words.now }
    ensures { IfOk result (λ judged. IsJudgement (tgs_table (call_of call.now) request.now).gives (λ code. None) judged) }
{
    match judge_tgs(alloc, call, request) {
        Ok(made) => Ok(Ok(made)),
        Err(Refusal::Memory) => Err(AllocError),
        Err(Refusal::Krb(code)) => Ok(Err(KdcError { code, e_data: None })),
    }
}

// The KRB-ERROR with this code and e-data that answers a request for this service. If the request has no `sname`, the KRB-ERROR
// has that of the realm's ticket-granting service.
fn error_reply(
    alloc: Global,
    call: &Call<'_>,
    named: Option<&PrincipalName>,
    kdc_error: KdcError,
) -> Result<Vec<u8>, AllocError>
    ensures { IfOk result (λ bytes. (time : GeneralizedTime) × IsSecondOf call.now.moment time
        × (bytes.items ≡ error_bytes call.now.realm.now time (call.now.moment % 1000000)
        (named_service call.now.realm.now (option_copied named.entry)) kdc_error.code (option_map (λ h. h.items) kdc_error.e_data))) }
{
    if let Some(service) = named {
        let reply = error_message(alloc, call.realm, call.moment, service, kdc_error)?;
        return Ok(reply);
    }
    let service = ticket_service(alloc, call.realm)?;
    let reply = error_message(alloc, call.realm, call.moment, &service, kdc_error)?;
    Ok(reply)
}

// The e-data of a KRB-ERROR: METHOD-DATA with KDC_ERR_PREAUTH_REQUIRED, with PA-PK-AS-REQ where PKINIT is offered, and none with
// another code.
fn e_data_of(
    alloc: Global,
    offered: bool,
    client: Option<&Account>,
    code: u32,
) -> Result<Option<Vec<u8>>, AllocError>
    ensures { IfOk result (λ e_data. option_map (λ h. h.items) e_data ≡ e_data_of offered (option_copied client.entry) code) }
{
    if code != error_codes::KDC_ERR_PREAUTH_REQUIRED {
        return Ok(None);
    }
    let Some(account) = client else {
        return Ok(None);
    };
    let methods = method_data(alloc, offered, account)?;
    Ok(Some(methods))
}
