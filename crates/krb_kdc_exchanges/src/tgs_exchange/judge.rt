//! Judges TGS requests by the rows of a realm's table, part by part.
ghost use Rattle.std.specs.Prelude.{◌≡◌};
ghost use Rattle.krb_kdc_exchanges.specs.Call.{call_of};
ghost use Rattle.krb_kdc_exchanges.specs.Options.{has_option_beyond};
ghost use Rattle.krb_kdc_exchanges.specs.Requests.{body_of, header_rows};
ghost use Rattle.krb_messages.specs.TicketGranting.{krbtgt_of};
ghost use Rattle.krb_kdc_exchanges.specs.TgsTable.{carried, client_and_times, authenticated_near, ticket_granting, to_us};
ghost use Rattle.krb_messages.specs.Refusals.{IsJudged};

use crate::options::has_option_beyond;
use crate::{Call, check_header, chosen_key};
use decision_tables::if_passed;
use krb_ap_requests::{
    Authenticated, check_authenticator, check_fields, check_times, enc_part_in, open_ticket,
    read_ap_req,
};
use krb_constants::padata_types::PA_TGS_REQ;
use krb_constants::types::TGS_REQ_MSG_TYPE;
use krb_constants::{error_codes, key_usages};
use krb_messages::data_types::{EncTicketPartInner, PaData};
use krb_messages::messages::{ApReqInner, KdcReq};
use krb_messages::{Refusal, first_of, is_same_realm};
use krb_realm_accounts::{Account, Policy};
use picky_asn1::wrapper::GeneralStringAsn1;
use std::alloc::Global;

/// Judges the request's header by the options that the policy allows, and refuses a request with `enc-authorization-data`.
pub(crate) fn check_request(
    policy: Policy,
    realm: &GeneralStringAsn1,
    request: &KdcReq,
) -> Result<(), Refusal>
    ensures { IsJudged (to_us policy realm.now request.now).gives result }
{
    check_allowed(policy, realm, request)?;
    if request.req_body.0.enc_authorization_data.0.is_some() {
        return Err(Refusal::Krb(error_codes::KDC_ERR_POLICY));
    }
    Ok(())
}

// Judges the request's header.
fn check_allowed(policy: Policy, realm: &GeneralStringAsn1, request: &KdcReq) -> Result<(), Refusal>
    ensures { IsJudged (header_rows TGS_REQ_MSG_TYPE realm.now (has_option_beyond policy (body_of request.now).kdc_options.0) request.now).gives result }
{
    let is_refused = has_option_beyond(policy, &request.req_body.0.kdc_options.0);
    check_header(TGS_REQ_MSG_TYPE, realm, is_refused, request)
}

/// Reads the AP-REQ that the first padata PA-TGS-REQ is.
pub(crate) fn carried(alloc: Global, padata: &[PaData]) -> Result<ApReqInner, Refusal>
    ensures { IsJudged (carried padata.now).gives result }
{
    let Some(value) = first_of(padata, PA_TGS_REQ) else {
        return Err(Refusal::Krb(error_codes::KDC_ERR_PADATA_TYPE_NOSUPP));
    };
    let Some(ap_req) = read_ap_req(alloc, value.as_bytes())? else {
        return Err(Refusal::Krb(error_codes::KRB_AP_ERR_MODIFIED));
    };
    Ok(ap_req)
}

/// Decrypts the presented ticket by the key that has its kvno. It has to be for this realm's ticket-granting service, which has this name,
/// of a client of the realm, and valid at the moment.
pub(crate) fn open_ticket_granting(
    alloc: Global,
    call: &Call<'_>,
    name: &[GeneralStringAsn1],
    granting: &Account,
    ap_req: &ApReqInner,
) -> Result<EncTicketPartInner, Refusal>
    requires { name.now ≡ krbtgt_of call.now.realm.now }
    ensures { IsJudged (ticket_granting (call_of call.now) granting.now ap_req.now).gives result }
{
    let sealed = enc_part_in(ap_req);
    let own = chosen_key(sealed, granting);
    check_fields(call.realm, name, own.kvno, ap_req)?;
    let part = open_ticket(alloc, own.key, sealed)?;
    let judged = check_client_and_times(call, &part);
    if_passed(part, judged)
}

// Judges whether the ticket's client is one of this realm, and the ticket is valid at the moment.
fn check_client_and_times(call: &Call<'_>, part: &EncTicketPartInner) -> Result<(), Refusal>
    ensures { IsJudged (client_and_times (call_of call.now) part.now).gives result }
{
    if !is_same_realm(&part.crealm.0, call.realm) {
        return Err(Refusal::Krb(error_codes::KDC_ERR_WRONG_REALM));
    }
    check_times(call.skew(), call.moment, part)
}

/// Decrypts the authenticator, which has to be the ticket's client's, and whose time has to be near the moment.
pub(crate) fn open_authenticator(
    alloc: Global,
    call: &Call<'_>,
    part: &EncTicketPartInner,
    ap_req: &ApReqInner,
) -> Result<Authenticated, Refusal>
    ensures { IsJudged (authenticated_near (call_of call.now) part.now ap_req.now).gives result }
{
    let authenticated = check_authenticator(
        alloc,
        key_usages::TGS_REQ_PA_DATA_AP_REQ_AUTHENTICATOR,
        part,
        &ap_req.authenticator.0,
    )?;
    if call.moment.is_far_from(authenticated.time, call.skew()) {
        drop(authenticated);
        return Err(Refusal::Krb(error_codes::KRB_AP_ERR_SKEW));
    }
    Ok(authenticated)
}
