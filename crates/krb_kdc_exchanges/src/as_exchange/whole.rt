//! Judges an AS request by the whole table.
ghost use Rattle.std.specs.Option.{option_copied};
ghost use Rattle.krb_messages.specs.RandomBytes.{AreEnoughForReply};
ghost use Rattle.krb_kdc_exchanges.specs.AsTable.{as_table};
ghost use Rattle.krb_kdc_exchanges.specs.Call.{call_of};
ghost use Rattle.krb_kdc_exchanges.specs.Granting.{IsGranted};

use crate::allowed::{check_first_allowed, lifetime_of};
use crate::as_exchange::grant::{Principals, grant};
use crate::as_exchange::judge::{authenticate, check_possible, check_request};
use crate::{Call, Granted, Pkinit, client_of, service_of};
use krb_constants::error_codes;
use krb_messages::Refusal;
use krb_messages::messages::KdcReq;
use krb_realm_accounts::Account;
use std::alloc::Global;

/// Judges an AS request by the realm's table, for the accounts of client and service if they have one (RFC 4120, section
/// 3.1.3). It gives the reply that grants the first ticket, or the error code.
pub fn judge_as<P: Pkinit>(
    alloc: Global,
    call: &Call<'_>,
    pkinit: &P,
    client: Option<&Account>,
    service: Option<&Account>,
    request: &KdcReq,
) -> Result<Granted, Refusal>
    requires { AreEnoughForReply call.now.words.now }
    ensures { IsGranted (as_table (call_of call.now) (P.rows pkinit.now) (option_copied client.entry) (option_copied service.entry) request.now).gives result }
{
    let body = &request.req_body.0;
    check_request(call.realm, request)?;
    let Some(client_name) = client_of(body) else {
        return Err(Refusal::Krb(error_codes::KDC_ERR_C_PRINCIPAL_UNKNOWN));
    };
    let Some(client) = client else {
        return Err(Refusal::Krb(error_codes::KDC_ERR_C_PRINCIPAL_UNKNOWN));
    };
    let Some(service_name) = service_of(body) else {
        return Err(Refusal::Krb(error_codes::KDC_ERR_S_PRINCIPAL_UNKNOWN));
    };
    let Some(service) = service else {
        return Err(Refusal::Krb(error_codes::KDC_ERR_S_PRINCIPAL_UNKNOWN));
    };
    let principals = Principals {
        client_name,
        client,
        service_name,
        service,
    };
    check_first_allowed(call.moment, principals)?;
    let lifetime = lifetime_of(call.settings, client, service);
    let span = check_possible(call, lifetime, client.suite(), body)?;
    let name = client_name.name_string.0.as_slice();
    let authenticated = authenticate(alloc, call, pkinit, client, name, request)?;
    let made = grant(alloc, call, principals, &authenticated, span, body);
    drop(authenticated);
    let made = made?;
    Ok(made)
}
