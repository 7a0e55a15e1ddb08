//! Granting a first ticket.
ghost use Rattle.std.specs.Prelude.{◌≡◌, Ok, IfOk};
ghost use Rattle.krb_messages.specs.RandomBytes.{AreEnoughForReply};
ghost use Rattle.krb_tickets.specs.ReplyKeys.{reply_key_of};
ghost use Rattle.krb_kdc_exchanges.specs.Preauthentication.{reply_key_by};
ghost use Rattle.krb_kdc_exchanges.specs.Call.{call_of};
ghost use Rattle.krb_kdc_exchanges.specs.Grants.{granted, initial_flags, initial_grant, initial_till, principals_of};
ghost use Rattle.krb_kdc_exchanges.specs.Renewals.{IsTill};
ghost use Rattle.krb_kdc_exchanges.specs.Granting.{IsGrantedTicket};
ghost use Rattle.krb_tickets.specs.Grant.{grant_of};

use crate::as_exchange::judge::Preauthentication;
use crate::granted::{Granted, granted_reply};
use crate::options::is_allowed;
use crate::renewals::{asked_till, granted_till};
use crate::{Call, Span, option_bits, session_key};
use krb_messages::data_types::PrincipalName;
use krb_messages::messages::KdcReqBody;
use krb_realm_accounts::{Account, Policy};
use krb_tickets::{Grant, ReplyKey, TicketFlags};
use picky_asn1::date::GeneralizedTime;
use picky_asn1::wrapper::BitStringAsn1;
use std::alloc::{AllocError, Global};

/// The client and the service of a request, with their accounts.
#[derive(Clone, Copy, Drop)]
pub(crate) struct Principals<'a> {
    /// The request's `cname`.
    pub(crate) client_name: &'a PrincipalName,
    /// The client's account.
    pub(crate) client: &'a Account,
    /// The request's `sname`.
    pub(crate) service_name: &'a PrincipalName,
    /// The service's account.
    pub(crate) service: &'a Account,
}

/// Makes the reply with the first ticket, under the reply key (RFC 4120, section 3.1.3).
pub(crate) fn grant(
    alloc: Global,
    call: &Call<'_>,
    principals: Principals,
    authenticated: &Preauthentication,
    span: Span,
    body: &KdcReqBody,
) -> Result<Granted, AllocError>
    requires { AreEnoughForReply call.now.words.now }
    ensures reply { IfOk result (λ made. (granted (call_of call.now) (principals_of principals.entry) (reply_key_by principals.entry.client.now authenticated.now) span body.now).gives (Ok made.reply.items)) }
    ensures ticket { IfOk result (λ made. IsGrantedTicket made.reply.items made.ticket) }
{
    let till = initial_till(call, span, body);
    let grant = initial_grant(alloc, call, principals, span, till, body)?;
    let under = reply_key_by(authenticated, principals.client);
    let made = granted_reply(alloc, &grant, &under, principals.service, call.words);
    drop(grant);
    made
}

// The reply key: the client's own, or the key that both agreed on.
fn reply_key_by<'a>(authenticated: &'a Preauthentication, client: &'a Account) -> ReplyKey<'a>
    ensures { reply_key_of result ≡ reply_key_by client.now authenticated.now }
{
    match authenticated {
        Preauthentication::ByTimestamp => ReplyKey::of_client(client),
        Preauthentication::ByCertificate(key, reply) => ReplyKey::of_agreement(key, reply),
    }
}

// The renew-till of the first ticket, if it has one.
fn initial_till(call: &Call<'_>, span: Span, body: &KdcReqBody) -> Option<GeneralizedTime>
    ensures { IsTill (initial_till (call_of call.now) span body.now) result }
{
    granted_till(
        call.settings.policy().renewable_life,
        span,
        None,
        asked_till(body),
    )
}

// The flags of the first ticket, by the realm's policy.
fn first_flags(call: &Call<'_>, body: &KdcReqBody, till: Option<GeneralizedTime>) -> TicketFlags
    ensures { result ≡ initial_flags call.now.settings.policy body.now.kdc_options.0 till }
{
    initial_flags(call.settings.policy(), &body.kdc_options.0, till)
}

// The flags of the first ticket: forwardable and proxiable where the options ask for it and the policy allows it.
fn initial_flags(
    policy: Policy,
    options: &BitStringAsn1,
    till: Option<GeneralizedTime>,
) -> TicketFlags
    ensures { result ≡ initial_flags policy options.now till }
{
    TicketFlags {
        forwardable: is_allowed(options, option_bits::FORWARDABLE, policy.forwardable),
        forwarded: false,
        proxiable: is_allowed(options, option_bits::PROXIABLE, policy.proxiable),
        proxy: false,
        renewable: till.is_some(),
        initial: true,
        pre_authenticated: true,
    }
}

// Makes what the first ticket is granted with: a session key of the client's suite, and the request's names and nonce.
fn initial_grant<'a>(
    alloc: Global,
    call: &Call<'a>,
    principals: Principals<'a>,
    span: Span,
    till: Option<GeneralizedTime>,
    body: &'a KdcReqBody,
) -> Result<Grant<'a>, AllocError>
    requires { AreEnoughForReply call.now.words.now }
    ensures { IfOk result (λ grant. grant_of grant ≡ initial_grant (call_of call.now) (principals_of principals.entry) body.now span till) }
{
    let suite = principals.client.suite();
    let session = session_key(alloc, suite, call.words)?;
    let flags = first_flags(call, body, till);
    Ok(Grant {
        suite,
        session,
        realm: call.realm,
        client: principals.client_name,
        service: principals.service_name,
        flags,
        auth_time: span.starttime,
        starttime: span.starttime,
        endtime: span.endtime,
        renew_till: till,
        addresses: None,
        nonce: &body.nonce.0,
    })
}
