//! Grants a service ticket by the presented ticket.
ghost use Rattle.std.specs.Prelude.{◌≡◌, ◌&&◌, ◌||◌, IfOk, false};
ghost use Rattle.std.specs.Option.{option_copied, option_map, option_map_or};
ghost use Rattle.picky_asn1.specs.BitString.{bit_of};
ghost use Rattle.krb_tickets.specs.declared.flag_bits.TheConstants as flag;
ghost use Rattle.krb_kdc_exchanges.specs.declared.option_bits.TheConstants as option;
ghost use Rattle.krb_messages.specs.RandomBytes.{AreEnoughForReply};
ghost use Rattle.krb_kdc_exchanges.specs.Call.{call_of};
ghost use Rattle.krb_kdc_exchanges.specs.Granting.{IsGranted};
ghost use Rattle.krb_kdc_exchanges.specs.Options.{asked_options};
ghost use Rattle.krb_tickets.specs.Grant.{grant_of};
ghost use Rattle.krb_tickets.specs.ReplyKeys.{reply_key_of};
ghost use Rattle.krb_crypto.specs.Keys.{KeyRecord};
ghost use Rattle.krb_kdc_exchanges.specs.SessionKeys.{HasSessionKey, under};
ghost use Rattle.krb_kdc_exchanges.specs.TgsTable.{addresses_in, first_granted, first_number, further, further_addresses, further_flags, further_grant, further_in, granted_flags, has_des3_key, is_des3, is_granted, reply_key, subkey_in, suite_numbered, without_des3};

use crate::allowed::limited;
use crate::granted::{Granted, granted_reply};
use crate::options::{AskedOptions, asked_options};
use crate::tgs_exchange::options::check_options;
use crate::tgs_exchange::renewing::{further_lasting, further_till};
use crate::{Call, Span, option_bits, session_key};
use krb_ap_requests::Authenticated;
use krb_constants::{error_codes, ticket_flags};
use krb_crypto::{CipherSuite, Key};
use krb_messages::data_types::{
    AuthenticatorInner, EncTicketPartInner, EncryptionKey, HostAddresses, PrincipalName,
};
use krb_messages::messages::KdcReqBody;
use krb_messages::{Refusal, is_number};
use krb_realm_accounts::{Account, Policy};
use krb_tickets::{Grant, ReplyKey, TicketFlags, flag_bits, key_of};
use picky_asn1::date::GeneralizedTime;
use picky_asn1::wrapper::{BitStringAsn1, IntegerAsn1};
use std::alloc::{AllocError, Global};

/// What the AP-REQ of a TGS request holds, decrypted: the ticket's part, its session key, and the authenticator under this key.
#[derive(Clone, Copy, Drop)]
pub(crate) struct OpenedApReq<'a> {
    /// The ticket's part.
    pub(crate) part: &'a EncTicketPartInner,
    /// The session key.
    pub(crate) key: &'a Key,
    /// The authenticator.
    pub(crate) authenticated: &'a Authenticated,
}

/// Makes the reply with a ticket for the service, by the presented ticket and its authenticator, as the options ask for it (RFC 4120,
/// section 3.3.3).
pub(crate) fn grant(
    alloc: Global,
    call: &Call<'_>,
    opened: &OpenedApReq<'_>,
    service_name: &PrincipalName,
    service: &Account,
    body: &KdcReqBody,
) -> Result<Granted, Refusal>
    requires words { AreEnoughForReply call.now.words.now }
    requires key { HasSessionKey opened.now }
    ensures { IsGranted (further (call_of call.now) opened.now.part.now opened.now.authenticated.now service_name.now service.now body.now).gives result }
{
    let asked = asked_options(call.settings.policy(), &body.kdc_options.0);
    check_options(call, asked, opened.part, service_name)?;
    grant_in(
        alloc,
        call,
        opened,
        asked.renews,
        service_name,
        service,
        body,
    )
}

// Makes the reply, where the options allow it. A renewed ticket has times of its own.
fn grant_in(
    alloc: Global,
    call: &Call<'_>,
    opened: &OpenedApReq<'_>,
    renews: bool,
    service_name: &PrincipalName,
    service: &Account,
    body: &KdcReqBody,
) -> Result<Granted, Refusal>
    requires words { AreEnoughForReply call.now.words.now }
    requires key { HasSessionKey opened.now }
    ensures { IsGranted (further_in renews (call_of call.now) opened.now.part.now opened.now.authenticated.now service_name.now service.now body.now).gives result }
{
    let part = opened.part;
    let lifetime = limited(service, call.settings.lifetime());
    let span = further_lasting(renews, lifetime, call.moment, part, body)?;
    let without = without_des3(call, part, service);
    let Some(suite) = first_granted(without, body.etype.0.as_slice()) else {
        return Err(Refusal::Krb(error_codes::KDC_ERR_ETYPE_NOSUPP));
    };
    let Some(subkey) = subkey_of(&opened.authenticated.authenticator) else {
        return Err(Refusal::Krb(error_codes::KRB_AP_ERR_BAD_INTEGRITY));
    };
    let under = reply_key(opened.key, &subkey);
    let till = further_till(renews, call, part, span, body);
    let grant = further_grant(alloc, call, part, service_name, suite, body, span, till)?;
    let made = granted_reply(alloc, &grant, &under, service, call.words);
    drop(grant);
    let made = made?;
    Ok(made)
}

// Whether session keys of triple DES are held back from the ticket's client and the service.
fn without_des3(call: &Call<'_>, part: &EncTicketPartInner, service: &Account) -> bool
    ensures { result ≡ without_des3 (call_of call.now) part.now service.now }
{
    if !call.settings.policy().limits_des3 {
        return false;
    }
    let client = call.accounts.get(part.cname.0.name_string.0.as_slice());
    !has_des3_key(client) && !has_des3_key(Some(service))
}

// Whether the account, if there is one, has a key of triple DES.
fn has_des3_key(account: Option<&Account>) -> bool
    ensures { result ≡ has_des3_key (option_copied account.entry) }
{
    match account {
        Some(own) => is_des3(own.suite()),
        None => false,
    }
}

fn is_des3(suite: CipherSuite) -> bool
    ensures { result ≡ is_des3 suite }
{
    match suite {
        CipherSuite::Des3CbcSha1Kd => true,
        _ => false,
    }
}

// The first granted suite that the client's `etype` lists.
fn first_granted(without: bool, numbers: &[IntegerAsn1]) -> Option<CipherSuite>
    ensures { result ≡ first_granted without numbers.now }
{
    match first_number(without, numbers) {
        Some(number) => suite_numbered(number),
        None => None,
    }
}

// The first encryption type, in the client's order, that is that of a granted suite.
fn first_number(without: bool, numbers: &[IntegerAsn1]) -> Option<&IntegerAsn1>
    ensures { option_copied result ≡ first_number without numbers.now }
{
    numbers
        .iter()
        .find(|number| is_granted_number(without, number))
}

// Whether the encryption type is that of a granted suite.
fn is_granted_number(without: bool, number: &IntegerAsn1) -> bool
    ensures { result ≡ option_map_or (is_granted without) (suite_numbered number.now) false }
{
    match suite_numbered(number) {
        Some(suite) => !without || !is_des3(suite),
        None => false,
    }
}

// The suite of an encryption type.
fn suite_numbered(number: &IntegerAsn1) -> Option<CipherSuite>
    ensures { result ≡ suite_numbered number.now }
{
    CipherSuite::all()
        .iter()
        .copied()
        .find(|suite| is_number(number, u32::from(suite)))
}

// The authenticator's subkey, as the message has it.
fn subkey_in(authenticator: &AuthenticatorInner) -> Option<&EncryptionKey>
    ensures { option_copied result ≡ subkey_in authenticator.now }
{
    match &authenticator.subkey.0 {
        Some(tagged) => Some(&tagged.0),
        None => None,
    }
}

// The authenticator's subkey, if it has one. The outer `None` is a subkey of no suite, the inner one no subkey.
fn subkey_of(authenticator: &AuthenticatorInner) -> Option<Option<Key>>
    ensures { (session : KeyRecord) → reply_key session.suite session.bytes (subkey_in authenticator.now) ≡ option_map (under session) result }
{
    let Some(subkey) = subkey_in(authenticator) else {
        return Some(None);
    };
    let key = key_of(subkey)?;
    Some(Some(key))
}

// The reply key: the subkey where there is one, else the session key.
fn reply_key<'a>(session: &'a Key, subkey: &'a Option<Key>) -> ReplyKey<'a>
    ensures { reply_key_of result ≡ under session.now subkey.now }
{
    match subkey {
        Some(key) => ReplyKey::of_subkey(key),
        None => ReplyKey::of_session(session),
    }
}

// Makes what the service ticket is granted with: client, authtime and flag pre-authent are the presented ticket's.
fn further_grant<'a>(
    alloc: Global,
    call: &Call<'a>,
    part: &'a EncTicketPartInner,
    service_name: &'a PrincipalName,
    suite: CipherSuite,
    body: &'a KdcReqBody,
    span: Span,
    till: Option<GeneralizedTime>,
) -> Result<Grant<'a>, AllocError>
    requires { AreEnoughForReply call.now.words.now }
    ensures { IfOk result (λ grant. grant_of grant ≡ further_grant (call_of call.now) part.now service_name.now suite body.now span till) }
{
    let session = session_key(alloc, suite, call.words)?;
    let flags = granted_flags(call, part, body, till);
    let addresses = granted_addresses(call, body);
    Ok(Grant {
        suite,
        session,
        realm: call.realm,
        client: &part.cname.0,
        service: service_name,
        flags,
        auth_time: part.auth_time.0.0,
        starttime: span.starttime,
        endtime: span.endtime,
        renew_till: till,
        addresses,
        nonce: &body.nonce.0,
    })
}

// The addresses of what is granted.
fn granted_addresses<'a>(call: &Call<'_>, body: &'a KdcReqBody) -> Option<&'a HostAddresses>
    ensures { option_copied result ≡ further_addresses (asked_options call.now.settings.policy body.now.kdc_options.0) body.now }
{
    let asked = asked_options(call.settings.policy(), &body.kdc_options.0);
    further_addresses(asked, body)
}

// The addresses of a request for a forwarded ticket or a proxy.
fn further_addresses(asked: AskedOptions, body: &KdcReqBody) -> Option<&HostAddresses>
    ensures { option_copied result ≡ further_addresses asked body.now }
{
    if is_for_addresses(asked) {
        addresses_in(body)
    } else {
        None
    }
}

// Whether a forwarded ticket or a proxy is asked for.
fn is_for_addresses(asked: AskedOptions) -> bool
    ensures { result ≡ (asked.forwards || asked.proxies) }
{
    asked.forwards || asked.proxies
}

// The addresses of a request.
fn addresses_in(body: &KdcReqBody) -> Option<&HostAddresses>
    ensures { option_copied result ≡ addresses_in body.now }
{
    match &body.addresses.0 {
        Some(tagged) => Some(&tagged.0),
        None => None,
    }
}

// The flags of what is granted by the presented ticket.
fn granted_flags(
    call: &Call<'_>,
    part: &EncTicketPartInner,
    body: &KdcReqBody,
    till: Option<GeneralizedTime>,
) -> TicketFlags
    ensures { result ≡ granted_flags call.now.settings.policy part.now body.now till }
{
    let policy = call.settings.policy();
    let asked = asked_options(policy, &body.kdc_options.0);
    further_flags(policy, asked, &body.kdc_options.0, &part.flags.0, till)
}

// The flags by the options and the presented ticket's flags: it is forwardable and proxiable as far as the presented ticket is.
fn further_flags(
    policy: Policy,
    asked: AskedOptions,
    options: &BitStringAsn1,
    old: &BitStringAsn1,
    till: Option<GeneralizedTime>,
) -> TicketFlags
    ensures { result ≡ further_flags policy asked options.now old.now till }
{
    TicketFlags {
        forwardable: is_forwardable(policy, options, old),
        forwarded: is_forwarded(policy, asked.forwards, old),
        proxiable: is_proxiable(policy, options, old),
        proxy: asked.proxies,
        renewable: till.is_some(),
        initial: false,
        pre_authenticated: old.bit(ticket_flags::PRE_AUTHENT),
    }
}

// Whether the ticket is forwardable.
fn is_forwardable(policy: Policy, options: &BitStringAsn1, old: &BitStringAsn1) -> bool
    ensures { result ≡ ((bit_of options.now option.FORWARDABLE && bit_of old.now flag.FORWARDABLE) && policy.forwardable) }
{
    options.bit(option_bits::FORWARDABLE) && old.bit(flag_bits::FORWARDABLE) && policy.forwardable
}

// Whether the ticket is a forwarded one.
fn is_forwarded(policy: Policy, forwards: bool, old: &BitStringAsn1) -> bool
    ensures { result ≡ (forwards || (bit_of old.now flag.FORWARDED && policy.forwardable)) }
{
    forwards || (old.bit(flag_bits::FORWARDED) && policy.forwardable)
}

// Whether the ticket is proxiable.
fn is_proxiable(policy: Policy, options: &BitStringAsn1, old: &BitStringAsn1) -> bool
    ensures { result ≡ ((bit_of options.now option.PROXIABLE && bit_of old.now flag.PROXIABLE) && policy.proxiable) }
{
    options.bit(option_bits::PROXIABLE) && old.bit(flag_bits::PROXIABLE) && policy.proxiable
}
