//! The fields of a KDC-REQ, and the rows that AS and TGS requests share.
ghost use Rattle.std.specs.Prelude.{◌≡◌, ◌≤◌, IfOk};
ghost use Rattle.std.specs.Option.{option_copied, option_map};
ghost use Rattle.krb_messages.specs.RandomBytes.{AreEnoughForReply};
ghost use Rattle.krb_realm_accounts.specs.Accounts.{look_in};
ghost use Rattle.krb_kdc_exchanges.specs.Requests.{account_of, header_rows, client_of, has_refused_option, is_ended, is_postdated, lasting, lasting_to, service_of};
ghost use Rattle.krb_kdc_exchanges.specs.Times.{last_second};
ghost use Rattle.krb_messages.specs.Padata.{padata_in};
ghost use Rattle.krb_tickets.specs.Parts.{session_key_of};
ghost use Rattle.krb_messages.specs.Refusals.{IsJudged};
ghost use Rattle.asn1_leaves.specs.GeneralizedTime.{seconds_of};

use crate::span::Span;
use crate::start_of;
use crate::times::end_within;
use krb_constants::types::KERBEROS_VERSION;
use krb_constants::{error_codes, kdc_options};
use krb_crypto::CipherSuite;
use krb_messages::data_types::PrincipalName;
use krb_messages::messages::{KdcReq, KdcReqBody};
use krb_messages::random_bytes::SESSION_SEED;
use krb_messages::{Refusal, is_number, is_same_realm};
use krb_realm_accounts::{Account, Accounts};
use krb_tickets::key_at;
use krb_time::Moment;
use picky_asn1::date::GeneralizedTime;
use picky_asn1::wrapper::{BitStringAsn1, GeneralStringAsn1, OctetStringAsn1};
use std::alloc::{AllocError, Global};

/// Judges a request's header: it has to be of version 5, of this message type and to this realm, without an option that is refused in its
/// exchange, and not postdated.
pub fn check_header(
    message_type: u8,
    realm: &GeneralStringAsn1,
    is_refused: bool,
    request: &KdcReq,
) -> Result<(), Refusal>
    ensures { IsJudged (header_rows message_type realm.now is_refused request.now).gives result }
{
    if !is_number(&request.pvno.0, KERBEROS_VERSION) {
        return Err(Refusal::Krb(error_codes::KDC_ERR_BAD_PVNO));
    }
    if !is_number(&request.msg_type.0, u32::from(message_type)) {
        return Err(Refusal::Krb(error_codes::KRB_AP_ERR_MSG_TYPE));
    }
    let body = &request.req_body.0;
    if !is_same_realm(&body.realm.0, realm) {
        return Err(Refusal::Krb(error_codes::KDC_ERR_WRONG_REALM));
    }
    if is_refused {
        return Err(Refusal::Krb(error_codes::KDC_ERR_BADOPTION));
    }
    if is_postdated(&body.kdc_options.0) {
        return Err(Refusal::Krb(error_codes::KDC_ERR_CANNOT_POSTDATE));
    }
    Ok(())
}

/// Whether forwarded, proxy, enc-tkt-in-skey, renew or validate is set, which an AS request can't have (RFC 4120, section 5.4.1).
pub(crate) fn has_refused_option(options: &BitStringAsn1) -> bool
    ensures { result ≡ has_refused_option options.now }
{
    options.bit(kdc_options::FORWARDED)
        || options.bit(kdc_options::PROXY)
        || options.bit(kdc_options::ENC_TKT_IN_SKEY)
        || options.bit(kdc_options::RENEW)
        || options.bit(kdc_options::VALIDATE)
}

// Whether postdated is set (RFC 4120, section 5.4.1).
fn is_postdated(options: &BitStringAsn1) -> bool
    ensures { result ≡ is_postdated options.now }
{
    options.bit(kdc_options::POSTDATED)
}

/// The body's `cname`.
pub fn client_of(body: &KdcReqBody) -> Option<&PrincipalName>
    ensures { option_copied result ≡ client_of body.now }
{
    match &body.cname.0 {
        Some(tagged) => Some(&tagged.0),
        None => None,
    }
}

/// The body's `sname`.
pub fn service_of(body: &KdcReqBody) -> Option<&PrincipalName>
    ensures { option_copied result ≡ service_of body.now }
{
    match &body.sname.0 {
        Some(tagged) => Some(&tagged.0),
        None => None,
    }
}

/// The principals that a request names.
#[derive(Clone, Copy)]
pub struct NamedPrincipals<'a> {
    /// The client.
    pub client: Option<&'a PrincipalName>,
    /// The service.
    pub service: Option<&'a PrincipalName>,
}

/// The client and the service that the body names, each if it does.
pub fn named_in(body: &KdcReqBody) -> NamedPrincipals<'_>
    ensures client { option_copied result.client ≡ client_of body.now }
    ensures service { option_copied result.service ≡ service_of body.now }
{
    NamedPrincipals {
        client: client_of(body),
        service: service_of(body),
    }
}

/// The account of a name, or none where no name is given or the name has no account.
pub fn account_of<'a>(accounts: &'a Accounts, name: Option<&PrincipalName>) -> Option<&'a Account>
    ensures { option_copied result ≡ account_of (look_in accounts.now) (option_copied name.entry) }
{
    let Some(name) = name else {
        return None;
    };
    accounts.get(name.name_string.0.as_slice())
}

/// The starttime and endtime of a ticket that is granted at a moment. `old` is the presented ticket's endtime, in a TGS
/// exchange. A ticket that would end where it starts, or earlier, is refused.
pub fn lasting(
    lifetime: u64,
    moment: Moment,
    old: Option<GeneralizedTime>,
    body: &KdcReqBody,
) -> Result<Span, Refusal>
    requires { lifetime ≤ last_second }
    ensures { IsJudged (lasting lifetime moment (option_map seconds_of old) body.now).gives result }
{
    let till = body.till.0.0.seconds();
    lasting_to(lifetime, moment, old, till)
}

/// The same by this lifetime, for a `till` in seconds.
pub(crate) fn lasting_to(
    lifetime: u64,
    moment: Moment,
    old: Option<GeneralizedTime>,
    till: u64,
) -> Result<Span, Refusal>
    requires { lifetime ≤ last_second }
    ensures { IsJudged (lasting_to lifetime moment (option_map seconds_of old) till).gives result }
{
    let starttime = start_of(moment);
    let endtime = end_within(lifetime, starttime, old, till);
    let span = Span { starttime, endtime };
    if is_ended(span) {
        return Err(Refusal::Krb(error_codes::KDC_ERR_NEVER_VALID));
    }
    Ok(span)
}

// Whether the endtime isn't after the starttime.
fn is_ended(span: Span) -> bool
    ensures { result ≡ is_ended span }
{
    span.endtime.seconds() <= span.starttime.seconds()
}

/// Makes a session key of this suite, of its seed among the random bytes.
pub fn session_key(
    alloc: Global,
    suite: CipherSuite,
    words: &[u8],
) -> Result<OctetStringAsn1, AllocError>
    requires { AreEnoughForReply words.now }
    ensures { IfOk result (λ key. key ≡ session_key_of suite words.now) }
{
    key_at(alloc, suite, words, SESSION_SEED)
}
