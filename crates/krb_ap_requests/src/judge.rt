//! Judging a request: the rows of the table, part by part.
ghost use Rattle.std.specs.Prelude.{◌≡◌};
ghost use Rattle.krb_crypto.specs.Suites.{cipher_number};
ghost use Rattle.krb_messages.specs.Names.{components};
ghost use Rattle.krb_messages.specs.Refusals.{IsJudged};
ghost use Rattle.krb_ap_requests.specs.ApTable.{for_service, ap_fields, authenticated, enc_part_in, is_early, is_for, is_late, is_of_client, is_version_5, kvno_fits, opened, opened_part, presented_with, starttime_of, ticket_in, timely, authenticator_time, valid_authenticator, valid_part};
ghost use Rattle.std.specs.Int.{cast_unsigned, w32};
ghost use Rattle.krb_time.specs.Skew.{IsWithinDay};

use crate::messages::{open_authenticator, open_part};
use crate::presented::{Authenticated, Presented};
use decision_tables::if_passed;
use krb_constants::types::{AP_REQ_MSG_TYPE, KERBEROS_VERSION};
use krb_constants::{ap_options, error_codes, key_usages, ticket_flags};
use krb_crypto::{CipherSuite, Key};
use krb_messages::data_types::{
    AuthenticatorInner, EncTicketPartInner, EncryptedData, EncryptionKey, TicketInner,
};
use krb_messages::messages::ApReqInner;
use krb_messages::{Refusal, is_number, is_same_name, is_same_realm};
use krb_tickets::key_of;
use krb_time::{Moment, moment_at};
use picky_asn1::date::GeneralizedTime;
use picky_asn1::wrapper::GeneralStringAsn1;
use std::alloc::Global;

// Returns the ticket of a request (RFC 4120, section 5.5.1).
fn ticket_in(request: &ApReqInner) -> &TicketInner
    ensures { result.now ≡ ticket_in request.now }
{
    &request.ticket.0.0
}

/// Returns the enc-part of a request's ticket (RFC 4120, section 5.3).
pub fn enc_part_in(request: &ApReqInner) -> &EncryptedData
    ensures { result.now ≡ enc_part_in request.now }
{
    &request.ticket.0.0.enc_part.0
}

/// Judges the request's own fields, in this order. Its option use-session-key must not be set (code 48). Then come the rows of
/// [`check_fields`]. The etype of the ticket's enc-part has to be that of the service's key (45; RFC 4120, section 3.2.3).
pub fn check_recipient(
    realm: &GeneralStringAsn1,
    name: &[GeneralStringAsn1],
    suite: CipherSuite,
    kvno: u32,
    request: &ApReqInner,
) -> Result<(), Refusal>
    ensures { IsJudged (for_service realm.now name.now suite kvno request.now).gives result }
{
    if request.ap_options.0.bit(ap_options::USE_SESSION_KEY) {
        return Err(Refusal::Krb(error_codes::KRB_AP_ERR_METHOD));
    }
    check_fields(realm, name, kvno, request)?;
    if !is_number(&enc_part_in(request).etype.0, u32::from(&suite)) {
        return Err(Refusal::Krb(error_codes::KRB_AP_ERR_NOKEY));
    }
    Ok(())
}

/// Judges the request's own fields (RFC 4120, section 3.2.3), in this order. Its pvno and the ticket's tkt-vno have to be 5 (code
/// 39), and its msg-type has to be KRB_AP_REQ (40). The ticket has to be for the service of this realm and this name (35). The kvno of
/// the ticket's enc-part has to be this one, or missing (44).
pub fn check_fields(
    realm: &GeneralStringAsn1,
    name: &[GeneralStringAsn1],
    kvno: u32,
    request: &ApReqInner,
) -> Result<(), Refusal>
    ensures { IsJudged (ap_fields realm.now name.now kvno request.now).gives result }
{
    if !is_version_5(request) {
        return Err(Refusal::Krb(error_codes::KRB_AP_ERR_BADVERSION));
    }
    if !is_number(&request.msg_type.0, u32::from(AP_REQ_MSG_TYPE)) {
        return Err(Refusal::Krb(error_codes::KRB_AP_ERR_MSG_TYPE));
    }
    if !is_for(realm, name, ticket_in(request)) {
        return Err(Refusal::Krb(error_codes::KRB_AP_ERR_NOT_US));
    }
    if !kvno_fits(kvno, enc_part_in(request)) {
        return Err(Refusal::Krb(error_codes::KRB_AP_ERR_BADKEYVER));
    }
    Ok(())
}

// Whether the request's pvno and its ticket's tkt-vno are 5.
fn is_version_5(request: &ApReqInner) -> bool
    ensures { result ≡ is_version_5 request.now }
{
    is_number(&request.pvno.0, KERBEROS_VERSION)
        && is_number(&ticket_in(request).tkt_vno.0, KERBEROS_VERSION)
}

// Whether the ticket is for the service of this realm and this name.
fn is_for(realm: &GeneralStringAsn1, name: &[GeneralStringAsn1], ticket: &TicketInner) -> bool
    ensures { result ≡ is_for realm.now name.now ticket.now }
{
    is_same_realm(&ticket.realm.0, realm)
        && is_same_name(ticket.sname.0.name_string.0.as_slice(), name)
}

/// Whether the data has this kvno, or none.
pub fn kvno_fits(kvno: u32, encrypted: &EncryptedData) -> bool
    ensures { result ≡ kvno_fits kvno encrypted.now }
{
    match &encrypted.kvno.0 {
        Some(tagged) => is_number(&tagged.0, kvno),
        None => true,
    }
}

/// Opens the ticket's part, and judges its times and flags at a moment. The skew is in microseconds, a day at most.
pub fn check_ticket(
    alloc: Global,
    key: &Key,
    skew: u64,
    moment: Moment,
    encrypted: &EncryptedData,
) -> Result<EncTicketPartInner, Refusal>
    requires { IsWithinDay skew }
    ensures { IsJudged (valid_part key.now.suite key.now.bytes skew moment encrypted.now).gives result }
{
    let part = open_ticket(alloc, key, encrypted)?;
    let judged = check_times(skew, moment, &part);
    if_passed(part, judged)
}

/// Decrypts the ticket's enc-part under the service's key, which has to open it (code 31; RFC 4120, section 5.3).
pub fn open_ticket(
    alloc: Global,
    key: &Key,
    encrypted: &EncryptedData,
) -> Result<EncTicketPartInner, Refusal>
    ensures { IsJudged (opened_part key.now.suite key.now.bytes encrypted.now).gives result }
{
    let Some(part) = open_part(alloc, key, encrypted)? else {
        return Err(Refusal::Krb(error_codes::KRB_AP_ERR_BAD_INTEGRITY));
    };
    Ok(part)
}

/// Judges a ticket's times and flags at a moment: it has to have started and be valid (code 33), and must not have ended
/// (32; RFC 4120, section 3.2.3). The skew is in microseconds, a day at most.
pub fn check_times(skew: u64, moment: Moment, part: &EncTicketPartInner) -> Result<(), Refusal>
    requires { IsWithinDay skew }
    ensures { IsJudged (timely skew moment part.now).gives result }
{
    if is_early(skew, moment, part) {
        return Err(Refusal::Krb(error_codes::KRB_AP_ERR_TKT_NYV));
    }
    if is_late(skew, moment, part) {
        return Err(Refusal::Krb(error_codes::KRB_AP_ERR_TKT_EXPIRED));
    }
    Ok(())
}

/// Returns the ticket's starttime, or its authtime where it has no starttime (RFC 4120, section 5.3).
pub fn starttime_of(part: &EncTicketPartInner) -> GeneralizedTime
    ensures { result ≡ starttime_of part.now }
{
    match &part.starttime.0 {
        Some(tagged) => tagged.0.0,
        None => part.auth_time.0.0,
    }
}

// Whether the ticket starts later than the moment and the skew, or its flag invalid is set.
fn is_early(skew: u64, moment: Moment, part: &EncTicketPartInner) -> bool
    requires { IsWithinDay skew }
    ensures { result ≡ is_early skew moment part.now }
{
    moment.is_before(starttime_of(part), skew) || part.flags.0.bit(ticket_flags::INVALID)
}

// Whether the moment is later than the ticket's endtime and the skew.
fn is_late(skew: u64, moment: Moment, part: &EncTicketPartInner) -> bool
    requires { IsWithinDay skew }
    ensures { result ≡ is_late skew moment part.now }
{
    moment.is_after(part.endtime.0.0, skew)
}

/// Judges the authenticator of a request whose ticket has this part, and returns what the request presents.
pub fn check_presented(
    alloc: Global,
    request: &ApReqInner,
    part: EncTicketPartInner,
) -> Result<Presented, Refusal>
    ensures { IsJudged (valid_authenticator request.now part).gives result }
{
    let judged = check_authenticator(
        alloc,
        key_usages::AP_REQ_AUTHENTICATOR,
        &part,
        &request.authenticator.0,
    );
    match judged {
        Ok(authenticated) => Ok(presented_with(request, part, authenticated)),
        Err(refusal) => {
            drop(part);
            Err(refusal)
        }
    }
}

// Joins the ticket's part and the authenticator to what a request presents.
fn presented_with(
    request: &ApReqInner,
    part: EncTicketPartInner,
    authenticated: Authenticated,
) -> Presented
    ensures { result ≡ presented_with request.now part authenticated }
{
    let wants_reply = request.ap_options.0.bit(ap_options::MUTUAL_REQUIRED);
    let Authenticated {
        suite,
        authenticator,
        time,
    } = authenticated;
    Presented {
        part,
        suite,
        authenticator,
        time,
        wants_reply,
    }
}

/// Opens a request's authenticator under its ticket's key for a usage (code 31), and judges it: it has to be of version 5
/// (39) and of the ticket's client (36), and its microseconds part of a second (41; RFC 4120, section 3.2.3).
pub fn check_authenticator(
    alloc: Global,
    usage: i32,
    part: &EncTicketPartInner,
    encrypted: &EncryptedData,
) -> Result<Authenticated, Refusal>
    ensures { IsJudged (authenticated (cast_unsigned w32 usage) part.now encrypted.now).gives result }
{
    let (suite, authenticator) = open_under(alloc, &part.key.0, usage, encrypted)?;
    match authenticator_time(part, &authenticator) {
        Ok(time) => Ok(Authenticated {
            suite,
            authenticator,
            time,
        }),
        Err(refusal) => {
            drop(authenticator);
            Err(refusal)
        }
    }
}

// Decrypts the authenticator under the session key for the usage, and returns it with the key's suite.
fn open_under(
    alloc: Global,
    key: &EncryptionKey,
    usage: i32,
    encrypted: &EncryptedData,
) -> Result<(CipherSuite, AuthenticatorInner), Refusal>
    ensures { IsJudged (opened key.now (cast_unsigned w32 usage) encrypted.now).gives result }
{
    let Some(own) = key_of(key) else {
        return Err(Refusal::Krb(error_codes::KRB_AP_ERR_BAD_INTEGRITY));
    };
    let Some(authenticator) = open_authenticator(alloc, &own, usage, encrypted)? else {
        return Err(Refusal::Krb(error_codes::KRB_AP_ERR_BAD_INTEGRITY));
    };
    Ok((own.suite(), authenticator))
}

// Judges whose the authenticator is, and returns its moment.
fn authenticator_time(
    part: &EncTicketPartInner,
    authenticator: &AuthenticatorInner,
) -> Result<Moment, Refusal>
    ensures { IsJudged (authenticator_time part.now authenticator.now).gives result }
{
    if !is_number(&authenticator.authenticator_vno.0, KERBEROS_VERSION) {
        return Err(Refusal::Krb(error_codes::KRB_AP_ERR_BADVERSION));
    }
    if !is_of_client(part, authenticator) {
        return Err(Refusal::Krb(error_codes::KRB_AP_ERR_BADMATCH));
    }
    let Some(time) = moment_at(authenticator.ctime.0.0, &authenticator.cusec.0) else {
        return Err(Refusal::Krb(error_codes::KRB_AP_ERR_MODIFIED));
    };
    Ok(time)
}

// Whether the authenticator's crealm and cname are the ticket's.
fn is_of_client(part: &EncTicketPartInner, authenticator: &AuthenticatorInner) -> bool
    ensures { result ≡ is_of_client part.now authenticator.now }
{
    is_same_realm(&authenticator.crealm.0, &part.crealm.0)
        && is_same_name(
            authenticator.cname.0.name_string.0.as_slice(),
            part.cname.0.name_string.0.as_slice(),
        )
}
