//! The suite and the salt of a client's key, as a KDC's answer has them.
ghost use Rattle.std.specs.Prelude.{◌≡◌, IfOk};
ghost use Rattle.std.specs.Option.{option_copied};
ghost use Rattle.krb_client_exchanges.specs.Hints.{error_hint, hint_by, hint_of_data, hint_of_entries, hint_of_error, hint_of_info, hint_of_methods, hint_of_padata, hint_of_reply, info_in, reply_hint, reply_suite, suite_in_reply};
ghost use Rattle.krb_client_exchanges.specs.Refusals.{IsHinted};

use crate::entries::{first_entry, suite_among};
use crate::parameters::has_own_parameters;
use crate::reading::{read_error, read_etype_info2, read_method_data, read_reply};
use crate::refusal::HintRefusal;
use krb_constants::error_codes::KDC_ERR_PREAUTH_REQUIRED;
use krb_constants::padata_types::PA_ETYPE_INFO2;
use krb_constants::types::{AS_REP_MSG_TYPE, KERBEROS_VERSION};
use krb_crypto::CipherSuite;
use krb_messages::data_types::{EtypeInfo2Entry, PaData};
use krb_messages::messages::{KdcRep, KrbErrorInner};
use krb_messages::{first_of, is_number};
use picky_asn1::wrapper::{GeneralStringAsn1, OctetStringAsn1};
use std::alloc::{AllocError, Global};

/// How a KDC says that a client's key is made of a password: its suite, and its salt, or none where that is the default one (RFC 4120,
/// section 5.2.7.5).
#[derive(Debug, Drop, PartialEq, Eq)]
pub struct KeyHint {
    /// The suite.
    pub suite: CipherSuite,
    /// The salt, or none where it is the realm followed by the components.
    pub salt: Option<GeneralStringAsn1>,
}

/// What a KDC's error, which asks for preauthentication, says of the client's key. The suite is one of these, and the KDC's order counts
/// (RFC 4120, section 5.2.7.5).
///
/// The error isn't authenticated: whoever is on the network can choose among the suites, and the salt. The refusals are in the order in
/// which they are checked.
#[tactic(auto, unfolding(crate::specs::Hints::error_hint))]
pub fn key_hint(alloc: Global, suites: &[CipherSuite], reply: &[u8]) -> Result<KeyHint, HintRefusal>
    ensures { IsHinted (error_hint suites.now reply.now) result }
{
    let Some(error) = read_error(alloc, reply)? else {
        return Err(HintRefusal::Unreadable);
    };
    let hint = hint_of_error(alloc, suites, &error);
    drop(error);
    hint
}

/// What an AS reply, which a KDC gave without preauthentication, says of the key of its enc-part. The suite is the enc-part's, and has to be
/// one of these. The salt is that of the reply's PA-ETYPE-INFO2, or the default one where the reply has none (RFC 4120, section 5.2.7.5).
///
/// The reply is judged by `Client::take_as_reply`, under the key that is made by the hint. The refusals are in the order in which they are
/// checked.
#[tactic(auto, unfolding(crate::specs::Hints::reply_hint))]
pub fn key_hint_of_reply(
    alloc: Global,
    suites: &[CipherSuite],
    reply: &[u8],
) -> Result<KeyHint, HintRefusal>
    ensures { IsHinted (reply_hint suites.now reply.now) result }
{
    let Some(reply) = read_reply(alloc, reply)? else {
        return Err(HintRefusal::Unreadable);
    };
    let hint = hint_of_reply(alloc, suites, &reply);
    drop(reply);
    hint
}

/// The suite of an AS reply's enc-part, which has to be one of these. A client of this suite judges the reply (`Client::take_as_reply`).
#[tactic(auto, unfolding(crate::specs::Hints::reply_suite))]
pub fn suite_of_reply(
    alloc: Global,
    suites: &[CipherSuite],
    reply: &[u8],
) -> Result<CipherSuite, HintRefusal>
    ensures { IsHinted (reply_suite suites.now reply.now) result }
{
    let Some(reply) = read_reply(alloc, reply)? else {
        return Err(HintRefusal::Unreadable);
    };
    let suite = suite_in_reply(suites, &reply);
    drop(reply);
    suite
}

// What an error says.
fn hint_of_error(
    alloc: Global,
    suites: &[CipherSuite],
    error: &KrbErrorInner,
) -> Result<KeyHint, HintRefusal>
    ensures { IsHinted (hint_of_error suites.now error.now) result }
{
    let code = error.error_code.0;
    if code != KDC_ERR_PREAUTH_REQUIRED {
        return Err(HintRefusal::Refused(code));
    }
    match &error.e_data.0 {
        Some(e_data) => hint_of_data(alloc, suites, e_data.0.as_bytes()),
        None => Err(HintRefusal::NoHint),
    }
}

// What the e-data of an error says.
#[tactic(auto, unfolding(crate::specs::Hints::hint_of_data))]
fn hint_of_data(
    alloc: Global,
    suites: &[CipherSuite],
    octets: &[u8],
) -> Result<KeyHint, HintRefusal>
    ensures { IsHinted (hint_of_data suites.now octets.now) result }
{
    let Some(methods) = read_method_data(alloc, octets)? else {
        return Err(HintRefusal::NoHint);
    };
    let hint = hint_of_methods(alloc, suites, methods.as_slice());
    drop(methods);
    hint
}

// What METHOD-DATA says.
fn hint_of_methods(
    alloc: Global,
    suites: &[CipherSuite],
    methods: &[PaData],
) -> Result<KeyHint, HintRefusal>
    ensures { IsHinted (hint_of_methods suites.now methods.now) result }
{
    match first_of(methods, PA_ETYPE_INFO2) {
        Some(info) => hint_of_info(alloc, suites, info.as_bytes()),
        None => Err(HintRefusal::NoHint),
    }
}

// What an AS reply says.
fn hint_of_reply(
    alloc: Global,
    suites: &[CipherSuite],
    reply: &KdcRep,
) -> Result<KeyHint, HintRefusal>
    ensures { IsHinted (hint_of_reply suites.now reply.now) result }
{
    if !is_number(&reply.pvno.0, KERBEROS_VERSION)
        || !is_number(&reply.msg_type.0, u32::from(AS_REP_MSG_TYPE))
    {
        return Err(HintRefusal::Unreadable);
    }
    let Some(suite) = suite_among(suites, &reply.enc_part.0.etype.0) else {
        return Err(HintRefusal::NoSuite);
    };
    hint_of_padata(alloc, suite, reply)
}

// The suite of a reply's enc-part.
fn suite_in_reply(suites: &[CipherSuite], reply: &KdcRep) -> Result<CipherSuite, HintRefusal>
    ensures { result ≡ suite_in_reply suites.now reply.now }
{
    match suite_among(suites, &reply.enc_part.0.etype.0) {
        Some(suite) => Ok(suite),
        None => Err(HintRefusal::NoSuite),
    }
}

// The first PA-ETYPE-INFO2 of a reply's padata.
#[tactic(auto, unfolding(krb_messages::specs::Padata::first_of, krb_messages::specs::Padata::first_padata))]
fn info_in(reply: &KdcRep) -> Option<&OctetStringAsn1>
    ensures { option_copied result ≡ info_in reply.now }
{
    match &reply.padata.0 {
        Some(padata) => first_of(padata.0.as_slice(), PA_ETYPE_INFO2),
        None => None,
    }
}

// What a reply's padata says of the key of a suite.
fn hint_of_padata(alloc: Global, suite: CipherSuite, reply: &KdcRep) -> Result<KeyHint, HintRefusal>
    ensures { IsHinted (hint_of_padata suite (info_in reply.now)) result }
{
    match info_in(reply) {
        Some(info) => hint_of_info(alloc, &[suite], info.as_bytes()),
        None => Ok(KeyHint { suite, salt: None }),
    }
}

// What the octets of ETYPE-INFO2 say.
#[tactic(auto, unfolding(crate::specs::Hints::hint_of_info))]
fn hint_of_info(alloc: Global, suites: &[CipherSuite], info: &[u8]) -> Result<KeyHint, HintRefusal>
    ensures { IsHinted (hint_of_info suites.now info.now) result }
{
    let Some(entries) = read_etype_info2(alloc, info)? else {
        return Err(HintRefusal::NoHint);
    };
    let hint = hint_of_entries(suites, entries.as_slice());
    drop(entries);
    hint
}

// What the entries of ETYPE-INFO2 say.
fn hint_of_entries(
    suites: &[CipherSuite],
    entries: &[EtypeInfo2Entry],
) -> Result<KeyHint, HintRefusal>
    ensures { IsHinted (hint_of_entries suites.now entries.now) result }
{
    let Some(entry) = first_entry(suites, entries) else {
        return Err(HintRefusal::NoSuite);
    };
    let Some(suite) = suite_among(suites, &entry.etype.0) else {
        return Err(HintRefusal::NoSuite);
    };
    if !has_own_parameters(suite, entry) {
        return Err(HintRefusal::OtherParameters);
    }
    let hint = hint_by(suite, entry)?;
    Ok(hint)
}

// The suite with the salt of the entry.
fn hint_by(suite: CipherSuite, entry: &EtypeInfo2Entry) -> Result<KeyHint, AllocError>
    ensures { IfOk result (λ hint. hint ≡ hint_by suite entry.now) }
{
    let Some(salt) = &entry.salt.0 else {
        return Ok(KeyHint { suite, salt: None });
    };
    let salt = salt.0.clone()?;
    Ok(KeyHint {
        suite,
        salt: Some(salt),
    })
}
