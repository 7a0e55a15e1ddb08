//! Asking for a context.
ghost use Rattle.std.specs.Prelude.{◌≡◌, ◌≤◌, ◌<◌, length, Err, IfOk, MatchResult, Some};
ghost use Rattle.gss_initiator.specs.Checksums.{is_mutual};
ghost use Rattle.gss_initiator.specs.Delegating.{delegating_checksum};
ghost use Rattle.gss_initiator.specs.declared.refusal.InitiateRefusal.{InitiateRefusal};
ghost use Rattle.gss_initiator.specs.FirstTokens.{ap_req_token, first_token, mechanisms, neg_init, neg_init_token};
ghost use Rattle.gss_initiator.specs.Initiating.{DelegatesFirst, Initiates, InitiatesDelegating, IsProgress, IsSent, IsUndelegated, SendsFirst, SendsWith, delegation_refusal, pending_of, progress_of, refusal_of, waits};
ghost use Rattle.gss_initiator.specs.Requests.{own_subkey};

use crate::checksum::{BEYOND, delegating_checksum, initial_checksum, is_beyond};
use crate::delegating::{TOO_LONG, delegating, krb_cred};
use crate::initiated::{Initiated, Pending, Progress, TokenForm};
use crate::refusal::InitiateRefusal;
use crate::request::context_request;
use gss_acceptor::context_flags::{MUTUAL, SEQUENCE};
use gss_acceptor::{AP_REQ_FRONT, ContextFlags, InitialChecksum, element_of, joined};
use gss_contexts::{ApplicationTag0, GssApiNegInit, MechTypeList, NegTokenInit};
use krb_client::{ApAsked, Client, Credential, nonce_of};
use krb_constants::gss_api::INITIAL_TOKEN;
use krb_crypto::{CipherSuite, Key};
use krb_messages::data_types::Checksum;
use krb_messages::random_bytes::SUBKEY_SEED;
use krb_tickets::flag_bits::FORWARDED;
use krb_tickets::key_at;
use krb_time::Moment;
use picky_asn1::wrapper::{ObjectIdentifierAsn1, OctetStringAsn1};
use picky_asn1_der::{ExplicitContextTag, Optional, both, encoding_of};
use std::alloc::{AllocError, Global};

/// Asks the credential's service for a context, at a moment: makes the first token (RFC 4121, section 4.1). `initial` has the hash of the
/// channel bindings, as [`bindings_of`](crate::bindings_of) makes it or [`NO_BINDINGS`](crate::NO_BINDINGS), and the flags, by the constants
/// of `gss_acceptor::context_flags`. `words`: random bytes, 96 or more, which no other call had.
///
/// The AP-REQ has always a subkey. An AP-REP is required where the flag of mutual authentication is set. Without it a bare context is
/// established at once; else [`Pending::take`] takes the answer.
///
/// The refusals, in this order: `NotOffered`, `OldSuite`, `Memory`.
pub fn initiate(
    alloc: Global,
    client: &Client,
    credential: &Credential,
    initial: InitialChecksum,
    form: TokenForm,
    moment: Moment,
    words: &[u8],
) -> Result<Initiated, InitiateRefusal>
    requires { 96 ≤ length words.now }
    ensures made { Initiates client.now credential.now initial form moment words.now result }

    // Running out of memory hides no other refusal.
    ensures first { (refusal : InitiateRefusal) → refusal_of credential.now.suite initial.flags ≡ Some refusal → result ≡ Err refusal }
{
    if let Some(refusal) = refusal_of(credential.suite(), initial.flags) {
        return Err(refusal);
    }
    match first_token(alloc, client, credential, initial, form, moment, words) {
        Ok(token) => sent(alloc, token, credential, initial.flags, form, moment, words),
        Err(_) => Err(InitiateRefusal::Memory),
    }
}

/// Asks the credential's service for a context, as [`initiate`] does, and delegates the client's forwarded ticket to it (RFC 4121, section
/// 4.1.1.1). The flag of delegation is set, whether `initial` has it or not. `forwarded`: a ticket-granting ticket with the flag forwarded,
/// which the realm granted for this.
///
/// The service then acts as the client at any service, for as long as the ticket lasts. It has the ticket also if it establishes no
/// context: who the acceptor is shows only its answer.
///
/// The refusals, in this order: `NotOffered`, `OldSuite`, `NotForwarded`, `LongDelegation`, `Memory`.
pub fn initiate_delegating(
    alloc: Global,
    client: &Client,
    credential: &Credential,
    forwarded: &Credential,
    initial: InitialChecksum,
    form: TokenForm,
    moment: Moment,
    words: &[u8],
) -> Result<Initiated, InitiateRefusal>
    requires { 96 ≤ length words.now }
    ensures made { InitiatesDelegating client.now credential.now forwarded.now initial form moment words.now result }

    // Running out of memory hides no other refusal but `LongDelegation`.
    ensures first { (refusal : InitiateRefusal) → delegation_refusal credential.now.suite initial.flags forwarded.now ≡ Some refusal → result ≡ Err refusal }
{
    if let Some(refusal) = delegation_refusal(credential.suite(), initial.flags, forwarded) {
        return Err(refusal);
    }
    let own = delegating(initial);
    match delegating_token(
        alloc, client, credential, forwarded, own, form, moment, words,
    ) {
        Ok(token) => sent(alloc, token, credential, own.flags, form, moment, words),
        Err(refusal) => Err(refusal),
    }
}

/// Why [`initiate_delegating`] asks for no context with these flags, under a session key of this suite, with this ticket.
pub fn delegation_refusal(
    suite: CipherSuite,
    flags: ContextFlags,
    forwarded: &Credential,
) -> Option<InitiateRefusal>
    ensures { result ≡ delegation_refusal suite flags forwarded.now }
{
    if flags.0 >= BEYOND {
        return Some(InitiateRefusal::NotOffered);
    }
    if suite == CipherSuite::Des3CbcSha1Kd {
        return Some(InitiateRefusal::OldSuite);
    }
    if forwarded.flags().bit(FORWARDED) {
        return None;
    }
    Some(InitiateRefusal::NotForwarded)
}

/// Why [`initiate`] asks for no context with these flags, under a session key of this suite.
pub fn refusal_of(suite: CipherSuite, flags: ContextFlags) -> Option<InitiateRefusal>
    ensures { result ≡ refusal_of suite flags }
{
    if is_beyond(flags) {
        return Some(InitiateRefusal::NotOffered);
    }
    if suite == CipherSuite::Des3CbcSha1Kd {
        return Some(InitiateRefusal::OldSuite);
    }
    None
}

// The first token.
fn first_token(
    alloc: Global,
    client: &Client,
    credential: &Credential,
    initial: InitialChecksum,
    form: TokenForm,
    moment: Moment,
    words: &[u8],
) -> Result<Vec<u8>, AllocError>
    requires { 96 ≤ length words.now }
    ensures { IfOk result (λ token. SendsFirst client.now credential.now initial form moment words.now token.items) }
{
    let checksum = initial_checksum(alloc, initial)?;
    let wants_reply = initial.flags.is_set(MUTUAL);
    token_with(
        alloc,
        client,
        credential,
        checksum,
        wants_reply,
        form,
        moment,
        words,
    )
}

// The first token that delegates.
fn delegating_token(
    alloc: Global,
    client: &Client,
    credential: &Credential,
    forwarded: &Credential,
    initial: InitialChecksum,
    form: TokenForm,
    moment: Moment,
    words: &[u8],
) -> Result<Vec<u8>, InitiateRefusal>
    requires { 96 ≤ length words.now }
    ensures { MatchResult result
        (λ token. DelegatesFirst client.now credential.now forwarded.now initial form moment words.now token.items)
        (IsUndelegated client.now credential.now forwarded.now words.now) }
{
    let deleg = krb_cred(alloc, client, credential, forwarded, words)?;
    if deleg.len() >= TOO_LONG {
        return Err(InitiateRefusal::LongDelegation);
    }
    match summed_token(
        alloc, client, credential, initial, &deleg, form, moment, words,
    ) {
        Ok(token) => Ok(token),
        Err(_) => Err(InitiateRefusal::Memory),
    }
}

// The first token with this delegation.
fn summed_token(
    alloc: Global,
    client: &Client,
    credential: &Credential,
    initial: InitialChecksum,
    deleg: &[u8],
    form: TokenForm,
    moment: Moment,
    words: &[u8],
) -> Result<Vec<u8>, AllocError>
    requires fits { length deleg.now < 65536 }
    requires enough { 96 ≤ length words.now }
    ensures { IfOk result (λ token. SendsWith client.now credential.now (delegating_checksum initial deleg.now) (is_mutual initial.flags) form moment words.now token.items) }
{
    let checksum = delegating_checksum(alloc, initial, deleg)?;
    let wants_reply = initial.flags.is_set(MUTUAL);
    token_with(
        alloc,
        client,
        credential,
        checksum,
        wants_reply,
        form,
        moment,
        words,
    )
}

// The first token whose authenticator has this checksum.
fn token_with(
    alloc: Global,
    client: &Client,
    credential: &Credential,
    checksum: Checksum,
    wants_reply: bool,
    form: TokenForm,
    moment: Moment,
    words: &[u8],
) -> Result<Vec<u8>, AllocError>
    requires { 96 ≤ length words.now }
    ensures { IfOk result (λ token. SendsWith client.now credential.now checksum wants_reply form moment words.now token.items) }
{
    let request = context_request(
        alloc,
        client,
        credential,
        checksum,
        wants_reply,
        moment,
        words,
    )?;
    token_of(alloc, form, &request)
}

// The token with this AP-REQ.
fn token_of(alloc: Global, form: TokenForm, request: &[u8]) -> Result<Vec<u8>, AllocError>
    ensures { IfOk result (λ token. token.items ≡ first_token form request.now) }
{
    let token = ap_req_token(alloc, request)?;
    match form {
        TokenForm::Bare => Ok(token),
        TokenForm::Negotiated => neg_init_token(alloc, token),
    }
}

// The token of Kerberos.
fn ap_req_token(alloc: Global, request: &[u8]) -> Result<Vec<u8>, AllocError>
    ensures { IfOk result (λ token. token.items ≡ ap_req_token request.now) }
{
    let content = joined(alloc, &AP_REQ_FRONT, request)?;
    element_of::<INITIAL_TOKEN>(alloc, content)
}

// The token of SPNEGO with this one of Kerberos.
#[tactic(auto, unfolding(crate::specs::FirstTokens::neg_init_token))]
fn neg_init_token(alloc: Global, token: Vec<u8>) -> Result<Vec<u8>, AllocError>
    ensures { IfOk result (λ bytes. bytes.items ≡ neg_init_token token.items) }
{
    let message = neg_init(alloc, token)?;
    encoding_of(alloc, ApplicationTag0(message))
}

// The first message of SPNEGO.
fn neg_init(alloc: Global, token: Vec<u8>) -> Result<GssApiNegInit, AllocError>
    ensures { IfOk result (λ message. message ≡ neg_init token.items) }
{
    let (oid, list) = both(x509_oids::spnego(alloc), mechanisms(alloc))?;
    Ok(GssApiNegInit {
        oid: ObjectIdentifierAsn1(oid),
        neg_token_init: ExplicitContextTag(NegTokenInit {
            mech_types: Optional(Some(ExplicitContextTag(list))),
            req_flags: Optional(None),
            mech_token: Optional(Some(ExplicitContextTag(OctetStringAsn1::from(token)))),
            mech_list_mic: Optional(None),
        }),
    })
}

// The list of mechanisms.
fn mechanisms(alloc: Global) -> Result<MechTypeList, AllocError>
    ensures { IfOk result (λ list. list ≡ mechanisms) }
{
    let kerberos = x509_oids::krb5(alloc)?;
    let list = vec![in alloc; ObjectIdentifierAsn1(kerberos)]?;
    Ok(MechTypeList::from(list))
}

// The token with how the context stands.
fn sent(
    alloc: Global,
    token: Vec<u8>,
    credential: &Credential,
    flags: ContextFlags,
    form: TokenForm,
    moment: Moment,
    words: &[u8],
) -> Result<Initiated, InitiateRefusal>
    requires { 96 ≤ length words.now }
    ensures { IsSent token.items (progress_of (pending_of credential.now flags form moment words.now)) result }
{
    match progressed(alloc, credential, flags, form, moment, words) {
        Ok(progress) => Ok(Initiated { token, progress }),
        Err(refusal) => {
            drop(token);
            Err(refusal)
        }
    }
}

// How the context stands.
fn progressed(
    alloc: Global,
    credential: &Credential,
    flags: ContextFlags,
    form: TokenForm,
    moment: Moment,
    words: &[u8],
) -> Result<Progress, InitiateRefusal>
    requires { 96 ≤ length words.now }
    ensures { IsProgress (progress_of (pending_of credential.now flags form moment words.now)) result }
{
    match pending_of(alloc, credential, flags, form, moment, words) {
        Ok(pending) => progress_of(pending),
        Err(_) => Err(InitiateRefusal::Memory),
    }
}

// What the initiator remembers.
fn pending_of(
    alloc: Global,
    credential: &Credential,
    flags: ContextFlags,
    form: TokenForm,
    moment: Moment,
    words: &[u8],
) -> Result<Pending, AllocError>
    requires { 96 ≤ length words.now }
    ensures { IfOk result (λ pending. pending ≡ pending_of credential.now flags form moment words.now) }
{
    let key = subkey(alloc, credential.suite(), words)?;
    Ok(Pending {
        asked: ApAsked::new(credential.key().copied(), moment, None),
        key,
        number: nonce_of(words),
        is_mutual: flags.is_set(MUTUAL),
        in_sequence: flags.is_set(SEQUENCE),
        form,
    })
}

// The subkey of the random bytes. It has its suite's length, so memory is the only refusal.
fn subkey(alloc: Global, suite: CipherSuite, words: &[u8]) -> Result<Key, AllocError>
    requires { 96 ≤ length words.now }
    ensures { IfOk result (λ key. key ≡ record { suite = suite; bytes = own_subkey suite words.now }) }
{
    let octets = key_at(alloc, suite, words, SUBKEY_SEED)?;
    match Key::new(suite, octets.as_bytes()) {
        Ok(key) => Ok(key),
        Err(_) => Err(AllocError),
    }
}

// How the context of what is remembered stands.
fn progress_of(pending: Pending) -> Result<Progress, InitiateRefusal>
    ensures { result ≡ progress_of pending }
{
    if pending.waits() {
        return Ok(Progress::ContinueNeeded(pending));
    }
    let context = pending.own_context();
    drop(pending);
    match context {
        Ok(context) => Ok(Progress::Established(context)),
        Err(refusal) => Err(refusal),
    }
}

impl Pending {
    // Whether the acceptor has to answer.
    fn waits(&self) -> bool
        ensures { result ≡ waits self.now self.now.form }
    {
        match self.form {
            TokenForm::Bare => self.is_mutual,
            TokenForm::Negotiated => true,
        }
    }
}
