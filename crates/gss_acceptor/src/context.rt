//! The context of an admission: its numbers and its key.
ghost use Rattle.std.specs.Prelude.{◌≡◌, ◌≤◌, ◌+◌, ◌*◌, length, IsTrue, is_some};
ghost use Rattle.krb_time.specs.Skew.{IsWithinDay};
ghost use Rattle.asn1_leaves.specs.GeneralizedTime.{seconds_of};
ghost use Rattle.gss_contexts.specs.Contexts.{is_newer};
ghost use Rattle.krb_service.specs.ApReply.{reply_subkey};
ghost use Rattle.gss_acceptor.specs.Accepting.{context_under, then_judged};
ghost use Rattle.gss_acceptor.specs.Contexts.{context_in, context_key, end_terms, first_number, number_of, own_key, sending_number, sends_subkey};

use crate::checksum::ContextFlags;
use crate::context_flags::SEQUENCE;
use crate::refusal::AcceptRefusal;
use crate::terms::AcceptorTerms;
use gss_contexts::{Context, ContextTerms, SequenceNumbers, Side};
use krb_crypto::{CipherSuite, Key};
use krb_messages::data_types::EncryptionKey;
use krb_messages::random_bytes::SUBKEY_SEED;
use krb_service::{Admission, reply_number};
use krb_tickets::{key_of, suite_of};
use krb_time::Moment;
use picky_asn1::date::GeneralizedTime;
use picky_asn1::wrapper::IntegerAsn1;

/// The number of the initiator's first token.
pub(crate) fn first_number(number: &Option<IntegerAsn1>) -> Result<u64, AcceptRefusal>
    ensures { result ≡ first_number number.now }
{
    let Some(number) = number else {
        return Ok(0);
    };
    match number_of(number) {
        Some(number) => Ok(u64::from(number)),
        None => Err(AcceptRefusal::BadSequenceNumber),
    }
}

/// The number of 32 bits, also where it was written as a negative one.
pub fn number_of(number: &IntegerAsn1) -> Option<u32>
    ensures { result ≡ number_of number.now }
{
    let value = number.to_i64()?;
    if let Ok(number) = u32::try_from(value) {
        return Some(number);
    }
    match i32::try_from(value) {
        Ok(signed) => Some(signed.cast_unsigned()),
        Err(_) => None,
    }
}

// The key that the client chose: the initiator's subkey if it has one, or else the session key.
fn context_key(
    subkey: &Option<EncryptionKey>,
    session: &EncryptionKey,
) -> Result<Key, AcceptRefusal>
    ensures { result ≡ context_key subkey.now session.now }
{
    let key = match subkey {
        Some(subkey) => key_of(subkey),
        None => key_of(session),
    };
    match key {
        Some(key) => Ok(key),
        None => Err(AcceptRefusal::UnknownKey),
    }
}

// The acceptor's subkey, of this suite.
#[tactic(auto, using(crate::proofs::Subkeys::key_small))]
fn subkey(suite: CipherSuite, words: &[u8]) -> Key
    requires newer { IsTrue (is_newer suite) }
    requires enough { 64 ≤ length words.now }
    ensures { result ≡ record { suite = suite; bytes = reply_subkey suite words.now } }
{
    let seed = &words[SUBKEY_SEED..SUBKEY_SEED + suite.key_size()];
    Key::new(suite, seed).unwrap()
}

// Whether the AP-REP has a subkey.
fn sends_subkey(terms: &AcceptorTerms, admission: &Admission) -> bool
    ensures { result ≡ sends_subkey terms.now admission.now }
{
    admission.reply.is_some() && terms.with_subkey
}

// The number of the acceptor's first token.
fn sending_number(has_subkey: bool, has_reply: bool, words: &[u8], number: u64) -> u64
    requires { 64 ≤ length words.now }
    ensures { result ≡ sending_number has_subkey has_reply words.now number }
{
    if has_subkey {
        return u64::from(reply_number(words));
    }
    if has_reply { 0 } else { number }
}

// The last microsecond at which a context of this ticket isn't over.
fn end_of(endtime: GeneralizedTime, skew: u64) -> u64
    requires { IsWithinDay skew }
    ensures { result ≡ seconds_of endtime * 1000000 + skew }
{
    Moment::at(endtime, 0).micros() + skew
}

/// What the acceptor's end goes by. `words`: random bytes, of which the first 64 count.
pub(crate) fn end_terms(
    terms: &AcceptorTerms,
    skew: u64,
    words: &[u8],
    admission: &Admission,
    flags: ContextFlags,
    number: u64,
) -> ContextTerms
    requires skew { IsWithinDay skew }
    requires enough { 64 ≤ length words.now }
    ensures { result ≡ end_terms terms.now skew words.now admission.now flags number }
{
    let has_subkey = sends_subkey(terms, admission);
    let sending = sending_number(has_subkey, admission.reply.is_some(), words, number);
    ContextTerms {
        acceptor_subkey: has_subkey,
        in_sequence: flags.is_set(SEQUENCE),
        ends: Some(end_of(admission.endtime, skew)),
        numbers: SequenceNumbers {
            sending,
            taking: number,
        },
    }
}

// The acceptor's end under this key.
fn context_in(key: Key, terms: ContextTerms) -> Result<Context, AcceptRefusal>
    ensures { result ≡ context_in key terms }
{
    match Context::new(key, Side::Acceptor, terms) {
        Ok(context) => Ok(context),
        Err(_) => Err(AcceptRefusal::OldSuite),
    }
}

// The acceptor's end under its own subkey.
fn own_context(
    session: &EncryptionKey,
    words: &[u8],
    terms: ContextTerms,
) -> Result<Context, AcceptRefusal>
    requires { 64 ≤ length words.now }
    ensures { result ≡ then_judged (own_key session.now words.now) (λ key. context_in key terms) }
{
    let Some(suite) = suite_of(session) else {
        return Err(AcceptRefusal::UnknownKey);
    };
    if suite == CipherSuite::Des3CbcSha1Kd {
        return Err(AcceptRefusal::OldSuite);
    }
    context_in(subkey(suite, words), terms)
}

/// The acceptor's end: under its subkey if the AP-REP has one, or else under the key that the client chose.
pub(crate) fn context_under(
    words: &[u8],
    admission: &Admission,
    terms: ContextTerms,
) -> Result<Context, AcceptRefusal>
    requires { 64 ≤ length words.now }
    ensures { result ≡ context_under words.now admission.now terms }
{
    if terms.acceptor_subkey {
        return own_context(&admission.session, words, terms);
    }
    match context_key(&admission.subkey, &admission.session) {
        Ok(key) => context_in(key, terms),
        Err(refusal) => Err(refusal),
    }
}
