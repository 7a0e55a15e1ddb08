//! The initiator's end of a context.
ghost use Rattle.std.specs.Prelude.{◌≡◌};
ghost use Rattle.std.specs.Option.{option_map};
ghost use Rattle.gss_initiator.specs.Contexts.{acceptor_key, acceptor_number, context_by, context_in, context_key, own_context};

use crate::initiated::Pending;
use crate::refusal::InitiateRefusal;
use gss_acceptor::number_of;
use gss_contexts::{Context, ContextTerms, SequenceNumbers, Side};
use krb_crypto::Key;
use krb_messages::data_types::{EncApRepPartInner, EncryptionKey};
use krb_tickets::key_of;
use picky_asn1::wrapper::IntegerAsn1;
use picky_asn1_der::ExplicitContextTag;

/// The key that protects a context's tokens, and whether it is the acceptor's subkey.
#[derive(Drop)]
pub(crate) struct ContextKey {
    pub(crate) key: Key,
    pub(crate) is_acceptors: bool,
}

// An end with this key.
fn context_in(
    it: ContextKey,
    in_sequence: bool,
    numbers: SequenceNumbers,
) -> Result<Context, InitiateRefusal>
    ensures { result ≡ context_in it in_sequence numbers }
{
    let terms = ContextTerms {
        acceptor_subkey: it.is_acceptors,
        in_sequence,
        ends: None,
        numbers,
    };
    match Context::new(it.key, Side::Initiator, terms) {
        Ok(context) => Ok(context),
        Err(_) => Err(InitiateRefusal::OldSuite),
    }
}

// The acceptor's first sequence number.
fn acceptor_number(
    number: &Option<ExplicitContextTag<3, IntegerAsn1>>,
) -> Result<u64, InitiateRefusal>
    ensures { result ≡ acceptor_number (option_map (λ tagged. tagged.0) number.now) }
{
    let Some(number) = number else {
        return Ok(0);
    };
    match number_of(&number.0) {
        Some(number) => Ok(u64::from(number)),
        None => Err(InitiateRefusal::BadSequenceNumber),
    }
}

// The acceptor's subkey if there is one, or else the initiator's.
fn context_key(
    own: &Key,
    subkey: &Option<ExplicitContextTag<2, EncryptionKey>>,
) -> Result<ContextKey, InitiateRefusal>
    ensures { result ≡ context_key own.now (option_map (λ tagged. tagged.0) subkey.now) }
{
    match subkey {
        Some(subkey) => acceptor_key(key_of(&subkey.0)),
        None => Ok(ContextKey {
            key: own.copied(),
            is_acceptors: false,
        }),
    }
}

// The acceptor's subkey, if it is a key.
fn acceptor_key(subkey: Option<Key>) -> Result<ContextKey, InitiateRefusal>
    ensures { result ≡ acceptor_key subkey }
{
    match subkey {
        Some(key) => Ok(ContextKey {
            key,
            is_acceptors: true,
        }),
        None => Err(InitiateRefusal::UnknownKey),
    }
}

impl Pending {
    /// The end under the initiator's subkey, where there is no AP-REP.
    pub(crate) fn own_context(&self) -> Result<Context, InitiateRefusal>
        ensures { result ≡ own_context self.now }
    {
        let number = u64::from(self.number);
        let it = ContextKey {
            key: self.key.copied(),
            is_acceptors: false,
        };
        let numbers = SequenceNumbers {
            sending: number,
            taking: number,
        };
        context_in(it, self.in_sequence, numbers)
    }

    /// The end that the AP-REP's part makes.
    pub(crate) fn context_by(&self, part: &EncApRepPartInner) -> Result<Context, InitiateRefusal>
        ensures { result ≡ context_by self.now part.now }
    {
        let taking = acceptor_number(&part.seq_number.0)?;
        let it = context_key(&self.key, &part.subkey.0)?;
        let sending = u64::from(self.number);
        context_in(it, self.in_sequence, SequenceNumbers { sending, taking })
    }
}
