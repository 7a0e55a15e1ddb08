//! First tokens of SPNEGO (RFC 4178, section 4.2.1).
ghost use Rattle.std.specs.Prelude.{◌≡◌, IfOk};
ghost use Rattle.gss_acceptor.specs.Mechanisms.{is_first, kerberos_among};
ghost use Rattle.gss_acceptor.specs.Negotiation.{IsRead, is_spnego, mech_types_octets, offer_among, offer_in, offer_of, offered, optimistic};

use crate::elements::octets_in;
use crate::exchange::{Terms, Tokens};
use crate::mechanism::{Mechanism, is_first, kerberos_among};
use crate::refusal::AcceptRefusal;
use gss_contexts::{ApplicationTag0, GssApiNegInit, MechTypeList, NegTokenInit};
use picky_asn1::wrapper::{ObjectIdentifierAsn1, OctetStringAsn1};
use picky_asn1_der::{encoding_of, read_whole};
use std::alloc::{AllocError, Global};

/// The content octets of 1.3.6.1.5.5.2.
const SPNEGO: [u8; 6] = [0x2b, 0x06, 0x01, 0x05, 0x05, 0x02];

/// Kerberos as one of the mechanisms of a list.
#[derive(Drop)]
pub(crate) struct Offer {
    /// Kerberos, by the first of its identifiers in the list.
    pub(crate) mechanism: Mechanism,
    pub(crate) terms: Terms,
    /// The tokens of Kerberos, which come only if it is the first mechanism.
    pub(crate) tokens: Tokens,
}

/// The offer of a first token of SPNEGO (RFC 4178, section 4.2.1).
pub(crate) fn read_offer(alloc: Global, token: &[u8]) -> Result<Offer, AcceptRefusal>
    ensures { IsRead (offered token.now).gives result }
{
    let read: Option<ApplicationTag0<GssApiNegInit>> = read_whole(alloc, token)?;
    match read {
        Some(message) => offer_in(alloc, message.0),
        None => Err(AcceptRefusal::NotAToken),
    }
}

// Reads the offer of a message.
fn offer_in(alloc: Global, message: GssApiNegInit) -> Result<Offer, AcceptRefusal>
    ensures { IsRead (λ r. r ≡ offer_in message) result }
{
    let GssApiNegInit {
        oid,
        neg_token_init,
    } = message;
    if !is_spnego(&oid) {
        return Err(AcceptRefusal::NotAToken);
    }
    offer_of(alloc, neg_token_init.0)
}

// Kerberos as one of the mechanisms, and its tokens.
fn offer_of(alloc: Global, mut init: NegTokenInit) -> Result<Offer, AcceptRefusal>
    ensures { IsRead (λ r. r ≡ offer_of init) result }
{
    let list = init.mech_types.0.take();
    let mechanism = octets_in(init.mech_token.0.take());
    let mic = octets_in(init.mech_list_mic.0.take());
    drop(init);
    let tokens = Tokens { mechanism, mic };
    match list {
        Some(list) => offer_among(alloc, list.0, tokens),
        None => {
            drop(tokens);
            Err(AcceptRefusal::NoKerberos)
        }
    }
}

// Kerberos as one of these mechanisms, and its tokens.
fn offer_among(alloc: Global, list: MechTypeList, tokens: Tokens) -> Result<Offer, AcceptRefusal>
    ensures { IsRead (λ r. r ≡ offer_among list tokens) result }
{
    let Some(mechanism) = kerberos_among(list.as_slice()) else {
        drop(list);
        drop(tokens);
        return Err(AcceptRefusal::NoKerberos);
    };
    let is_first = is_first(list.as_slice());
    let tokens = optimistic(is_first, tokens);
    match octets_of(alloc, list) {
        Ok(list) => Ok(Offer {
            mechanism,
            terms: Terms {
                list,
                required: !is_first,
            },
            tokens,
        }),
        Err(_) => {
            drop(tokens);
            Err(AcceptRefusal::Memory)
        }
    }
}

// The tokens, which are those of the first mechanism: of another one they don't count (RFC 4178, section 4.2.1).
fn optimistic(is_first: bool, tokens: Tokens) -> Tokens
    ensures { result ≡ optimistic is_first tokens }
{
    if is_first {
        return tokens;
    }
    drop(tokens);
    Tokens {
        mechanism: None,
        mic: None,
    }
}

// The DER encoding of the list.
fn octets_of(alloc: Global, list: MechTypeList) -> Result<OctetStringAsn1, AllocError>
    ensures { IfOk result (λ octets. octets ≡ mech_types_octets list) }
{
    let octets = encoding_of(alloc, list)?;
    Ok(OctetStringAsn1::from(octets))
}

// Whether the identifier is SPNEGO's.
fn is_spnego(identifier: &ObjectIdentifierAsn1) -> bool
    ensures { result ≡ is_spnego identifier.now }
{
    identifier.0.as_bytes() == SPNEGO.as_slice()
}
