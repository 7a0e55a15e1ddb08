//! The initiator's tokens of SPNEGO after the first (RFC 4178, section 4.2.2).
ghost use Rattle.std.specs.Prelude.{◌≡◌};
ghost use Rattle.gss_acceptor.specs.Negotiation.{IsRead};
ghost use Rattle.gss_acceptor.specs.Responses.{responded, tokens_in};

use crate::elements::octets_in;
use crate::exchange::Tokens;
use crate::refusal::AcceptRefusal;
use gss_contexts::{NegTokenTarg, NegTokenTarg1};
use picky_asn1_der::read_whole;
use std::alloc::Global;

/// The tokens of a message after the first.
pub(crate) fn read_response(alloc: Global, token: &[u8]) -> Result<Tokens, AcceptRefusal>
    ensures { IsRead (responded token.now).gives result }
{
    let read: Option<NegTokenTarg1> = read_whole(alloc, token)?;
    match read {
        Some(message) => tokens_in(message.0),
        None => Err(AcceptRefusal::NotAToken),
    }
}

// The tokens of the message, which names no mechanism: only the acceptor's first one does.
fn tokens_in(mut message: NegTokenTarg) -> Result<Tokens, AcceptRefusal>
    ensures { result ≡ tokens_in message }
{
    let names_mechanism = message.supported_mech.0.is_some();
    let mechanism = octets_in(message.response_token.0.take());
    let mic = octets_in(message.mech_list_mic.0.take());
    drop(message);
    if names_mechanism {
        return Err(AcceptRefusal::NotAToken);
    }
    Ok(Tokens { mechanism, mic })
}
