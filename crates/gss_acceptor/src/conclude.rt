//! The end of a negotiation, with the exchange of MICs where it is due (RFC 4178, section 5).
ghost use Rattle.std.specs.Prelude.{◌≡◌, IfErr, IfOk};
ghost use Rattle.std.specs.Option.{option_map};
ghost use Rattle.gss_acceptor.specs.Concluding.{Demands, ExchangesMics, IsConcluded, IsConcludedWithout, IsGiven, IsMicAnswered, IsNoExchange, IsVerified, asking, awaiting, completed, waiting};

use crate::accepted::{Accepted, Continuation, Negotiation, Stage};
use crate::answer::{NegState, neg_token_resp};
use crate::established::Established;
use crate::exchange::{Exchange, Terms, Unverified};
use crate::mechanism::Mechanism;
use crate::refusal::AcceptRefusal;
use gss_contexts::{Context, TokenRefusal};
use picky_asn1::wrapper::OctetStringAsn1;
use std::alloc::Global;

/// Asks the initiator for the first token of Kerberos.
pub(crate) fn ask(
    alloc: Global,
    mechanism: Mechanism,
    terms: Terms,
) -> Result<Accepted, AcceptRefusal>
    ensures { IsGiven (asking mechanism terms) result }
{
    let state = if terms.required {
        NegState::RequestMic
    } else {
        NegState::AcceptIncomplete
    };
    match neg_token_resp(alloc, state, Some(mechanism), None, None) {
        Ok(reply) => Ok(continued(reply, Stage::Token(terms))),
        Err(_) => {
            drop(terms);
            Err(AcceptRefusal::Memory)
        }
    }
}

// A further token is due.
fn continued(reply: Vec<u8>, stage: Stage) -> Accepted
    ensures { result ≡ waiting reply.items stage }
{
    let negotiation = Negotiation { stage };
    Accepted::ContinueNeeded(Continuation { reply, negotiation })
}

/// Answers the initiator of a context whose token came in a message of SPNEGO, and takes its MIC, if there is one.
pub(crate) fn conclude(
    alloc: Global,
    established: Established,
    exchange: Exchange,
) -> Result<Accepted, AcceptRefusal>
    ensures { IsConcluded exchange established result }
{
    let Exchange {
        supported,
        terms,
        mic,
    } = exchange;
    match mic {
        Some(mic) => {
            let (list, mic) = (terms.list, mic);
            let concluded = exchange_mics(
                alloc,
                established,
                supported,
                list.as_bytes(),
                mic.as_bytes(),
            );
            drop(list);
            drop(mic);
            concluded
        }
        None => conclude_without(alloc, established, supported, terms),
    }
}

// Takes the initiator's MIC, and answers it by the acceptor's.
fn exchange_mics(
    alloc: Global,
    mut established: Established,
    supported: Option<Mechanism>,
    list: &[u8],
    mic: &[u8],
) -> Result<Accepted, AcceptRefusal>
    ensures { IsMicAnswered established supported list.now mic.now result }
{
    match mic_for_mic(alloc, &mut established.context, list, mic) {
        Ok(own) => complete(alloc, established, supported, Some(own)),
        Err(cause) => {
            drop(established);
            Err(AcceptRefusal::Mic(cause))
        }
    }
}

/// Takes the peer's MIC of the list of mechanisms, and makes this end's (RFC 4178, section 5).
pub fn mic_for_mic(
    alloc: Global,
    context: &mut Context,
    list: &[u8],
    mic: &[u8],
) -> Result<Vec<u8>, TokenRefusal>
    ensures made { IfOk result (λ own. ExchangesMics context.old context.new list.now mic.now own.items) }
    ensures refused { IfErr result (IsNoExchange context.old list.now mic.now) }
{
    context.verify_mic(alloc, list, mic)?;
    context.get_mic(alloc, list)
}

// Answers the initiator, whose MIC didn't come.
fn conclude_without(
    alloc: Global,
    established: Established,
    supported: Option<Mechanism>,
    terms: Terms,
) -> Result<Accepted, AcceptRefusal>
    ensures { IsConcludedWithout established supported terms result }
{
    let Terms { list, required } = terms;
    if !required {
        drop(list);
        return complete(alloc, established, supported, None);
    }
    if established.reply.is_none() {
        drop(list);
        drop(established);
        return Err(AcceptRefusal::NoMic);
    }
    demand(alloc, established, supported, list)
}

// Sends the acceptor's MIC with its last token, so that the initiator's is due.
fn demand(
    alloc: Global,
    mut established: Established,
    supported: Option<Mechanism>,
    list: OctetStringAsn1,
) -> Result<Accepted, AcceptRefusal>
    ensures { Demands established supported list result }
{
    match established.context.get_mic(alloc, list.as_bytes()) {
        Ok(mic) => await_mic(alloc, established, supported, list, mic),
        Err(cause) => {
            drop(established);
            drop(list);
            Err(AcceptRefusal::Mic(cause))
        }
    }
}

// Answers with the acceptor's MIC, and waits for the initiator's.
fn await_mic(
    alloc: Global,
    mut established: Established,
    supported: Option<Mechanism>,
    list: OctetStringAsn1,
    mic: Vec<u8>,
) -> Result<Accepted, AcceptRefusal>
    ensures { IsGiven (awaiting established supported list mic.items) result }
{
    let token = established.reply.take();
    match neg_token_resp(
        alloc,
        NegState::AcceptIncomplete,
        supported,
        token,
        Some(mic),
    ) {
        Ok(reply) => Ok(continued(reply, Stage::Mic(Unverified { established, list }))),
        Err(_) => {
            drop(established);
            drop(list);
            Err(AcceptRefusal::Memory)
        }
    }
}

// Hands the context out with the answer that completes the negotiation.
fn complete(
    alloc: Global,
    mut established: Established,
    supported: Option<Mechanism>,
    mic: Option<Vec<u8>>,
) -> Result<Accepted, AcceptRefusal>
    ensures { IsGiven (completed established supported (option_map (λ v. v.items) mic)) result }
{
    let token = established.reply.take();
    match neg_token_resp(alloc, NegState::AcceptCompleted, supported, token, mic) {
        Ok(reply) => {
            established.reply = Some(reply);
            Ok(Accepted::Established(established))
        }
        Err(_) => {
            drop(established);
            Err(AcceptRefusal::Memory)
        }
    }
}

/// Hands out the context whose initiator's MIC is due, if this is it. Nothing is answered.
pub(crate) fn verify(
    alloc: Global,
    unverified: Unverified,
    mic: &[u8],
) -> Result<Accepted, AcceptRefusal>
    ensures { IsVerified unverified mic.now result }
{
    let Unverified {
        mut established,
        list,
    } = unverified;
    let verified = established.context.verify_mic(alloc, list.as_bytes(), mic);
    drop(list);
    match verified {
        Ok(()) => Ok(Accepted::Established(established)),
        Err(cause) => {
            drop(established);
            Err(AcceptRefusal::Mic(cause))
        }
    }
}
