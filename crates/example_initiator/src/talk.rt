//! A context with a service of the sample protocol, and its messages.

use crate::arguments::Asked;
use crate::frames::{CONTEXT, CONTEXT_NEXT, DATA, ENCRYPTED, MIC, NOOP, Peer, SEND_MIC, WRAPPED};
use crate::party::Party;
use crate::tokens::{first_token, message_token, say_established, take_answer, verify};
use decision_tables::if_passed;
use gss_contexts::{Context, Protection};
use gss_initiator::{Initiated, Pending, Progress, Taken};
use krb_commands::{RandomFile, Stop};
use picky_asn1_der::both;

/// Establishes a context with the service, sends it the messages, and ends the context.
pub(crate) fn talk(
    rt: &HostRuntime,
    asked: &Asked<'_>,
    party: &Party,
    random: &RandomFile<'_>,
) -> Result<(), Stop> {
    let mut peer = Peer::open(rt)?;
    let mut context = establish(rt, asked, party, random, &mut peer)?;
    say_established(rt, asked);
    let sent = send_messages(rt, asked, random, &mut peer, &mut context);
    drop(context);
    sent
}

fn establish(
    rt: &HostRuntime,
    asked: &Asked<'_>,
    party: &Party,
    random: &RandomFile<'_>,
    peer: &mut Peer<'_>,
) -> Result<Context, Stop> {
    let Initiated { token, progress } = first_token(rt, asked, party, random)?;
    let sent = begin(peer, &token);
    drop(token);
    match if_passed(progress, sent)? {
        Progress::Established(context) => Ok(context),
        Progress::ContinueNeeded(pending) => conclude(rt, asked, peer, pending),
    }
}

// Sends the first token.
fn begin(peer: &mut Peer<'_>, token: &[u8]) -> Result<(), Stop> {
    peer.send(NOOP | CONTEXT_NEXT, &[])?;
    peer.send(CONTEXT, token)
}

// Takes the service's answer, and sends the last token, if one is due.
fn conclude(
    rt: &HostRuntime,
    asked: &Asked<'_>,
    peer: &mut Peer<'_>,
    pending: Pending,
) -> Result<Context, Stop> {
    let received = peer.receive(CONTEXT, "the service's token");
    let (pending, answer) = both(Ok(pending), received)?;
    let Taken { context, reply } = take_answer(rt.alloc(), asked, pending, &answer)?;
    let sent = match &reply {
        Some(reply) => peer.send(CONTEXT, reply),
        None => Ok(()),
    };
    drop(reply);
    if_passed(context, sent)
}

// Sends the messages, and the frame that ends the context.
fn send_messages(
    rt: &HostRuntime,
    asked: &Asked<'_>,
    random: &RandomFile<'_>,
    peer: &mut Peer<'_>,
    context: &mut Context,
) -> Result<(), Stop> {
    for message in &asked.messages {
        send_message(rt, asked, random, peer, context, *message)?;
    }
    peer.send(NOOP, &[])
}

// Sends a message, and verifies the service's MIC of it.
fn send_message(
    rt: &HostRuntime,
    asked: &Asked<'_>,
    random: &RandomFile<'_>,
    peer: &mut Peer<'_>,
    context: &mut Context,
    message: &str,
) -> Result<(), Stop> {
    let token = message_token(rt.alloc(), asked, random, context, message)?;
    peer.send(flags_of(asked.settings.choice.protection), &token)?;
    let mic = peer.receive(MIC, "the service's MIC of the message")?;
    verify(rt, context, message, &mic)
}

// The flags of a message's frame.
fn flags_of(protection: Option<Protection>) -> u8 {
    match protection {
        Some(Protection::Sealed) => DATA | WRAPPED | ENCRYPTED | SEND_MIC,
        Some(Protection::Checksum) => DATA | WRAPPED | SEND_MIC,
        None => DATA | SEND_MIC,
    }
}
