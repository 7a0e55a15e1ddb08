//! The tokens of a context.
ghost use Rattle.std.specs.Prelude.{◌≤◌, length};

use crate::arguments::{Asked, Choice};
use crate::party::Party;
use gss_acceptor::context_flags::{CONFIDENTIALITY, INTEGRITY, MUTUAL, REPLAY, SEQUENCE};
use gss_acceptor::{ContextFlags, InitialChecksum};
use gss_contexts::{Context, TokenRefusal};
use gss_initiator::{
    InitiateRefusal, Initiated, Pending, RefusedAnswer, Taken, initiate, initiate_delegating,
};
use krb_commands::{RandomFile, Stop, moment_or_now, refused};
use krb_time::Moment;
use std::alloc::Global;

/// The first token of a context with the service.
pub(crate) fn first_token(
    rt: &HostRuntime,
    asked: &Asked<'_>,
    party: &Party,
    random: &RandomFile<'_>,
) -> Result<Initiated, Stop> {
    let moment = moment_or_now(rt, asked.settings.moment)?;
    let words = random.take_words(rt.alloc(), "token")?;
    match initiated(rt.alloc(), asked, party, moment, &words) {
        Ok(initiated) => Ok(initiated),
        Err(refusal) => Err(stop_of_login(rt.alloc(), asked.service.argument, refusal)),
    }
}

// Asks for the context, and delegates the party's forwarded ticket, if it has one.
fn initiated(
    alloc: Global,
    asked: &Asked<'_>,
    party: &Party,
    moment: Moment,
    words: &[u8],
) -> Result<Initiated, InitiateRefusal>
    requires { 96 ≤ length words.now }
{
    let Party {
        client,
        credential,
        forwarded,
    } = party;
    let choice = &asked.settings.choice;
    let (initial, form) = (initial_of(choice), choice.form);
    match forwarded {
        Some(forwarded) => initiate_delegating(
            alloc, client, credential, forwarded, initial, form, moment, words,
        ),
        None => initiate(alloc, client, credential, initial, form, moment, words),
    }
}

// The channel bindings and flags of a context.
fn initial_of(choice: &Choice) -> InitialChecksum {
    let always = REPLAY | SEQUENCE | CONFIDENTIALITY | INTEGRITY;
    let flags = if choice.is_mutual {
        always | MUTUAL
    } else {
        always
    };
    InitialChecksum {
        bindings: choice.bindings,
        flags: ContextFlags(flags),
    }
}

/// The context that the service's answer establishes.
pub(crate) fn take_answer(
    alloc: Global,
    asked: &Asked<'_>,
    pending: Pending,
    answer: &[u8],
) -> Result<Taken, Stop> {
    match pending.take(alloc, answer) {
        Ok(taken) => Ok(taken),
        Err(refused) => {
            let RefusedAnswer { refusal, pending } = refused;
            drop(pending);
            Err(stop_of_login(alloc, asked.service.argument, refusal))
        }
    }
}

/// Says on standard error that the context is established.
pub(crate) fn say_established(rt: &HostRuntime, asked: &Asked<'_>) {
    let service = asked.service.argument;
    // The context stands where standard error takes nothing.
    let _ = if asked.settings.choice.is_mutual {
        eprintln!(rt; "context established: {service} has authenticated itself")
    } else {
        eprintln!(rt; "context established: {service} has not authenticated itself yet")
    };
}

/// The token of a message: wrapped as the settings say, or the message itself.
pub(crate) fn message_token(
    alloc: Global,
    asked: &Asked<'_>,
    random: &RandomFile<'_>,
    context: &mut Context,
    message: &str,
) -> Result<Vec<u8>, Stop> {
    let Some(protection) = asked.settings.choice.protection else {
        return Ok(Vec::from_slice(alloc, message.as_bytes())?);
    };
    let words = random.take_words(alloc, "token")?;
    match context.wrap(alloc, message.as_bytes(), protection, &words) {
        Ok(token) => Ok(token),
        Err(refusal) => Err(stop_of_message(alloc, "a message can't be wrapped", refusal)),
    }
}

/// Verifies the service's MIC of a message, and says on standard error that it is right.
pub(crate) fn verify(
    rt: &HostRuntime,
    context: &mut Context,
    message: &str,
    mic: &[u8],
) -> Result<(), Stop> {
    match context.verify_mic(rt.alloc(), message.as_bytes(), mic) {
        Ok(()) => {
            // The MIC is right where standard error takes nothing.
            let _ = eprintln!(rt;
                "the service's MIC of a message of {} octets is right",
                message.len()
            );
            Ok(())
        }
        Err(refusal) => Err(stop_of_message(rt.alloc(), "the service's MIC of a message", refusal)),
    }
}

fn stop_of_login(alloc: Global, service: &str, refusal: InitiateRefusal) -> Stop {
    match refusal {
        InitiateRefusal::Memory => Stop::Memory,
        refusal => refused(alloc, format_args!("{service}: {refusal}")),
    }
}

fn stop_of_message(alloc: Global, subject: &str, refusal: TokenRefusal) -> Stop {
    match refusal {
        TokenRefusal::Memory => Stop::Memory,
        refusal => refused(alloc, format_args!("{subject}: {refusal}")),
    }
}
