//! The contexts of a stream, one after the other.

use crate::PROGRAM;
use crate::answer::{CONTEXT, CONTEXT_NEXT, NOOP, answer_of, is_set};
use crate::delegated::write_delegated;
use crate::frame::{Frame, read_frame, write_frame};
use crate::keytab_file::KeytabFile;
use crate::service_keys::ServiceKeys;
use crate::user::{Ticket, say_user};
use anyhow::{Context as _, bail};
use byte_streams::{Sink, Source, read_full};
use gss_acceptor::{Accepted, Acceptor, Continuation, Delegated, Established, Negotiation};
use gss_contexts::Context;
use krb_commands::PrintableName;
use krb_programs::say;
use krb_service::KeytabService;
use krb_time::{Moment, now};
use std::alloc::Global;
use std::time::Clock;

/// How many random octets each token of a login takes.
const WORDS: usize = 64;

/// The moments of a server.
#[derive(Clone, Copy)]
pub(crate) enum Time {
    /// The moments of the machine's clock.
    Now,
    /// One moment for all tokens.
    Fixed(Moment),
}

/// A service, and what it is given beside its stream.
#[derive(Drop)]
pub(crate) struct Server<K: Source + Drop> {
    /// The service, which remembers its logins.
    pub(crate) acceptor: Acceptor<KeytabService>,
    /// Its keytab.
    pub(crate) keytab: KeytabFile,
    /// Its keys, which verify PACs.
    pub(crate) keys: ServiceKeys,
    /// The random octets.
    pub(crate) words: K,
    /// The moments.
    pub(crate) time: Time,
    /// The path of the credential cache of what clients delegate, if it is kept.
    pub(crate) delegated: Option<String>,
}

impl<K: Source + Drop> Server<K> {
    // Takes the service's keys anew, if the keytab changed. One that can't be read, or has no key of the service, changes nothing.
    fn refresh(&mut self, rt: &HostRuntime) {
        let keytab = match self.keytab.read_if_changed(rt) {
            Ok(Some(keytab)) => keytab,
            Ok(None) => return,
            Err(stop) => {
                say(rt, PROGRAM, format_args!("{stop}: the keys stay"));
                return;
            }
        };
        let replaced = self.acceptor.replace_keys(rt.alloc(), &keytab);
        if let Err(refusal) = replaced {
            let path = self.keytab.path();
            say(
                rt,
                PROGRAM,
                format_args!("{path}: {refusal}: the keys stay"),
            );
        } else if self.keys.replace(rt.alloc(), &keytab).is_err() {
            say(rt, PROGRAM, "out of memory: the keys that verify PACs stay");
        }
        drop(keytab);
    }

    // Takes an initiator's first token.
    fn accept<C: Clock + AllocGlobal>(&mut self, rt: &C, token: &[u8]) -> anyhow::Result<Accepted> {
        let (moment, words) = self.moment_and_words(rt)?;
        match self.acceptor.accept(rt.alloc(), token, moment, &words) {
            Ok(accepted) => Ok(accepted),
            Err(refusal) => bail!("{refusal:?}: {refusal}"),
        }
    }

    // Takes the initiator's next token.
    fn resume<C: Clock + AllocGlobal>(
        &mut self,
        rt: &C,
        negotiation: Negotiation,
        token: &[u8],
    ) -> anyhow::Result<Accepted> {
        let (moment, words) = self.moment_and_words(rt)?;
        match self
            .acceptor
            .resume(rt.alloc(), negotiation, token, moment, &words)
        {
            Ok(accepted) => Ok(accepted),
            Err(refusal) => bail!("{refusal:?}: {refusal}"),
        }
    }

    // What the acceptor is given beside a token.
    fn moment_and_words<C: Clock>(&mut self, rt: &C) -> anyhow::Result<(Moment, [u8; WORDS])> {
        let moment = moment_at(rt, self.time).context("NoMoment")?;
        let mut words = [0; WORDS];
        match read_full(&mut self.words, &mut words) {
            Ok(count) if count == WORDS => Ok((moment, words)),
            _ => bail!("NoWords"),
        }
    }
}

// The moment now, or none where the clock fails.
fn moment_at<C: Clock>(clock: &C, time: Time) -> Option<Moment> {
    match time {
        Time::Now => now(clock),
        Time::Fixed(moment) => Some(moment),
    }
}

/// Serves the contexts of a stream, up to its end or the first refusal. A stream has to have a login.
pub(crate) fn serve<K: Source + Drop, R: Source, W: Sink>(
    rt: &HostRuntime,
    server: &mut Server<K>,
    reader: &mut R,
    writer: &mut W,
) -> anyhow::Result<()> {
    for served in 0..u64::MAX {
        match read_frame(rt.alloc(), reader)? {
            Some(frame) if frame.flags == NOOP | CONTEXT_NEXT => {
                serve_context(rt, server, reader, writer)?;
            }
            Some(_) => bail!("NoContext: a message without a login"),
            None if served == 0 => bail!("NoContext: a stream without a login"),
            None => break,
        }
    }
    Ok(())
}

// Establishes a context, and answers its messages.
fn serve_context<K: Source + Drop, R: Source, W: Sink>(
    rt: &HostRuntime,
    server: &mut Server<K>,
    reader: &mut R,
    writer: &mut W,
) -> anyhow::Result<()> {
    let mut context = establish(rt, server, reader, writer)?;
    let served = serve_messages(rt.alloc(), &mut context, reader, writer);
    drop(context);
    served
}

// Takes an initiator's tokens, up to the one that establishes a context.
fn establish<K: Source + Drop, R: Source, W: Sink>(
    rt: &HostRuntime,
    server: &mut Server<K>,
    reader: &mut R,
    writer: &mut W,
) -> anyhow::Result<Context> {
    let token = context_token(rt.alloc(), reader)?;
    server.refresh(rt);
    let mut accepted = server.accept(rt, &token)?;
    for _ in 0..u64::MAX {
        accepted = match accepted {
            Accepted::Established(established) => {
                return begin(rt, server, writer, established);
            }
            Accepted::ContinueNeeded(continuation) => {
                go_on(rt, server, reader, writer, continuation)?
            }
        };
    }
    bail!("NoContext: a login without an end")
}

// Sends the answer, and takes the token that it asks for.
fn go_on<K: Source + Drop, R: Source, W: Sink>(
    rt: &HostRuntime,
    server: &mut Server<K>,
    reader: &mut R,
    writer: &mut W,
    continuation: Continuation,
) -> anyhow::Result<Accepted> {
    let Continuation { reply, negotiation } = continuation;
    send(rt.alloc(), writer, CONTEXT, reply)?;
    let token = context_token(rt.alloc(), reader)?;
    server.resume(rt, negotiation, &token)
}

// The next token of a context's establishment.
fn context_token<R: Source>(alloc: Global, reader: &mut R) -> anyhow::Result<Vec<u8>> {
    match read_frame(alloc, reader)? {
        Some(frame) if is_set(frame.flags, CONTEXT) => Ok(frame.token),
        _ => bail!("NoContext: no token of a login"),
    }
}

// Sends the reply, if there is one, and says who logged in, with the user and the groups of a verified PAC. Keeps what the client delegates,
// if that is asked for.
fn begin<K: Source + Drop, W: Sink>(
    rt: &HostRuntime,
    server: &Server<K>,
    writer: &mut W,
    established: Established,
) -> anyhow::Result<Context> {
    let Established {
        client,
        realm,
        authtime,
        authorization_data,
        delegated,
        context,
        reply,
        ..
    } = established;
    let keys = server.keys.as_slice();
    if let Some(reply) = reply {
        send(rt.alloc(), writer, CONTEXT, reply)?;
    }
    let name = PrintableName {
        components: client.name_string.0.as_slice(),
        realm: &realm,
    };
    // The login stands where standard error takes nothing.
    let _ = eprintln!(rt; "{name} logged in");
    if let Some(elements) = &authorization_data {
        let ticket = Ticket {
            client: &client,
            authtime,
            elements: elements.as_slice(),
        };
        say_user(rt, keys, &ticket);
    }
    if let Some(delegated) = &delegated {
        keep(rt, &server.delegated, delegated);
    }
    Ok(context)
}

// Writes what a client delegates to the credential cache, if there is one. The login stands where that fails.
fn keep(rt: &HostRuntime, path: &Option<String>, delegated: &Delegated) {
    let Some(path) = path else {
        return;
    };
    match write_delegated(rt, path.as_str(), delegated) {
        Ok(()) => say(
            rt,
            PROGRAM,
            format_args!("{path}: has what the client delegates"),
        ),
        Err(stop) => say(rt, PROGRAM, format_args!("{stop}")),
    }
}

// Answers the messages of a context, up to the frame that ends it.
fn serve_messages<R: Source, W: Sink>(
    alloc: Global,
    context: &mut Context,
    reader: &mut R,
    writer: &mut W,
) -> anyhow::Result<()> {
    for _ in 0..u64::MAX {
        match read_frame(alloc, reader)? {
            Some(frame) if !is_set(frame.flags, NOOP) => {
                answer(alloc, context, &frame, writer)?;
            }
            _ => break,
        }
    }
    Ok(())
}

// Answers a message.
fn answer<W: Sink>(
    alloc: Global,
    context: &mut Context,
    frame: &Frame,
    writer: &mut W,
) -> anyhow::Result<()> {
    match answer_of(alloc, context, frame) {
        Ok(answer) => Ok(write_frame(alloc, writer, &answer)?),
        Err(refusal) => bail!("{refusal:?}: {refusal}"),
    }
}

// Sends a token.
fn send<W: Sink>(alloc: Global, writer: &mut W, flags: u8, token: Vec<u8>) -> anyhow::Result<()> {
    let frame = Frame { flags, token };
    Ok(write_frame(alloc, writer, &frame)?)
}
