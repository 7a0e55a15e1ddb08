//! Lines of an acceptor: `acceptor EXPECTED SUITE SKEW FLAG | KEY BINDINGS`, and `accept EXPECTED MOMENT CLIENT FLAGS | TOKEN WORDS REPLY
//! BINDINGS` of a first token. A line `resume` is the same of the negotiation's next token, and `delegated EXPECTED | TICKETS INFOS` has what
//! the context's initiator delegated.

use super::call::{Call, suite_of};
use super::{Ends, is_named};
use anyhow::{Context, bail};
use byte_streams::array_at;
use gss_acceptor::{Accepted, Acceptor, AcceptorTerms, Continuation, Established};
use krb_crypto::CipherSuite;
use krb_service::Service;
use krb_time::Moment;
use picky_asn1_der::to_vec;
use std::alloc::Global;
use test_support::Told;

/// Begins an acceptor, which has seen nothing, in place of the last one.
pub(crate) fn begins(
    alloc: Global,
    acceptor: &mut Option<Acceptor<Service>>,
    row: &Call<'_>,
) -> anyhow::Result<bool> {
    let mut words = row.words;
    let (suite, skew) = (suite_of(&mut words), words.number::<u64>());
    let with_subkey = words.word() == "subkey";
    words.ended()?;
    let [key, bindings] = row.columns.as_slice() else {
        bail!("a line `acceptor` of another shape");
    };
    let service = service_of(alloc, suite, key, skew)?;
    let terms = AcceptorTerms {
        with_subkey,
        bindings: bindings_in(bindings),
    };
    drop(acceptor.replace(Acceptor::new(service, terms)));
    Ok(row.expected == "ok")
}

/// The acceptor's channel bindings, if there are any.
fn bindings_in(octets: &[u8]) -> Option<[u8; 16]> {
    if octets.len() < 16 {
        return None;
    }
    Some(array_at::<16>(octets, 0))
}

/// The service host/server.example.com@EXAMPLE.COM, whose key has number 1.
fn service_of(alloc: Global, suite: CipherSuite, key: &[u8], skew: u64) -> anyhow::Result<Service> {
    let host = Vec::from_slice(alloc, b"host")?;
    let server = Vec::from_slice(alloc, b"server.example.com")?;
    let name = vec![in alloc; host, server]?;
    Ok(Service::new(alloc, b"EXAMPLE.COM", &name, suite, key, 1, skew)?)
}

/// Takes a first token, or the negotiation's next one. Its context takes the place of the last one.
pub(crate) fn accepts(alloc: Global, ends: &mut Ends, row: &Call<'_>) -> anyhow::Result<bool> {
    let [token, words, ..] = row.columns.as_slice() else {
        bail!("a line `accept` or `resume` of another shape");
    };
    if words.len() < 64 {
        bail!("too few random octets");
    }
    let moment = moment_of(row)?;
    let Some(acceptor) = &mut ends.acceptor else {
        return Ok(false);
    };
    let accepted = if row.name == "accept" {
        acceptor.accept(alloc, token, moment, words)
    } else {
        let Some(negotiation) = ends.negotiation.take() else {
            return Ok(false);
        };
        acceptor.resume(alloc, negotiation, token, moment, words)
    };
    match accepted {
        Ok(accepted) => goes_on(alloc, ends, row, accepted),
        Err(refusal) => Ok(is_named(alloc, &refusal, row.expected)),
    }
}

/// The moment of a first or a later token.
fn moment_of(row: &Call<'_>) -> anyhow::Result<Moment> {
    let mut words = row.words;
    Moment::from_text(words.word().as_bytes()).context("no moment")
}

/// Keeps the context, or the negotiation. Returns whether it is expected.
fn goes_on(
    alloc: Global,
    ends: &mut Ends,
    row: &Call<'_>,
    accepted: Accepted,
) -> anyhow::Result<bool> {
    match accepted {
        Accepted::Established(established) => {
            let is_expected = is_established(alloc, &established, row)?;
            drop(ends.context.replace(established.context));
            drop(ends.delegated.take());
            ends.delegated = established.delegated;
            Ok(is_expected)
        }
        Accepted::ContinueNeeded(continuation) => {
            let Continuation { reply, negotiation } = continuation;
            drop(ends.negotiation.replace(negotiation));
            let [_, _, expected, _] = row.columns.as_slice() else {
                bail!("a line `accept` or `resume` of another shape");
            };
            Ok(row.expected == "ContinueNeeded" && reply.as_slice() == expected.as_slice())
        }
    }
}

/// Whether the initiator of the last context delegated these tickets.
pub(crate) fn delegates(alloc: Global, ends: &Ends, row: &Call<'_>) -> anyhow::Result<bool> {
    let [tickets, infos] = row.columns.as_slice() else {
        bail!("a line `delegated` of another shape");
    };
    let Some(delegated) = &ends.delegated else {
        return Ok(row.expected == "none");
    };
    let told = to_vec(alloc, &delegated.infos)?;
    let handed_on = to_vec(alloc, &delegated.tickets)?;
    Ok(
        row.expected == "ok"
            && handed_on.as_slice() == tickets.as_slice()
            && told.as_slice() == infos.as_slice(),
    )
}

/// Whether this context is expected.
fn is_established(alloc: Global, made: &Established, row: &Call<'_>) -> anyhow::Result<bool> {
    let [_, _, reply, bindings] = row.columns.as_slice() else {
        bail!("a line `accept` or `resume` of another shape");
    };
    let mut words = row.words;
    let (_moment, client, flags) = (words.word(), words.word(), words.number::<u32>());
    words.ended()?;
    let mut named = Told::new(alloc);
    put_name(&mut named, made);
    Ok(
        row.expected == "ok"
            && named.text()? == client
            && made.flags.0 == flags
            && has_times(made)
            && is_sent(&made.reply, reply)
            && made.bindings.as_slice() == bindings.as_slice(),
    )
}

/// Whether these are the times of each ticket of first_tokens.py, which has no starttime.
fn has_times(made: &Established) -> bool {
    made.authtime.to_text() == *b"20260101110000Z"
        && made.starttime.to_text() == *b"20260101110000Z"
        && made.endtime.to_text() == *b"20260101210000Z"
}

/// Whether this token is sent, or none is.
fn is_sent(reply: &Option<Vec<u8>>, expected: &[u8]) -> bool {
    match reply {
        Some(reply) => reply.as_slice() == expected,
        None => expected.is_empty(),
    }
}

/// Writes the client, as NAME@REALM.
fn put_name(text: &mut Told, made: &Established) {
    let mut mark = "";
    for component in made.client.name_string.0.as_slice() {
        text.put(mark);
        text.utf8(component.as_bytes());
        mark = "/";
    }
    text.put("@");
    text.utf8(made.realm.as_bytes());
}
