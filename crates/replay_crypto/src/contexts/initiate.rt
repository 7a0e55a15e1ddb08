//! Lines of an initiator: `initiate EXPECTED SUITE FLAGS FORM MOMENT BINDINGS | SESSION-KEY TICKET WORDS TOKEN` of a first token, `delegate
//! EXPECTED FORWARDED-SUITE FORWARDED-FLAGS SUITE .. | SESSION-KEY .. TOKEN FORWARDED FORWARDED-KEY` of one that delegates a ticket, and `take
//! EXPECTED | ANSWER REPLY` of the answer to it.
ghost use Rattle.std.specs.Prelude.{◌≤◌, length};

use super::call::{Call, suite_of};
use super::{Ends, is_named};
use anyhow::{Context, bail};
use gss_acceptor::{ContextFlags, InitialChecksum};
use gss_initiator::{
    InitiateRefusal, Initiated, NO_BINDINGS, Progress, RefusedAnswer, Taken, TokenForm,
    bindings_of, initiate, initiate_delegating,
};
use krb_client::{Client, Credential, TicketTimes};
use krb_crypto::{CipherSuite, Key};
use krb_messages::data_types::{KerberosFlags, Ticket};
use krb_time::Moment;
use picky_asn1::date::GeneralizedTime;
use picky_asn1::wrapper::BitStringAsn1;
use picky_asn1_der::{both, from_bytes};
use std::alloc::{AllocError, Global};
use test_support::{Row, components_of};

/// What a line chooses of a context.
#[derive(Clone, Copy)]
struct Choice {
    suite: CipherSuite,
    initial: InitialChecksum,
    form: TokenForm,
    moment: Moment,
}

/// Asks for a context. What it waits for, or its context, takes the place of the last one.
pub(crate) fn initiates(alloc: Global, ends: &mut Ends, row: &Call<'_>) -> anyhow::Result<bool> {
    let [session, ticket, words, token] = row.columns.as_slice() else {
        bail!("a line `initiate` of another shape");
    };
    if words.len() < 96 {
        bail!("too few random octets");
    }
    let choice = choice_in(alloc, row.words)?;
    let credential = credential_of(alloc, choice.suite, 0, session, ticket)?;
    match initiated(alloc, choice, &credential, words) {
        Ok(initiated) => Ok(is_sent(ends, row, initiated, token)),
        Err(refusal) => Ok(is_named(alloc, &refusal, row.expected)),
    }
}

/// Asks for a context with a delegation, likewise.
pub(crate) fn delegates(alloc: Global, ends: &mut Ends, row: &Call<'_>) -> anyhow::Result<bool> {
    let [session, ticket, words, token, forwarded, key] = row.columns.as_slice() else {
        bail!("a line `delegate` of another shape");
    };
    if words.len() < 96 {
        bail!("too few random octets");
    }
    let mut ahead = row.words;
    let (suite, flags) = (suite_of(&mut ahead), ahead.number::<u32>());
    let choice = choice_in(alloc, ahead)?;
    let credential = credential_of(alloc, choice.suite, 0, session, ticket)?;
    let forwarded = credential_of(alloc, suite, flags, key, forwarded)?;
    match delegated(alloc, choice, &credential, &forwarded, words) {
        Ok(initiated) => Ok(is_sent(ends, row, initiated, token)),
        Err(refusal) => Ok(is_named(alloc, &refusal, row.expected)),
    }
}

/// Asks for the context of a choice, and delegates this ticket.
fn delegated(
    alloc: Global,
    choice: Choice,
    credential: &Credential,
    forwarded: &Credential,
    words: &[u8],
) -> Result<Initiated, InitiateRefusal>
    requires { 96 ≤ length words.now }
{
    let Ok(client) = client_of(alloc, choice.suite) else {
        return Err(InitiateRefusal::Memory);
    };
    let Choice {
        initial,
        form,
        moment,
        ..
    } = choice;
    initiate_delegating(
        alloc, &client, credential, forwarded, initial, form, moment, words,
    )
}

/// Asks for the context of a choice, as the client user/admin@EXAMPLE.COM.
fn initiated(
    alloc: Global,
    choice: Choice,
    credential: &Credential,
    words: &[u8],
) -> Result<Initiated, InitiateRefusal>
    requires { 96 ≤ length words.now }
{
    let Ok(client) = client_of(alloc, choice.suite) else {
        return Err(InitiateRefusal::Memory);
    };
    let Choice {
        initial,
        form,
        moment,
        ..
    } = choice;
    initiate(alloc, &client, credential, initial, form, moment, words)
}

/// The client user/admin@EXAMPLE.COM.
fn client_of(alloc: Global, suite: CipherSuite) -> anyhow::Result<Client> {
    let name = components_of(alloc, "user/admin")?;
    Ok(Client::new(alloc, b"EXAMPLE.COM", &name, suite)?)
}

/// The credential of this ticket and session key, with these flags. Its names are the ticket's, and its times one second.
fn credential_of(
    alloc: Global,
    suite: CipherSuite,
    flags: u32,
    session: &[u8],
    ticket: &[u8],
) -> anyhow::Result<Credential> {
    let moment = Moment::from_text(b"20260101110000Z").context("no moment")?;
    let key = Key::new(suite, session)?;
    let ticket: Ticket = from_bytes(alloc, ticket)?;
    let credential = credential_with(alloc, ticket, key, flags, moment.second())?;
    Ok(credential)
}

/// The credential of this ticket and session key, with this second as each time.
fn credential_with(
    alloc: Global,
    ticket: Ticket,
    key: Key,
    flags: u32,
    second: GeneralizedTime,
) -> Result<Credential, AllocError> {
    let realm: Result<_, AllocError> = ticket.0.realm.0.clone();
    let service: Result<_, AllocError> = ticket.0.sname.0.clone();
    let names = both(realm, service);
    let rest = both(flags_of(alloc, flags), Ok((ticket, key)));
    let ((realm, service), (flags, (ticket, key))) = both(names, rest)?;
    let times = TicketTimes {
        authtime: second,
        starttime: second,
        endtime: second,
        renew_till: None,
    };
    Ok(Credential::new(ticket, key, realm, service, times, flags))
}

/// Flags of 32 bits.
fn flags_of(alloc: Global, flags: u32) -> Result<KerberosFlags, AllocError> {
    match BitStringAsn1::new(alloc, &flags.to_be_bytes(), 0) {
        Ok(flags) => Ok(flags),
        Err(_) => Err(AllocError),
    }
}

/// What a line chooses: suite, flags, form, moment and channel bindings.
fn choice_in(alloc: Global, words: Row<'_>) -> anyhow::Result<Choice> {
    let mut words = words;
    let (suite, flags) = (suite_of(&mut words), words.number::<u32>());
    let form = form_of(words.word());
    let moment = Moment::from_text(words.word().as_bytes()).context("no moment")?;
    let bindings = hash_of(alloc, &mut words)?;
    words.ended()?;
    let initial = InitialChecksum {
        bindings,
        flags: ContextFlags(flags),
    };
    Ok(Choice {
        suite,
        initial,
        form,
        moment,
    })
}

/// The form of this name.
fn form_of(name: &str) -> TokenForm {
    if name == "Negotiated" {
        TokenForm::Negotiated
    } else {
        TokenForm::Bare
    }
}

/// The hash of the channel bindings that the next word tells.
fn hash_of(alloc: Global, words: &mut Row<'_>) -> anyhow::Result<[u8; 16]> {
    let mut ahead = *words;
    if ahead.word() == "none" {
        *words = ahead;
        return Ok(NO_BINDINGS);
    }
    let application = words.octets(alloc);
    bindings_of(&application).context("no bindings")
}

/// Keeps the context or what it waits for. Returns whether this token is sent as expected.
fn is_sent(ends: &mut Ends, row: &Call<'_>, initiated: Initiated, expected: &[u8]) -> bool {
    let Initiated { token, progress } = initiated;
    let is_expected = token.as_slice() == expected;
    drop(token);
    is_expected && row.expected == keeps(ends, progress)
}

/// Keeps the context or what it waits for. Returns the name of the progress.
fn keeps(ends: &mut Ends, progress: Progress) -> &'static str {
    match progress {
        Progress::Established(context) => {
            drop(ends.context.replace(context));
            "Established"
        }
        Progress::ContinueNeeded(pending) => {
            drop(ends.pending.replace(pending));
            "ContinueNeeded"
        }
    }
}

/// Takes the answer. Its context takes the place of the last one. What waits for an answer is there after a refusal alone.
pub(crate) fn takes(alloc: Global, ends: &mut Ends, row: &Call<'_>) -> anyhow::Result<bool> {
    let [answer, expected] = row.columns.as_slice() else {
        bail!("a line `take` of another shape");
    };
    let Some(pending) = ends.pending.take() else {
        return Ok(false);
    };
    match pending.take(alloc, answer) {
        Ok(taken) => Ok(row.expected == "ok" && is_taken(ends, taken, expected)),
        Err(refused) => Ok(is_refused(alloc, ends, row, refused)),
    }
}

/// Keeps what still waits for an answer. Returns whether the refusal is expected.
fn is_refused(alloc: Global, ends: &mut Ends, row: &Call<'_>, refused: RefusedAnswer) -> bool {
    let RefusedAnswer { refusal, pending } = refused;
    drop(ends.pending.replace(pending));
    is_named(alloc, &refusal, row.expected)
}

/// Keeps the context. Returns whether this token is the last to send, or none is.
fn is_taken(ends: &mut Ends, taken: Taken, expected: &[u8]) -> bool {
    let Taken { context, reply } = taken;
    drop(ends.context.replace(context));
    match reply {
        Some(reply) => reply.as_slice() == expected,
        None => expected.is_empty(),
    }
}
