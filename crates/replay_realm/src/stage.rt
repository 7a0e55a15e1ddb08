//! Who takes part in a script, what was sent and taken last, and which step a line asks for.

use crate::certificates::Certified;
use crate::line::Line;
use crate::words::{moment_of, second_of, start};
use crate::{ask, broken, login, many, parts, realms, services, take};
use anyhow::{Context, bail};
use krb_realm::{
    ApAsked, AsAsked, Client, Credential, GeneralizedTime, LoginMoments, Moment, NoKeys, Realm,
    Service, TgsAsked,
};
use picky_asn1_der::both;
use std::alloc::Global;
use test_support::{Row, Told};

/// What a step goes by: the moment, the end that is asked for, and the random bytes.
#[derive(Clone, Copy)]
pub(crate) struct Conditions {
    pub(crate) moment: Moment,
    pub(crate) till: GeneralizedTime,
    pub(crate) random: Random,
}

/// Random bytes: the first, and by how much each is more than the one before it.
#[derive(Clone, Copy)]
pub(crate) struct Random {
    pub(crate) first: u8,
    pub(crate) step: u8,
}

impl Random {
    pub(crate) fn bytes(self) -> [u8; 128] {
        let mut bytes = [0; 128];
        let mut next = self.first;
        for byte in &mut bytes {
            *byte = next;
            next = next.wrapping_add(self.step);
        }
        bytes
    }
}

/// What a client remembers of its last request of each kind.
#[derive(Drop)]
pub(crate) struct Asked {
    pub(crate) as_asked: Option<AsAsked>,
    pub(crate) tgs_asked: Option<TgsAsked>,
    pub(crate) ap_asked: Option<ApAsked>,
}

#[derive(Drop)]
pub(crate) struct Stage {
    pub(crate) conditions: Conditions,
    /// The moments of a whole login, if its steps have moments of their own.
    pub(crate) moments: Option<LoginMoments>,
    pub(crate) realm: Option<Realm>,
    pub(crate) client: Option<Client>,
    pub(crate) service: Option<Service>,
    /// What steps by certificate go by.
    pub(crate) certified: Option<Certified>,
    pub(crate) asked: Asked,
    pub(crate) credential: Option<Credential>,
    pub(crate) request: Vec<u8>,
    pub(crate) reply: Vec<u8>,
}

impl Stage {
    /// An empty stage at the first second of 2000, with an end a day later and zeros as random bytes.
    pub(crate) fn new(alloc: Global) -> anyhow::Result<Stage> {
        let conditions = Conditions {
            moment: start()?,
            till: second_of("20000102000000Z")?,
            random: Random { first: 0, step: 0 },
        };
        Ok(empty_stage(alloc, conditions))
    }

    /// The moments of a login's steps: the stage's one moment, unless each step has its own.
    pub(crate) fn moments(&self) -> LoginMoments {
        let at = login::moments_of(self.conditions.moment);
        self.moments.unwrap_or(at)
    }

    pub(crate) fn client(&self) -> anyhow::Result<&Client> {
        self.client.as_ref().context("no client")
    }

    pub(crate) fn realm(&self) -> anyhow::Result<&Realm> {
        self.realm.as_ref().context("no realm")
    }

    pub(crate) fn realm_mut(&mut self) -> anyhow::Result<&mut Realm> {
        self.realm.as_mut().context("no realm")
    }

    pub(crate) fn credential(&self) -> anyhow::Result<&Credential> {
        self.credential.as_ref().context("no credential")
    }

    pub(crate) fn ap_asked(&self) -> anyhow::Result<&ApAsked> {
        self.asked.ap_asked.as_ref().context("no AP request")
    }
}

fn empty_stage(alloc: Global, conditions: Conditions) -> Stage {
    Stage {
        conditions,
        moments: None,
        realm: None,
        client: None,
        service: None,
        certified: None,
        asked: Asked {
            as_asked: None,
            tgs_asked: None,
            ap_asked: None,
        },
        credential: None,
        request: Vec::new(alloc),
        reply: Vec::new(alloc),
    }
}

/// Writes what the step of a line gives.
pub(crate) fn tell(
    stage: &mut Stage,
    alloc: Global,
    line: &Line<'_>,
    told: &mut Told,
) -> anyhow::Result<()> {
    let mut words = line.words;
    let step = words.word();
    if let Some(digits) = line.message {
        keep_message(stage, step, hex::decode(alloc, digits)?);
    }
    let outcome = tell_step(stage, alloc, step, &mut words, told);
    both(outcome, words.ended())?;
    Ok(())
}

/// Keeps the bytes that a step is given.
fn keep_message(stage: &mut Stage, step: &str, message: Vec<u8>) {
    if step.starts_with("take") {
        stage.reply = message;
    } else {
        stage.request = message;
    }
}

fn tell_step(
    stage: &mut Stage,
    alloc: Global,
    step: &str,
    words: &mut Row<'_>,
    told: &mut Told,
) -> anyhow::Result<()> {
    match step {
        "random" => set_random(stage, words),
        "client" => take::client(stage, alloc, words, told),
        "moment" => return set_moment(stage, words),
        "moments" => return set_moments(stage, words),
        "till" => return set_till(stage, words),
        "answer_fronts" => return many::answer_fronts(stage, alloc, told),
        "answer_replaced" => return many::answer_replaced(stage, alloc, told),
        "serve_broken" => return broken::serve_broken(stage, alloc, told),
        "exchange_tag" => return parts::exchange_tag(stage, alloc, words),
        "print_error" => return parts::print_error(stage, alloc, told),
        "write_error" => return parts::write_error(stage, alloc, told),
        _ => return tell_message(stage, alloc, step, words, told),
    }
    Ok(())
}

/// Performs a step that makes or takes a message, and writes its outcome.
fn tell_message(
    stage: &mut Stage,
    alloc: Global,
    step: &str,
    words: &mut Row<'_>,
    told: &mut Told,
) -> anyhow::Result<()> {
    match step {
        "as_request" => ask::as_request(stage, alloc, words, &NoKeys, told),
        "tgs_request" => ask::tgs_request(stage, alloc, words, told),
        "ap_request" => ask::ap_request(stage, alloc, words, told),
        "asked" => ask::asked(stage, told),
        "take_as_reply" => {
            // A label may follow.
            words.pass_rest();
            take::as_reply(stage, alloc, &NoKeys, told)
        }
        "take_tgs_reply" => {
            words.pass_rest();
            take::tgs_reply(stage, alloc, told)
        }
        "take_ap_reply" => {
            words.pass_rest();
            take::ap_reply(stage, alloc, told)
        }
        "credential" => take::credential(stage, told),
        "credential_times" => take::credential_times(stage, told),
        "service" => services::service(stage, alloc, words, told),
        "admit" => services::admit(stage, alloc, told),
        "admit_times" => services::admit_times(stage, alloc, told),
        "admit_nothing" => services::admit_nothing(stage, alloc, told),
        "admit_twice" => services::admit_twice(stage, alloc, told),
        "login" => login::login(stage, alloc, words, None, told),
        "honest" => login::honest(stage, alloc, words, None, told),
        "honest_context" => login::honest_context(stage, alloc, words, told),
        _ => realms::tell_step(stage, alloc, step, words, told),
    }
}

fn set_moment(stage: &mut Stage, words: &mut Row<'_>) -> anyhow::Result<()> {
    let second = second_of(words.word())?;
    let micros = words.number::<u32>();
    if micros >= 1_000_000 {
        bail!("more than a second");
    }
    stage.conditions.moment = Moment::at(second, micros);
    stage.moments = None;
    Ok(())
}

/// The moments of whole logins, up to the next `moment`: each in microseconds after the first second of 2000.
fn set_moments(stage: &mut Stage, words: &mut Row<'_>) -> anyhow::Result<()> {
    stage.moments = Some(LoginMoments {
        client_as: moment_of(words.word())?,
        realm_as: moment_of(words.word())?,
        client_tgs: moment_of(words.word())?,
        realm_tgs: moment_of(words.word())?,
        client_ap: moment_of(words.word())?,
        service_ap: moment_of(words.word())?,
    });
    Ok(())
}

fn set_till(stage: &mut Stage, words: &mut Row<'_>) -> anyhow::Result<()> {
    stage.conditions.till = second_of(words.word())?;
    Ok(())
}

fn set_random(stage: &mut Stage, words: &mut Row<'_>) {
    stage.conditions.random = Random {
        first: words.number::<u8>(),
        step: words.number::<u8>(),
    };
}
