//! A service, and what it admits.

use crate::stage::Stage;
use crate::told::{admission_text, admitted_times, refused};
use crate::words::suite_of;
use anyhow::{Context, bail};
use krb_realm::{Admission, AdmitRefusal, Moment, Service};
use std::alloc::Global;
use test_support::{Row, Told, components_of};

/// Makes the service `h`, of this realm, suite, key, kvno and skew.
pub(crate) fn service(
    stage: &mut Stage,
    alloc: Global,
    words: &mut Row<'_>,
    told: &mut Told,
) -> anyhow::Result<()> {
    let name = components_of(alloc, "h")?;
    let realm = words.octets(alloc);
    let suite = suite_of(words);
    let key = words.octets(alloc);
    let kvno = words.number::<u32>();
    let skew = words.number::<u64>();
    match Service::new(alloc, &realm, &name, suite, &key, kvno, skew) {
        Ok(service) => {
            drop(stage.service.replace(service));
            told.put("ok");
        }
        Err(refusal) => refused(told, &refusal),
    }
    Ok(())
}

/// Presents the last request, and keeps the reply.
pub(crate) fn admit(stage: &mut Stage, alloc: Global, told: &mut Told) -> anyhow::Result<()> {
    let at = stage.conditions;
    let service = stage.service.as_mut().context("no service")?;
    match service.admit(alloc, &stage.request, at.moment, &at.random.bytes()) {
        Ok(admission) => {
            admission_text(told, &admission);
            keep_reply(stage, admission);
        }
        Err(refusal) => refused(told, &refusal),
    }
    Ok(())
}

fn keep_reply(stage: &mut Stage, mut admission: Admission) {
    if let Some(reply) = admission.reply.take() {
        stage.reply = reply;
    }
    drop(admission);
}

/// Presents the last request, and returns the times and flags of its ticket.
pub(crate) fn admit_times(stage: &mut Stage, alloc: Global, told: &mut Told) -> anyhow::Result<()> {
    let at = stage.conditions;
    let service = stage.service.as_mut().context("no service")?;
    let admission = service.admit(alloc, &stage.request, at.moment, &at.random.bytes())?;
    admitted_times(told, &admission);
    Ok(())
}

/// Presents no bytes.
pub(crate) fn admit_nothing(
    stage: &mut Stage,
    alloc: Global,
    told: &mut Told,
) -> anyhow::Result<()> {
    let at = stage.conditions;
    let service = stage.service.as_mut().context("no service")?;
    match service.admit(alloc, &[], at.moment, &at.random.bytes()) {
        Ok(_) => told.put("no bytes are admitted"),
        Err(refusal) => refused(told, &refusal),
    }
    Ok(())
}

/// Presents the last request twice in one call.
pub(crate) fn admit_twice(stage: &mut Stage, alloc: Global, told: &mut Told) -> anyhow::Result<()> {
    let at = stage.conditions;
    let words = at.random.bytes();
    let service = stage.service.as_mut().context("no service")?;
    let request: &[u8] = &stage.request;
    let calls: [(&[u8], Moment, &[u8]); 2] = [
        (request, at.moment, &words),
        (request, at.moment, &words),
    ];
    let answers = service.admit_all(alloc, &calls)?;
    let outcome = answers_text(&answers, told);
    drop(answers);
    outcome
}

/// Writes that the first request is admitted, and how the second is refused.
fn answers_text(
    answers: &[Result<Admission, AdmitRefusal>],
    told: &mut Told,
) -> anyhow::Result<()> {
    match answers {
        [Ok(_), Err(refusal)] => {
            told.put("admitted, ");
            told.debug(refusal);
            Ok(())
        }
        _ => bail!("other than one admission and one refusal"),
    }
}
