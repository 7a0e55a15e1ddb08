//! Many requests in one step, made from the last one, and how often each answer comes.

use crate::stage::Stage;
use anyhow::bail;
use krb_messages::messages::KrbError;
use krb_realm::{AnswerRefusal, NoKeys};
use std::alloc::Global;
use test_support::Told;

/// How many requests were unreadable, and how many got each error code.
#[derive(Clone, Copy)]
struct Answers {
    unreadable: u64,
    coded: [u64; 128],
}

/// Each proper front of the request.
pub(crate) fn answer_fronts(stage: &Stage, alloc: Global, told: &mut Told) -> anyhow::Result<()> {
    let mut answers = no_answers();
    for size in 0..stage.request.len() {
        let (front, _) = stage.request.split_at(size);
        count(stage, alloc, front, &mut answers)?;
    }
    tell(&answers, told);
    Ok(())
}

/// The request with each of its bytes replaced by each other value.
pub(crate) fn answer_replaced(stage: &Stage, alloc: Global, told: &mut Told) -> anyhow::Result<()> {
    let mut answers = no_answers();
    let mut request = Vec::from_slice(alloc, &stage.request)?;
    for place in 0..stage.request.len() {
        replace(stage, alloc, &mut request, place, &mut answers)?;
    }
    tell(&answers, told);
    Ok(())
}

fn no_answers() -> Answers {
    Answers {
        unreadable: 0,
        coded: [0; 128],
    }
}

/// Replaces one byte by each other value in turn, and puts it back.
fn replace(
    stage: &Stage,
    alloc: Global,
    request: &mut [u8],
    place: usize,
    answers: &mut Answers,
) -> anyhow::Result<()> {
    for _ in 0..255u8 {
        step(request, place);
        count(stage, alloc, request, answers)?;
    }
    step(request, place);
    Ok(())
}

fn step(request: &mut [u8], place: usize) {
    if let Some(byte) = request.get_mut(place) {
        *byte = byte.wrapping_add(1);
    }
}

fn count(
    stage: &Stage,
    alloc: Global,
    request: &[u8],
    answers: &mut Answers,
) -> anyhow::Result<()> {
    let at = stage.conditions;
    match stage
        .realm()?
        .answer(alloc, request, at.moment, &at.random.bytes(), &NoKeys)
    {
        Ok(reply) => count_code(code_of(alloc, &reply)?, answers),
        Err(AnswerRefusal::Unreadable) => {
            answers.unreadable = answers.unreadable.saturating_add(1);
            Ok(())
        }
        Err(AnswerRefusal::Memory) => bail!("out of memory"),
        Err(AnswerRefusal::Accounts) => bail!("the accounts can't be read"),
    }
}

/// The code of a reply that is an error.
fn code_of(alloc: Global, reply: &[u8]) -> anyhow::Result<u32> {
    let error = krb_messages::from_bytes::<KrbError>(alloc, reply)?;
    let code = error.0.error_code.0;
    drop(error);
    Ok(code)
}

fn count_code(code: u32, answers: &mut Answers) -> anyhow::Result<()> {
    let Some(count) = answers.coded.get_mut(code as usize) else {
        bail!("error {code}");
    };
    *count = count.saturating_add(1);
    Ok(())
}

/// `unreadable COUNT`, and `CODE: COUNT` for each code that came.
fn tell(answers: &Answers, told: &mut Told) {
    told.put("unreadable ");
    told.show(&answers.unreadable);
    for (code, count) in answers.coded.iter().enumerate() {
        if *count > 0 {
            told.put(", ");
            told.show(&code);
            told.put(": ");
            told.show(count);
        }
    }
}
