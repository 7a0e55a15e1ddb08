//! Does a task as often as its last word says, so that the time can be taken from outside: reads or writes a message (bench/der.sh)
//! or a part of a certificate (bench/x509.sh), derives keys, or seals or opens a megabyte (bench/sealing.sh).
//!
//! The arguments are `der TASK ..`, `x509 TASK ..`, `sealing TASK ..`, `row CALL ..` or `slice MESSAGE`. Further tasks may follow, each after a `+`.
//! A task that is refused leaves the others to be done, and status 1.
#![tactic(auto)]

mod der;
mod rows;
mod sealing;
mod slices;
mod x509;

use anyhow::bail;
use std::env;

fn main(rt: HostRuntime) -> anyhow::Result<()> {
    let words = words_of(&rt)?;
    let mut refused = 0u64;
    for task in words.split(|word| word.as_str() == "+") {
        match outcome_of(&rt, task) {
            Ok(printed) => println!(rt; "{printed}")?,
            Err(error) => {
                refused = refused.saturating_add(1);
                println!(rt; "refused: {error}")?;
            }
        }
    }
    if refused > 0 {
        bail!("{refused} tasks are refused");
    }
    Ok(())
}

/// The arguments after the program's name.
fn words_of(rt: &HostRuntime) -> anyhow::Result<Vec<String>> {
    let mut words = Vec::new(rt.alloc());
    for word in env::args(rt)?.skip(1) {
        words.push(word)?;
    }
    Ok(words)
}

/// What is printed of a task once it is done: the rest of its line.
fn outcome_of(rt: &HostRuntime, task: &[String]) -> anyhow::Result<String> {
    let [codec, words @ ..] = task else {
        bail!("usage: bench_codecs der|x509|sealing|row|slice TASK .. [+ ..]");
    };
    let alloc = rt.alloc();
    match codec.as_str() {
        "der" => der::run(alloc, words),
        "x509" => x509::run(alloc, words),
        "sealing" => sealing::run(alloc, words),
        "row" => rows::run(alloc, words),
        "slice" => slices::run(rt, words),
        _ => bail!("no such codec: {codec}"),
    }
}
