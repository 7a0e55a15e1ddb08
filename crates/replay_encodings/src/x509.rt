//! Reads recorded spellings of X.509 values, certificates and requests, counts their deviations, rewrites and prints them. Compares
//! all of it, and the part that is borrowed as signed, with what is expected.

mod algorithms;
mod certificates;
mod extensions;
mod keys;
mod line;
mod made;
mod names;
mod printed;
mod told;

use crate::first_of;
use anyhow::bail;
use line::{Recorded, recorded_of};
use std::alloc::Global;
use test_support::{Lines, replay};
use told::Answer;

const FILES: [&str; 8] = [
    "standards.txt",
    "published.txt",
    "deviations.txt",
    "spellings.txt",
    "printed.txt",
    "rfc5280.txt",
    "certificates.txt",
    "openssl.txt",
];

/// Replays the files of spellings and texts.
pub(crate) fn replay_x509(rt: &HostRuntime) -> anyhow::Result<()> {
    for file in FILES {
        replay(rt, &Spellings, file)?;
    }
    Ok(())
}

/// Spellings, and printed texts.
struct Spellings;

impl Lines for Spellings {
    const NAME: &'static str = "lines";

    /// A line of printed text begins with the word `text`.
    fn agrees(&self, alloc: Global, line: &str) -> anyhow::Result<bool> {
        if let Some(rest) = line.strip_prefix("text ") {
            return printed::agrees(alloc, rest);
        }
        let recorded = recorded_of(alloc, line)?;
        is_spelled(alloc, &recorded)
    }
}

/// Whether a spelling is read, counted and rewritten as expected.
fn is_spelled(alloc: Global, recorded: &Recorded<'_>) -> anyhow::Result<bool> {
    match answer_of(alloc, recorded) {
        Some(answer) => Ok(answer?),
        None => bail!("no type {}", recorded.type_name),
    }
}

/// The answer of the first module that knows the spelling's type. There is none if no module knows it.
fn answer_of(alloc: Global, recorded: &Recorded<'_>) -> Option<Answer> {
    first_of(&[
        algorithms::agrees(alloc, recorded),
        names::agrees(alloc, recorded),
        extensions::agrees(alloc, recorded),
        keys::agrees(alloc, recorded),
        certificates::agrees(alloc, recorded),
        made::agrees(alloc, recorded),
    ])
}
