//! The replies of a file's realm.

use anyhow::{Context, bail};
use krb_frames::AnswerRefusal;
use krb_log::{Noted, noted_answer};
use krb_realm_files::{AtPath, FileRealm, Silent};
use krb_time::Moment;
use std::alloc::Global;

/// What the realm of the file with this path answers at the first second of 2000, with the random octets 0 to 127, and the entry of its
/// line.
pub(crate) fn answer_of(rt: &HostRuntime, path: &str, message: &[u8]) -> anyhow::Result<Noted> {
    let moment = Moment::from_text(b"20000101000000Z").context("no moment")?;
    let accounts = AtPath { files: rt, path };
    let realm = FileRealm {
        accounts: &accounts,
        faults: &Silent,
    };
    Ok(noted_answer(rt.alloc(), &realm, rt, message, moment, &words()))
}

// The random octets of each reply: 0 to 127.
fn words() -> [u8; 128] {
    let mut words = [0; 128];
    let mut next = 0u8;
    for word in &mut words {
        *word = next;
        next = next.wrapping_add(1);
    }
    words
}

/// A reply in hexadecimal, or the name of its refusal.
pub(crate) fn text_of(
    alloc: Global,
    answered: &Result<Vec<u8>, AnswerRefusal>,
) -> anyhow::Result<String> {
    let text = match answered {
        Ok(reply) => hex::encode(alloc, reply)?,
        Err(AnswerRefusal::Unreadable) => "Unreadable".to_string(alloc)?,
        Err(AnswerRefusal::Accounts) => "Accounts".to_string(alloc)?,
        Err(AnswerRefusal::Memory) => bail!("out of memory"),
    };
    Ok(text)
}
