//! Lines `new EXPECTED SUITE SIDE FLAG SENDING TAKING | KEY`.

use super::call::{Call, suite_of};
use super::is_named;
use anyhow::bail;
use gss_contexts::{Context, ContextTerms, SequenceNumbers, Side};
use krb_crypto::Key;
use std::alloc::Global;

/// Begins another context in place of the last one. Returns whether it is made, or refused, as expected.
pub(crate) fn begins(
    alloc: Global,
    context: &mut Option<Context>,
    row: &Call<'_>,
) -> anyhow::Result<bool> {
    let mut words = row.words;
    let suite = suite_of(&mut words);
    let side = match words.word() {
        "Acceptor" => Side::Acceptor,
        _ => Side::Initiator,
    };
    let is_subkey = words.word() == "subkey";
    let numbers = SequenceNumbers {
        sending: words.number::<u64>(),
        taking: words.number::<u64>(),
    };
    words.ended()?;
    let [key] = row.columns.as_slice() else {
        bail!("a line `new` of another shape");
    };
    let key = Key::new(suite, key)?;
    let terms = ContextTerms {
        acceptor_subkey: is_subkey,
        in_sequence: false,
        ends: None,
        numbers,
    };
    match Context::new(key, side, terms) {
        Ok(made) => {
            drop(context.replace(made));
            Ok(row.expected == "ok")
        }
        Err(refusal) => Ok(is_named(alloc, &refusal, row.expected)),
    }
}
