//! Calls of a context.

use super::call::Call;
use super::is_named;
use gss_contexts::{Context, Protection, TokenRefusal};
use krb_time::Moment;
use std::alloc::Global;

/// `get_mic EXPECTED | MESSAGE TOKEN`
pub(crate) fn gets_mic(alloc: Global, context: &mut Context, row: &Call<'_>) -> bool {
    let [message, token] = row.columns.as_slice() else {
        return false;
    };
    is_made(alloc, row, context.get_mic(alloc, message), token)
}

/// `verify_mic EXPECTED | MESSAGE TOKEN`, where the context has then the token's sequence number.
pub(crate) fn verifies_mic(alloc: Global, context: &mut Context, row: &Call<'_>) -> bool {
    let [message, token] = row.columns.as_slice() else {
        return false;
    };
    match context.verify_mic(alloc, message, token) {
        Ok(()) => {
            row.expected == "ok" && has_number(token, context.numbers().taking.saturating_sub(1))
        }
        Err(refusal) => is_named(alloc, &refusal, row.expected),
    }
}

/// `wrap_sealed EXPECTED | WORDS MESSAGE TOKEN`, or `wrap_checksum`
pub(crate) fn wraps(
    alloc: Global,
    context: &mut Context,
    protection: Protection,
    row: &Call<'_>,
) -> bool {
    let [words, message, token] = row.columns.as_slice() else {
        return false;
    };
    if words.len() < 16 {
        return false;
    }
    let made = context.wrap(alloc, message, protection, words);
    is_made(alloc, row, made, token)
}

/// Whether this token is made, or the call is refused as expected.
fn is_made(
    alloc: Global,
    row: &Call<'_>,
    made: Result<Vec<u8>, TokenRefusal>,
    token: &[u8],
) -> bool {
    match made {
        Ok(made) => row.expected == "ok" && made.as_slice() == token,
        Err(refusal) => is_named(alloc, &refusal, row.expected),
    }
}

/// Whether this is the sequence number in octets 8 to 15 of the token (RFC 4121, section 4.2.6).
fn has_number(token: &[u8], number: u64) -> bool {
    match token.get(8..16) {
        Some(octets) => octets == number.to_be_bytes().as_slice(),
        None => false,
    }
}

/// `unwrap EXPECTED | TOKEN MESSAGE`, where a token is expected to be taken under its protection, with its sequence number.
pub(crate) fn unwraps(alloc: Global, context: &mut Context, row: &Call<'_>) -> bool {
    let [token, message] = row.columns.as_slice() else {
        return false;
    };
    match context.unwrap(alloc, token) {
        Ok(taken) => {
            is_named(alloc, &taken.protection, row.expected)
                && has_number(token, taken.sequence_number)
                && taken.message.as_slice() == message.as_slice()
        }
        Err(refusal) => is_named(alloc, &refusal, row.expected),
    }
}

/// `check_end EXPECTED MOMENT | -`
pub(crate) fn checks_end(alloc: Global, context: &Context, row: &Call<'_>) -> bool {
    let mut words = row.words;
    let Some(moment) = Moment::from_text(words.word().as_bytes()) else {
        return false;
    };
    match context.check_end(moment) {
        Ok(()) => row.expected == "ok",
        Err(refusal) => is_named(alloc, &refusal, row.expected),
    }
}
