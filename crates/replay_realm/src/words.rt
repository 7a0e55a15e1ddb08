//! What words of a row represent.

use anyhow::{Context, bail};
use krb_realm::{Anchor, CipherSuite, GeneralizedTime, Moment};
use std::alloc::Global;
use test_support::Row;

/// The microseconds from the first second of the year 0000 to that of 2000.
const YEAR_2000: i64 = 63_113_904_000_000_000;

/// The octets of a column: hexadecimal digits, or `-` for none.
pub(crate) fn octets_of(alloc: Global, column: &str) -> anyhow::Result<Vec<u8>> {
    if column == "-" {
        return Ok(Vec::new(alloc));
    }
    Ok(hex::decode(alloc, column)?)
}

/// The octets, if there are any.
pub(crate) fn given(octets: &[u8]) -> Option<&[u8]> {
    if octets.is_empty() {
        None
    } else {
        Some(octets)
    }
}

/// The suite of the next word's number.
pub(crate) fn suite_of(words: &mut Row<'_>) -> CipherSuite {
    match CipherSuite::try_from(words.number::<usize>()) {
        Ok(suite) => suite,
        Err(_) => {
            words.refuse("no suite");
            CipherSuite::Aes256CtsHmacSha196
        }
    }
}

/// The first second of 2000.
pub(crate) fn start() -> anyhow::Result<Moment> {
    Moment::from_text(b"20000101000000Z").context("no moment")
}

/// The moment so many microseconds after the first second of 2000.
pub(crate) fn moment_of(text: &str) -> anyhow::Result<Moment> {
    let offset = text.parse::<i64>()?;
    let micros = YEAR_2000.checked_add(offset).context("no moment")?;
    if micros < 0 {
        bail!("a moment before the year 0000");
    }
    Moment::new(micros as u64).context("a moment past the year 9999")
}

/// The second that a text names.
pub(crate) fn second_of(text: &str) -> anyhow::Result<GeneralizedTime> {
    GeneralizedTime::from_text(text.as_bytes()).context("no second")
}

/// The holder of a certificate in hexadecimal, who may issue others.
pub(crate) fn holder_of(alloc: Global, certificate: &str) -> anyhow::Result<Anchor> {
    let certificate = octets_of(alloc, certificate)?;
    Ok(Anchor::from_certificate(alloc, &certificate)?)
}
