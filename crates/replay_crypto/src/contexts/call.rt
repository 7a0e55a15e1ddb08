//! Lines of the files: `CALL EXPECTED WORDS .. | OCTETS ..`.

use krb_crypto::CipherSuite;
use std::alloc::Global;
use test_support::Row;

#[derive(Drop)]
pub(crate) struct Call<'a> {
    pub(crate) name: &'a str,
    /// `ok`, a protection or a refusal.
    pub(crate) expected: &'a str,
    pub(crate) words: Row<'a>,
    pub(crate) columns: Vec<Vec<u8>>,
}

/// Reads a line.
pub(crate) fn call_of<'a>(alloc: Global, row: &mut Row<'a>) -> anyhow::Result<Call<'a>> {
    let mut words = Row::new(row.word(), " ");
    let name = words.word();
    let expected = words.word();
    Ok(Call {
        name,
        expected,
        words,
        columns: columns_of(alloc, row.word())?,
    })
}

/// The octets of each column, `-` for none.
fn columns_of(alloc: Global, text: &str) -> anyhow::Result<Vec<Vec<u8>>> {
    let mut columns = Vec::new(alloc);
    for column in text.split(' ') {
        let digits = if column == "-" { "" } else { column };
        columns.push(hex::decode(alloc, digits)?)?;
    }
    Ok(columns)
}

/// The suite of the next word's number.
pub(crate) fn suite_of(words: &mut Row<'_>) -> CipherSuite {
    match CipherSuite::try_from(words.number::<usize>()) {
        Ok(suite) => suite,
        Err(_) => {
            words.refuse("no suite");
            CipherSuite::Aes256CtsHmacSha196
        }
    }
}
