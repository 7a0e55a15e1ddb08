//! Lines of four kinds: what is read, what is written, who is trusted, and keys. Columns are divided by tabs, but those of keys.

use crate::signed::keys::is_made;
use crate::signed::read::{is_read, is_refused};
use crate::signed::trusted::{TrustRow, is_judged};
use crate::signed::written::{WrittenRow, is_written};
use std::alloc::Global;
use test_support::Lines;

/// Lines about signed data.
pub(crate) struct SignedLines;

impl Lines for SignedLines {
    const NAME: &'static str = "lines";

    fn agrees(&self, alloc: Global, line: &str) -> anyhow::Result<bool> {
        let columns = columns_of(alloc, line)?;
        match columns.as_slice() {
            [line] => is_made(alloc, line),
            [_, input, word] => Ok(*word == "Unreadable" && is_refused(alloc, *input)?),
            [_, content_type, content, certificate, keys, own, wanted] => is_written(
                alloc,
                &WrittenRow {
                    content_type: *content_type,
                    content: *content,
                    certificate: *certificate,
                    keys: *keys,
                    own: *own,
                    wanted: *wanted,
                },
            ),
            [_, keys, anchor, moment, realm, name, signed, wanted] => is_judged(
                alloc,
                &TrustRow {
                    keys: *keys,
                    anchor: *anchor,
                    moment: *moment,
                    realm: *realm,
                    name: *name,
                    signed: *signed,
                    wanted: *wanted,
                },
            ),
            [_, input, word, parts @ ..] => Ok(*word == "Read" && is_read(alloc, *input, parts)?),
            _ => Ok(false),
        }
    }
}

fn columns_of(alloc: Global, line: &str) -> anyhow::Result<Vec<&str>> {
    let mut columns = Vec::new(alloc);
    for column in line.split('\t') {
        columns.push(column)?;
    }
    Ok(columns)
}

/// The bytes of a column: hexadecimal digits, or `-` for none.
pub(crate) fn bytes_of(alloc: Global, column: &str) -> anyhow::Result<Vec<u8>> {
    if column == "-" {
        return Ok(Vec::new(alloc));
    }
    Ok(hex::decode(alloc, column)?)
}

/// The column of some bytes.
pub(crate) fn column_of(alloc: Global, bytes: &[u8]) -> anyhow::Result<String> {
    if bytes.is_empty() {
        return Ok(String::from_str(alloc, "-")?);
    }
    Ok(hex::encode(alloc, bytes)?)
}
