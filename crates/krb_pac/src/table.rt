//! The table of a PAC (MS-PAC, sections 2.3 and 2.4): the count of its rows, the version, and a PAC_INFO_BUFFER for each buffer.
ghost use Rattle.std.specs.Prelude.{◌≡◌, ◌⊎◌, Ok, Err, MatchResult};
ghost use Rattle.std.specs.Option.{option_map};
ghost use Rattle.krb_pac.specs.declared.error.PacFault.TheVariants.{Memory};
ghost use Rattle.krb_pac.specs.Reading.{Gives};
ghost use Rattle.krb_pac.specs.Table.{row_at, rows_of, taken, sole_from, row_of, needed_row, content_of, set_content, content_in};

use crate::error::{Found, PacFault};
use crate::ndr::{NdrItem, read_list};
use byte_streams::{u32_le, u64_le};
use microsoft_messages::PacBufferType;
use std::alloc::Global;

/// The octets before the rows: cBuffers and Version.
const HEAD_SIZE: usize = 8;

/// The octets of a row.
const ROW_SIZE: usize = 16;

/// PAC_INFO_BUFFER: the type of a buffer, how many octets it has, and their place in the PAC.
#[derive(Clone, Copy)]
pub(crate) struct PacRow {
    number: u32,
    pub(crate) size: u32,
    pub(crate) offset: u64,
}

// Reads the row at `place`.
#[tactic(auto, unfolding(crate::specs::Table::row_at))]
fn row_at(bytes: &[u8], place: usize) -> Found<PacRow>
    ensures { result ≡ row_at place bytes.now }
{
    if bytes.len().saturating_sub(place) < ROW_SIZE {
        return Err(PacFault::Short);
    }
    let row = PacRow {
        number: u32_le(bytes, place),
        size: u32_le(bytes, place + 4),
        offset: u64_le(bytes, place + 8),
    };
    Ok((row, place + ROW_SIZE))
}

impl NdrItem for PacRow {
    ghost reading = { row_at };

    fn read(_alloc: Global, bytes: &[u8], place: usize) -> Found<PacRow> {
        row_at(bytes, place)
    }
}

/// Reads the rows of a PAC.
#[tactic(auto, unfolding(crate::specs::Table::rows_of))]
pub(crate) fn rows_of(alloc: Global, bytes: &[u8]) -> Result<Vec<PacRow>, PacFault>
    ensures { Gives (λ rows. rows.items) result (rows_of bytes.now) }
{
    if bytes.len() < HEAD_SIZE {
        return Err(PacFault::Short);
    }
    if u32_le(bytes, 4) != 0 {
        return Err(PacFault::Version);
    }
    let count = u32_le(bytes, 0);
    let (rows, _end) = read_list(alloc, bytes, HEAD_SIZE, count as usize)?;
    Ok(rows)
}

// Returns the row of this ulType that was found, after one more row. It refuses as `Twice` if there are two.
#[tactic(auto, unfolding(crate::specs::Table::taken))]
fn taken(number: u32, found: Option<PacRow>, row: PacRow) -> Result<Option<PacRow>, PacFault>
    ensures { result ≡ taken number found row }
{
    if row.number != number {
        return Ok(found);
    }
    if found.is_some() {
        return Err(PacFault::Twice);
    }
    Ok(Some(row))
}

// Returns the only row of this ulType, if there is one.
fn sole_of(number: u32, rows: &[PacRow]) -> Result<Option<PacRow>, PacFault>
    ensures { result ≡ sole_from number None rows.now }
{
    let mut found = None;
    for row in rows {
        found = taken(number, found, *row)?;
    }
    Ok(found)
}

// Returns the only row of a type, if there is one.
fn row_of(kind: PacBufferType, rows: &[PacRow]) -> Result<Option<PacRow>, PacFault>
    ensures { result ≡ row_of kind rows.now }
{
    let number = u32::from(kind);
    sole_of(number, rows)
}

/// Returns the only row of a type. It refuses as `Missing` if there is none.
pub(crate) fn needed_row(kind: PacBufferType, rows: &[PacRow]) -> Result<PacRow, PacFault>
    ensures { result ≡ needed_row kind rows.now }
{
    let found = row_of(kind, rows)?;
    match found {
        Some(row) => Ok(row),
        None => Err(PacFault::Missing),
    }
}

/// Returns the content of the buffer of a row. It refuses as `Range` if the content ends past the octets.
#[tactic(auto, unfolding(crate::specs::Table::content_of))]
pub(crate) fn content_of(bytes: &[u8], row: PacRow) -> Result<&[u8], PacFault>
    ensures { MatchResult result (λ content. content_of row bytes.now ≡ Ok content.now) (λ e. content_of row bytes.now ≡ Err e) }
{
    if (bytes.len() as u128) < u128::from(row.offset) + u128::from(row.size) {
        return Err(PacFault::Range);
    }
    let begin = row.offset as usize;
    Ok(&bytes[begin..begin + row.size as usize])
}

// Returns the content of the row that was found, if one was.
fn set_content(bytes: &[u8], found: Option<PacRow>) -> Result<Option<&[u8]>, PacFault>
    ensures { MatchResult result
        (λ content. set_content bytes.now found ≡ Ok (option_map (λ c. c.now) content))
        (λ e. set_content bytes.now found ≡ Err e) }
{
    let Some(row) = found else {
        return Ok(None);
    };
    let content = content_of(bytes, row)?;
    Ok(Some(content))
}

/// Returns the content of the only buffer of a type in a PAC, if there is one.
#[tactic(auto, unfolding(crate::specs::Table::content_in))]
pub(crate) fn content_in(
    alloc: Global,
    bytes: &[u8],
    kind: PacBufferType,
) -> Result<Option<&[u8]>, PacFault>
    ensures { MatchResult result
        (λ content. content_in kind bytes.now ≡ Ok (option_map (λ c. c.now) content))
        (λ e. (e ≡ Memory) ⊎ (content_in kind bytes.now ≡ Err e)) }
{
    let rows = rows_of(alloc, bytes)?;
    let found = row_of(kind, rows.as_slice())?;
    set_content(bytes, found)
}
