//! Writing a file.
ghost use Rattle.std.specs.Prelude.{◌≡◌, ◌+◌, ◌-◌, ◌^◌, ◌<◌, ◌≤◌, IfErr, IfOk, MatchBool, MatchOption, get_or, length};
ghost use Rattle.std.specs.Bool.{OnFalse};
ghost use Rattle.std.specs.List.{All, Any};
ghost use Rattle.cdb.specs.Database.{IsDatabase};
ghost use Rattle.cdb.specs.Records.{Answers};
ghost use Rattle.cdb.specs.Writing.{Clash, HasClash, IsOverlong, IsUnsound, IsWriteFault, database_size, entry_size};
ghost use Rattle.cdb.specs.declared.writing.WriteFault.TheVariants.{Memory};

use crate::format::{HEADER_SIZE, KEY_LIMIT, PAIR_SIZE};
use crate::laws::finds_the_first;
use crate::making::make;
use crate::records::{Record, order_of};
use std::alloc::{AllocError, AllocFailed, Global};
use std::cmp::Ordering;
use thiserror::Error;

/// Why no file was made.
#[derive(Clone, Copy, Debug, PartialEq, Eq, Error)]
pub enum WriteFault {
    /// The file would have 2^32 octets or more.
    #[error("the database would have 2^32 octets or more")]
    Large,
    /// No file answers as the records do: two records have one key and other data, a key or its data are too long, or the records are
    /// not in the order of their keys.
    #[error("a record is too long, or two records are out of order or have one key")]
    Unsound,
    /// Memory ran out.
    #[error("out of memory")]
    Memory,
}

impl From<AllocError> for WriteFault {
    ghost from_gives = { λ _ fault. fault ≡ Memory };

    fn from(_error: AllocError) -> WriteFault {
        WriteFault::Memory
    }
}

impl<T: Drop> From<AllocFailed<T>> for WriteFault {
    ghost from_gives = { λ _ fault. fault ≡ Memory };

    fn from(_error: AllocFailed<T>) -> WriteFault {
        WriteFault::Memory
    }
}

/// How many octets a record takes besides its key and its data: its two lengths, and two slots.
const ENTRY_SIZE: usize = 3 * PAIR_SIZE as usize;

/// Returns the octets of a database of these records, which are in the order of their keys. A look-up with `room` octets for the data
/// finds in it what the records say.
///
/// Records and hash tables are in the order in which the stock tools write them, and a hash table has twice as many slots as records. It
/// refuses as `Unsound` only if a key has more than [`KEY_LIMIT`] octets, if data are longer than `room`, if the records are out of order,
/// or if two have one key and other data. It refuses as `Large` only if the file would have 2^32 octets or more, and as `Memory` if memory
/// runs out.
pub fn write(alloc: Global, records: &[Record], room: usize) -> Result<Vec<u8>, WriteFault>
    ensures database { IfOk result (λ bytes. IsDatabase bytes.items records.now) }
    ensures answers { IfOk result (λ bytes. Answers room bytes.items records.now) }
    ensures refusal { IfErr result (λ fault. IsWriteFault room records.now fault) }
{
    if !are_sound(records, room) {
        return Err(WriteFault::Unsound);
    }
    if !are_few(records) {
        return Err(WriteFault::Large);
    }
    finds_the_first();
    let bytes = make(alloc, records)?;
    Ok(bytes)
}

// Returns whether the records are in order, and none of them is too long.
fn are_sound(records: &[Record], room: usize) -> bool
    ensures { MatchBool result (All (λ r. length r.content.items ≤ room) records.now) (IsUnsound room records.now) }
{
    are_short(records, room) && are_in_order(records)
}

// Returns whether none of the records is too long.
fn are_short(records: &[Record], room: usize) -> bool
    ensures { MatchBool result (All (λ r. length r.content.items ≤ room) records.now) (Any (IsOverlong room) records.now) }
{
    for one in records {
        if !is_short(one, room) {
            return false;
        }
    }
    true
}

// Returns whether the record is not too long.
fn is_short(one: &Record, room: usize) -> bool
    ensures { MatchBool result (length one.now.content.items ≤ room) (IsOverlong room one.now) }
{
    one.key.len() <= KEY_LIMIT && one.content.len() <= room
}

// Returns whether no two neighbours clash.
fn are_in_order(records: &[Record]) -> bool
    ensures { OnFalse result (HasClash records.now) }
{
    for index in 1..records.len() {
        if !follows(records, index) {
            return false;
        }
    }
    true
}

// Returns whether the record at an index doesn't clash with the one before.
fn follows(records: &[Record], index: usize) -> bool
    requires some { 0 < index }
    requires within { index < length records.now }
    ensures { OnFalse result ((d : Record) → Clash (get_or records.now (index - 1) d) (get_or records.now index d)) }
{
    let before = index - 1;
    comes_next(&records[before], &records[index])
}

// Returns whether two neighbours don't clash.
fn comes_next(one: &Record, next: &Record) -> bool
    ensures { OnFalse result (Clash one.now next.now) }
{
    match order_of(one, &next.key) {
        Ordering::Less => true,
        Ordering::Equal => one.content.as_slice() == next.content.as_slice(),
        Ordering::Greater => false,
    }
}

// Returns whether a database of the records has less than 2^32 octets.
fn are_few(records: &[Record]) -> bool
    ensures { MatchBool result (database_size records.now < 2 ^ 32) (2 ^ 32 ≤ database_size records.now) }
{
    let mut left = u32::MAX as usize - HEADER_SIZE;
    for one in records {
        match left_behind(left, one) {
            Some(rest) => left = rest,
            None => return false,
        }
    }
    true
}

// Returns how many of so many octets a record leaves, if it has room in them.
fn left_behind(left: usize, one: &Record) -> Option<usize>
    ensures { MatchOption result (left < entry_size one.now) (λ rest. rest + entry_size one.now ≡ left) }
{
    if left < ENTRY_SIZE {
        return None;
    }
    let left = left - ENTRY_SIZE;
    if left < one.key.len() {
        return None;
    }
    let left = left - one.key.len();
    if left < one.content.len() {
        return None;
    }
    Some(left - one.content.len())
}
