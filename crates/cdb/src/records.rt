//! Records, and whether a file answers as they do.
ghost use Rattle.std.specs.Prelude.{◌≡◌, ◌<◌, List, ℕ, Some, MatchBool, get_or, length};
ghost use Rattle.std.specs.List.{All, Any};
ghost use Rattle.std.specs.Cmp.Lexicographic.{slice_cmp};
ghost use Rattle.std.specs.Ordering.{nat_cmp};
ghost use Rattle.cdb.specs.Check.{Judges};
ghost use Rattle.cdb.specs.Records.{Answers, Differs, Has, Holds, IsDamaged, IsRefused, IsUnheld, Lacks};

use crate::check::{Keys, has_no_other, has_record};
use crate::fault::Fault;
use crate::file::ReadAt;
use crate::format::KEY_LIMIT;
use std::cmp::Ordering;

/// A key with its data.
#[derive(Debug, Drop)]
pub struct Record {
    /// The key.
    pub key: Vec<u8>,
    /// The data.
    pub content: Vec<u8>,
}

/// Records in the order of their keys, octet by octet. Their keys are the [`Keys`] that a file may have.
#[derive(Clone, Copy)]
pub struct Sorted<'a> {
    /// The records.
    pub records: &'a [Record],
}

impl Keys for Sorted<'_> {
    ghost use Rattle.cdb.specs.Records.{Has, Lacks};
    ghost use Rattle.cdb.specs.HeldRecords.{held_records};

    ghost has = { λ s key. Has (held_records s) key };

    ghost lacks = { λ s key. Lacks (held_records s) key };

    fn contains(&self, key: &[u8]) -> bool {
        is_among(self.records, key)
    }
}

// Returns whether one of the records, which are in the order of their keys, has the key. It is a binary search.
fn is_among(records: &[Record], key: &[u8]) -> bool
    ensures { MatchBool result (Has records.now key.now) (Lacks records.now key.now) }
{
    let mut low = 0;
    let mut high = records.len();
    while low < high {
        let middle = low + (high - low) / 2;
        match order_at(records, middle, key) {
            Ordering::Less => low = middle + 1,
            Ordering::Equal => return true,
            Ordering::Greater => high = middle,
        }
    }
    false
}

// Returns the order of the key of the record at an index and the key.
fn order_at(records: &[Record], index: usize, key: &[u8]) -> Ordering
    requires { index < length records.now }
    ensures { (d : Record) → result ≡ slice_cmp nat_cmp (get_or records.now index d).key.items key.now }
{
    order_of(&records[index], key)
}

// Returns the order of the record's key and the key.
pub(crate) fn order_of(one: &Record, key: &[u8]) -> Ordering
    ensures { result ≡ slice_cmp nat_cmp one.now.key.items key.now }
{
    one.key.as_slice().cmp(key)
}

/// Returns true only if the file answers each key as these records do, which are in the order of their keys: with the data of the
/// first record that has the key, or with none if no record has it. Each look-up is one with `room` as its buffer, which has to be as
/// long as the longest data. Any maker's file may be judged.
///
/// It returns false only if a slot has a record with another key, if a look-up of a record's key finds no data or others, or if a key has
/// more than [`KEY_LIMIT`] octets. Of records out of order a key that is theirs may count as another. It refuses as `Damaged` only if a
/// position that it reads is past the file's end, as `Long` only if the data of a key are longer than `room`, and as `Failed` only if a
/// read fails.
pub fn answers_as<F: ReadAt>(file: &F, records: &[Record], room: &mut [u8]) -> Result<bool, Fault>
    ensures { (bytes : List ℕ) → F.content file.now ≡ Some bytes
        → Judges (F.fails file.now) result (Answers (length room.new) bytes records.now) (Differs (length room.new) bytes records.now)
        (IsDamaged (length room.new) bytes records.now)
        (Any (IsRefused Fault.Long (length room.new) bytes) records.now) }
{
    let sorted = Sorted { records };
    if !has_no_other(file, &sorted)? {
        return Ok(false);
    }
    has_records(file, records, room)
}

// Returns whether a look-up of each record's key finds its data.
fn has_records<F: ReadAt>(file: &F, records: &[Record], room: &mut [u8]) -> Result<bool, Fault>
    ensures { (bytes : List ℕ) → F.content file.now ≡ Some bytes
        → Judges (F.fails file.now) result (All (Holds (length room.new) bytes) records.now)
        (Any (IsUnheld (length room.new) bytes) records.now)
        (Any (IsRefused Fault.Damaged (length room.new) bytes) records.now)
        (Any (IsRefused Fault.Long (length room.new) bytes) records.now) }
{
    for record in records {
        if !holds(file, record, room)? {
            return Ok(false);
        }
    }
    Ok(true)
}

// Returns whether a look-up of the record's key finds its data.
fn holds<F: ReadAt>(file: &F, one: &Record, room: &mut [u8]) -> Result<bool, Fault>
    ensures { (bytes : List ℕ) → F.content file.now ≡ Some bytes
        → Judges (F.fails file.now) result (Holds (length room.new) bytes one.now) (IsUnheld (length room.new) bytes one.now)
        (IsRefused Fault.Damaged (length room.new) bytes one.now) (IsRefused Fault.Long (length room.new) bytes one.now) }
{
    if one.key.len() > KEY_LIMIT {
        return Ok(false);
    }
    has_record(file, &one.key, &one.content, room)
}
