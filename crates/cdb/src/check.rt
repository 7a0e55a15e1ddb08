//! Checking that a file has no other keys than the given ones, and no damage that a look-up could meet.
ghost use Rattle.std.specs.Prelude.{◌≡◌, ◌<◌, ◌≤◌, ◌+◌, ◌*◌, List, ℕ, Some, MatchBool, length};
ghost use Rattle.cdb.specs.Check.{has_data, Judges};
ghost use Rattle.cdb.specs.Check.{IsCut, IsCutKey, IsCutRecord, IsCutSlot, IsCutTable};
ghost use Rattle.cdb.specs.Check.{HasOther, IsOtherKey, IsOtherRecord, IsOtherSlot, IsOtherTable};
ghost use Rattle.cdb.specs.Check.{IsSound, IsSoundKey, IsSoundRecord, IsSoundSlot, IsSoundTable};
ghost use Rattle.cdb.specs.Find.{find_in};
ghost use Rattle.cdb.specs.Reading.{Gives};

use crate::fault::Fault;
use crate::file::ReadAt;
use crate::format::{KEY_LIMIT, PAIR_SIZE, TABLES};
use crate::tables::{look_up, pair_at};

/// The keys that a file may have.
pub trait Keys {
    // Which they are.
    ghost has: { Self → List ℕ → Type 0 };

    // Which are none of them.
    ghost lacks: { Self → List ℕ → Type 0 };

    /// Returns whether this is one of the keys.
    fn contains(&self, key: &[u8]) -> bool
        ensures { MatchBool result (has self.now key.now) (lacks self.now key.now) };
}

/// Returns true only if a look-up of each key meets no damage, and finds one of these keys or none. It reads each slot of each hash
/// table, and the key of each record that a slot has. It returns false only if a slot has a record with another key, or with a key of
/// more than [`KEY_LIMIT`] octets.
///
/// It refuses as `Damaged` only if a pointer, a slot or a record states a position past the file's end, and as `Failed` only if a read
/// fails.
pub fn has_no_other<F: ReadAt, K: Keys>(file: &F, keys: &K) -> Result<bool, Fault>
    ensures { (bytes : List ℕ) → F.content file.now ≡ Some bytes
        → Judges (F.fails file.now) result ((key : List ℕ) → IsSound (K.has keys.now) key (find_in bytes key))
        (HasOther (K.lacks keys.now) bytes) (IsCut bytes) ⊥ }
{
    let mut room = [0; KEY_LIMIT];
    are_sound_tables(file, keys, &mut room)
}

// Returns the same, with room for a key.
fn are_sound_tables<F: ReadAt, K: Keys>(file: &F, keys: &K, room: &mut [u8]) -> Result<bool, Fault>
    requires { length room.old ≡ KEY_LIMIT }
    ensures { (bytes : List ℕ) → F.content file.now ≡ Some bytes
        → Judges (F.fails file.now) result ((key : List ℕ) → IsSound (K.has keys.now) key (find_in bytes key))
        (HasOther (K.lacks keys.now) bytes) (IsCut bytes) ⊥ }
{
    for table in 0..TABLES {
        if !is_sound_table(file, keys, table, room)? {
            return Ok(false);
        }
    }
    Ok(true)
}

// Returns whether each slot of the hash table of this number is empty, or has the record of one of the keys.
fn is_sound_table<F: ReadAt, K: Keys>(
    file: &F,
    keys: &K,
    table: u32,
    room: &mut [u8],
) -> Result<bool, Fault>
    requires { length room.old ≡ KEY_LIMIT }
    ensures { (bytes : List ℕ) → F.content file.now ≡ Some bytes
        → Judges (F.fails file.now) result (IsSoundTable (K.has keys.now) bytes table)
        (IsOtherTable (K.lacks keys.now) bytes table) (IsCutTable bytes table) ⊥ }
{
    let (start, slots) = pair_at(file, u64::from(table) * PAIR_SIZE)?;
    are_sound_slots(file, keys, start, slots, room)
}

// Returns whether each of these slots, which begin at a position, is empty, or has the record of one of the keys.
fn are_sound_slots<F: ReadAt, K: Keys>(
    file: &F,
    keys: &K,
    start: u32,
    slots: u32,
    room: &mut [u8],
) -> Result<bool, Fault>
    requires { length room.old ≡ KEY_LIMIT }
    ensures { (bytes : List ℕ) → F.content file.now ≡ Some bytes
        → Judges (F.fails file.now) result ((slot : ℕ) → slot < slots → IsSoundSlot (K.has keys.now) bytes (start + PAIR_SIZE * slot))
        ((slot : ℕ) × (slot < slots) × IsOtherSlot (K.lacks keys.now) bytes (start + PAIR_SIZE * slot))
        ((slot : ℕ) × (slot < slots) × IsCutSlot bytes (start + PAIR_SIZE * slot)) ⊥ }
{
    for slot in 0..slots {
        if !is_sound_slot(
            file,
            keys,
            u64::from(start) + PAIR_SIZE * u64::from(slot),
            room,
        )? {
            return Ok(false);
        }
    }
    Ok(true)
}

// Returns whether the slot at a position is empty, or has the record of one of the keys.
fn is_sound_slot<F: ReadAt, K: Keys>(
    file: &F,
    keys: &K,
    position: u64,
    room: &mut [u8],
) -> Result<bool, Fault>
    requires { length room.old ≡ KEY_LIMIT }
    ensures { (bytes : List ℕ) → F.content file.now ≡ Some bytes
        → Judges (F.fails file.now) result (IsSoundSlot (K.has keys.now) bytes position)
        (IsOtherSlot (K.lacks keys.now) bytes position) (IsCutSlot bytes position) ⊥ }
{
    let (_hash, at) = pair_at(file, position)?;
    if at == 0 {
        return Ok(true);
    }
    is_sound_record(file, keys, at, room)
}

// Returns whether the record at a position has one of the keys.
fn is_sound_record<F: ReadAt, K: Keys>(
    file: &F,
    keys: &K,
    at: u32,
    room: &mut [u8],
) -> Result<bool, Fault>
    requires { length room.old ≡ KEY_LIMIT }
    ensures { (bytes : List ℕ) → F.content file.now ≡ Some bytes
        → Judges (F.fails file.now) result (IsSoundRecord (K.has keys.now) bytes at)
        (IsOtherRecord (K.lacks keys.now) bytes at) (IsCutRecord bytes at) ⊥ }
{
    let (key_size, _size) = pair_at(file, u64::from(at))?;
    let size = key_size as usize;
    if size > room.len() {
        return Ok(false);
    }
    is_sound_key(file, keys, u64::from(at) + PAIR_SIZE, &mut room[..size])
}

// Returns whether the octets at a position, as many as the room, are one of the keys.
fn is_sound_key<F: ReadAt, K: Keys>(
    file: &F,
    keys: &K,
    position: u64,
    room: &mut [u8],
) -> Result<bool, Fault>
    ensures { (bytes : List ℕ) → F.content file.now ≡ Some bytes
        → Judges (F.fails file.now) result (IsSoundKey (K.has keys.now) bytes position (length room.new))
        (IsOtherKey (K.lacks keys.now) bytes position (length room.new)) (IsCutKey bytes position (length room.new)) ⊥ }
{
    file.read_at(position, room)?;
    Ok(keys.contains(room))
}

/// Returns whether a look-up of a key, with `room` as its buffer, finds these data. The key has at most [`KEY_LIMIT`] octets.
///
/// It refuses as [`look_up`] does.
pub fn has_record<F: ReadAt>(
    file: &F,
    key: &[u8],
    content: &[u8],
    room: &mut [u8],
) -> Result<bool, Fault>
    requires { length key.now ≤ KEY_LIMIT }
    ensures { (bytes : List ℕ) → F.content file.now ≡ Some bytes
        → Gives (F.fails file.now) result (has_data (length room.new) bytes key.now content.now) }
{
    let Some(size) = look_up(file, key, room)? else {
        return Ok(false);
    };
    let found = &room[..size];
    Ok(found == content)
}
