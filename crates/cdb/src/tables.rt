//! Looking a key up.
ghost use Rattle.std.specs.Prelude.{◌≡◌, ◌≤◌, ◌<◌, ◌+◌, ◌/◌, ◌%◌, List, ℕ, Ok, Some, IfOk, IfSome, length};
ghost use Rattle.cdb.specs.Reading.{Gives, IsFilled};
ghost use Rattle.cdb.specs.Find.{GivesData, find_in, following, in_record, in_slot, looked_up, pair_at, probed, stands_at};

use crate::fault::Fault;
use crate::file::ReadAt;
use crate::format::{KEY_LIMIT, PAIR_SIZE, TABLES};
use crate::hash::hash_of;
use byte_streams::u32_le;

/// How many octets of a record's front are read at once: its two lengths and its key.
const FRONT_LIMIT: usize = PAIR_SIZE as usize + KEY_LIMIT;

/// Where the data of a key are.
#[derive(Clone, Copy, Debug, PartialEq, Eq)]
pub struct Found {
    /// The position of the first octet.
    pub position: u64,
    /// The count of octets.
    pub size: u32,
}

/// What a slot of a hash table says of a key.
#[derive(Clone, Copy, Debug)]
pub(crate) enum SlotOutcome {
    /// Its record has the key.
    Found(Found),
    /// It is empty: no later slot has the key.
    Empty,
    /// Its record has another key.
    Other,
}

/// Returns the two numbers at a position: of a pointer, of a slot, or the two lengths of a record.
pub(crate) fn pair_at<F: ReadAt>(file: &F, position: u64) -> Result<(u32, u32), Fault>
    ensures { (bytes : List ℕ) → F.content file.now ≡ Some bytes → Gives (F.fails file.now) result (pair_at position bytes) }
{
    let mut buffer = [0; PAIR_SIZE as usize];
    file.read_at(position, &mut buffer)?;
    Ok((u32_le(&buffer, 0), u32_le(&buffer, 4)))
}

/// Returns whether the octets at a position are the key.
fn stands_at<F: ReadAt>(file: &F, position: u64, key: &[u8]) -> Result<bool, Fault>
    requires { length key.now ≤ KEY_LIMIT }
    ensures { (bytes : List ℕ) → F.content file.now ≡ Some bytes → Gives (F.fails file.now) result (stands_at position key.now bytes) }
{
    let mut room = [0; KEY_LIMIT];
    stands_within(file, position, key, &mut room[..key.len()])
}

/// Returns the same, with a buffer for as many octets.
fn stands_within<F: ReadAt>(
    file: &F,
    position: u64,
    key: &[u8],
    buffer: &mut [u8],
) -> Result<bool, Fault>
    requires { length buffer.old ≡ length key.now }
    ensures { (bytes : List ℕ) → F.content file.now ≡ Some bytes → Gives (F.fails file.now) result (stands_at position key.now bytes) }
{
    file.read_at(position, buffer)?;
    Ok(*buffer == *key)
}

/// Returns what the slot at a position says of a key with this hash.
fn in_slot<F: ReadAt>(file: &F, key: &[u8], hash: u32, position: u64) -> Result<SlotOutcome, Fault>
    requires { length key.now ≤ KEY_LIMIT }
    ensures { (bytes : List ℕ) → F.content file.now ≡ Some bytes → Gives (F.fails file.now) result (in_slot key.now hash position bytes) }
{
    let (slot_hash, at) = pair_at(file, position)?;
    if at == 0 {
        return Ok(SlotOutcome::Empty);
    }
    if slot_hash != hash {
        return Ok(SlotOutcome::Other);
    }
    in_record(file, key, at)
}

/// Returns whether the record at a position has the key, and where its data are.
fn in_record<F: ReadAt>(file: &F, key: &[u8], at: u32) -> Result<SlotOutcome, Fault>
    requires { length key.now ≤ KEY_LIMIT }
    ensures { (bytes : List ℕ) → F.content file.now ≡ Some bytes → Gives (F.fails file.now) result (in_record key.now at bytes) }
{
    let mut room = [0; FRONT_LIMIT];
    in_front(file, key, at, &mut room[..PAIR_SIZE as usize + key.len()])
}

/// Returns the same, with a buffer for the record's two lengths and as many octets of its key as `key` has. One read fills it. If the
/// file ends before, the record may still be whole, with a shorter key.
fn in_front<F: ReadAt>(
    file: &F,
    key: &[u8],
    at: u32,
    buffer: &mut [u8],
) -> Result<SlotOutcome, Fault>
    requires limit { length key.now ≤ KEY_LIMIT }
    requires size { length buffer.old ≡ PAIR_SIZE + length key.now }
    ensures { (bytes : List ℕ) → F.content file.now ≡ Some bytes → Gives (F.fails file.now) result (in_record key.now at bytes) }
{
    match file.read_at(u64::from(at), buffer) {
        Ok(()) => Ok(of_front(buffer, key, at)),
        Err(Fault::Damaged) => in_parts(file, key, at),
        Err(Fault::Failed(kind)) => Err(Fault::Failed(kind)),
        Err(Fault::Long) => Err(Fault::Long),
    }
}

/// Returns whether a record has the key, and where its data are, by its front of so many octets.
fn of_front(front: &[u8], key: &[u8], at: u32) -> SlotOutcome
    requires { length front.now ≡ PAIR_SIZE + length key.now }
    ensures { (bytes : List ℕ) → IsFilled at bytes front.now → in_record key.now at bytes ≡ Ok result }
{
    let key_size = u32_le(front, 0);
    if key_size as usize != key.len() {
        return SlotOutcome::Other;
    }
    if &front[PAIR_SIZE as usize..] != key {
        return SlotOutcome::Other;
    }
    let position = u64::from(at) + PAIR_SIZE + u64::from(key_size);
    SlotOutcome::Found(Found {
        position,
        size: u32_le(front, 4),
    })
}

/// Returns whether the record at a position has the key, and where its data are. It reads the record's two lengths first.
fn in_parts<F: ReadAt>(file: &F, key: &[u8], at: u32) -> Result<SlotOutcome, Fault>
    requires { length key.now ≤ KEY_LIMIT }
    ensures { (bytes : List ℕ) → F.content file.now ≡ Some bytes → Gives (F.fails file.now) result (in_record key.now at bytes) }
{
    let (key_size, size) = pair_at(file, u64::from(at))?;
    if key_size as usize != key.len() {
        return Ok(SlotOutcome::Other);
    }
    let front = u64::from(at) + PAIR_SIZE;
    if !stands_at(file, front, key)? {
        return Ok(SlotOutcome::Other);
    }
    let position = front + u64::from(key_size);
    Ok(SlotOutcome::Found(Found { position, size }))
}

/// Returns the slot that follows this one. The first slot follows the last.
fn following(slot: u32, slots: u32) -> u32
    requires { slot < slots }
    ensures value { result ≡ following slot slots }
    ensures within { result < slots }
{
    if slot + 1 == slots { 0 } else { slot + 1 }
}

/// Looks a key up in a hash table that begins at a position and has one slot or more.
fn probe<F: ReadAt>(
    file: &F,
    key: &[u8],
    hash: u32,
    start: u32,
    slots: u32,
) -> Result<Option<Found>, Fault>
    requires key { length key.now ≤ KEY_LIMIT }
    requires some { 0 < slots }
    ensures { (bytes : List ℕ) → F.content file.now ≡ Some bytes
        → Gives (F.fails file.now) result (probed key.now hash start slots bytes (hash / TABLES % slots) slots) }
{
    let mut slot = hash / TABLES % slots;
    for _ in 0..slots {
        let position = u64::from(start) + PAIR_SIZE * u64::from(slot);
        match in_slot(file, key, hash, position)? {
            SlotOutcome::Found(found) => return Ok(Some(found)),
            SlotOutcome::Empty => return Ok(None),
            SlotOutcome::Other => slot = following(slot, slots),
        }
    }
    Ok(None)
}

/// Returns where the data of a key are, or `None` if the file doesn't have the key. The key has at most [`KEY_LIMIT`] octets.
///
/// It refuses as `Damaged` if a pointer, a slot or a record states a position past the file's end, and as `Failed` if a read fails.
/// It takes no memory. It reads at most as many slots as the key's hash table has.
pub fn find<F: ReadAt>(file: &F, key: &[u8]) -> Result<Option<Found>, Fault>
    requires { length key.now ≤ KEY_LIMIT }
    ensures { (bytes : List ℕ) → F.content file.now ≡ Some bytes → Gives (F.fails file.now) result (find_in bytes key.now) }
{
    let hash = hash_of(key);
    let (start, slots) = pair_at(file, u64::from(hash % TABLES) * PAIR_SIZE)?;
    if slots == 0 {
        return Ok(None);
    }
    probe(file, key, hash, start, slots)
}

/// Puts the data of a key at the front of `buffer`, and returns their count of octets, or `None` if the file doesn't have the key. The
/// key has at most [`KEY_LIMIT`] octets.
///
/// It refuses as [`find`] does, and as `Long` if the data are longer than `buffer`. It takes no memory.
pub fn look_up<F: ReadAt>(file: &F, key: &[u8], buffer: &mut [u8]) -> Result<Option<usize>, Fault>
    requires { length key.now ≤ KEY_LIMIT }
    ensures within { IfOk result (λ found. IfSome found (λ n. n ≤ length buffer.new)) }
    ensures content { (bytes : List ℕ) → F.content file.now ≡ Some bytes
        → GivesData (F.fails file.now) result buffer.new (looked_up (length buffer.new) bytes key.now) }
{
    let Some(found) = find(file, key)? else {
        return Ok(None);
    };
    let size = found.size as usize;
    if size > buffer.len() {
        return Err(Fault::Long);
    }
    file.read_at(found.position, &mut buffer[..size])?;
    Ok(Some(size))
}
