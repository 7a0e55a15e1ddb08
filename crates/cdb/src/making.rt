//! Making the octets of a database.
ghost use Rattle.std.specs.Prelude.{◌≡◌, ◌+◌, ◌*◌, ◌^◌, ◌<◌, ◌++◌, IfOk, OnOk, length};
ghost use Rattle.cdb.specs.Database.{IsDatabase, pair_octets, record_octets, record_size, records_octets, table_octets};
ghost use Rattle.cdb.specs.Filling.{AreHashes, AreRising, AreTables, records_size, slots_from};
ghost use Rattle.cdb.specs.Hash.{hash_of};
ghost use Rattle.cdb.specs.Writing.{database_size};

use crate::filling::table_of;
use crate::format::{HEADER_SIZE, PAIR_SIZE, TABLES};
use crate::hash::hash_of;
use crate::records::Record;
use crate::slots::Slot;
use byte_streams::u32_le_bytes;
use std::alloc::{AllocError, Global};

/// Returns the octets of a database of these records. It is laid out as the stock tools do it: a hash table has twice as many slots as
/// records.
pub(crate) fn make(alloc: Global, records: &[Record]) -> Result<Vec<u8>, AllocError>
    requires { database_size records.now < 2 ^ 32 }
    ensures { IfOk result (λ bytes. IsDatabase bytes.items records.now) }
{
    let (slots, start) = slots_of(alloc, records)?;
    let (mut bytes, tables) = tables_of(alloc, &slots, start)?;
    put_records(&mut bytes, records)?;
    bytes.extend_from_slice(&tables)?;
    Ok(bytes)
}

// Returns a slot for each record, and the position behind the records.
fn slots_of(alloc: Global, records: &[Record]) -> Result<(Vec<Slot>, usize), AllocError>
    requires { database_size records.now < 2 ^ 32 }
    ensures slots { IfOk result (λ made. made.0.items ≡ slots_from HEADER_SIZE records.now) }
    ensures hashes { IfOk result (λ made. AreHashes made.0.items) }
    ensures end { IfOk result (λ made. made.1 ≡ HEADER_SIZE + records_size records.now) }
{
    let mut slots = Vec::new(alloc);
    let mut at = HEADER_SIZE;
    for one in records {
        slots.push(slot_of(one, at))?;
        at += size_of(one);
    }
    Ok((slots, at))
}

// Returns the slot of a record at a position.
fn slot_of(one: &Record, at: usize) -> Slot
    requires { at < 2 ^ 32 }
    ensures slot { result ≡ record { hash = hash_of one.now.key.items; at = at } }
    ensures hash { result.hash < 2 ^ 32 }
{
    Slot {
        hash: hash_of(&one.key),
        at: at as u32,
    }
}

// Returns how many octets a record has.
fn size_of(one: &Record) -> usize
    requires { record_size one.now < 2 ^ 32 }
    ensures { result ≡ record_size one.now }
{
    PAIR_SIZE as usize + (one.key.len() + one.content.len())
}

// Returns the pointers of the hash tables and their octets. The first table begins at a position.
fn tables_of(alloc: Global, slots: &[Slot], start: usize) -> Result<(Vec<u8>, Vec<u8>), AllocError>
    requires short { start + 2 * PAIR_SIZE * length slots.now < 2 ^ 32 }
    requires rising { AreRising 0 slots.now }
    ensures { IfOk result (λ made. AreTables TABLES start slots.now made.0.items made.1.items) }
{
    let mut pointers = Vec::new(alloc);
    let mut octets = Vec::new(alloc);
    for number in 0..TABLES {
        let cells = table_of(alloc, number, slots)?;
        put_pointer(&mut pointers, start + octets.len(), cells.len())?;
        put_slots(&mut octets, &cells)?;
    }
    Ok((pointers, octets))
}

// Appends a pointer: the position of a hash table, and the count of its slots.
fn put_pointer(bytes: &mut Vec<u8>, at: usize, count: usize) -> Result<(), AllocError>
    requires at { at < 2 ^ 32 }
    requires count { count < 2 ^ 32 }
    ensures { OnOk result (bytes.new.items ≡ bytes.old.items ++ pair_octets at count) }
{
    put_pair(bytes, at as u32, count as u32)
}

// Appends slots.
fn put_slots(bytes: &mut Vec<u8>, cells: &[Slot]) -> Result<(), AllocError>
    ensures { OnOk result (bytes.new.items ≡ bytes.old.items ++ table_octets cells.now) }
{
    for cell in cells {
        put_pair(bytes, cell.hash, cell.at)?;
    }
    Ok(())
}

// Appends records.
fn put_records(bytes: &mut Vec<u8>, records: &[Record]) -> Result<(), AllocError>
    requires { database_size records.now < 2 ^ 32 }
    ensures { OnOk result (bytes.new.items ≡ bytes.old.items ++ records_octets records.now) }
{
    for one in records {
        put_record(bytes, one)?;
    }
    Ok(())
}

// Appends a record: the length of its key, the length of its data, the key, and the data.
fn put_record(bytes: &mut Vec<u8>, one: &Record) -> Result<(), AllocError>
    requires { record_size one.now < 2 ^ 32 }
    ensures { OnOk result (bytes.new.items ≡ bytes.old.items ++ record_octets one.now) }
{
    put_pair(bytes, one.key.len() as u32, one.content.len() as u32)?;
    bytes.extend_from_slice(&one.key)?;
    bytes.extend_from_slice(&one.content)
}

// Appends two numbers, of four octets each, the lowest first.
fn put_pair(bytes: &mut Vec<u8>, a: u32, b: u32) -> Result<(), AllocError>
    ensures { OnOk result (bytes.new.items ≡ bytes.old.items ++ pair_octets a b) }
{
    bytes.extend_from_slice(&u32_le_bytes(a))?;
    bytes.extend_from_slice(&u32_le_bytes(b))
}
