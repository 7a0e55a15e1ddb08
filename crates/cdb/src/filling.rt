//! Filling hash tables.
ghost use Rattle.std.specs.Prelude.{◌≡◌, ◌≢◌, ◌*◌, ◌%◌, ◌^◌, ◌<◌, ◌≤◌, IfOk, length, replicate};
ghost use Rattle.cdb.specs.Filling.{AreRising, IsFilled, IsFree, IsPut, empty, full_count, own_count};
ghost use Rattle.cdb.specs.Find.{following};

use crate::format::TABLES;
use crate::slots::Slot;
use std::alloc::{AllocError, Global};

const EMPTY: Slot = Slot { hash: 0, at: 0 };

/// Returns the hash table of this number, with twice as many slots as it has of the given ones. They are put into it in their order.
pub(crate) fn table_of(alloc: Global, number: u32, slots: &[Slot]) -> Result<Vec<Slot>, AllocError>
    requires few { length slots.now < 2 ^ 32 }
    requires rising { AreRising 0 slots.now }
    ensures filled { IfOk result (λ cells. IsFilled number slots.now cells.items) }
    ensures size { IfOk result (λ cells. length cells.items ≡ 2 * own_count number slots.now) }
{
    let own = count_own(number, slots);
    let cells = vec![in alloc; EMPTY; 2 * own]?;
    Ok(fill(cells, number, slots))
}

// Returns how many of the slots belong to the hash table of this number.
fn count_own(number: u32, slots: &[Slot]) -> usize
    ensures value { result ≡ own_count number slots.now }
    ensures within { result ≤ length slots.now }
{
    let mut own = 0;
    for slot in slots {
        if slot.hash % TABLES == number {
            own += 1;
        }
    }
    own
}

// Puts those of the slots that belong to the hash table of this number into its empty cells.
fn fill(mut cells: Vec<Slot>, number: u32, slots: &[Slot]) -> Vec<Slot>
    requires rising { AreRising 0 slots.now }
    requires size { length cells.items ≡ 2 * own_count number slots.now }
    requires cleared { cells.items ≡ replicate (length cells.items) empty }
    ensures filled { IsFilled number slots.now result.items }
    ensures size { length result.items ≡ 2 * own_count number slots.now }
{
    for slot in slots {
        put(&mut cells, number, *slot);
    }
    cells
}

// Puts a slot into the first empty cell that a search for its hash meets, if it belongs to the hash table of this number.
fn put(cells: &mut Vec<Slot>, number: u32, slot: Slot)
    requires { slot.hash % TABLES ≡ number → full_count cells.old.items < length cells.old.items }
    ensures own { slot.hash % TABLES ≡ number → IsPut slot cells.old.items cells.new.items }
    ensures other { slot.hash % TABLES ≢ number → cells.new.items ≡ cells.old.items }
{
    if slot.hash % TABLES != number {
        return;
    }
    let free = free_cell(cells, slot.hash);
    cells[free] = slot;
}

// Returns the number of the first empty cell that a search for the hash meets.
fn free_cell(cells: &[Slot], hash: u32) -> usize
    requires { full_count cells.now < length cells.now }
    ensures free { IsFree cells.now hash result }
    ensures within { result < length cells.now }
{
    let mut number = (hash / TABLES) as usize % cells.len();
    for _ in 0..cells.len() {
        if cells[number].at == 0 {
            return number;
        }
        number = next(number, cells.len());
    }
    number
}

// Returns the number that follows, of so many. The first follows the last.
fn next(number: usize, count: usize) -> usize
    requires { number < count }
    ensures value { result ≡ following number count }
    ensures within { result < count }
{
    if number + 1 == count { 0 } else { number + 1 }
}
