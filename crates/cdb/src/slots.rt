//! The slots of hash tables.

// A slot of a hash table: the hash of a key, and the position of its record, or 0 where the slot is empty.
#[derive(Clone, Copy, Debug)]
pub(crate) struct Slot {
    pub(crate) hash: u32,
    pub(crate) at: u32,
}
