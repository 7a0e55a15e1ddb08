//! The numbers of the format.

/// How many hash tables a file has, and how many pointers its header.
pub const TABLES: u32 = 256;

/// How many octets a pointer, a slot, and the two lengths of a record have: two numbers of four octets each.
pub const PAIR_SIZE: u64 = 8;

/// How many octets the header has: `TABLES` pointers of `PAIR_SIZE` octets. The first record follows it.
pub const HEADER_SIZE: usize = 2_048;

/// The hash of no octet, with which the hash of a key starts.
pub const HASH_START: u32 = 5_381;

/// How many octets a key has at most in this implementation. The format itself has no such limit.
pub const KEY_LIMIT: usize = 4_096;
