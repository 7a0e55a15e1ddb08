//! Constant databases: one file of records, each a key with its data, in the format cdb (D. J. Bernstein, 'A structure for constant
//! databases'). The stock tools `cdb` and `cdbmake` read and write such files.
//!
//! A file is a header, records, and hash tables. The header is 256 pointers, each the position of a hash table and the count of its
//! slots. A slot is a hash and the position of a record; the position 0 says that the slot is empty. A record is the length of its
//! key, the length of its data, the key, and the data. Each of these numbers has four octets, the lowest first. `specs/Database.antt`
//! states which octets are a database of given records, and `specs/Find.antt` what a file's octets have under a key.
//!
//! `find` and `look_up` return what the file's octets have under a key, or a fault by its name. A position past the file's end is
//! `Damaged`. `answers_as` returns true only if a look-up of each key, whichever it is, finds what the given records say, and
//! `has_no_other` only if each finds one of the given keys or none. Both return false only if a slot has a record with another key or
//! too long a one, and `answers_as` also if a record isn't found. Each refusal of theirs has its reason in the file's octets, or a read
//! failed. `write` returns a database of its records (`IsDatabase`), which answers as they do. It refuses only records of which one is
//! too long, two neighbours are out of order or differ under one key, or all take 2^32 octets or more, unless memory runs out. In a
//! database of records a search finds the first record with a key (law `finds_the_first`). No look-up and no check takes memory. What a
//! [`Headed`] file reads, also in the header that it has read before, is what the file within has there. The promises are of files whose
//! octets stay as they are while they are open.
#![tactic(auto)]

mod check;
mod fault;
mod file;
mod filling;
mod format;
mod hash;
mod headed;
mod laws;
mod making;
mod records;
mod slots;
mod tables;
mod writing;

pub use check::{Keys, has_no_other, has_record};
pub use fault::Fault;
pub use file::{FileAt, ReadAt};
pub use format::{HASH_START, HEADER_SIZE, KEY_LIMIT, PAIR_SIZE, TABLES};
pub use hash::hash_of;
pub use headed::Headed;
pub use laws::finds_the_first;
pub use records::{Record, Sorted, answers_as};
pub use tables::{Found, find, look_up};
pub use writing::{WriteFault, write};
