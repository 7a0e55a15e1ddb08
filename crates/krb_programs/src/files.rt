//! Files that are read up to a stated length.

use std::fs::{self, Files};
use std::io::{self, Read};

/// The first octets of the file at a path: all of them, or this many where it has more.
pub fn read_front<F: Files + AllocGlobal>(rt: &F, path: &str, count: u64) -> io::Result<Vec<u8>> {
    let mut octets = Vec::new(rt.alloc());
    let file = fs::open(rt, path)?;
    file.take(count).read_to_end(&mut octets)?;
    Ok(octets)
}
