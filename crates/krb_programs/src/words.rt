//! The file of random octets.

use byte_streams::Watched;
use std::fs::{self, Files};
use std::io::ErrorKind;

/// Opens a file of random octets. It has no buffer: each message takes its own octets and no more. It fails by the kind of the fault.
pub fn open_words<F: Files>(files: &F, path: &str) -> Result<Watched<F::File>, ErrorKind> {
    match fs::open(files, path) {
        Ok(file) => Ok(Watched::new(file)),
        Err(fault) => Err(fault.kind()),
    }
}
