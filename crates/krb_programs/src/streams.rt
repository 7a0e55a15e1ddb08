//! Standard input and standard output.

use byte_streams::Watched;
use std::alloc::AllocError;
use std::io::{BufReader, Stdin, Stdout};

/// Standard input and standard output, of which the failed calls are counted. Input has a buffer. Output has none, so what is written is out
/// before the next call.
#[derive(Drop)]
pub struct Streams {
    /// Standard input.
    pub reader: Watched<BufReader<Stdin>>,
    /// Standard output.
    pub writer: Watched<Stdout>,
}

impl Streams {
    /// Returns both, of which no call has failed yet. It fails only if memory runs out.
    pub fn open(rt: &HostRuntime) -> Result<Streams, AllocError> {
        match BufReader::new(rt.alloc(), rt.stdin()) {
            Ok(input) => Ok(Streams {
                reader: Watched::new(input),
                writer: Watched::new(rt.stdout()),
            }),
            Err(_) => Err(AllocError),
        }
    }
}
