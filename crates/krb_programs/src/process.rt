//! What a program is given by its process.

use crate::arguments::{ArgumentsFault, read_arguments};
use crate::streams::Streams;

/// What a program is given by its process: its arguments, standard input and standard output.
#[derive(Drop)]
pub struct Process {
    /// The arguments after the program's name.
    pub arguments: Vec<String>,
    /// Standard input and standard output.
    pub streams: Streams,
}

impl Process {
    /// Returns what the process has. An argument that is no text is refused.
    pub fn open(rt: &HostRuntime) -> Result<Process, ArgumentsFault> {
        let arguments = read_arguments(rt)?;
        match Streams::open(rt) {
            Ok(streams) => Ok(Process { arguments, streams }),
            Err(_) => Err(ArgumentsFault::Memory),
        }
    }
}
