//! The arguments of a program.
ghost use Rattle.std.specs.Prelude.{◌≡◌, ◌↔◌};

use std::env;
use std::io::ErrorKind;

/// Why the arguments aren't read.
#[derive(Clone, Copy, Debug, PartialEq, Eq)]
pub enum ArgumentsFault {
    /// One of them is no text.
    NotText,
    /// Memory ran out.
    Memory,
}

/// The arguments after the program's name. One that is no text is refused.
pub fn read_arguments(rt: &HostRuntime) -> Result<Vec<String>, ArgumentsFault> {
    let given = match env::args(rt) {
        Ok(given) => given,
        Err(fault) => return Err(arguments_fault(fault.kind())),
    };
    let mut arguments = Vec::new(rt.alloc());
    for argument in given.skip(1) {
        if arguments.push(argument).is_err() {
            return Err(ArgumentsFault::Memory);
        }
    }
    Ok(arguments)
}

// Why the system's arguments aren't read, by the kind of its fault.
fn arguments_fault(kind: ErrorKind) -> ArgumentsFault
    ensures { (result ≡ ArgumentsFault.Memory) ↔ (kind ≡ ErrorKind.OutOfMemory) }
{
    match kind {
        ErrorKind::OutOfMemory => ArgumentsFault::Memory,
        _ => ArgumentsFault::NotText,
    }
}
