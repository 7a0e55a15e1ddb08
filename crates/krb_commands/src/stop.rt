//! Why a command was not done.
ghost use Rattle.std.specs.Prelude.{◌≡◌};
ghost use Rattle.krb_commands.specs.Stops.{IsFailure, IsRefusal, IsUsage};
ghost use Rattle.krb_commands.specs.declared.stop.Stop.TheVariants as stop;

use crate::printable::Printable;
use std::alloc::{AllocError, AllocFailed, Global};
use std::fmt;

/// Why a command was not done, in one line that shows no secret. It is displayed as [`Printable`] shows it.
#[derive(Debug, Drop)]
pub enum Stop {
    /// What the command was given, or what it was answered, was refused.
    Refused(String),
    /// Another run writes, or a file or a stream can't be read or written.
    Failed(String),
    /// The arguments are none that the program takes.
    Usage(String),
    /// Memory ran out.
    Memory,
}

impl Stop {
    ghost use Rattle.krb_commands.specs.Stops.{status_of};

    /// The status of a program: 1 for a refusal, and else 2.
    pub fn status(&self) -> u8
        ensures { result ≡ status_of self.now }
    {
        match self {
            Stop::Refused(_) => 1,
            Stop::Failed(_) | Stop::Usage(_) | Stop::Memory => 2,
        }
    }
}

impl fmt::Display for Stop {
    ghost use Rattle.std.specs.Prelude.{Some};
    ghost use Rattle.krb_commands.specs.Stops.{stop_text};

    ghost output = { λ stop. Some (stop_text stop) };

    fn fmt<W: fmt::Write>(&self, f: &mut fmt::Formatter<W>) -> fmt::Result {
        match self {
            Stop::Refused(text) | Stop::Failed(text) | Stop::Usage(text) => {
                let text = Printable(text.as_bytes());
                write!(f, "{text}")
            }
            Stop::Memory => f.write_str("out of memory"),
        }
    }
}

impl From<AllocError> for Stop {
    ghost from_gives = { λ _ made. made ≡ stop.Memory };

    fn from(_error: AllocError) -> Stop {
        Stop::Memory
    }
}

impl<T: Drop> From<AllocFailed<T>> for Stop {
    ghost from_gives = { λ _ made. made ≡ stop.Memory };

    fn from(_error: AllocFailed<T>) -> Stop {
        Stop::Memory
    }
}

/// A refusal in these words.
pub fn refused<D: fmt::Display + Drop>(alloc: Global, words: D) -> Stop
    ensures { IsRefusal (D.output words) result }
{
    match format!(in alloc; "{words}") {
        Ok(text) => Stop::Refused(text),
        Err(_) => Stop::Memory,
    }
}

/// A failure in these words.
pub fn failed<D: fmt::Display + Drop>(alloc: Global, words: D) -> Stop
    ensures { IsFailure (D.output words) result }
{
    match format!(in alloc; "{words}") {
        Ok(text) => Stop::Failed(text),
        Err(_) => Stop::Memory,
    }
}

/// The stop of a program that was given other arguments, in these words.
pub fn usage<D: fmt::Display + Drop>(alloc: Global, words: D) -> Stop
    ensures { IsUsage (D.output words) result }
{
    match format!(in alloc; "{words}") {
        Ok(text) => Stop::Usage(text),
        Err(_) => Stop::Memory,
    }
}
