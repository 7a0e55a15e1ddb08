//! What a client's request takes from the machine: random octets, and a moment.
ghost use Rattle.std.specs.Prelude.{◌≡◌, Ok, IfOk, IfSome, length};

use crate::stop::{Stop, failed};
use krb_time::{Moment, now};
use std::alloc::Global;
use std::fs::{self, File};
use std::io::Read;

/// How many random octets a client's request or token takes.
pub const WORDS_TAKEN: usize = 96;

/// A file of random octets, of which each request or token takes its own.
#[derive(Drop)]
pub struct RandomFile<'a> {
    file: File,
    path: &'a str,
}

impl<'a> RandomFile<'a> {
    /// Opens the file of this path.
    pub fn open(rt: &HostRuntime, path: &'a str) -> Result<RandomFile<'a>, Stop> {
        match fs::open(rt, path) {
            Ok(file) => Ok(RandomFile { file, path }),
            Err(fault) => Err(failed(rt.alloc(), format_args!("{path} can't be read: {fault}"))),
        }
    }

    /// Takes the next random octets. `taker` names in the failure what takes them, as `request`.
    pub fn take_words(&self, alloc: Global, taker: &str) -> Result<[u8; WORDS_TAKEN], Stop>
        ensures { IfOk result (λ words. length words ≡ WORDS_TAKEN) }
    {
        let mut words = [0; WORDS_TAKEN];
        if (&self.file).read_exact(&mut words).is_err() {
            return Err(failed(
                alloc,
                format_args!(
                    "{}: expected {WORDS_TAKEN} random octets for each {taker}",
                    self.path
                ),
            ));
        }
        Ok(words)
    }
}

/// Returns the moment that is set, or else the clock's.
pub fn moment_or_now(rt: &HostRuntime, set: Option<Moment>) -> Result<Moment, Stop>
    ensures { IfSome set (λ moment. result ≡ Ok moment) }
{
    let moment = match set {
        Some(moment) => Some(moment),
        None => now(rt),
    };
    match moment {
        Some(moment) => Ok(moment),
        None => Err(failed(
            rt.alloc(),
            "the clock can't be read: expected a time before the year 10000",
        )),
    }
}
