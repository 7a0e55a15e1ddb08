//! A run of the program with arguments.
ghost use Rattle.std.specs.Prelude.{◌≡◌, IfErr};
ghost use Rattle.krb_settings_kdc.specs.Stops.{status_of};

use crate::run::run_settings;
use crate::settings::settings_at;
use crate::stop::Stop;
use byte_streams::{Sink, Source, Watched};
use krb_frames::ServeFault;
use krb_programs::open_words;
use krb_settings::SETTINGS_LIMIT;
use krb_time::{Moment, now};
use std::fs::Files;
use std::io::ErrorKind;
use std::time::Clock;

/// A run of the program with these arguments: a settings file, a file of random bytes, and the moment of all messages: `now`,
/// or `YYYYMMDDHHMMSSZ` (RFC 4120, section 5.2.3). It gives how many frames were answered.
///
/// What is wrong is found in this order: the number of arguments and the moment, the reading of the settings file, the
/// opening of the file of random bytes, what the settings file holds. Where it stops with status 1, nothing of `reader` was read, and nothing written
/// to `writer`.
pub fn run_with_arguments<F: Files + Clock + AllocGlobal, R: Source, W: Sink>(
    rt: &F,
    arguments: &[String],
    reader: &mut R,
    writer: &mut W,
) -> Result<u64, Stop>
    ensures { IfErr result (λ stop. status_of stop ≡ 1 → (reader.new ≡ reader.old) × (writer.new ≡ writer.old)) }
{
    let [settings_path, words_path, moment] = arguments else {
        return Err(Stop::BadArguments);
    };
    let Some(moment) = moment_of(rt, moment.as_str()) else {
        return Err(Stop::BadArguments);
    };
    let settings = short_settings(rt, settings_path.as_str())?;
    let mut words = words_at(rt, words_path.as_str())?;
    run_settings(rt.alloc(), &settings, moment, &mut words, reader, writer)
}

// The moment that the text names. For `now` the clock is read.
fn moment_of<C: Clock>(clock: &C, text: &str) -> Option<Moment> {
    if text == "now" {
        now(clock)
    } else {
        Moment::from_text(text.as_bytes())
    }
}

// The octets of a settings file that isn't too long.
fn short_settings<F: Files + AllocGlobal>(rt: &F, path: &str) -> Result<Vec<u8>, Stop> {
    match settings_at(rt, path) {
        Ok(octets) if octets.len() <= SETTINGS_LIMIT => Ok(octets),
        Ok(_) => Err(Stop::BadSettings),
        Err(fault) => Err(stop_by(fault.kind(), Stop::BadSettings)),
    }
}

// The opened file of random octets.
fn words_at<F: Files>(files: &F, path: &str) -> Result<Watched<F::File>, Stop> {
    match open_words(files, path) {
        Ok(words) => Ok(words),
        Err(kind) => Err(stop_by(kind, Stop::BadArguments)),
    }
}

// Why the program stops after a failed call: memory ran out, or else `otherwise`.
fn stop_by(kind: ErrorKind, otherwise: Stop) -> Stop {
    match kind {
        ErrorKind::OutOfMemory => Stop::Fault(ServeFault::Memory),
        _ => otherwise,
    }
}
