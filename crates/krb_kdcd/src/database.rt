//! Serving a database.
ghost use Rattle.std.specs.Prelude.{◌≡◌, IfErr};
ghost use Rattle.krb_kdcd.specs.Stops.{status_of};

use crate::PROGRAM;
use crate::arguments::Served;
use crate::moment::moment_of;
use crate::random::open_random;
use crate::serving::{serve_realm, serve_realm_at};
use crate::stop::{Device, Stop};
use crate::warning::warn_of_mode;
use byte_streams::{Sink, Source};
use krb_frames::ServeFault;
use krb_programs::say;
use krb_realm_files::{AtPath, FaultReporter, FileFault, FileRealm, find_realm};
use krb_time::Moment;
use std::fs::{File, Files};
use std::time::Clock;

// Says on standard error why a database can't be used.
#[derive(Clone, Copy)]
struct Reporter<'a, F: Eprint> {
    rt: &'a F,
    path: &'a str,
}

impl<'a, F: Eprint> FaultReporter for Reporter<'a, F> {
    fn report(&self, fault: FileFault) {
        let path = self.path;
        say(self.rt, PROGRAM, format_args!("{path}: {fault}"));
    }
}

/// Answers the frames of `reader` on `writer` for the realm of a database, which is opened anew for each message, as the clock is read for
/// each, unless a moment is given. [`serve_realm`] and [`serve_realm_at`] say what is served.
///
/// It stops before the first message if a text is given that names no moment, if the database has no realm that can be read, or if the file
/// of random octets can't be opened, or gives none. Its status is 1 then, nothing of `reader` was read, and nothing written to `writer`. If
/// the database can't be used later on, it stops at that message. What was wrong has been said on standard error then. It warns on standard
/// error where others may read or write the database.
pub(crate) fn serve_database<
    'a,
    F: Files<File = File> + Clock + Eprint + AllocGlobal,
    R: Source,
    W: Sink,
>(rt: &F, served: Served<'a>, reader: &mut R, writer: &mut W) -> Result<(), Stop<'a>>
    ensures { IfErr result (λ stop. status_of stop ≡ 1 → (reader.new ≡ reader.old) × (writer.new ≡ writer.old)) }
{
    let moment = moment_of(served.moment)?;
    let accounts = database_of(rt, served);
    if let Err(fault) = find_realm(rt.alloc(), &accounts) {
        return Err(stop_of(served.database, fault));
    }
    warn_of_mode(rt, served.database);
    let mut words = open_random(rt, served)?;
    let is_logged = served.is_logged;
    let octets = &mut words.octets;
    match serve_opened(rt, &accounts, is_logged, moment, octets, reader, writer) {
        Ok(_) => Ok(()),
        Err(fault) => {
            let device = device_of(words.path, fault, Source::failures(&words.octets));
            Err(Stop::Serving(device, fault))
        }
    }
}

// Returns the database that the arguments name.
fn database_of<'f, 'p, F: Files<File = File>>(files: &'f F, served: Served<'p>) -> AtPath<'f, 'p, F>
    ensures { result.path.now ≡ served.entry.database.now }
{
    AtPath {
        files,
        path: served.database,
    }
}

// Serves the realm of a database, at this moment or at those of the clock.
fn serve_opened<
    F: Files<File = File> + Clock + Eprint + AllocGlobal,
    K: Source,
    R: Source,
    W: Sink,
>(
    rt: &F,
    accounts: &AtPath<'_, '_, F>,
    is_logged: bool,
    moment: Option<Moment>,
    words: &mut K,
    reader: &mut R,
    writer: &mut W,
) -> Result<u64, ServeFault> {
    let alloc = rt.alloc();
    let faults = Reporter {
        rt,
        path: accounts.path,
    };
    let realm = FileRealm {
        accounts,
        faults: &faults,
    };
    match moment {
        Some(moment) => {
            serve_realm_at(alloc, rt, &realm, is_logged, moment, words, reader, writer)
        }
        None => serve_realm(alloc, rt, &realm, is_logged, words, reader, writer),
    }
}

// Why the database can't be used, or that memory ran out.
fn stop_of(path: &str, fault: Option<FileFault>) -> Stop<'_> {
    match fault {
        Some(fault) => Stop::Database(path, fault),
        None => Stop::Memory,
    }
}

// The device at which serving stopped: the random octets where they ended, or where a read of them failed.
fn device_of(words: &str, fault: ServeFault, failures: u64) -> Device<'_> {
    match fault {
        ServeFault::NoWords => Device::Words(words),
        ServeFault::Read if failures > 0 => Device::Words(words),
        _ => Device::Stream,
    }
}
