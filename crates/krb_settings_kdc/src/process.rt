//! The program itself: what it is given by its process.

use crate::PROGRAM;
use crate::console::run_with_arguments;
use crate::stop::Stop;
use byte_streams::{Sink, Source, Watched};
use krb_crypto::CipherSuite;
use krb_frames::{ServeFault, serve_at};
use krb_memory_realms::{Answering, Realm, Settings};
use krb_programs::{Process, stop_program};
use krb_realm_accounts::{USUAL_LIFETIME, USUAL_SKEW};
use krb_time::Moment;
use std::alloc::Global;
use std::io;
use std::process::ExitCode;
use x509_keys::NoKeys;

/// The moment of the stored run.
const MOMENT: &[u8; 15] = b"20000101000000Z";

/// The whole program over its process: it answers the frames of standard input on standard output, as its arguments say. It
/// says on standard error in one line why it stopped, and returns its status.
///
/// With arguments it is [`run_with_arguments`]. Without, it serves the stored run, at one fixed moment and with random bytes that are
/// zero. Its realm is `R`, with no account beside its own service, whose key has 32 zero bytes.
pub fn run_process(rt: &HostRuntime) -> ExitCode {
    match run(rt) {
        Ok(_) => ExitCode::SUCCESS,
        Err(stop) => stop_program(rt, PROGRAM, stop, stop.status()),
    }
}

// Serves standard input, as the arguments say, and gives how many frames were answered.
fn run(rt: &HostRuntime) -> Result<u64, Stop> {
    let Process {
        arguments,
        mut streams,
    } = Process::open(rt)?;
    if arguments.is_empty() {
        return serve_stored(rt.alloc(), &mut streams.reader, &mut streams.writer);
    }
    run_with_arguments(rt, &arguments, &mut streams.reader, &mut streams.writer)
}

// Serves the stored run, and gives how many frames were answered.
fn serve_stored<R: Source, W: Sink>(
    alloc: Global,
    reader: &mut R,
    writer: &mut W,
) -> Result<u64, Stop> {
    // Its name, key, settings and moment are a realm's, so memory is the only refusal.
    let memory = Stop::Fault(ServeFault::Memory);
    let Ok(settings) = Settings::new(alloc, USUAL_SKEW, USUAL_LIFETIME, None, None) else {
        return Err(memory);
    };
    let Ok(realm) = Realm::new(
        alloc,
        b"R",
        CipherSuite::Aes256CtsHmacSha196,
        &[0; 32],
        settings,
    ) else {
        return Err(memory);
    };
    let Some(moment) = Moment::from_text(MOMENT) else {
        return Err(memory);
    };
    let mut words = Watched::new(io::repeat(0));
    let answering = Answering {
        realm: &realm,
        keys: &NoKeys,
    };
    let answered = serve_at(alloc, &answering, moment, &mut words, reader, writer)?;
    Ok(answered)
}
