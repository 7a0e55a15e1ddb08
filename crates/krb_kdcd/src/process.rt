//! The program itself: what it is given by its process.

use crate::PROGRAM;
use crate::arguments::{Command, Served, command_of};
use crate::database::serve_database;
use crate::stop::Stop;
use krb_frames::ServeFault;
use krb_programs::{Process, Streams, VERSION, stop_program};
use std::io;
use std::process::ExitCode;

/// How the program is used.
const USAGE: &str = "usage:
  krb_kdcd DATABASE WORDS [--log] [--fixed-words] [--at MOMENT]
  krb_kdcd --help, krb_kdcd --version
Answers Kerberos messages (RFC 4120) for the realm of a file of accounts. Each frame of standard input, a message after its length in
four octets, the highest first, is answered by a frame on standard output: of length 0 if the message is no request. DATABASE is opened
anew for each message. WORDS is a file of random octets, as /dev/urandom. With --log each message has a line on standard error. With
--fixed-words WORDS may be a regular file, as a test has it: else it is refused, and so is one whose first 128 octets are the same.
With --at all messages are answered at MOMENT (UTC), as 20261128040000Z, for a test, and else each at the clock's.
Status 0: the input ended. Status 1: nothing was served. Status 2: it stopped early.";

/// The whole program over its process, as its usage says. It says on standard error in one line why it stopped, and returns its status.
pub(crate) fn run_process(rt: &HostRuntime) -> ExitCode {
    let Process {
        arguments,
        mut streams,
    } = match Process::open(rt) {
        Ok(process) => process,
        Err(fault) => return ended(rt, Stop::from(fault)),
    };
    match command_of(&arguments) {
        Some(Command::Help) => printed(println!(rt; "{USAGE}")),
        Some(Command::Version) => printed(println!(rt; "{PROGRAM} {VERSION}")),
        Some(Command::Serve(served)) => match serve_streams(rt, served, &mut streams) {
            Ok(()) => ExitCode::SUCCESS,
            Err(stop) => ended(rt, stop),
        },
        None => ended(rt, Stop::Arguments),
    }
}

// Serves standard input on standard output.
fn serve_streams<'a>(
    rt: &HostRuntime,
    served: Served<'a>,
    streams: &mut Streams,
) -> Result<(), Stop<'a>> {
    serve_database(rt, served, &mut streams.reader, &mut streams.writer)
}

// Says why the program stopped, and returns its exit code. A fault of the database was said where it was met.
fn ended(rt: &HostRuntime, stop: Stop<'_>) -> ExitCode {
    if is_said(stop) {
        return ExitCode::from(stop.status());
    }
    stop_program(rt, PROGRAM, stop, stop.status())
}

// Whether it was said already.
fn is_said(stop: Stop<'_>) -> bool {
    match stop {
        Stop::Serving(_, fault) => fault == ServeFault::Accounts,
        _ => false,
    }
}

// The exit code after a text on standard output.
fn printed(written: io::Result<()>) -> ExitCode {
    match written {
        Ok(()) => ExitCode::SUCCESS,
        Err(_) => ExitCode::FAILURE,
    }
}
