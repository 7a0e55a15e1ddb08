//! The program `example_acceptor`: a service of MIT's sample protocol, as `gss-server` is, on standard input and output.
//!
//! `example_acceptor KEYTAB WORDS MOMENT SERVICE [subkey] [delegated CACHE]` is a service with its keys in a keytab, such as
//! `host/server.example.com@EXAMPLE.COM`. Before each login the keytab is read again, if it changed: the new keys count, and the logins
//! before stay remembered. The file WORDS has random octets, of which each token of a
//! login takes 64, and MOMENT is `now` or `YYYYMMDDHHMMSSZ`. It serves the contexts of its stream in turn, and remembers each login until it
//! ends. Clocks may differ by 300 seconds. With `subkey` a subkey of its own protects each context whose initiator asks for an AP-REP.
//! With `delegated` the tickets that a client delegates are written to the credential cache CACHE, in place of those of the client before.
//! Without it they are forgotten.
//!
//! It says on standard error who logged in. Where the ticket has a PAC that a key of the service verifies, lines behind it have the user's SID
//! and name, and each group's SID with its attributes, a decimal number (MS-PAC, sections 2.2.1 and 2.5). Another PAC is named with its
//! refusal, and the login stands. The status is 0 at the end of a stream with a login. Else it is 1, after a line with the refusal's name.
#![tactic(auto)]

mod answer;
mod delegated;
mod frame;
mod keytab_file;
mod server;
mod service_keys;
mod setup;
mod user;

use anyhow::bail;
use krb_commands::printable_of;
use krb_programs::{Streams, stop_program};
use std::process::ExitCode;

/// The program's name.
const PROGRAM: &str = "example_acceptor";

/// The program's status after a refusal.
const REFUSED: u8 = 1;

fn main(rt: HostRuntime) -> ExitCode {
    let fault = match run(&rt) {
        Ok(()) => return ExitCode::SUCCESS,
        Err(fault) => fault,
    };
    match printable_of(rt.alloc(), &fault) {
        Ok(line) => stop_program(&rt, PROGRAM, &line, REFUSED),
        Err(_) => stop_program(&rt, PROGRAM, "out of memory", REFUSED),
    }
}

fn run(rt: &HostRuntime) -> anyhow::Result<()> {
    let mut server = setup::server_of(rt)?;
    let Ok(mut streams) = Streams::open(rt) else {
        bail!("out of memory");
    };
    server::serve(rt, &mut server, &mut streams.reader, &mut streams.writer)
}
