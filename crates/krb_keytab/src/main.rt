//! The program `krb_keytab`: lists the entries of a keytab, and copies chosen entries to a new keytab. `krb_keytab --help` prints the
//! commands.
//!
//! No key is shown. The new file has a name of its own beside TO, with mode 0600, and takes TO's once it is on disk. If a run fails, it
//! removes that file.
//!
//! An entry at which MIT's library stops (1.20.1, `krb5_kt_next_entry`) is marked, since a stock service sees no entry from there on.
//! `specs/Mit` says which entries these are.
//!
//! The status is 0 if the command was done. It is 1 if the file is no keytab, no entry fits, or the new file's name is taken. It is 2 if
//! the arguments are none, a file can't be read or written, or memory ran out. One line on standard error says what was expected.
//!
//! It is safe, returns, and meets what its calls require. No contract says what files and standard output hold.
#![tactic(auto)]

mod choice;
mod copying;
mod listing;
mod mit;

use krb_commands::{Stop, arguments_of, is_word, print_line, print_version, usage};
use krb_programs::stop_program;
use std::process::ExitCode;

/// The program's name.
const PROGRAM: &str = "krb_keytab";

/// What `--help` prints, and what a run with other arguments expects.
const USAGE: &str = "usage:
  krb_keytab list FILE                                                     prints kvno, time (UTC), principal and etype of each entry
  krb_keytab copy FROM TO [--kvno N] [--etype ETYPE] [PRINCIPAL ..]        writes the entries that fit to TO, which isn't there yet
  krb_keytab --help, krb_keytab --version
PRINCIPAL is as list prints it, as in host/server.example.com@EXAMPLE.COM. Without its realm it is that name in each realm. With none each
principal's entries are copied. ETYPE is a name, as aes256-cts-hmac-sha1-96, or a number. In a name list shows an octet that isn't printable
as \\x and two hexadecimal digits. Where it says that MIT's library reads no further, stock services see neither that entry nor those behind.";

fn main(rt: HostRuntime) -> ExitCode {
    match run(&rt) {
        Ok(()) => ExitCode::SUCCESS,
        Err(stop) => stop_program(&rt, PROGRAM, &stop, stop.status()),
    }
}

/// Runs the command of the arguments.
fn run(rt: &HostRuntime) -> Result<(), Stop> {
    let arguments = arguments_of(rt)?;
    match arguments.as_slice() {
        [word] if is_word(word, "--help") => print_line(rt, USAGE),
        [word] if is_word(word, "--version") => print_version(rt, PROGRAM),
        [word, path] if is_word(word, "list") => listing::list(rt, path.as_str()),
        [word, from, to, words @ ..] if is_word(word, "copy") => {
            copying::copy(rt, from.as_str(), to.as_str(), words)
        }
        _ => Err(usage(
            rt.alloc(),
            "expected: list FILE, copy FROM TO [--kvno N] [--etype ETYPE] [PRINCIPAL ..], --help or --version",
        )),
    }
}
