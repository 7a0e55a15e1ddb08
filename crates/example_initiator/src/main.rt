//! The program `example_initiator`: logs in at a service of MIT's sample protocol, as `gss-client` does, by a ticket of a credential cache,
//! and sends it messages. It is a filter: its frames go to standard output, and the service's come from standard input. Or it prints its
//! token as the line `Authorization: Negotiate` (RFC 4559) for a web server, whose answer then comes from standard input.
//! `example_initiator --help` prints the options.
//!
//! It says on standard error that the context is established, and which messages the service's MIC is right of.
//!
//! The status is 0 if the context was established and all messages were answered so. It is 1 if the service refused or its answer was
//! refused, or the cache has no ticket for the service. It is 2 if the arguments are none, a file or a stream can't be read or written, or
//! memory ran out. One line on standard error says what was expected. No line shows a key or a message.
//!
//! It is safe, returns, and meets what its calls require. `gss_initiator` says what tokens are made and taken.
#![tactic(auto)]

mod arguments;
mod frames;
mod negotiate;
mod party;
mod service_name;
mod talk;
mod tokens;

use crate::arguments::{Asked, Manner, asked_of};
use crate::negotiate::negotiate;
use crate::party::party_in;
use crate::talk::talk;
use krb_commands::{RandomFile, Stop, arguments_of, is_word, print_line, print_version, usage};
use krb_programs::stop_program;
use std::process::ExitCode;

/// The program's name.
const PROGRAM: &str = "example_initiator";

/// What `--help` prints.
const USAGE: &str = "usage:
  example_initiator talk -c CACHE [OPTION VALUE].. SERVICE [MESSAGE]..
  example_initiator negotiate -c CACHE [OPTION VALUE].. SERVICE
  example_initiator --help, example_initiator --version
  talk        sends the messages to a service of MIT's sample protocol, as gss-client does, and verifies its MIC of each
  negotiate   prints the line Authorization: Negotiate for a web server, and takes the token that it answers, in base64
  SERVICE     a service that the cache has a ticket for: host@server.example.com, or host/server.example.com@EXAMPLE.COM
  -c CACHE    the credential cache, a file of MIT's format 0x0504
  -f FORM     the form of the tokens: kerberos, if it isn't given, or spnego
  -m MUTUAL   whether the service has to authenticate itself: yes, if it isn't given, or no
  -p HOW      how a message goes: sealed (encrypted), if it isn't given, checksum (which follows it), or bare
  -b DATA     channel bindings of this application data
  -d DELEGATE whether the cache's forwarded ticket-granting ticket is delegated to the service: no, if it isn't given, or yes
  -r WORDS    a file of random octets: /dev/urandom if it isn't given
  -t TIME     the time of the request (UTC), as 20261128040000Z: the clock's if it isn't given
Frames go to standard output and come from standard input. So socat TCP:SERVER:4444 EXEC:'example_initiator talk ..' is the client.";

fn main(rt: HostRuntime) -> ExitCode {
    match run(&rt) {
        Ok(()) => ExitCode::SUCCESS,
        Err(stop) => stop_program(&rt, PROGRAM, &stop, stop.status()),
    }
}

fn run(rt: &HostRuntime) -> Result<(), Stop> {
    let arguments = arguments_of(rt)?;
    match arguments.as_slice() {
        [] => Err(usage(
            rt.alloc(),
            "expected: talk or negotiate, -c CACHE and a SERVICE: see --help",
        )),
        [word] if is_word(word, "--help") => print_line(rt, USAGE),
        [word] if is_word(word, "--version") => print_version(rt, PROGRAM),
        words => log_in(rt, &asked_of(rt.alloc(), words)?),
    }
}

fn log_in(rt: &HostRuntime, asked: &Asked<'_>) -> Result<(), Stop> {
    let random = RandomFile::open(rt, asked.settings.words)?;
    let party = party_in(rt, asked)?;
    let done = match asked.manner {
        Manner::Talk => talk(rt, asked, &party, &random),
        Manner::Negotiate => negotiate(rt, asked, &party, &random),
    };
    drop(party);
    done
}
