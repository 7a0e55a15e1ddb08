//! The program `krb_kpasswdd`: changes of passwords (RFC 3244) in a text of accounts, behind a listener. It answers the frames of standard
//! input on standard output.
//!
//! A message is answered as `krb_password_changes` judges it. The service is `kadmin/changepw` of the realm of TEXT, with the key that its
//! account has at the start. A client changes its own password. A name of a line `#admins` of TEXT sets that of any account but
//! `krbtgt/REALM`. What is granted is done as `krb_accounts key` and `krb_accounts make` do it. The text is locked. It and its database are
//! replaced whole, the text first. The reply has the result code. It tells a success only where both files were replaced.
//!
//! A request is granted once in one run. So one process serves, and a listener has one worker for it. A run admits no request of a time
//! before its start. So what another run has granted isn't granted again, unless the client's clock was ahead.
//!
//! It is safe, returns, and meets what its calls require. No contract says what files, standard input and standard output hold.
#![tactic(auto)]

mod admins;
mod arguments;
mod change;
mod database;
mod desk;
mod serving;

use arguments::options_of;
use desk::desk_of;
use krb_commands::{RandomFile, Stop, arguments_of, print_line, print_version};
use krb_programs::stop_program;
use serving::serve;
use std::process::ExitCode;

/// The program's name.
pub(crate) const PROGRAM: &str = "krb_kpasswdd";

/// What `--help` prints.
const USAGE: &str = "usage:
  krb_kpasswdd [--least N] [--refused FILE] [--suite SUITE] [--address ADDRESS] [--at MOMENT] TEXT DATABASE WORDS
  krb_kpasswdd -h or --help, krb_kpasswdd --version
Changes passwords (RFC 3244) in TEXT, as krb_accounts has it, and makes DATABASE of it. Each frame of standard input, a message after its
length in four octets, the highest first, is answered by a frame on standard output. TEXT has the account kadmin/changepw, whose key is
read at the start. A client changes its own password. The names of a line of TEXT that begins with #admins, with a tab before each name,
set the password of any account but krbtgt's. WORDS is a file of random octets, as /dev/urandom. A password has N octets at least, 8 if
none is given, and is no line of FILE. SUITE is that of new keys, aes256-cts-hmac-sha1-96 if none is given. ADDRESS is the service's. With
--at all messages are answered at MOMENT (UTC), as 20261128040000Z, for a test.
Status 0: the input ended. Status 1: a file or an account was refused. Status 2: it can't go on.";

fn main(rt: HostRuntime) -> ExitCode {
    match run(&rt) {
        Ok(()) => ExitCode::SUCCESS,
        Err(stop) => stop_program(&rt, PROGRAM, &stop, stop.status()),
    }
}

/// Does what the arguments ask for.
fn run(rt: &HostRuntime) -> Result<(), Stop> {
    let arguments = arguments_of(rt)?;
    let arguments = arguments.as_slice();
    match arguments {
        [word] if word.as_str() == "-h" || word.as_str() == "--help" => print_line(rt, USAGE),
        [word] if word.as_str() == "--version" => print_version(rt, PROGRAM),
        _ => serve_arguments(rt, arguments),
    }
}

/// Serves as the arguments say.
fn serve_arguments(rt: &HostRuntime, arguments: &[String]) -> Result<(), Stop> {
    let options = options_of(rt.alloc(), arguments)?;
    let mut desk = desk_of(rt, &options)?;
    let words = RandomFile::open(rt, options.words)?;
    serve(rt, &mut desk, &words, &options.moment)
}
