//! The program `krb_accounts`: an administrator's tool for the accounts of a realm.
//!
//! A text file is the master: `krb_account_texts` has its lines. The database that a KDC reads is made of it. `krb_accounts --help`
//! prints the commands. Passwords and accounts' keys come by standard input alone, and no key is shown.
//!
//! A file is written whole or not at all. The new file is made beside the old one, under a name of its own, with mode 0600, and takes its
//! place once it is on disk. Another run waits meanwhile, for up to ten seconds. If a run fails, it removes its new file, and the old file
//! stands. What is there is replaced only if it is of its own kind or empty, and none of the files that the command reads.
//!
//! The status is 0 if the command was done. It is 1 if a text, a name, a key or a password was refused, if a file is there that stays, or
//! if `check` found a difference. It is 2 if the arguments are none, another run writes, a file can't be read or written, or memory ran
//! out. One line on standard error says what was expected.
//!
//! It is safe, returns, and meets what its calls require. No contract says what files and standard output hold.
#![tactic(auto)]

mod accounts;
mod arguments;
mod attributes;
mod certificates;
mod database;
mod imports;
mod keytabs;
mod listing;
mod records;
mod secrets;
mod texts;
mod warner;
mod warnings;

use accounts::Edit;
use krb_commands::{Stop, arguments_of, failed, print_line, print_version};
use krb_programs::stop_program;
use std::process::ExitCode;

/// The program's name.
pub(crate) const PROGRAM: &str = "krb_accounts";

/// What `--help` prints, and what a run with other arguments expects.
const USAGE: &str = "usage:
  krb_accounts create [-e SUITE] [-k random] TEXT REALM
                                                      makes TEXT, with the realm's key from standard input, or at random
  krb_accounts import SETTINGS TEXT                   makes TEXT of a settings file of krb_realm
  krb_accounts list TEXT [PATTERN]                    prints the realm and its policy, and names, suites and kvnos; with PATTERN those of
                                                      the accounts whose names are as PATTERN alone
  krb_accounts show TEXT NAME                         prints what TEXT says of one account, but not its key
  krb_accounts add [-e SUITE] [-k [random]] TEXT NAME adds an account, with kvno 1
  krb_accounts key [-e SUITE] [-k [random]] [--keep] TEXT NAME
                                                      gives an account its next key, with the next kvno, and keeps the keys before
  krb_accounts purge TEXT NAME                        takes the keys before its own from an account
  krb_accounts attributes TEXT NAME WORD..            changes when an account ends, how long its tickets last, and what it may do
  krb_accounts disable TEXT NAME                      keeps an account in TEXT, and out of the database
  krb_accounts enable TEXT NAME                       takes a disabled account into the database again
  krb_accounts remove TEXT NAME                       takes an account away
  krb_accounts certify TEXT CERTIFICATE KEY ANCHOR    lets clients log in by certificate: with the KDC's certificate, its RSA key, and
                                                      the certificate of the authority that issues the clients' certificates
  krb_accounts uncertify TEXT                         takes certificate, key and anchor away
  krb_accounts keytab TEXT KEYTAB NAME..              writes the accounts' keys to KEYTAB, and keeps the keys that it has
  krb_accounts make TEXT DATABASE                     makes the database of TEXT
  krb_accounts warnings TEXT                          prints what make warns of
  krb_accounts check TEXT DATABASE                    says whether the database answers as TEXT does
  krb_accounts -h or --help, krb_accounts --version
Standard input is one line: the password, or with -k and for create the key in hexadecimal digits. With -k random it isn't read: the key is
made of the system's random octets. NAME is as in host/server.example.com. In PATTERN * is for any characters, / too, and ? for one.
SUITE is a name such as aes256-cts-hmac-sha1-96, which is also that of create and add if none is given. key keeps the account's suite.
Without --keep it takes the keys before away, but for krbtgt, whose keys before open its tickets. WORD is ends=YYYYMMDDHHMMSSZ or
lifetime=SECONDS, with - for none, or +off, +must-change or +no-service, with - in place of + to take it away.
CERTIFICATE, KEY and ANCHOR are files, in PEM or DER. KEY has at least 2,048 bits, and is not encrypted.
The realm's policy is set in TEXT by an editor: behind skew and lifetime, with a tab between each two, the realm's line has the words and -,
or with the word pkinit what certify writes. The words are limits-des3, forwardable, proxiable, renewable=SECONDS, guards-passwords,
pkinit-agility, pkinit-sha1 and pkinit, in this order, with a comma between each two. SECONDS, from 1 to 31536000, is how long a ticket
may be renewed. With guards-passwords add and key set +no-service where the key is of a password: nobody gets a ticket then by which to
guess it. What has no word is off.";

fn main(rt: HostRuntime) -> ExitCode {
    match run(&rt) {
        Ok(()) => ExitCode::SUCCESS,
        Err(stop) => stop_program(&rt, PROGRAM, &stop, stop.status()),
    }
}

/// Runs the command of the arguments.
fn run(rt: &HostRuntime) -> Result<(), Stop> {
    let arguments = arguments_of(rt)?;
    match arguments.as_slice() {
        [command, rest @ ..] => run_command(rt, command.as_str(), rest),
        [] => Err(failed(rt.alloc(), "no command: expected one of --help")),
    }
}

fn run_command(rt: &HostRuntime, command: &str, rest: &[String]) -> Result<(), Stop> {
    match command {
        "-h" | "--help" => print_line(rt, USAGE),
        "--version" => print_version(rt, PROGRAM),
        "create" => accounts::create(rt, rest),
        "import" => imports::import(rt, rest),
        "list" => listing::list(rt, rest),
        "show" => listing::show(rt, rest),
        "add" => accounts::add_account(rt, rest),
        "key" => accounts::change_account(rt, rest),
        "disable" => accounts::edit_account(rt, Edit::Disable, rest),
        "enable" => accounts::edit_account(rt, Edit::Enable, rest),
        "remove" => accounts::edit_account(rt, Edit::Remove, rest),
        "purge" => accounts::edit_account(rt, Edit::Purge, rest),
        "attributes" => attributes::attributes(rt, rest),
        "certify" => certificates::certify(rt, rest),
        "uncertify" => certificates::uncertify(rt, rest),
        "keytab" => keytabs::keytab(rt, rest),
        "make" => database::make(rt, rest),
        "warnings" => database::warnings(rt, rest),
        "check" => database::check(rt, rest),
        _ => Err(failed(rt.alloc(), "no such command: expected one of --help")),
    }
}
