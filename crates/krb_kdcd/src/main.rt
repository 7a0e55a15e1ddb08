//! The program `krb_kdcd`: a KDC over a database of accounts, behind a listener. It answers the frames of standard input on standard output.
//!
//! `krb_kdcd DATABASE WORDS [--log] [--fixed-words] [--at MOMENT]` opens the file DATABASE anew for each message, and reads the clock for each:
//! a change of the accounts counts from the next message on. It takes random octets from the file WORDS, which is no regular file and doesn't
//! give one octet repeated, but with `--fixed-words`, for tests. With `--at`, for tests too, all messages are answered at MOMENT. What is no
//! request is answered by a frame of length 0, and serving goes on. `--log` writes a line for each message on standard error, before its
//! reply. It warns where others may use the database.
//!
//! The loop is [`serve_by_clock`](krb_frames::serve_by_clock), or with `--at` [`serve_at`](krb_frames::serve_at). With
//! [`FileRealm`](krb_realm_files::FileRealm) each reply is that of some realm with some accounts, and of the realm of one opened file,
//! where its octets are known: those of a file of the system aren't.
//!
//! `command_of` returns what the arguments ask for, as `command_in` says, and `moment_of` the moment that the text behind `--at` names. A
//! `Stop` is displayed as `stop_text`, but for `Database` and `Words`. `serve_database` reads and writes nothing of its streams where it
//! stops with status 1. `serve_realm` promises what is served, for every type of file, stream and clock. Where the octets of file, streams
//! and random octets are known, the output is the frames of the replies of the file's realm up to a fault (`RepliesFrom`). A message that
//! is no request gets an empty frame (`Tolerates`), and serving goes on. `serve_realm_at` promises the same at its moment. Both pass over
//! no failed call of a device (`AnswersFailures`). The path that `open_random` notes is the one that the arguments name as WORDS, and that
//! of `database_of` the one that they name as DATABASE. No contract says that octets come from there, or what a file of the system or
//! standard output holds.
#![tactic(auto)]

mod arguments;
mod database;
mod moment;
mod process;
mod random;
mod serving;
mod stop;
mod warning;

use std::process::ExitCode;

/// The program's name.
const PROGRAM: &str = "krb_kdcd";

fn main(rt: HostRuntime) -> ExitCode {
    process::run_process(&rt)
}
