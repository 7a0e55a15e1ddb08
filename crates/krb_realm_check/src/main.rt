//! The program `krb_realm_check`: says whether a settings file is a realm's, and else what is wrong with it and where.
//!
//! `krb_realm_check FILE` ends with status 0 and prints `FILE: ok` where it is. What is likely a slip is a line
//! `FILE:LINE: warning: ..` on standard error. Else it ends with status 1, and the first fault is a line `FILE:LINE: ..` on
//! standard error: the word, and what was expected. It shows no key and no password.
//!
//! It is safe, returns, and meets what its calls require. No contract says what standard output holds.
#![tactic(auto)]

use anyhow::bail;
use krb_programs::stop_program;
use krb_settings_kdc::{FileCheck, check_file, settings_at};
use std::os::unix::fs::PermissionsExt;
use std::process::ExitCode;
use std::{env, fs};

/// The program's name.
const PROGRAM: &str = "krb_realm_check";

/// The program's status where the file is no realm's, or where it can't say so.
const REFUSED: u8 = 1;

/// The bit of a file's mode with which others may read it.
const READ_BY_OTHERS: u32 = 0o004;

fn main(rt: HostRuntime) -> ExitCode {
    match check(&rt) {
        Ok(true) => ExitCode::SUCCESS,
        Ok(false) => ExitCode::from(REFUSED),
        Err(fault) => stop_program(&rt, PROGRAM, &fault, REFUSED),
    }
}

/// Whether the file is a realm's, which is printed.
fn check(rt: &HostRuntime) -> anyhow::Result<bool> {
    let path = path_of(rt)?;
    let path = path.as_str();
    let text = match settings_at(rt, path) {
        Ok(text) => text,
        Err(fault) => bail!("{path} can't be read: {fault}"),
    };
    match check_file(rt.alloc(), &text)? {
        FileCheck::Realm(warnings) => {
            if is_read_by_others(rt, path) {
                eprintln!(rt; "{path}: warning: others may read it: expected mode 600")?;
            }
            for warning in &warnings {
                eprintln!(rt; "{path}{warning}")?;
            }
            println!(rt; "{path}: ok")?;
            Ok(true)
        }
        FileCheck::Fault(fault) => {
            eprintln!(rt; "{path}{fault}")?;
            Ok(false)
        }
    }
}

/// Whether others than the file's owner and group may read it.
fn is_read_by_others(rt: &HostRuntime, path: &str) -> bool {
    match fs::metadata(rt, path) {
        Ok(metadata) => metadata.permissions().mode() & READ_BY_OTHERS != 0,
        Err(_) => false,
    }
}

/// The one argument behind the program's name.
fn path_of(rt: &HostRuntime) -> anyhow::Result<String> {
    let mut arguments = env::args(rt)?.skip(1);
    match (arguments.next(), arguments.next()) {
        (Some(path), None) => Ok(path),
        _ => bail!("its one argument is a settings file"),
    }
}
