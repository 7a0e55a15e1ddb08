//! Replays rows on a realm, its clients and its services: AS, TGS and AP requests and their replies, by password and by certificate, and
//! whole logins. What comes out is compared with what is expected.
//!
//! Scripts come first: runs of clients as another implementation recorded them, and worked rows of realms, clients and services. Then come
//! logins by certificates and RSA keys of openssl, and what was recorded (`recorded`).
//!
//! Last it is the program `krb_realm` itself, with its own arguments, one too many, and a frame on standard input. That it ends with
//! status 1, and writes no reply, shows that the process's arguments are read and that the run's status is the process's. It ends with
//! status 3 where a row can't be replayed or a file is missing, as it is where a folder has scripts alone.
#![tactic(auto)]

mod ask;
mod broken;
mod certificates;
mod certified_logins;
mod certified_parties;
mod keys;
mod line;
mod login;
mod many;
mod parts;
mod realms;
mod recorded;
mod services;
mod short_keys;
mod stage;
mod take;
mod told;
mod words;

use krb_realm::{AdmitRefusal, AskRefusal, TakeRefusal};
use krb_settings_kdc::run_process;
use line::line_of;
use stage::Stage;
use std::process::ExitCode;
use test_support::rows::replay;
use test_support::{Row, Rows, Told};

fn main(rt: HostRuntime) -> ExitCode {
    match replay_all(&rt) {
        Ok(()) => run_process(&rt),
        Err(fault) => {
            let _ = eprintln!(rt; "Error: {fault}");
            ExitCode::from(3)
        }
    }
}

fn replay_all(rt: &HostRuntime) -> anyhow::Result<()> {
    play(rt, "clients.txt")?;
    play(rt, "changed_replies.txt")?;
    play(rt, "realms.txt")?;
    play(rt, "logins.txt")?;
    certified_logins::replay_rsa_logins(rt)?;
    print_numbers(rt)?;
    print_texts(rt)?;
    recorded::replay_recorded(rt)
}

/// Plays the lines of a script one after the other, on one stage.
fn play(rt: &HostRuntime, file: &str) -> anyhow::Result<()> {
    let mut stage = Stage::new(rt.alloc())?;
    let played = replay(rt, &mut stage, file);
    drop(stage);
    played
}

impl Rows for Stage {
    const NAME: &'static str = "lines";

    /// Whether a line gives what is expected. Another text is printed.
    fn agrees(&mut self, rt: &HostRuntime, row: &mut Row<'_>) -> anyhow::Result<bool> {
        let text = row.rest();
        let line = line_of(text);
        let mut told = Told::new(rt.alloc());
        stage::tell(self, rt.alloc(), &line, &mut told)?;
        let told = told.text()?;
        let is_same = is_wanted(line.wanted, told);
        if !is_same {
            println!(rt; "{text}: {told}")?;
        }
        Ok(is_same)
    }
}

/// Whether this text is the expected one: `ok` is each text but a refusal.
fn is_wanted(wanted: &str, told: &str) -> bool {
    if wanted == "ok" {
        !told.starts_with("refused")
    } else {
        told.trim() == wanted
    }
}

fn print_numbers(rt: &HostRuntime) -> anyhow::Result<()> {
    let asks = [
        AskRefusal::BadName.number(),
        AskRefusal::BadCertificate.number(),
        AskRefusal::NoKeyFunction.number(),
        AskRefusal::Memory.number(),
    ];
    print_row(rt, "asks", &asks)?;
    let takes = [
        TakeRefusal::Unreadable.number(),
        TakeRefusal::Refused(24).number(),
        TakeRefusal::NotTrusted.number(),
        TakeRefusal::NotSealed.number(),
        TakeRefusal::NotAsked.number(),
        TakeRefusal::Memory.number(),
    ];
    print_row(rt, "takes", &takes)?;
    let admits = [
        u32::from(AdmitRefusal::Unreadable.number()),
        u32::from(AdmitRefusal::Krb(34).number()),
        u32::from(AdmitRefusal::Memory.number()),
    ];
    print_row(rt, "admits", &admits)
}

fn print_row(rt: &HostRuntime, name: &str, numbers: &[u32]) -> anyhow::Result<()> {
    print!(rt; "{name}:")?;
    for number in numbers {
        print!(rt; " {number}")?;
    }
    println!(rt; "")?;
    Ok(())
}

fn print_texts(rt: &HostRuntime) -> anyhow::Result<()> {
    println!(rt; "{}", AskRefusal::BadName)?;
    println!(rt; "{}", TakeRefusal::Refused(24))?;
    println!(rt; "{}", AdmitRefusal::Krb(34))?;
    Ok(())
}
