//! What was recorded of a KDC, of clients and of a service: requests and replies, logins by certificate, runs of the program `krb_realm`
//! with settings and with arguments, and faulty settings files. What comes out is compared with what is expected.

mod admissions;
mod arguments;
mod clients;
mod files;
mod logins;
mod parties;
mod pkinit;
mod replies;
mod rows;
mod runs;
mod telling;

use admissions::{Admissions, Repetitions};
use arguments::Arguments;
use clients::clients_of;
use files::{NamedFiles, SettingsFiles};
use logins::PkinitLogins;
use pkinit::{made_realm, realms_of};
use rows::replay;
use runs::Runs;

/// What the rows of a file are of.
#[derive(Clone, Copy)]
enum Recorded {
    /// Requests to a realm with so many accounts beside its own service.
    Replies(usize),
    /// Requests by certificate to realms.
    PkinitReplies,
    /// What clients by certificate send and take.
    PkinitSteps,
    PkinitLogins,
    Admissions,
    Repetitions,
    Runs,
    SettingsFiles,
    NamedFiles,
    Arguments,
}

const FILES: [(Recorded, &str); 13] = [
    (Recorded::Replies(0), "real_clients.txt"),
    (Recorded::Replies(4), "kdc_exchanges.txt"),
    (Recorded::Replies(6), "five_suites.txt"),
    (Recorded::PkinitReplies, "pkinit_exchanges.txt"),
    (Recorded::PkinitSteps, "pkinit_steps.txt"),
    (Recorded::PkinitLogins, "pkinit_logins.txt"),
    (Recorded::Admissions, "admissions.txt"),
    (Recorded::Repetitions, "admissions.txt"),
    (Recorded::Runs, "rows.txt"),
    (Recorded::Runs, "settings.txt"),
    (Recorded::SettingsFiles, "files.txt"),
    (Recorded::NamedFiles, "named_files.txt"),
    (Recorded::Arguments, "arguments.txt"),
];

/// Replays each file of rows.
pub(crate) fn replay_recorded(rt: &HostRuntime) -> anyhow::Result<()> {
    for (rows, file) in FILES {
        replay_file(rt, rows, file)?;
    }
    Ok(())
}

fn replay_file(rt: &HostRuntime, rows: Recorded, file: &str) -> anyhow::Result<()> {
    match rows {
        Recorded::Replies(count) => replay(rt, made_realm(rt.alloc(), "-", "-", count)?, file),
        Recorded::PkinitReplies => replay(rt, realms_of(rt, "pkinit_realms.txt")?, file),
        Recorded::PkinitSteps => replay(rt, clients_of(rt, "pkinit_clients.txt")?, file),
        Recorded::PkinitLogins => replay(rt, PkinitLogins, file),
        Recorded::Admissions => replay(rt, Admissions, file),
        Recorded::Repetitions => replay(rt, Repetitions, file),
        Recorded::Runs => replay(rt, Runs, file),
        Recorded::SettingsFiles => replay(rt, SettingsFiles, file),
        Recorded::NamedFiles => replay(rt, NamedFiles, file),
        Recorded::Arguments => replay(rt, Arguments, file),
    }
}
