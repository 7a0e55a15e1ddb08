//! A KDC over a settings file: what the program `krb_realm` is. The realm of the file answers the frames of a stream.
//!
//! [`settings_at`] reads the file at a path, and [`realm_of_file`] makes the realm that its octets write. [`check_file`] says whether they
//! write one: with what is likely a slip in it, or with the first fault. [`run_settings`] is a whole run of the program but for its
//! arguments, the clock and the opening of files, which [`run_with_arguments`] adds; [`run_process`] is the program itself.
//!
//! The realm of a file has its name, key, settings and accounts, added in order (`IsRealmFile`). A check passes a file only if it writes
//! a realm, and reports a fault only if it writes none (`IsChecked`). A run with settings serves that realm, or touches no device
//! (`IsEnd`). A [`Stop`] has the status of `status_of` and is displayed as `stop_text`. [`run_with_arguments`] reads and writes nothing of its
//! streams where it stops with status 1. What it serves, and `run_process`, have no contract: they are proved safe and to return.
#![tactic(auto)]

mod check;
mod console;
mod fault;
pub mod laws;
mod process;
mod realm;
mod run;
mod settings;
mod stop;

pub use check::{FileCheck, check_file};
pub use console::run_with_arguments;
pub use fault::RealmFault;
pub use process::run_process;
pub use realm::{realm_of_file, realm_of_settings};
pub use run::run_settings;
pub use settings::settings_at;
pub use stop::Stop;

/// The program's name.
pub const PROGRAM: &str = "krb_realm";
