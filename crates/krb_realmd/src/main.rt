//! The program `krb_realm`: answers the frames of standard input on standard output.
//!
//! `krb_realm SETTINGS WORDS MOMENT` serves the realm of a settings file, with the random bytes of the file WORDS, and each
//! message at the moment `now` or `YYYYMMDDHHMMSSZ`. Without arguments it serves the stored run: the realm `R` with no
//! account beside its own service, whose key has 32 zero bytes, at one fixed moment and with random bytes that are zero.
//!
//! It is safe, returns, and meets what its calls require. No contract says what standard output holds.
#![tactic(auto)]

use krb_settings_kdc::run_process;
use std::process::ExitCode;

fn main(rt: HostRuntime) -> ExitCode {
    run_process(&rt)
}
