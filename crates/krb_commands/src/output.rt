//! Standard output.

use crate::stop::{Stop, failed};
use krb_programs::VERSION;
use std::fmt;

/// Prints a line on standard output.
pub fn print_line<D: fmt::Display + Drop>(rt: &HostRuntime, line: D) -> Result<(), Stop> {
    match println!(rt; "{line}") {
        Ok(()) => Ok(()),
        Err(_) => Err(failed(rt.alloc(), "standard output can't be written")),
    }
}

/// Prints a program's name and its version on standard output.
pub fn print_version(rt: &HostRuntime, program: &str) -> Result<(), Stop> {
    print_line(rt, format_args!("{program} {VERSION}"))
}
