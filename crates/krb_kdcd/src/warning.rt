//! What the program warns of at its start.
ghost use Rattle.std.specs.Prelude.{◌≡◌, ◌==◌, bit_and, not};

use crate::PROGRAM;
use krb_programs::say;
use std::fs::{self, Files};
use std::os::unix::fs::PermissionsExt;

/// The bits of a mode by which a file's group and others may read, write or run it.
const OTHERS: u32 = 0o077;

/// The bits of a mode that say who may do what with a file.
const PERMISSIONS: u32 = 0o7777;

/// Warns in one line on standard error where a regular file, which has the realm's keys, may be read or written by others than its owner.
pub(crate) fn warn_of_mode<F: Files + Eprint>(rt: &F, path: &str) {
    let Ok(metadata) = fs::metadata(rt, path) else {
        return;
    };
    let mode = metadata.permissions().mode();
    if metadata.is_file() && is_open_to_others(mode) {
        let mode = mode & PERMISSIONS;
        say(
            rt,
            PROGRAM,
            format_args!(
                "{path}: warning: has the realm's keys, and mode {mode:o}, by which others may use it: expected 600"
            ),
        );
    }
}

fn is_open_to_others(mode: u32) -> bool
    ensures { result ≡ not (bit_and mode OTHERS == 0) }
{
    mode & OTHERS != 0
}
