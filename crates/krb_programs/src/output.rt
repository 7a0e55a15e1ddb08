//! Standard error, and a program's end.
ghost use Rattle.std.specs.Prelude.{◌≡◌};
ghost use Rattle.std.specs.Process.{exit_status};

use std::fmt;
use std::process::ExitCode;

/// Says a line on standard error, after the program's name. Where standard error takes nothing, the program goes on.
pub fn say<E: Eprint, D: fmt::Display + Drop>(rt: &E, program: &str, line: D) {
    let _ = eprintln!(rt; "{program}: {line}");
}

/// Says in one line on standard error why a program stopped, and returns its exit code, which is this status. Where standard error takes
/// nothing, the status still tells.
pub fn stop_program<E: Eprint, D: fmt::Display + Drop>(
    rt: &E,
    program: &str,
    why: D,
    status: u8,
) -> ExitCode
    ensures { exit_status result ≡ status }
{
    say(rt, program, why);
    ExitCode::from(status)
}
