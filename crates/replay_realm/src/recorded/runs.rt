//! Runs with a settings file: status, line and output.

use crate::recorded::rows::Rows;
use krb_realm::Moment;
use krb_settings_kdc::{PROGRAM, Stop, run_settings};
use std::alloc::Global;
use test_support::{Row, Told};

/// Runs with settings, random bytes, moment and standard input, each in a column, and what is expected of them: status, line and
/// output.
#[derive(Clone, Copy)]
pub(crate) struct Runs;

/// A run's settings file, and what it reads.
#[derive(Drop)]
struct Run<'a> {
    settings: Vec<u8>,
    words: Vec<u8>,
    moment: &'a str,
    input: Vec<u8>,
}

impl Rows for Runs {
    const NAME: &'static str = "runs";

    const WRONG: &'static str = "differing";

    fn tell(&self, rt: &HostRuntime, row: &mut Row<'_>, told: &mut Told) -> anyhow::Result<()> {
        let alloc = rt.alloc();
        let run = Run {
            settings: row.octets(alloc),
            words: row.octets(alloc),
            moment: row.word(),
            input: row.octets(alloc),
        };
        row.want_rest();
        tell_run(alloc, &run, told);
        Ok(())
    }
}

fn tell_run(alloc: Global, run: &Run<'_>, told: &mut Told) {
    let mut output = Vec::new(alloc);
    match end_of(alloc, run, &mut output) {
        Ok(_) => told.put("0 | -"),
        Err(stop) => tell_stop(stop, " | ", told),
    }
    told.put(" | ");
    told.put(if output.is_empty() { "-" } else { "" });
    told.octets(&output);
}

/// Writes the status of a stop, and its line on standard error behind a separator.
pub(crate) fn tell_stop(stop: Stop, separator: &str, told: &mut Told) {
    told.show(&stop.status());
    told.put(separator);
    told.put(PROGRAM);
    told.put(": ");
    told.show(&stop);
}

fn end_of(alloc: Global, run: &Run<'_>, output: &mut Vec<u8>) -> Result<u64, Stop> {
    let Some(moment) = Moment::from_text(run.moment.as_bytes()) else {
        return Err(Stop::BadArguments);
    };
    let mut words = run.words.as_slice();
    let mut input = run.input.as_slice();
    run_settings(alloc, &run.settings, moment, &mut words, &mut input, output)
}
