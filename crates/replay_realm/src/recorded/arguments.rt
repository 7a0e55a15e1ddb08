//! Runs with arguments, over files.

use crate::recorded::rows::Rows;
use crate::recorded::runs::tell_stop;
use krb_settings_kdc::{run_with_arguments, settings_at};
use std::alloc::{AllocError, Global};
use test_support::{Row, Told};

/// Arguments, and the status and the line that a run with them ends with.
#[derive(Clone, Copy)]
pub(crate) struct Arguments;

impl Rows for Arguments {
    const NAME: &'static str = "runs";

    const WRONG: &'static str = "differing";

    fn tell(&self, rt: &HostRuntime, row: &mut Row<'_>, told: &mut Told) -> anyhow::Result<()> {
        let arguments = arguments_of(rt.alloc(), row.word())?;
        row.want();
        tell_end(rt, &arguments, told)
    }
}

/// Writes the status and the line of a run with these arguments and one frame as its input, and whether there was output.
fn tell_end(rt: &HostRuntime, arguments: &[String], told: &mut Told) -> anyhow::Result<()> {
    let frame = settings_at(rt, "frame")?;
    let mut input = frame.as_slice();
    let mut output = Vec::new(rt.alloc());
    match run_with_arguments(rt, arguments, &mut input, &mut output) {
        Ok(_) => told.put("0 "),
        Err(stop) => tell_stop(stop, " ", told),
    }
    if !output.is_empty() {
        told.put("and output");
    }
    Ok(())
}

fn arguments_of(alloc: Global, text: &str) -> Result<Vec<String>, AllocError> {
    let mut arguments = Vec::new(alloc);
    for argument in text.split_whitespace() {
        arguments.push(String::from_str(alloc, argument)?)?;
    }
    Ok(arguments)
}
