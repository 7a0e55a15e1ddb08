//! A line of the log.

use crate::entry::Entry;
use crate::stamp::Stamp;
use std::fmt;

/// A line of the log, without its end.
#[derive(Clone, Copy)]
pub struct Line<'a> {
    /// When the message was answered.
    pub stamp: Stamp,
    /// What it asked for, and what it was answered.
    pub entry: &'a Entry,
    /// How many microseconds the answer took. None if the clock can't be read.
    pub micros: Option<u64>,
}

impl<'a> fmt::Display for Line<'a> {
    ghost use Rattle.std.specs.Prelude.{Some};
    ghost use Rattle.krb_log.specs.LineText.{line_text};

    ghost output = { λ line. Some (line_text line.stamp line.entry.now line.micros) };

    fn fmt<W: fmt::Write>(&self, f: &mut fmt::Formatter<W>) -> fmt::Result {
        let stamp = self.stamp;
        let entry = self.entry;
        match self.micros {
            Some(micros) => write!(f, "{stamp} {entry} micros={micros}"),
            None => write!(f, "{stamp} {entry} micros=-"),
        }
    }
}
