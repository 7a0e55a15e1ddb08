//! An observer that makes an entry of what it sees.
use crate::entry::Entry;
use krb_kdc::{Observer, Seen};
use std::alloc::{AllocError, Global};
use std::time::{Clock, Instant};

// An observer that makes an entry of what it sees, and says how long the answer took until then.
#[derive(Drop)]
pub(crate) struct Watch<'a, C: Clock> {
    // The clock.
    pub(crate) clock: &'a C,
    // When answering began.
    pub(crate) start: Option<Instant>,
    // How many microseconds the answer took. None if the clock can't be read.
    pub(crate) micros: Option<u64>,
    // The entry, or an error where nothing was seen or there is no memory for it.
    pub(crate) entry: Result<Entry, AllocError>,
}

impl<'a, C: Clock> Watch<'a, C> {
    // Begins to watch.
    pub(crate) fn new(clock: &'a C) -> Watch<'a, C> {
        Watch {
            clock,
            start: Instant::now(clock).ok(),
            micros: None,
            entry: Err(AllocError),
        }
    }
}

impl<'a, C: Clock> Observer for Watch<'a, C> {
    ghost use Rattle.std.specs.Prelude.{IfOk};
    ghost use Rattle.krb_log.specs.Entries.{IsEntryOf};

    ghost sees = { λ _ seen new. IfOk new.entry (IsEntryOf seen) };

    fn see(&mut self, alloc: Global, seen: &Seen<'_>) {
        self.micros = micros_since(self.clock, self.start);
        self.entry = Entry::of_seen(alloc, seen);
    }
}

/// Returns the microseconds since a start, or none if the clock can't be read.
pub(crate) fn micros_since<C: Clock>(clock: &C, start: Option<Instant>) -> Option<u64> {
    let elapsed = start?.elapsed(clock).ok()?;
    let seconds = elapsed.as_secs().saturating_mul(1_000_000);
    Some(seconds.saturating_add(u64::from(elapsed.subsec_micros())))
}
