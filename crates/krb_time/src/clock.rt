//! Reading the clock.

use crate::Moment;
use crate::epoch::after_epoch;
use std::time::{Clock, SystemTime, UNIX_EPOCH};

/// Returns the clock's moment, or none if the clock can't be read or is past the year 9999.
pub fn now<C: Clock>(clock: &C) -> Option<Moment> {
    let time = SystemTime::now(clock).ok()?;
    let elapsed = time.duration_since(UNIX_EPOCH).ok()?;
    after_epoch(elapsed.as_secs(), elapsed.subsec_micros())
}
