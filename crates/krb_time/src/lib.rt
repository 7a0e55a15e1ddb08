//! Moments: points in time to the microsecond, in the years 0 to 9999, and the moment that a machine's clock has.
//!
//! `Moment::new` makes a moment of microseconds before the year 10000, and of no others. `second`, `microsecond`, `at` and `from_text` go
//! by the calendar: a moment is its second with the microseconds since then. [`moment_at`] answers a moment if and only if the microseconds
//! are part of a second. `is_before`, `is_after` and `is_far_from` compare by the clock skew. [`after_epoch`] is the moment that a clock's
//! count means, or none past the year 9999. [`seconds_since_epoch`] is a time's count. [`now`] reads the clock. No clause can say what a
//! clock reads.
#![tactic(auto)]

mod calendar;
mod clock;
mod epoch;
mod moment;
mod times;

pub use calendar::{EPOCH, LAST_SECOND, MICROSECONDS_IN_SECOND};
pub use clock::now;
pub use epoch::{after_epoch, seconds_since_epoch};
pub use moment::Moment;
pub use times::moment_at;
