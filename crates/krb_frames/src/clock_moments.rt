//! The moments at which a clock is read.
ghost use Rattle.std.specs.Prelude.{◌≡◌};

use krb_time::{Moment, now};
use std::time::Clock;

/// The moments of a clock, which is read anew for each. There is none after `usize::MAX` of them, or while the clock can't be read.
#[derive(Drop)]
pub struct ClockMoments<'a, C: Clock> {
    clock: &'a C,
    left: usize,
}

impl<'a, C: Clock> ClockMoments<'a, C> {
    ghost use Rattle.krb_frames.specs.MomentCounts.{moments_left};

    /// Returns the moments of this clock, none of which was taken.
    pub fn new(clock: &'a C) -> ClockMoments<'a, C>
        ensures clock { result.clock.now ≡ clock.now }
        ensures all { moments_left result ≡ usize.MAX }
    {
        ClockMoments {
            clock,
            left: usize::MAX,
        }
    }
}

impl<'a, C: Clock> Iterator for ClockMoments<'a, C> {
    ghost use Rattle.std.specs.Iterator.{at_most};
    ghost use Rattle.krb_frames.specs.MomentCounts.{moments_left};

    type Item = Moment;

    // Which moments come isn't known: no clause says what a clock reads. How many come at most is.
    ghost remaining = { λ s. at_most (moments_left s) };

    fn next(&mut self) -> Option<Moment> {
        if self.left == 0 {
            return None;
        }
        self.left -= 1;
        now(self.clock)
    }
}
