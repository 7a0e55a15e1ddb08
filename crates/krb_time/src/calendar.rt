//! Moments on the calendar.
ghost use Rattle.std.specs.Prelude.{◌≡◌, ◌≢◌, ◌+◌, ◌*◌, ◌/◌, ◌%◌, ◌<◌, MatchOption};
ghost use Rattle.asn1_leaves.specs.declared.date.GeneralizedTime.{GeneralizedTime as Time};
ghost use Rattle.asn1_leaves.specs.GeneralizedTime.{time_text, seconds_of};
ghost use Rattle.krb_time.specs.Calendar.{IsMomentOfText};
ghost use Rattle.krb_time.specs.Skew.{is_before, IsWithinDay};

use crate::moment::Moment;
use picky_asn1::date::GeneralizedTime;

/// How many microseconds a second has.
pub const MICROSECONDS_IN_SECOND: u64 = 1_000_000;

/// The seconds from 0000-01-01 00:00:00 UTC to 1970-01-01 00:00:00 UTC, which are 719,528 days.
pub const EPOCH: u64 = 62_167_219_200;

/// The last second that a KerberosTime can have, 9999-12-31 23:59:59 UTC, counted from 0000-01-01 00:00:00 UTC.
pub const LAST_SECOND: u64 = 315_569_519_999;

impl Moment {
    /// The beginning of the second that the 15 characters `YYYYMMDDHHMMSSZ` name, none where they name no
    /// time of the calendar.
    pub fn from_text(text: &[u8]) -> Option<Moment>
        ensures { MatchOption
            result
            ((time : Time) → time_text time ≢ text.now)
            (IsMomentOfText text.now) }
    {
        let time = GeneralizedTime::from_text(text)?;
        Some(Moment::at(time, 0))
    }

    /// The moment that many microseconds after the beginning of a second.
    pub fn at(time: GeneralizedTime, microsecond: u32) -> Moment
        requires { microsecond < 1000000 }
        ensures { result ≡ seconds_of time * 1000000 + microsecond }
    {
        Moment::new(time.seconds() * MICROSECONDS_IN_SECOND + microsecond as u64).unwrap()
    }

    /// Whether the moment is before the beginning of a second by more than the skew, which is in microseconds, a day at most.
    pub fn is_before(self, time: GeneralizedTime, skew: u64) -> bool
        requires { IsWithinDay skew }
        ensures { result ≡ is_before skew self (seconds_of time * 1000000) }
    {
        self.micros() + skew < time.seconds() * MICROSECONDS_IN_SECOND
    }

    /// Whether the moment is after the beginning of a second by more than the skew, which is in microseconds, a day at most.
    pub fn is_after(self, time: GeneralizedTime, skew: u64) -> bool
        requires { IsWithinDay skew }
        ensures { result ≡ is_before skew (seconds_of time * 1000000) self }
    {
        time.seconds() * MICROSECONDS_IN_SECOND + skew < self.micros()
    }

    /// The second that the moment lies in.
    pub fn second(self) -> GeneralizedTime
        ensures { seconds_of result ≡ self / 1000000 }
    {
        GeneralizedTime::from_seconds(self.micros() / MICROSECONDS_IN_SECOND)
    }

    /// The microseconds since that second began, below 1,000,000.
    pub fn microsecond(self) -> u32
        ensures value { result ≡ self % 1000000 }
        ensures in_range { result < 1000000 }
    {
        (self.micros() % MICROSECONDS_IN_SECOND) as u32
    }
}
