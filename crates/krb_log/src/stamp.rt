//! The time of a line.
ghost use Rattle.std.specs.Prelude.{◌≡◌, ◌/◌, ◌%◌, ◌<◌};
ghost use Rattle.asn1_leaves.specs.GeneralizedTime.{seconds_of};

use krb_time::Moment;
use picky_asn1::date::GeneralizedTime;
use std::fmt;

/// The time of a line in UTC, which prints as `2026-11-27T21:30:00.123456Z` (ISO 8601; RFC 3339, section 5.6).
#[derive(Clone, Copy, Debug)]
pub struct Stamp {
    /// The second.
    pub second: GeneralizedTime,
    /// The microseconds since it began, below 1,000,000.
    pub microsecond: u32,
}

impl Stamp {
    /// Returns the time of a moment.
    pub fn of(moment: Moment) -> Stamp
        ensures second { seconds_of result.second ≡ moment / 1000000 }
        ensures microsecond { result.microsecond ≡ moment % 1000000 }
    {
        Stamp {
            second: moment.second(),
            microsecond: moment.microsecond(),
        }
    }
}

impl fmt::Display for Stamp {
    ghost use Rattle.std.specs.Prelude.{Some};
    ghost use Rattle.krb_log.specs.Stamps.{stamp_text};

    ghost output = { λ stamp. Some (stamp_text stamp.second stamp.microsecond) };

    fn fmt<W: fmt::Write>(&self, f: &mut fmt::Formatter<W>) -> fmt::Result {
        let date = Date(self.second);
        let time = TimeOfDay(self.second);
        let fraction = Fraction(self.microsecond);
        write!(f, "{date}T{time}.{fraction}Z")
    }
}

// The date of a second, as `2026-11-27`.
#[derive(Clone, Copy)]
struct Date(GeneralizedTime);

impl fmt::Display for Date {
    ghost use Rattle.std.specs.Prelude.{Some};
    ghost use Rattle.krb_log.specs.Stamps.{date_text};

    ghost output = { λ date. Some (date_text date.0) };

    #[tactic(auto, unfolding(crate::specs::Stamps::date_text))]
    fn fmt<W: fmt::Write>(&self, f: &mut fmt::Formatter<W>) -> fmt::Result {
        let year = self.0.year();
        let century = TwoDigits(u32::from(year / 100));
        let year = TwoDigits(u32::from(year % 100));
        let month = TwoDigits(u32::from(self.0.month()));
        let day = TwoDigits(u32::from(self.0.day()));
        write!(f, "{century}{year}-{month}-{day}")
    }
}

// The time of day of a second, as `21:30:00`.
#[derive(Clone, Copy)]
struct TimeOfDay(GeneralizedTime);

impl fmt::Display for TimeOfDay {
    ghost use Rattle.std.specs.Prelude.{Some};
    ghost use Rattle.krb_log.specs.Stamps.{time_text};

    ghost output = { λ time. Some (time_text time.0) };

    #[tactic(auto, unfolding(crate::specs::Stamps::time_text))]
    fn fmt<W: fmt::Write>(&self, f: &mut fmt::Formatter<W>) -> fmt::Result {
        let hour = TwoDigits(u32::from(self.0.hour()));
        let minute = TwoDigits(u32::from(self.0.minute()));
        let second = TwoDigits(u32::from(self.0.second()));
        write!(f, "{hour}:{minute}:{second}")
    }
}

// The microseconds of a second, in six digits.
#[derive(Clone, Copy)]
struct Fraction(u32);

impl fmt::Display for Fraction {
    ghost use Rattle.std.specs.Prelude.{Some};
    ghost use Rattle.krb_log.specs.Stamps.{fraction_text};

    ghost output = { λ fraction. Some (fraction_text fraction.0) };

    #[tactic(auto, unfolding(crate::specs::Stamps::fraction_text))]
    fn fmt<W: fmt::Write>(&self, f: &mut fmt::Formatter<W>) -> fmt::Result {
        let first = TwoDigits(self.0 / 10_000);
        let middle = TwoDigits(self.0 / 100 % 100);
        let last = TwoDigits(self.0 % 100);
        write!(f, "{first}{middle}{last}")
    }
}

// A number below 100, in two digits.
#[derive(Clone, Copy)]
struct TwoDigits(u32);

impl fmt::Display for TwoDigits {
    ghost use Rattle.std.specs.Prelude.{Some};
    ghost use Rattle.krb_log.specs.Stamps.{two_digits};

    ghost output = { λ number. Some (two_digits number.0) };

    fn fmt<W: fmt::Write>(&self, f: &mut fmt::Formatter<W>) -> fmt::Result {
        let tens = self.0 / 10;
        let ones = self.0 % 10;
        write!(f, "{tens}{ones}")
    }
}
