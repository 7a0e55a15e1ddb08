//! Times of the years 1950 to 2049.
ghost use Rattle.std.specs.Prelude.{◌≡◌, ◌≢◌, IsOk, IfOk, IfErr, ◌↔◌, ◌<◌, MatchOption};
ghost use Rattle.asn1_leaves.specs.Calendar.{IsCalendarDate, IsTimeOfDay};
ghost use Rattle.asn1_leaves.specs.UtcYears.{IsUtcYear};

use crate::LeafFault;
use crate::date::GeneralizedTime;
use std::fmt;

/// A time to the second in UTC in the years 1950 to 2049, of which two digits are written (X.690, section 11.8, and
/// RFC 5280, section 4.1.2.5.1). A leap second is none. The earlier time is less.
#[derive(Clone, Copy, Debug, PartialEq, Eq, PartialOrd, Ord, Hash)]
pub struct UTCTime {
    /// The time with its whole year.
    pub time: GeneralizedTime,
    pub ghost in_years: { IsUtcYear time.year },
}

impl UTCTime {
    ghost use Rattle.asn1_leaves.specs.declared.utc_time.UTCTime.{UTCTime as Time};
    ghost use Rattle.asn1_leaves.specs.UtcTime.{utc_text, HasUtcParts};
    ghost use Rattle.asn1_leaves.specs.GeneralizedTime.{seconds_of};

    /// The time with these parts, which the calendar and the clock must have, in the years 1950 to 2049.
    pub fn new(
        year: u16,
        month: u8,
        day: u8,
        hour: u8,
        minute: u8,
        second: u8,
    ) -> Result<UTCTime, LeafFault>
        ensures made { IsOk result
            ↔ (IsUtcYear year × IsCalendarDate year month day × IsTimeOfDay hour minute second) }
        ensures value { IfOk result (HasUtcParts year month day hour minute second) }
        ensures err { IfErr result (λ e. e ≡ LeafFault.Time) }
    {
        let time = GeneralizedTime::new(year, month, day, hour, minute, second)?;
        UTCTime::try_from(time)
    }

    /// Reads the 13 characters `YYMMDDHHMMSSZ`; the years 50 to 99 are 1950 to 1999, and 00 to 49 are 2000 to 2049.
    pub fn from_text(text: &[u8]) -> Option<UTCTime>
        ensures { MatchOption result
            ((t : Time) → utc_text t ≢ text.now)
            (λ t. utc_text t ≡ text.now) }
    {
        if text.len() != 13 {
            return None;
        }
        let century = if text[0] < b'5' { b"20" } else { b"19" };
        let mut whole = [0; 15];
        whole[..2].copy_from_slice(century);
        whole[2..].copy_from_slice(text);
        let time = GeneralizedTime::from_text(&whole)?;
        UTCTime::try_from(time).ok()
    }

    /// The 13 characters `YYMMDDHHMMSSZ`.
    pub fn to_text(&self) -> [u8; 13]
        ensures { result ≡ utc_text self.now }
    {
        let whole = self.time.to_text();
        let mut text = [0; 13];
        text.copy_from_slice(&whole[2..]);
        text
    }

    /// The year, 1950 to 2049.
    pub fn year(&self) -> u16
        ensures { result ≡ self.now.time.year }
    {
        self.time.year()
    }

    /// The month, from 1 for January.
    pub fn month(&self) -> u8
        ensures { result ≡ self.now.time.month }
    {
        self.time.month()
    }

    /// The day of the month, from 1.
    pub fn day(&self) -> u8
        ensures { result ≡ self.now.time.day }
    {
        self.time.day()
    }

    /// The hour, 0 to 23.
    pub fn hour(&self) -> u8
        ensures { result ≡ self.now.time.hour }
    {
        self.time.hour()
    }

    /// The minute, 0 to 59.
    pub fn minute(&self) -> u8
        ensures { result ≡ self.now.time.minute }
    {
        self.time.minute()
    }

    /// The second, 0 to 59.
    pub fn second(&self) -> u8
        ensures { result ≡ self.now.time.second }
    {
        self.time.second()
    }

    /// The seconds since 0000-01-01 00:00:00.
    pub fn seconds(&self) -> u64
        ensures value { result ≡ seconds_of self.now.time }
        ensures in_range { result < 315569520000 }
    {
        self.time.seconds()
    }
}

impl TryFrom<GeneralizedTime> for UTCTime {
    ghost use Rattle.std.specs.Prelude.{◌≡◌, MatchResult};
    ghost use Rattle.asn1_leaves.specs.UtcYears.{IsUtcYear};
    ghost use Rattle.asn1_leaves.specs.declared.fault.LeafFault.TheVariants.{Time};

    type Error = LeafFault;

    ghost try_from_gives = { λ time made. MatchResult
        made
        (λ t. IsUtcYear time.year × (t.time ≡ time))
        (λ e. (e ≡ Time) × ¬ IsUtcYear time.year) };

    fn try_from(time: GeneralizedTime) -> Result<UTCTime, LeafFault> {
        if 1950 <= time.year && time.year <= 2049 {
            Ok(UTCTime { time })
        } else {
            Err(LeafFault::Time)
        }
    }
}

impl fmt::Display for UTCTime {
    ghost use Rattle.std.specs.Prelude.{Some};
    ghost use Rattle.asn1_leaves.specs.GeneralizedTime.{shown_time};

    ghost output = { λ t. Some (shown_time t.time) };

    fn fmt<W: fmt::Write>(&self, f: &mut fmt::Formatter<W>) -> fmt::Result {
        fmt::Display::fmt(&self.time, f)
    }
}
