//! Times of the calendar.
ghost use Rattle.std.specs.Prelude.{◌≡◌, ◌≢◌, ℕ, ◌+◌, ◌-◌, ◌<◌, ◌≤◌, ◌↔◌, IsOk, IfOk, IfErr, IsTrue, MatchOption, length};
ghost use Rattle.std.specs.Int.{IsInRange};
ghost use Rattle.asn1_leaves.specs.Calendar.{IsCalendarDate, IsTimeOfDay, day_number, days_before_year, days_in_month, days_of_months, HasDigits};

use crate::LeafFault;
use crate::ascii::ascii_text;
pub use crate::utc_time::UTCTime;
use jiff::civil;
use std::fmt;

// The first date of `jiff` is -9999-01-01.
const DAYS_BEFORE_ZERO: u32 = 3_652_059;

/// A time to the second in UTC, on the proleptic Gregorian calendar, in the years 0 to 9999 (X.680, section 46,
/// RFC 4120, section 5.2.3). A leap second is none. The earlier time is less.
#[derive(Clone, Copy, Debug, PartialEq, Eq, PartialOrd, Ord, Hash)]
pub struct GeneralizedTime {
    /// The year, 0 to 9999.
    pub year: u16,
    /// The month, from 1 for January.
    pub month: u8,
    /// The day of the month, from 1.
    pub day: u8,
    /// The hour, 0 to 23.
    pub hour: u8,
    /// The minute, 0 to 59.
    pub minute: u8,
    /// The second, 0 to 59.
    pub second: u8,
    pub ghost on_calendar: { IsCalendarDate year month day },
    pub ghost on_clock: { IsTimeOfDay hour minute second },
}

/// A time, by the name that the ported crate has for it.
pub type Date = GeneralizedTime;

impl GeneralizedTime {
    ghost use Rattle.asn1_leaves.specs.declared.date.GeneralizedTime.{GeneralizedTime as Time};
    ghost use Rattle.asn1_leaves.specs.GeneralizedTime.{HasParts, time_text, shown_time, seconds_of};

    /// The time with these parts, which the calendar and the clock must have.
    pub fn new(
        year: u16,
        month: u8,
        day: u8,
        hour: u8,
        minute: u8,
        second: u8,
    ) -> Result<GeneralizedTime, LeafFault>
        ensures made { IsOk result ↔ (IsCalendarDate year month day × IsTimeOfDay hour minute second) }
        ensures value { IfOk result (HasParts year month day hour minute second) }
        ensures err { IfErr result (λ e. e ≡ LeafFault.Time) }
    {
        if is_calendar_date(year, month, day) && hour < 24 && minute < 60 && second < 60 {
            Ok(GeneralizedTime {
                year,
                month,
                day,
                hour,
                minute,
                second,
            })
        } else {
            Err(LeafFault::Time)
        }
    }

    /// Reads the 15 characters `YYYYMMDDHHMMSSZ`.
    pub fn from_text(text: &[u8]) -> Option<GeneralizedTime>
        ensures { MatchOption result
            ((t : Time) → time_text t ≢ text.now)
            (λ t. time_text t ≡ text.now) }
    {
        if text.len() != 15 || text[14] != b'Z' {
            return None;
        }
        let century = two_digits_at(text, 0)?;
        let year = two_digits_at(text, 2)?;
        let month = two_digits_at(text, 4)?;
        let day = two_digits_at(text, 6)?;
        let hour = two_digits_at(text, 8)?;
        let minute = two_digits_at(text, 10)?;
        let second = two_digits_at(text, 12)?;
        let year = century as u16 * 100 + year as u16;
        GeneralizedTime::new(year, month, day, hour, minute, second).ok()
    }

    /// The 15 characters `YYYYMMDDHHMMSSZ`.
    pub fn to_text(&self) -> [u8; 15]
        ensures { result ≡ time_text self.now }
    {
        let century = (self.year / 100) as u8;
        let year = (self.year % 100) as u8;
        [
            b'0' + century / 10,
            b'0' + century % 10,
            b'0' + year / 10,
            b'0' + year % 10,
            b'0' + self.month / 10,
            b'0' + self.month % 10,
            b'0' + self.day / 10,
            b'0' + self.day % 10,
            b'0' + self.hour / 10,
            b'0' + self.hour % 10,
            b'0' + self.minute / 10,
            b'0' + self.minute % 10,
            b'0' + self.second / 10,
            b'0' + self.second % 10,
            b'Z',
        ]
    }

    // The 20 characters `YYYY-MM-DD HH:MM:SSZ`.
    fn to_shown(&self) -> [u8; 20]
        ensures { result ≡ shown_time self.now }
    {
        let [c, d, y, z, m, n, a, b, h, i, p, q, s, t, zone] = self.to_text();
        [
            c, d, y, z, b'-', m, n, b'-', a, b, b' ', h, i, b':', p, q, b':', s, t, zone,
        ]
    }

    /// The year, 0 to 9999.
    pub fn year(&self) -> u16
        ensures { result ≡ self.now.year }
    {
        self.year
    }

    /// The month, from 1 for January.
    pub fn month(&self) -> u8
        ensures { result ≡ self.now.month }
    {
        self.month
    }

    /// The day of the month, from 1.
    pub fn day(&self) -> u8
        ensures { result ≡ self.now.day }
    {
        self.day
    }

    /// The hour, 0 to 23.
    pub fn hour(&self) -> u8
        ensures { result ≡ self.now.hour }
    {
        self.hour
    }

    /// The minute, 0 to 59.
    pub fn minute(&self) -> u8
        ensures { result ≡ self.now.minute }
    {
        self.minute
    }

    /// The second, 0 to 59.
    pub fn second(&self) -> u8
        ensures { result ≡ self.now.second }
    {
        self.second
    }

    /// The seconds since 0000-01-01 00:00:00.
    pub fn seconds(&self) -> u64
        ensures value { result ≡ seconds_of self.now }
        ensures in_range { result < 315569520000 }
    {
        let of_day = self.hour as u64 * 3600 + self.minute as u64 * 60 + self.second as u64;
        day_count(self.year, self.month, self.day) as u64 * 86_400 + of_day
    }

    /// The time that many seconds after 0000-01-01 00:00:00.
    pub fn from_seconds(seconds: u64) -> GeneralizedTime
        requires { seconds < 315569520000 }
        ensures value { seconds_of result ≡ seconds }
        ensures only { (t : Time) → seconds_of t ≡ seconds → t ≡ result }
    {
        let (year, month, day) = calendar_date((seconds / 86_400) as u32);
        let of_day = (seconds % 86_400) as u32;
        GeneralizedTime {
            year,
            month,
            day,
            hour: (of_day / 3600) as u8,
            minute: (of_day % 3600 / 60) as u8,
            second: (of_day % 60) as u8,
        }
    }
}

impl fmt::Display for GeneralizedTime {
    ghost use Rattle.std.specs.Prelude.{Some};
    ghost use Rattle.asn1_leaves.specs.GeneralizedTime.{shown_time};

    ghost output = { λ t. Some (shown_time t) };

    fn fmt<W: fmt::Write>(&self, f: &mut fmt::Formatter<W>) -> fmt::Result {
        let shown = self.to_shown();
        f.write_str(ascii_text(&shown))
    }
}

fn is_calendar_date(year: u16, month: u8, day: u8) -> bool
    ensures { IsTrue result ↔ IsCalendarDate year month day }
{
    year <= 9999
        && month <= 12
        && day <= 31
        && civil::Date::new(year as i16, month as i8, day as i8).is_ok()
}

// How many days lie between 0000-01-01 and the date.
fn day_count(year: u16, month: u8, day: u8) -> u32
    requires { IsCalendarDate year month day }
    ensures value { result ≡ day_number year month day }
    ensures in_range { result < 3652425 }
{
    let date = civil::Date::new(year as i16, month as i8, day as i8).unwrap();
    date.to_plain().days_since_min() - DAYS_BEFORE_ZERO
}

// The date that many days after 0000-01-01.
fn calendar_date(days: u32) -> (u16, u8, u8)
    requires { days < 3652425 }
    ensures date { IsCalendarDate result.0 result.1 result.2 }
    ensures number { day_number result.0 result.1 result.2 ≡ days }
{
    let year = year_of(days);
    let (month, day) = month_and_day(year as u16, days - days_before(year));
    (year as u16, month, day)
}

// The year of the day that many days after 0000-01-01.
fn year_of(days: u32) -> u32
    requires { days < 3652425 }
    ensures year { result ≤ 9999 }
    ensures from { days_before_year result ≤ days }
    ensures before { days < days_before_year result + days_of_months result 12 }
{
    // 400 years have 146,097 days, so the year is this one or the one before.
    let year = (days * 400 + 400) / 146_097;
    if days < days_before(year) {
        return year - 1;
    }
    year
}

// How many days lie before 1 January of the year.
fn days_before(year: u32) -> u32
    requires { year ≤ 10000 }
    ensures { result ≡ days_before_year year }
{
    365 * year + (year + 3) / 4 - (year + 99) / 100 + (year + 399) / 400
}

// The month and the day of the month, of a day of the year that counts from 0.
fn month_and_day(year: u16, day_of_year: u32) -> (u8, u8)
    requires { day_of_year < days_of_months year 12 }
    ensures month { IsInRange 1 12 result.0 }
    ensures day { IsInRange 1 (days_in_month year result.0) result.1 }
    ensures number { days_of_months year (result.0 - 1) + (result.1 - 1) ≡ day_of_year }
{
    let mut rest = day_of_year;
    for month in 1..12u8 {
        let size = month_length(year, month) as u32;
        if rest < size {
            return (month, rest as u8 + 1);
        }
        rest -= size;
    }
    (12, rest as u8 + 1)
}

// How many days the month of the year has.
fn month_length(year: u16, month: u8) -> u8
    ensures { result ≡ days_in_month year month }
{
    if month == 2 {
        let leap = year % 4 == 0 && (year % 100 != 0 || year % 400 == 0);
        return if leap { 29 } else { 28 };
    }
    if month == 4 || month == 6 || month == 9 || month == 11 {
        30
    } else {
        31
    }
}

// The number that two decimal digits represent.
fn two_digits_at(text: &[u8], at: usize) -> Option<u8>
    requires { at + 1 < length text.now }
    ensures { MatchOption result
        ((n : ℕ) → n < 100 → ¬ HasDigits text.now at n)
        (λ n. (n < 100) × HasDigits text.now at n) }
{
    let tens = text[at];
    let ones = text[at + 1];
    if tens.is_ascii_digit() && ones.is_ascii_digit() {
        Some((tens - b'0') * 10 + (ones - b'0'))
    } else {
        None
    }
}
