//! Times (RFC 5280, section 4.1).
ghost use Rattle.std.specs.Prelude.{◌≡◌, MatchResult, IfOk};

use byte_streams::{Sink, Source};
use picky_asn1::date::{GeneralizedTime, UTCTime};
use picky_asn1::wrapper::{GeneralizedTimeAsn1, UTCTimeAsn1};
use picky_asn1_der::{
    Alternatives, Asn1DerError, Choice, Deserialize, Deserializer, Last, Serialize, Serializer,
};
use std::fmt;
use x509_spelling::Exact;

/// A time, to the second.
///
/// ```text
/// Time ::= CHOICE {
///      utcTime        UTCTime,
///      generalTime    GeneralizedTime }
/// ```
///
/// Either is read, also where the standard wants the other for its year.
#[derive(Clone, Copy, Debug, PartialEq, Eq)]
pub enum Time {
    /// A time of the years 1950 to 2049.
    Utc(UTCTimeAsn1),
    /// A time of any year.
    Generalized(GeneralizedTimeAsn1),
}

type TimeChoice = Choice<UTCTimeAsn1, Last<GeneralizedTimeAsn1>>;

impl Time {
    ghost use Rattle.x509_fields.specs.Times.{moment};

    /// The time that either alternative holds.
    pub fn moment(&self) -> GeneralizedTime
        ensures { result ≡ moment self.now }
    {
        match self {
            Time::Utc(time) => time.0.time,
            Time::Generalized(time) => time.0,
        }
    }

    /// The year, 0 to 9999.
    pub fn year(&self) -> u16
        ensures { result ≡ (moment self.now).year }
    {
        self.moment().year()
    }

    /// The month, from 1 for January.
    pub fn month(&self) -> u8
        ensures { result ≡ (moment self.now).month }
    {
        self.moment().month()
    }

    /// The day of the month, from 1.
    pub fn day(&self) -> u8
        ensures { result ≡ (moment self.now).day }
    {
        self.moment().day()
    }

    /// The hour, 0 to 23.
    pub fn hour(&self) -> u8
        ensures { result ≡ (moment self.now).hour }
    {
        self.moment().hour()
    }

    /// The minute, 0 to 59.
    pub fn minute(&self) -> u8
        ensures { result ≡ (moment self.now).minute }
    {
        self.moment().minute()
    }

    /// The second, 0 to 59.
    pub fn second(&self) -> u8
        ensures { result ≡ (moment self.now).second }
    {
        self.moment().second()
    }
}

impl fmt::Display for Time {
    ghost use Rattle.std.specs.Prelude.{Some};
    ghost use Rattle.asn1_leaves.specs.GeneralizedTime.{shown_time};
    ghost use Rattle.x509_fields.specs.Times.{moment};

    ghost output = { λ time. Some (shown_time (moment time)) };

    fn fmt<W: fmt::Write>(&self, f: &mut fmt::Formatter<W>) -> fmt::Result {
        fmt::Display::fmt(&self.moment(), f)
    }
}

impl From<UTCTime> for Time {
    ghost use Rattle.x509_fields.specs.declared.time.Time.TheVariants.{Utc};

    ghost from_gives = { λ moment time. time ≡ Utc (record { 0 = moment }) };

    fn from(moment: UTCTime) -> Time {
        Time::Utc(UTCTimeAsn1(moment))
    }
}

impl From<GeneralizedTime> for Time {
    ghost use Rattle.x509_fields.specs.declared.time.Time.TheVariants.{Generalized};

    ghost from_gives = { λ moment time. time ≡ Generalized (record { 0 = moment }) };

    fn from(moment: GeneralizedTime) -> Time {
        Time::Generalized(GeneralizedTimeAsn1(moment))
    }
}

impl From<UTCTimeAsn1> for Time {
    ghost use Rattle.x509_fields.specs.declared.time.Time.TheVariants.{Utc};

    ghost from_gives = { λ moment time. time ≡ Utc moment };

    fn from(moment: UTCTimeAsn1) -> Time {
        Time::Utc(moment)
    }
}

impl From<GeneralizedTimeAsn1> for Time {
    ghost use Rattle.x509_fields.specs.declared.time.Time.TheVariants.{Generalized};

    ghost from_gives = { λ moment time. time ≡ Generalized moment };

    fn from(moment: GeneralizedTimeAsn1) -> Time {
        Time::Generalized(moment)
    }
}

impl Serialize for Time {
    ghost use Rattle.std.proofs.Common.{refl, true};
    ghost use Rattle.asn1_der.proofs.Choices.{injective_as};
    ghost use Rattle.x509_fields.specs.Times.{time_choice, time_made, time_back};

    ghost tree = { λ v. ⟦<TimeChoice as Alternatives>⟧.tree (time_choice v) };

    ghost firsts = { ⟦<TimeChoice as Alternatives>⟧.firsts };

    ghost begins = { λ v. ⟦<TimeChoice as Alternatives>⟧.begins (time_choice v) };

    ghost injective = { injective_as ⟦<TimeChoice as Alternatives>⟧.tree (⟦<TimeChoice as Alternatives>⟧.injective (refl {a = true})) time_choice time_made time_back };

    fn serialize<W: Sink>(&self, to: &mut Serializer<W>) -> Result<usize, Asn1DerError> {
        match self {
            Time::Utc(time) => time.serialize(to),
            Time::Generalized(time) => time.serialize(to),
        }
    }
}

impl Deserialize for Time {
    fn may_start(first: u8) -> bool {
        TimeChoice::may_start_any(first)
    }

    fn deserialize<R: Source>(from: &mut Deserializer<R>) -> Result<Self, Asn1DerError> {
        let choice: TimeChoice = Alternatives::read_one(from)?;
        Ok(match choice {
            Choice::This(time) => Time::Utc(time),
            Choice::Other(Last(time)) => Time::Generalized(time),
        })
    }
}

impl Exact for Time {
    ghost plain = { tt };
}
