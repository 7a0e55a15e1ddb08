ghost use Rattle.std.specs.Prelude.{◌≡◌, ℕ, SomeIff};
ghost use Rattle.krb_time.specs.Moment.{IsMoment};
ghost use Rattle.krb_time.specs.Skew.{is_far, IsWithinDay};

use std::marker::Model;

/// How many microseconds the years 0 to 9999 of the Gregorian calendar have.
const MICROSECONDS: u64 = 315_569_520_000_000_000;

/// A moment: the microseconds since 0000-01-01 00:00:00 UTC, in the years 0 to 9999 of the proleptic
/// Gregorian calendar. A contract sees their number.
#[derive(Clone, Copy, Debug, PartialEq, Eq, Hash, PartialOrd, Ord)]
pub struct Moment {
    micros: u64,
}

impl Model for Moment {
    ghost Value = { ℕ };

    ghost view = { λ m. m.micros };

    ghost invariant = { λ m. IsMoment m.micros };

    ghost inverse = { λ n. record { micros = n } };
}

impl Moment {
    /// The moment that many microseconds after 0000-01-01 00:00:00 UTC, or none past the year 9999.
    pub fn new(micros: u64) -> Option<Self>
        ensures { SomeIff result (IsMoment micros) micros }
    {
        if micros < MICROSECONDS {
            Some(Moment { micros })
        } else {
            None
        }
    }

    /// The microseconds since 0000-01-01 00:00:00 UTC.
    pub fn micros(self) -> u64
        ensures value { result ≡ self }
        ensures in_range { IsMoment self }
    {
        self.micros
    }

    /// Whether the two moments differ by more than the skew, which is in microseconds, a day at most (RFC 4120,
    /// section 5.9.1, KRB_AP_ERR_SKEW).
    pub fn is_far_from(self, other: Moment, skew: u64) -> bool
        requires { IsWithinDay skew }
        ensures { result ≡ is_far skew self other }
    {
        let moment = self.micros();
        let other = other.micros();
        moment + skew < other || other + skew < moment
    }
}
