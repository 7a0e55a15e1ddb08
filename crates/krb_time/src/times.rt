//! Times of messages.
ghost use Rattle.std.specs.Prelude.{◌≡◌};
ghost use Rattle.asn1_leaves.specs.GeneralizedTime.{seconds_of};
ghost use Rattle.krb_time.specs.Times.{moment_at};

use crate::calendar::MICROSECONDS_IN_SECOND;
use crate::moment::Moment;
use picky_asn1::date::GeneralizedTime;
use picky_asn1::wrapper::IntegerAsn1;

/// The moment of a time and its microseconds, or none where these are no part of a second (RFC 4120, section 5.2.4).
pub fn moment_at(time: GeneralizedTime, micros: &IntegerAsn1) -> Option<Moment>
    ensures { result ≡ moment_at (seconds_of time) micros.now }
{
    let micros = micros.to_i64()?;
    if micros < 0 || micros >= MICROSECONDS_IN_SECOND as i64 {
        return None;
    }
    Some(Moment::at(time, micros as u32))
}
