//! The moment of a machine's clock.
ghost use Rattle.std.specs.Prelude.{◌≡◌, ◌<◌, ◌≤◌, SomeIff};
ghost use Rattle.asn1_leaves.specs.GeneralizedTime.{seconds_of};
ghost use Rattle.krb_time.specs.Moment.{IsMoment};
ghost use Rattle.krb_time.specs.Epoch.{micros_after_epoch, since_epoch};

use crate::{EPOCH, Moment};
use picky_asn1::date::GeneralizedTime;

/// The first second from 1970-01-01 00:00:00 UTC on that is past the year 9999.
const SECOND_LIMIT: u64 = 253_402_300_800;

/// The moment that many seconds and microseconds after 1970-01-01 00:00:00 UTC, or none past the year 9999.
pub fn after_epoch(seconds: u64, micros: u32) -> Option<Moment>
    requires { micros < 1000000 }
    ensures { SomeIff result (IsMoment (micros_after_epoch seconds micros)) (micros_after_epoch seconds micros) }
{
    if SECOND_LIMIT <= seconds {
        return None;
    }
    Moment::new((EPOCH + seconds) * 1_000_000 + u64::from(micros))
}

/// The seconds from 1970-01-01 00:00:00 UTC to a time, in 32 bits: 0 for an earlier time, and the greatest number for one that is later than
/// that.
pub fn seconds_since_epoch(time: GeneralizedTime) -> u32
    ensures { result ≡ since_epoch (seconds_of time) }
{
    time.seconds()
        .saturating_sub(EPOCH)
        .min(u64::from(u32::MAX)) as u32
}
