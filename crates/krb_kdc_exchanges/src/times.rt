//! A ticket's times.
ghost use Rattle.std.specs.Prelude.{◌≡◌, ◌≤◌, ◌<◌, ◌+◌};
ghost use Rattle.std.specs.Option.{option_map};
ghost use Rattle.asn1_leaves.specs.GeneralizedTime.{seconds_of};
ghost use Rattle.krb_kdc_exchanges.specs.Times.{asked_end, end_of, last_second, old_end, start_of};

use krb_realm_accounts::Settings;
use krb_time::{EPOCH, LAST_SECOND, Moment};
use picky_asn1::date::GeneralizedTime;

/// The `till` that requests the latest endtime that is permitted, 1970-01-01 00:00:00 (RFC 4120, section 5.4.1), in seconds since year 0.
pub(crate) const NO_END: u64 = EPOCH;

/// The starttime of a ticket that is granted at a moment: the moment's second.
pub fn start_of(moment: Moment) -> GeneralizedTime
    ensures { seconds_of result ≡ start_of moment }
{
    moment.second()
}

/// The endtime of a ticket: the least of the requested end, the starttime plus the greatest lifetime, the presented ticket's
/// endtime in a TGS exchange, and the last second of year 9999 (RFC 4120, sections 3.1.3, 3.3.3).
pub fn end_of(
    settings: Settings,
    start: GeneralizedTime,
    old: Option<GeneralizedTime>,
    till: GeneralizedTime,
) -> GeneralizedTime
    ensures { seconds_of result ≡ end_of settings.lifetime (seconds_of start) (option_map seconds_of old) (seconds_of till) }
{
    end_within(settings.lifetime(), start, old, till.seconds())
}

/// The same by this lifetime, for a `till` in seconds.
pub(crate) fn end_within(
    lifetime: u64,
    start: GeneralizedTime,
    old: Option<GeneralizedTime>,
    till: u64,
) -> GeneralizedTime
    requires { lifetime ≤ last_second }
    ensures { seconds_of result ≡ end_of lifetime (seconds_of start) (option_map seconds_of old) till }
{
    let requested = asked_end(till);
    let old = old_end(old).min(LAST_SECOND);
    let greatest = (start.seconds() + lifetime).min(old);
    GeneralizedTime::from_seconds(requested.min(greatest))
}

/// The end that a `till` in seconds requests, which by 1970-01-01 00:00:00 is the last second.
pub(crate) fn asked_end(till: u64) -> u64
    ensures { result ≡ asked_end till }
{
    if till == NO_END { LAST_SECOND } else { till }
}

/// The presented ticket's endtime or renew-till, in a TGS exchange.
pub(crate) fn old_end(old: Option<GeneralizedTime>) -> u64
    ensures { result ≡ old_end (option_map seconds_of old) }
{
    match old {
        Some(old) => old.seconds(),
        None => LAST_SECOND,
    }
}
