//! Renewable tickets, and the times of what is presented to be renewed (RFC 4120, sections 2.3, 3.1.3, 3.3.3).
ghost use Rattle.std.specs.Prelude.{◌≡◌, ◌≤◌, ◌&&◌, nat_lt};
ghost use Rattle.std.specs.Option.{option_map};
ghost use Rattle.asn1_leaves.specs.GeneralizedTime.{seconds_of};
ghost use Rattle.krb_kdc_exchanges.specs.Renewals.{IsTill, asked_till, granted_till, is_outlived, is_renewable, life_of, renew_till_of, rtime_of, till_behind, till_limit};
ghost use Rattle.krb_kdc_exchanges.specs.Times.{last_second};

use crate::span::Span;
use crate::times::{asked_end, old_end};
use crate::{option_bits, start_of};
use krb_ap_requests::starttime_of;
use krb_messages::data_types::EncTicketPartInner;
use krb_messages::messages::KdcReqBody;
use krb_tickets::flag_bits;
use krb_time::{LAST_SECOND, Moment};
use picky_asn1::date::GeneralizedTime;

// The body's `rtime`, or the last second where it asks for no end.
fn rtime_of(body: &KdcReqBody) -> u64
    ensures { result ≡ rtime_of body.now }
{
    match &body.rtime.0 {
        Some(tagged) => asked_end(tagged.0.0.seconds()),
        None => LAST_SECOND,
    }
}

/// The renew-till that a request asks for, in seconds: by renewable its `rtime`, else by renewable-ok its `till`.
pub(crate) fn asked_till(body: &KdcReqBody) -> Option<u64>
    ensures { result ≡ asked_till body.now }
{
    let options = &body.kdc_options.0;
    if options.bit(option_bits::RENEWABLE) {
        return Some(rtime_of(body));
    }
    if options.bit(option_bits::RENEWABLE_OK) {
        return Some(body.till.0.0.seconds());
    }
    None
}

/// The renew-till that is granted where one is asked for in seconds: at most the starttime plus the greatest renewable life, and the
/// presented ticket's renew-till `old` in a TGS exchange. There is none that isn't after the endtime.
pub(crate) fn granted_till(
    life: u32,
    span: Span,
    old: Option<GeneralizedTime>,
    asked: Option<u64>,
) -> Option<GeneralizedTime>
    ensures { IsTill (granted_till life span (option_map seconds_of old) asked) result }
{
    let Some(asked) = asked else {
        return None;
    };
    let limit = till_limit(life, span.starttime, old);
    till_behind(life, span.endtime, asked.min(limit))
}

// The greatest renew-till, in seconds.
fn till_limit(life: u32, start: GeneralizedTime, old: Option<GeneralizedTime>) -> u64
    ensures value { result ≡ till_limit life (seconds_of start) (option_map seconds_of old) }
    ensures at_most { result ≤ last_second }
{
    let old = old_end(old).min(LAST_SECOND);
    (start.seconds() + u64::from(life)).min(old)
}

// The renew-till of these seconds, where it is after the endtime and tickets are renewable.
fn till_behind(life: u32, end: GeneralizedTime, till: u64) -> Option<GeneralizedTime>
    requires { till ≤ last_second }
    ensures { IsTill (till_behind life (seconds_of end) till) result }
{
    if is_behind(life, end, till) {
        Some(GeneralizedTime::from_seconds(till))
    } else {
        None
    }
}

// Whether these seconds are after the endtime, and tickets are renewable.
fn is_behind(life: u32, end: GeneralizedTime, till: u64) -> bool
    ensures { result ≡ (nat_lt 0 life && nat_lt (seconds_of end) till) }
{
    0 < life && end.seconds() < till
}

/// The presented ticket's renew-till.
pub(crate) fn renew_till_of(part: &EncTicketPartInner) -> Option<GeneralizedTime>
    ensures { option_map seconds_of result ≡ renew_till_of part.now }
{
    match &part.renew_till.0 {
        Some(tagged) => Some(tagged.0.0),
        None => None,
    }
}

/// Whether the presented ticket is renewable: it has the flag and a renew-till.
pub(crate) fn is_renewable(part: &EncTicketPartInner) -> bool
    ensures { result ≡ is_renewable part.now }
{
    part.flags.0.bit(flag_bits::RENEWABLE) && part.renew_till.0.is_some()
}

/// Whether the presented ticket's renew-till isn't after now.
pub(crate) fn is_outlived(moment: Moment, part: &EncTicketPartInner) -> bool
    ensures { result ≡ is_outlived moment part.now }
{
    match &part.renew_till.0 {
        Some(tagged) => tagged.0.0.seconds() <= start_of(moment).seconds(),
        None => true,
    }
}

/// How many seconds the presented ticket lasts.
pub(crate) fn life_of(part: &EncTicketPartInner) -> u64
    ensures value { result ≡ life_of part.now }
    ensures at_most { result ≤ last_second }
{
    part.endtime
        .0
        .0
        .seconds()
        .saturating_sub(starttime_of(part).seconds())
}
