//! The times of a ticket that is granted by a presented one.
ghost use Rattle.std.specs.Prelude.{◌≡◌, ◌≤◌};
ghost use Rattle.krb_kdc_exchanges.specs.Times.{last_second};
ghost use Rattle.krb_kdc_exchanges.specs.Renewals.{IsTill};
ghost use Rattle.krb_kdc_exchanges.specs.TgsTable.{further_asked, further_lasting, further_till};
ghost use Rattle.krb_messages.specs.Refusals.{IsJudged};

use crate::renewals::{asked_till, granted_till, is_renewable, life_of, renew_till_of};
use crate::requests::lasting_to;
use crate::times::NO_END;
use crate::{Call, Span, lasting};
use krb_messages::Refusal;
use krb_messages::data_types::EncTicketPartInner;
use krb_messages::messages::KdcReqBody;
use krb_time::Moment;
use picky_asn1::date::GeneralizedTime;

/// The starttime and endtime of the ticket. A renewed one lasts as long as the presented ticket, and up to its renew-till (RFC 4120,
/// section 3.3.3).
pub(crate) fn further_lasting(
    renews: bool,
    lifetime: u64,
    moment: Moment,
    part: &EncTicketPartInner,
    body: &KdcReqBody,
) -> Result<Span, Refusal>
    requires { lifetime ≤ last_second }
    ensures { IsJudged (further_lasting renews lifetime moment part.now body.now).gives result }
{
    if renews {
        return lasting_to(life_of(part), moment, renew_till_of(part), NO_END);
    }
    lasting(lifetime, moment, Some(part.endtime.0.0), body)
}

/// The renew-till of the ticket, if it has one: a renewed one has that of the presented ticket.
pub(crate) fn further_till(
    renews: bool,
    call: &Call<'_>,
    part: &EncTicketPartInner,
    span: Span,
    body: &KdcReqBody,
) -> Option<GeneralizedTime>
    ensures { IsTill (further_till renews call.now.settings.policy.renewable_life part.now span body.now) result }
{
    let old = renew_till_of(part);
    if renews {
        return old;
    }
    granted_till(
        call.settings.policy().renewable_life,
        span,
        old,
        further_asked(part, body),
    )
}

// The renew-till that is asked for by a renewable ticket, in seconds, and none by another one.
fn further_asked(part: &EncTicketPartInner, body: &KdcReqBody) -> Option<u64>
    ensures { result ≡ further_asked part.now body.now }
{
    if is_renewable(part) {
        asked_till(body)
    } else {
        None
    }
}
