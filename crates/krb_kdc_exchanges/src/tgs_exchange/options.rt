//! Judges what the options of a TGS request need of the presented ticket and of the service that is asked for.
ghost use Rattle.std.specs.Prelude.{◌≡◌, ◌&&◌, ◌||◌, not};
ghost use Rattle.picky_asn1.specs.BitString.{bit_of};
ghost use Rattle.krb_kdc_exchanges.specs.Call.{call_of};
ghost use Rattle.krb_kdc_exchanges.specs.Renewals.{is_outlived, is_renewable};
ghost use Rattle.krb_kdc_exchanges.specs.TgsTable.{by_options, is_granting};
ghost use Rattle.krb_messages.specs.Names.{components};
ghost use Rattle.krb_messages.specs.Refusals.{IsJudged};

use crate::Call;
use crate::options::AskedOptions;
use crate::renewals::{is_outlived, is_renewable};
use krb_constants::error_codes;
use krb_messages::data_types::{EncTicketPartInner, PrincipalName};
use krb_messages::{Refusal, krbtgt};
use krb_tickets::flag_bits;
use krb_time::Moment;
use picky_asn1::wrapper::{BitStringAsn1, GeneralStringAsn1};

/// Judges whether the presented ticket may be forwarded, renewed or a proxy made of it, as the request asks for it by its options. A
/// ticket is renewed or forwarded for the ticket-granting service alone, and a proxy is made for any other one.
pub(crate) fn check_options(
    call: &Call<'_>,
    asked: AskedOptions,
    part: &EncTicketPartInner,
    service_name: &PrincipalName,
) -> Result<(), Refusal>
    ensures { IsJudged (by_options (call_of call.now) asked part.now service_name.now).gives result }
{
    if lacks(asked.forwards, &part.flags.0, flag_bits::FORWARDABLE) {
        return Err(Refusal::Krb(error_codes::KDC_ERR_BADOPTION));
    }
    if lacks(asked.proxies, &part.flags.0, flag_bits::PROXIABLE) {
        return Err(Refusal::Krb(error_codes::KDC_ERR_BADOPTION));
    }
    if renews_other(asked.renews, part) {
        return Err(Refusal::Krb(error_codes::KDC_ERR_BADOPTION));
    }
    if renews_late(asked.renews, call.moment, part) {
        return Err(Refusal::Krb(error_codes::KRB_AP_ERR_TKT_EXPIRED));
    }
    if is_beside(asked, call.realm, service_name) {
        return Err(Refusal::Krb(error_codes::KDC_ERR_SERVER_NOMATCH));
    }
    if proxies_granting(asked.proxies, call.realm, service_name) {
        return Err(Refusal::Krb(error_codes::KDC_ERR_BADOPTION));
    }
    Ok(())
}

// Whether something is asked for that needs this flag, and the flag isn't set.
fn lacks(asked: bool, flags: &BitStringAsn1, flag: usize) -> bool
    ensures { result ≡ (asked && not (bit_of flags.now flag)) }
{
    asked && !flags.bit(flag)
}

// Whether a ticket is to be renewed that isn't renewable.
fn renews_other(renews: bool, part: &EncTicketPartInner) -> bool
    ensures { result ≡ (renews && not (is_renewable part.now)) }
{
    renews && !is_renewable(part)
}

// Whether a ticket is to be renewed whose renew-till isn't after now.
fn renews_late(renews: bool, moment: Moment, part: &EncTicketPartInner) -> bool
    ensures { result ≡ (renews && is_outlived moment part.now) }
{
    renews && is_outlived(moment, part)
}

// Whether a ticket is to be renewed or forwarded for another service than the ticket-granting one.
fn is_beside(asked: AskedOptions, realm: &GeneralStringAsn1, name: &PrincipalName) -> bool
    ensures { result ≡ ((asked.renews || asked.forwards) && not (is_granting realm.now (components name.now))) }
{
    (asked.renews || asked.forwards) && !is_granting(realm, name)
}

// Whether a proxy is to be made for the ticket-granting service.
fn proxies_granting(proxies: bool, realm: &GeneralStringAsn1, name: &PrincipalName) -> bool
    ensures { result ≡ (proxies && is_granting realm.now (components name.now)) }
{
    proxies && is_granting(realm, name)
}

// Whether the name is that of the realm's ticket-granting service.
fn is_granting(realm: &GeneralStringAsn1, name: &PrincipalName) -> bool
    ensures { result ≡ is_granting realm.now (components name.now) }
{
    is_krbtgt(realm, name.name_string.0.as_slice())
}

// The same for the components of a name.
fn is_krbtgt(realm: &GeneralStringAsn1, name: &[GeneralStringAsn1]) -> bool
    ensures { result ≡ is_granting realm.now name.now }
{
    let [first, second] = name else {
        return false;
    };
    first.as_bytes() == krbtgt() && second.as_bytes() == realm.as_bytes()
}
