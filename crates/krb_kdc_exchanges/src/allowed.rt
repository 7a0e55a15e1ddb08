//! What the attributes of the accounts that a request involves allow.
ghost use Rattle.std.specs.Prelude.{◌≡◌, ◌≤◌};
ghost use Rattle.krb_kdc_exchanges.specs.Allowed.{changes_passwords, first_allowed, further_allowed, has_ended, lifetime_of, limited};
ghost use Rattle.krb_kdc_exchanges.specs.Grants.{principals_of};
ghost use Rattle.krb_kdc_exchanges.specs.Times.{last_second};
ghost use Rattle.krb_messages.specs.Refusals.{IsJudged};

use crate::as_exchange::Principals;
use crate::start_of;
use krb_constants::error_codes;
use krb_messages::Refusal;
use krb_realm_accounts::{Account, Settings};
use krb_time::Moment;
use picky_asn1::wrapper::GeneralStringAsn1;

// Whether the account has ended.
fn has_ended(moment: Moment, account: &Account) -> bool
    ensures { result ≡ has_ended moment account.now }
{
    let ends = account.attributes().ends;
    0 < ends && ends < start_of(moment).seconds()
}

// Whether the name is that of the service that changes passwords (RFC 3244, section 2).
fn changes_passwords(name: &[GeneralStringAsn1]) -> bool
    ensures { result ≡ changes_passwords name.now }
{
    let [first, second] = name else {
        return false;
    };
    first.as_bytes() == b"kadmin".as_slice() && second.as_bytes() == b"changepw".as_slice()
}

/// Judges whether a first ticket for this service may be granted to this client, by the attributes of their accounts.
pub(crate) fn check_first_allowed(moment: Moment, principals: Principals<'_>) -> Result<(), Refusal>
    ensures { IsJudged (first_allowed moment (principals_of principals.entry)).gives result }
{
    let (client, service) = (principals.client, principals.service);
    if has_ended(moment, client) {
        return Err(Refusal::Krb(error_codes::KDC_ERR_NAME_EXP));
    }
    if has_ended(moment, service) {
        return Err(Refusal::Krb(error_codes::KDC_ERR_SERVICE_EXP));
    }
    let name = principals.service_name.name_string.0.as_slice();
    if client.attributes().must_change && !changes_passwords(name) {
        return Err(Refusal::Krb(error_codes::KDC_ERR_KEY_EXPIRED));
    }
    if client.attributes().is_off {
        return Err(Refusal::Krb(error_codes::KDC_ERR_CLIENT_REVOKED));
    }
    if service.attributes().is_off {
        return Err(Refusal::Krb(error_codes::KDC_ERR_S_PRINCIPAL_UNKNOWN));
    }
    if service.attributes().is_no_service {
        return Err(Refusal::Krb(error_codes::KDC_ERR_POLICY));
    }
    Ok(())
}

/// Judges whether a ticket for this service may be granted to this client of a presented ticket, by the attributes of their accounts.
pub(crate) fn check_further_allowed(
    moment: Moment,
    client: &Account,
    service: &Account,
) -> Result<(), Refusal>
    ensures { IsJudged (further_allowed moment client.now service.now).gives result }
{
    if has_ended(moment, client) {
        return Err(Refusal::Krb(error_codes::KDC_ERR_NAME_EXP));
    }
    if client.attributes().is_off {
        return Err(Refusal::Krb(error_codes::KDC_ERR_CLIENT_REVOKED));
    }
    if service.attributes().is_off {
        return Err(Refusal::Krb(error_codes::KDC_ERR_S_PRINCIPAL_UNKNOWN));
    }
    if service.attributes().is_no_service {
        return Err(Refusal::Krb(error_codes::KDC_ERR_POLICY));
    }
    if has_ended(moment, service) {
        return Err(Refusal::Krb(error_codes::KDC_ERR_SERVICE_EXP));
    }
    Ok(())
}

/// The lifetime, at most that of the account where it has one of its own.
pub(crate) fn limited(account: &Account, lifetime: u64) -> u64
    ensures value { result ≡ limited account.now lifetime }
    ensures at_most { result ≤ lifetime }
{
    let own = account.attributes().lifetime;
    if 0 < own {
        lifetime.min(u64::from(own))
    } else {
        lifetime
    }
}

/// The greatest lifetime of a ticket of this client, for this service.
pub(crate) fn lifetime_of(settings: Settings, client: &Account, service: &Account) -> u64
    ensures value { result ≡ lifetime_of settings.lifetime client.now service.now }
    ensures at_most { result ≤ last_second }
{
    limited(service, limited(client, settings.lifetime()))
}
