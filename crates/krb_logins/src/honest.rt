//! Whether a login is honest: the premise of its law, judged by what the parties hold.
ghost use Rattle.std.specs.Prelude.{◌≡◌, ◌↔◌, false, IfOk, IsTrue, None, Some};
ghost use Rattle.krb_time.specs.Skew.{is_far, IsWithinDay};
ghost use Rattle.asn1_leaves.specs.GeneralizedTime.{seconds_of};
ghost use Rattle.krb_realm_accounts.specs.Names.{AreComponents, parts};
ghost use Rattle.krb_service.specs.Pair.{is_among};
ghost use Rattle.krb_kdc_exchanges.specs.Times.{end_of, start_of};
ghost use Rattle.krb_logins.specs.Honest.{AreNamed, IsClientKnown, IsHonestByPassword, IsHonestLogin, IsServiceKnown, IsTicketInTime, IsTimely};
ghost use Rattle.krb_logins.specs.Honest.{clock_of, first_end, further_end, realm_skew};
ghost use Rattle.krb_logins.specs.Input.{held_by, login_of, realm_of};

use crate::input::LoginInput;
use krb_client::Client;
use krb_crypto::{CipherSuite, Key};
use krb_kdc_exchanges::{Call, end_of, start_of};
use krb_messages::{is_same_name, is_same_realm};
use krb_realm_accounts::{Account, RealmRefusal, Settings, components_of};
use krb_service::{KeytabEntry, Pair, Service};
use krb_time::Moment;
use picky_asn1::date::GeneralizedTime;
use picky_asn1::wrapper::GeneralStringAsn1;
use std::alloc::{AllocError, Global};

/// Whether a login is honest whose client has the key of its account. Else it is as [`is_honest`].
pub fn is_honest_by_key(
    alloc: Global,
    client: &Client,
    key: &Key,
    realm: &Call<'_>,
    service: &Service,
    input: &LoginInput<'_>,
) -> Result<bool, AllocError>
    ensures { IfOk result (λ is. IsTrue is ↔ IsHonestByPassword client.now key.now.bytes (realm_of realm.now) service.now (held_by service.now) (login_of input.now)) }
{
    let honest = is_honest(alloc, client, realm, service, input)?;
    if !honest {
        return Ok(false);
    }
    match realm.accounts.get(client.components()) {
        Some(account) => Ok(has_key(account, key)),
        None => Ok(false),
    }
}

/// Whether a login is honest: of this client, at the realm that is called so, and at this service. What the service holds counts as
/// what it admitted. Fails only if memory runs out.
pub fn is_honest(
    alloc: Global,
    client: &Client,
    realm: &Call<'_>,
    service: &Service,
    input: &LoginInput<'_>,
) -> Result<bool, AllocError>
    ensures { IfOk result (λ is. IsTrue is ↔ IsHonestLogin client.now (realm_of realm.now) service.now (held_by service.now) (login_of input.now)) }
{
    let named = are_named(alloc, client, realm, service, input)?;
    if !named {
        return Ok(false);
    }
    if !knows_client(realm, client) {
        return Ok(false);
    }
    if !knows_service(realm, service) {
        return Ok(false);
    }
    if !is_timely(realm, service, input) {
        return Ok(false);
    }
    is_first(alloc, client, service, input.moments.client_ap)
}

// Whether client and service are of the realm, and the service is the one that is asked for.
fn are_named(
    alloc: Global,
    client: &Client,
    realm: &Call<'_>,
    service: &Service,
    input: &LoginInput<'_>,
) -> Result<bool, AllocError>
    ensures { IfOk result (λ is. IsTrue is ↔ AreNamed client.now (realm_of realm.now) service.now (login_of input.now)) }
{
    service.is_well_formed();
    let entry = service.entry();
    if !is_same_realm(client.realm(), realm.realm) {
        return Ok(false);
    }
    if !is_same_realm(entry.realm(), realm.realm) {
        return Ok(false);
    }
    is_asked(alloc, input.service, entry.components())
}

// Whether the octets are those of this name.
fn is_asked(
    alloc: Global,
    asked: &[Vec<u8>],
    name: &[GeneralStringAsn1],
) -> Result<bool, AllocError>
    requires { AreComponents name.now }
    ensures { IfOk result (λ is. IsTrue is ↔ (parts asked.now ≡ name.now)) }
{
    match components_of(alloc, asked) {
        Ok(components) => Ok(is_same_name(components.as_slice(), name)),
        Err(RealmRefusal::BadName) => Ok(false),
        Err(_) => Err(AllocError),
    }
}

// Whether the client has an account, of its suite.
fn knows_client(realm: &Call<'_>, client: &Client) -> bool
    ensures { IsTrue result ↔ IsClientKnown client.now (realm_of realm.now) }
{
    match realm.accounts.get(client.components()) {
        Some(account) => has_suite(account, client.suite()),
        None => false,
    }
}

// Whether an account has this suite.
fn has_suite(account: &Account, suite: CipherSuite) -> bool
    ensures { IsTrue result ↔ (account.now.suite ≡ suite) }
{
    account.suite() == suite
}

// Whether the service has an account, of its suite, its key and its kvno.
fn knows_service(realm: &Call<'_>, service: &Service) -> bool
    ensures { IsTrue result ↔ IsServiceKnown service.now (realm_of realm.now) }
{
    let entry = service.entry();
    match realm.accounts.get(entry.components()) {
        Some(account) => is_of_entry(account, entry),
        None => false,
    }
}

// Whether an account has the suite, the key and the kvno of a keytab entry.
fn is_of_entry(account: &Account, entry: &KeytabEntry) -> bool
    ensures { IsTrue result ↔ ((account.now.suite ≡ entry.now.suite) × (account.now.key ≡ entry.now.key) × (account.now.kvno ≡ entry.now.kvno)) }
{
    has_suite(account, entry.key().suite())
        && has_key(account, entry.key())
        && account.kvno() == entry.kvno()
}

// Whether an account has the octets of this key.
fn has_key(account: &Account, key: &Key) -> bool
    ensures { IsTrue result ↔ (account.now.key ≡ key.now.bytes) }
{
    account.key().as_bytes() == key.as_bytes()
}

// Whether each exchange of a login is timely.
fn is_timely(realm: &Call<'_>, service: &Service, input: &LoginInput<'_>) -> bool
    ensures { IsTrue result ↔ IsTimely (realm_of realm.now) service.now (held_by service.now) (login_of input.now) }
{
    if !is_near_realm(realm, input) {
        return false;
    }
    if !is_near_service(service, input) {
        return false;
    }
    if !is_first_in_time(realm, input) {
        return false;
    }
    is_further_in_time(realm, service, input)
}

// Whether the client is near the realm, in both of their exchanges.
fn is_near_realm(realm: &Call<'_>, input: &LoginInput<'_>) -> bool
    ensures { IsTrue result ↔ ((is_far (realm_skew (realm_of realm.now)) input.now.moments.realm_as input.now.moments.client_as ≡ false)
        × (is_far (realm_skew (realm_of realm.now)) input.now.moments.realm_tgs input.now.moments.client_tgs ≡ false)) }
{
    let (at, skew) = (&input.moments, realm.skew());
    !at.realm_as.is_far_from(at.client_as, skew) && !at.realm_tgs.is_far_from(at.client_tgs, skew)
}

// Whether the client is near the service.
fn is_near_service(service: &Service, input: &LoginInput<'_>) -> bool
    ensures { IsTrue result ↔ (is_far service.now.seen.skew (clock_of (held_by service.now) (login_of input.now)) input.now.moments.client_ap ≡ false) }
{
    let skew = service.seen().skew();
    !clock_of(service, input).is_far_from(input.moments.client_ap, skew)
}

// Whether the ticket-granting ticket is valid in the TGS exchange.
fn is_first_in_time(realm: &Call<'_>, input: &LoginInput<'_>) -> bool
    ensures { IsTrue result ↔ IsTicketInTime (start_of input.now.moments.realm_as) (first_end (realm_of realm.now) (login_of input.now))
        (realm_skew (realm_of realm.now)) input.now.moments.realm_tgs }
{
    let start = start_of(input.moments.realm_as);
    let end = first_end(realm.settings, input);
    is_in_time(start, end, realm.skew(), input.moments.realm_tgs)
}

// Whether the service ticket is valid in the AP exchange.
fn is_further_in_time(realm: &Call<'_>, service: &Service, input: &LoginInput<'_>) -> bool
    ensures { IsTrue result ↔ IsTicketInTime (start_of input.now.moments.realm_tgs) (further_end (realm_of realm.now) (login_of input.now))
        service.now.seen.skew (clock_of (held_by service.now) (login_of input.now)) }
{
    let start = start_of(input.moments.realm_tgs);
    let old = first_end(realm.settings, input);
    let end = end_of(realm.settings, start, Some(old), input.till);
    is_in_time(start, end, service.seen().skew(), clock_of(service, input))
}

// The endtime of the ticket-granting ticket.
fn first_end(settings: Settings, input: &LoginInput<'_>) -> GeneralizedTime
    ensures { seconds_of result ≡ end_of settings.lifetime (start_of input.now.moments.realm_as) None (seconds_of input.now.till) }
{
    let start = start_of(input.moments.realm_as);
    end_of(settings, start, None, input.till)
}

// The clock that the service judges by: the greatest moment that it was handed.
fn clock_of(service: &Service, input: &LoginInput<'_>) -> Moment
    ensures { result ≡ clock_of (held_by service.now) (login_of input.now) }
{
    service.seen().greatest().max(input.moments.service_ap)
}

// Whether a ticket of these times lasts, and is valid at a moment.
fn is_in_time(start: GeneralizedTime, end: GeneralizedTime, skew: u64, moment: Moment) -> bool
    requires { IsWithinDay skew }
    ensures { IsTrue result ↔ IsTicketInTime (seconds_of start) (seconds_of end) skew moment }
{
    start.seconds() < end.seconds() && !moment.is_before(start, skew) && !moment.is_after(end, skew)
}

// Whether the service holds no authenticator of this client and time.
fn is_first(
    alloc: Global,
    client: &Client,
    service: &Service,
    time: Moment,
) -> Result<bool, AllocError>
    ensures { IfOk result (λ is. IsTrue is
        ↔ (is_among (record { realm = client.now.realm; components = client.now.components; time = time }) service.now.seen.held ≡ false)) }
{
    let pair = Pair::new(alloc, client.realm(), client.components(), time)?;
    Ok(!service.seen().contains(&pair))
}
