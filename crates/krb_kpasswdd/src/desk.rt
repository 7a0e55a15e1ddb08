//! What serves the messages.

use crate::admins::admins_of;
use crate::arguments::Options;
use krb_account_texts::{Line, RealmLine, principal_name};
use krb_commands::{Stop, account_among, lines_of, moment_or_now, realm_of, refused, unread};
use krb_constants::types::NT_PRINCIPAL;
use krb_file_formats::{Keytab, KeytabRecord};
use krb_messages::data_types::{HostAddress, PrincipalName};
use krb_password_changes::Rules;
use krb_programs::read_front;
use krb_realm_accounts::{Account, components_of};
use krb_service::{Admitter, KeytabService, KeytabServiceRefusal};
use krb_time::Moment;
use picky_asn1::wrapper::{GeneralStringAsn1, IntegerAsn1, OctetStringAsn1};
use picky_asn1_der::ExplicitContextTag;
use std::alloc::{AllocError, Global};
use std::net::IpAddr;

/// The address types of IPv4 and IPv6 (RFC 4120, section 7.5.3).
const IPV4: u64 = 2;

const IPV6: u64 = 24;

/// How many octets the file of refused words may have.
const WORDS_LIMIT: usize = 1_048_576;

/// What serves the messages.
#[derive(Drop)]
pub(crate) struct Desk<'a> {
    /// The path of the text of accounts.
    pub(crate) text: &'a str,
    /// The path of its database.
    pub(crate) database: &'a str,
    /// The service `kadmin/changepw`.
    pub(crate) service: KeytabService,
    /// The name of the service.
    pub(crate) name: PrincipalName,
    /// The rules of the realm. The administrators are those that the text had last.
    pub(crate) rules: Rules,
    /// The address of the service.
    pub(crate) address: HostAddress,
}

/// What serves as the options say, with the key that the text has now.
pub(crate) fn desk_of<'a>(rt: &HostRuntime, options: &Options<'a>) -> Result<Desk<'a>, Stop> {
    let alloc = rt.alloc();
    let lines = lines_of(rt, options.text)?;
    let realm = realm_of(rt, options.text, &lines)?;
    let own = service_components(alloc)?;
    let name = principal_name(alloc, components_of_name(alloc, &own)?)?;
    let mut service = service_of(rt, options.text, realm, &lines, &own, &name)?;
    start(alloc, &mut service, moment_or_now(rt, options.moment)?);
    Ok(Desk {
        text: options.text,
        database: options.database,
        service,
        rules: rules_of(rt, options, realm, &lines)?,
        name,
        address: address_of(alloc, options.address)?,
    })
}

// Hands the service a moment that is the clock skew after the start. Then it admits no request of a time before the start: a run before
// this one may have admitted that.
fn start(alloc: Global, service: &mut KeytabService, moment: Moment) {
    let ahead = moment.micros().saturating_add(service.clock_skew());
    if let Some(ahead) = Moment::new(ahead) {
        // No octets are no request. So nothing is admitted.
        let _ = service.admit(alloc, &[], ahead, &[0; 16]);
    }
}

// The components of the service's name.
fn service_components(alloc: Global) -> Result<Vec<Vec<u8>>, AllocError> {
    let first = Vec::from_slice(alloc, b"kadmin")?;
    let second = Vec::from_slice(alloc, b"changepw")?;
    let components = vec![in alloc; first, second]?;
    Ok(components)
}

// The components of a name, as messages have them.
fn components_of_name(
    alloc: Global,
    name: &[Vec<u8>],
) -> Result<Vec<GeneralStringAsn1>, AllocError> {
    match components_of(alloc, name) {
        Ok(components) => Ok(components),
        Err(_) => Err(AllocError),
    }
}

// The service of the realm, with the key of its account.
fn service_of(
    rt: &HostRuntime,
    path: &str,
    realm: &RealmLine,
    lines: &[Line],
    own: &[Vec<u8>],
    name: &PrincipalName,
) -> Result<KeytabService, Stop> {
    let alloc = rt.alloc();
    let Some(own_line) = account_among(lines, name.name_string.0.as_slice()) else {
        return Err(refused(
            alloc,
            format_args!(
                "{path}: expected an account of {name}, as krb_accounts add -k random TEXT {name} makes it"
            ),
        ));
    };
    let keytab = keytab_of(alloc, realm, own, &own_line.account)?;
    let skew = realm.settings.skew();
    match KeytabService::new(alloc, realm.name.as_bytes(), own, &keytab, skew) {
        Ok(service) => Ok(service),
        Err(KeytabServiceRefusal::Memory) => Err(Stop::Memory),
        Err(refusal) => Err(refused(alloc, format_args!("{path}: {name}: {refusal}"))),
    }
}

// The keytab with the key of an account.
fn keytab_of(
    alloc: Global,
    realm: &RealmLine,
    own: &[Vec<u8>],
    account: &Account,
) -> Result<Keytab, AllocError> {
    let record = KeytabRecord::new(
        realm.name.clone()?,
        components_of_name(alloc, own)?,
        u32::from(NT_PRINCIPAL),
        0,
        account.kvno(),
        u16::from(u8::from(account.suite())),
        Vec::from_slice(alloc, account.key().as_bytes())?,
    );
    let records = vec![in alloc; record]?;
    Ok(Keytab::new(records))
}

// The rules that the options give, with the realm and the administrators of the text.
fn rules_of(
    rt: &HostRuntime,
    options: &Options<'_>,
    realm: &RealmLine,
    lines: &[Line],
) -> Result<Rules, Stop> {
    Ok(Rules {
        realm: realm.name.clone()?,
        suite: options.suite,
        least: options.least,
        words: words_of(rt, options.refused)?,
        admins: admins_of(rt, options.text, lines)?,
    })
}

// The words that are no passwords: the lines of a file, if one is given.
fn words_of(rt: &HostRuntime, path: Option<&str>) -> Result<Vec<OctetStringAsn1>, Stop> {
    let alloc = rt.alloc();
    let mut words = Vec::new(alloc);
    let Some(path) = path else {
        return Ok(words);
    };
    let octets = match read_front(rt, path, WORDS_LIMIT as u64 + 1) {
        Ok(octets) => octets,
        Err(fault) => return Err(unread(alloc, path, fault)),
    };
    if WORDS_LIMIT < octets.len() {
        return Err(refused(
            alloc,
            format_args!("{path} is too long: expected at most {WORDS_LIMIT} octets of words"),
        ));
    }
    for word in octets.split(|octet| *octet == b'\n') {
        words.push(OctetStringAsn1::new(alloc, word)?)?;
    }
    Ok(words)
}

// The address of a host (RFC 4120, section 7.5.3).
fn address_of(alloc: Global, address: IpAddr) -> Result<HostAddress, AllocError> {
    match address {
        IpAddr::V4(own) => host_address(alloc, IPV4, &own.octets()),
        IpAddr::V6(own) => host_address(alloc, IPV6, &own.octets()),
    }
}

fn host_address(alloc: Global, kind: u64, octets: &[u8]) -> Result<HostAddress, AllocError> {
    let addr_type = IntegerAsn1::from_u64(alloc, kind)?;
    let address = OctetStringAsn1::new(alloc, octets)?;
    Ok(HostAddress {
        addr_type: ExplicitContextTag(addr_type),
        address: ExplicitContextTag(address),
    })
}
