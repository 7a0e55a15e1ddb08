//! The record of the realm.
ghost use Rattle.std.specs.Prelude.{◌≡◌, ◌≤◌, Some, IfOk, IsTrue};
ghost use Rattle.std.specs.Option.{option_copied};
ghost use Rattle.krb_realm_files.specs.RealmRecords.{has_number, is_pkinit, is_policy, named_realm, number_if, pkinit_in, pkinit_octets, policy_number, policy_of, realm_bytes, realm_in, settings_of};
ghost use Rattle.krb_realm_files.specs.Reading.{IsReadAs};

use crate::fault::RecordFault;
use crate::format::{
    FORWARDABLE, LIMITS_DES3, PKINIT_AGILITY, PKINIT_ROOM, PKINIT_SHA1, PROXIABLE, REALM_HEAD,
    RECORD_VERSION, RENEWABLE_SECOND,
};
use crate::realm_parameters::RealmParameters;
use byte_streams::{u32_le, u32_le_bytes};
use krb_realm_accounts::{LIFETIME_LIMIT, Policy, RealmRefusal, Settings, realm_name_of};
use picky_asn1::wrapper::OctetStringAsn1;
use std::alloc::{AllocError, Global};

/// Returns the realm whose record the octets are. It refuses as `Damaged` if they are no realm's record, and as `Memory` if memory runs
/// out.
#[tactic(auto, unfolding(crate::specs::RealmRecords::realm_in))]
pub fn read_realm(alloc: Global, bytes: &[u8]) -> Result<RealmParameters, RecordFault>
    ensures { IsReadAs (realm_in bytes.now) result }
{
    if bytes.len() < REALM_HEAD || bytes[0] != RECORD_VERSION {
        return Err(RecordFault::Damaged);
    }
    let size = u32_le(bytes, 9) as usize;
    if bytes.len() - REALM_HEAD < size {
        return Err(RecordFault::Damaged);
    }
    let skew = u64::from(u32_le(bytes, 1));
    let lifetime = u64::from(u32_le(bytes, 5));
    let Some(settings) = settings_of(skew, lifetime, u32_le(bytes, 13)) else {
        return Err(RecordFault::Damaged);
    };
    let pkinit = pkinit_in(alloc, &bytes[REALM_HEAD..REALM_HEAD + size])?;
    named_realm(alloc, &bytes[REALM_HEAD + size..], settings, pkinit)
}

// Returns what logins by certificate are answered by, if there are octets.
fn pkinit_in(alloc: Global, octets: &[u8]) -> Result<Option<OctetStringAsn1>, AllocError>
    ensures { IfOk result (λ pkinit. pkinit ≡ pkinit_in octets.now) }
{
    if octets.is_empty() {
        return Ok(None);
    }
    let own = Vec::from_slice(alloc, octets)?;
    Ok(Some(OctetStringAsn1::from(own)))
}

// Returns the settings of this clock skew, this greatest lifetime and the policy of this number, if a realm may have them.
fn settings_of(skew: u64, lifetime: u64, policy: u32) -> Option<Settings>
    ensures { result ≡ settings_of skew lifetime policy }
{
    let Ok(settings) = Settings::of_policy(skew, lifetime, policy_of(policy)) else {
        return None;
    };
    if !is_policy(policy) {
        return None;
    }
    Some(settings)
}

// Returns the policy of a number.
fn policy_of(number: u32) -> Policy
    ensures { result ≡ policy_of number }
{
    Policy {
        limits_des3: number / LIMITS_DES3 % 2 == 1,
        forwardable: number / FORWARDABLE % 2 == 1,
        proxiable: number / PROXIABLE % 2 == 1,
        renewable_life: number % PKINIT_SHA1 / RENEWABLE_SECOND,
        pkinit_agility: number / PKINIT_AGILITY % 2 == 1,
        pkinit_sha1: number / PKINIT_SHA1 % 2 == 1,
    }
}

// Returns whether the number is a policy's.
fn is_policy(number: u32) -> bool
    ensures { result ≡ is_policy number }
{
    number / PKINIT_SHA1 <= 1
        && u64::from(number % PKINIT_SHA1 / RENEWABLE_SECOND) <= LIFETIME_LIMIT
}

/// Returns whether the policy has a number: its greatest renewable life is a year at most.
pub fn has_number(policy: Policy) -> bool
    ensures { result ≡ has_number policy }
{
    u64::from(policy.renewable_life) <= LIFETIME_LIMIT
}

// Returns the number of a policy.
fn policy_number(policy: Policy) -> u32
    requires { policy.renewable_life ≤ LIFETIME_LIMIT }
    ensures { result ≡ policy_number policy }
{
    number_if(policy.limits_des3, LIMITS_DES3)
        + number_if(policy.forwardable, FORWARDABLE)
        + number_if(policy.proxiable, PROXIABLE)
        + number_if(policy.pkinit_agility, PKINIT_AGILITY)
        + policy.renewable_life * RENEWABLE_SECOND
        + number_if(policy.pkinit_sha1, PKINIT_SHA1)
}

// Returns what a number has for something that is so or isn't.
fn number_if(is: bool, number: u32) -> u32
    ensures value { result ≡ number_if is number }
    ensures at_most { result ≤ number }
{
    if is { number } else { 0 }
}

// Returns the realm of this name, these settings and these octets, if the name may be a realm's.
fn named_realm(
    alloc: Global,
    name: &[u8],
    settings: Settings,
    pkinit: Option<OctetStringAsn1>,
) -> Result<RealmParameters, RecordFault>
    ensures { IsReadAs (named_realm name.now (Some settings) pkinit) result }
{
    match realm_name_of(alloc, name) {
        Ok(name) => Ok(RealmParameters {
            name,
            settings,
            pkinit,
        }),
        Err(RealmRefusal::Memory) => Err(RecordFault::Memory),
        Err(_) => Err(RecordFault::Damaged),
    }
}

/// Returns whether there are from 1 to [`PKINIT_ROOM`] octets, or none are given.
pub fn is_pkinit(pkinit: &Option<OctetStringAsn1>) -> bool
    ensures { result ≡ is_pkinit pkinit.now }
{
    match pkinit {
        Some(octets) => {
            let size = octets.as_bytes().len();
            1 <= size && size <= PKINIT_ROOM
        }
        None => true,
    }
}

// Returns the octets by which logins by certificate are answered.
fn pkinit_octets(pkinit: &Option<OctetStringAsn1>) -> &[u8]
    ensures { result.now ≡ pkinit_octets pkinit.now }
{
    match pkinit {
        Some(octets) => octets.as_bytes(),
        None => &[],
    }
}

/// Returns the record of a realm. It fails only if memory runs out.
#[tactic(auto, unfolding(crate::specs::RealmRecords::realm_bytes))]
pub fn realm_bytes(alloc: Global, realm: &RealmParameters) -> Result<Vec<u8>, AllocError>
    requires pkinit { IsTrue (is_pkinit realm.now.pkinit) }
    requires policy { IsTrue (has_number realm.now.settings.policy) }
    ensures { IfOk result (λ bytes. bytes.items ≡ realm_bytes realm.now) }
{
    let mut bytes = vec![in alloc; RECORD_VERSION]?;
    bytes.extend_from_slice(&u32_le_bytes(realm.settings.skew() as u32))?;
    bytes.extend_from_slice(&u32_le_bytes(realm.settings.lifetime() as u32))?;
    let pkinit = pkinit_octets(&realm.pkinit);
    bytes.extend_from_slice(&u32_le_bytes(pkinit.len() as u32))?;
    bytes.extend_from_slice(&u32_le_bytes(policy_number(realm.settings.policy())))?;
    bytes.extend_from_slice(pkinit)?;
    bytes.extend_from_slice(realm.name.as_bytes())?;
    Ok(bytes)
}
