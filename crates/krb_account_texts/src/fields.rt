//! The fields of a line.
ghost use Rattle.std.specs.Prelude.{◌≡◌, ◌<◌, ◌&&◌, nat_eq, nat_le, IfOk, IfSome, Some, Ok};
ghost use Rattle.std.specs.Cmp.Lexicographic.{pointwise};
ghost use Rattle.std.specs.List.{find, list_all};
ghost use Rattle.std.specs.Option.{option_map};
ghost use Rattle.hex.specs.Hex.{decode_of};
ghost use Rattle.krb_realm_accounts.specs.Names.{parts};
ghost use Rattle.krb_crypto.specs.Suites.{cipher_suites};
ghost use Rattle.krb_settings.specs.Fields.{suite_name};
ghost use Rattle.krb_messages.specs.NameReading.{is_ascii};
ghost use Rattle.krb_account_texts.specs.Lines.{WrittenLine};
ghost use Rattle.krb_account_texts.specs.Reading.{digits_behind, is_printed, key_in, judged_name, kvno_in, life_in, name_in, next_number, number_in, octets_told, pkinit_in, realm_name_in, salt_in, seconds_in, settings_of, sized_key, suite_in};
ghost use Rattle.krb_account_texts.specs.Steps.{IsAside};

use crate::fault::LineFault;
use hex::FromHexError;
use krb_crypto::{CipherSuite, Key};
use krb_messages::{NameTextFault, components_of_text};
use krb_realm_accounts::{
    LIFETIME_LIMIT, RealmRefusal, Settings, components_of, is_realm_name, realm_name_of,
};
use krb_settings::suite_name;
use picky_asn1::wrapper::{GeneralStringAsn1, OctetStringAsn1};
use std::alloc::Global;

/// The first number that a field doesn't have: 2^32.
pub const NUMBER_LIMIT: u64 = 4_294_967_296;

/// The components of a name, as RFC 1964 writes it (section 2.1.3).
#[tactic(auto, unfolding(crate::specs::Reading::name_in))]
pub(crate) fn name_of(alloc: Global, text: &str) -> Result<Vec<GeneralStringAsn1>, LineFault>
    ensures { IsAside LineFault.Memory (λ v. v.items) (name_in text.now) result }
{
    match components_of_text(alloc, text) {
        Ok(components) => judged_name(alloc, &components),
        Err(NameTextFault::Memory) => Err(LineFault::Memory),
        Err(_) => Err(LineFault::Name),
    }
}

fn judged_name(alloc: Global, components: &[Vec<u8>]) -> Result<Vec<GeneralStringAsn1>, LineFault>
    ensures { IsAside LineFault.Memory (λ v. v.items) (judged_name (Ok (parts components.now))) result }
{
    match components_of(alloc, components) {
        Ok(name) => Ok(name),
        Err(RealmRefusal::Memory) => Err(LineFault::Memory),
        Err(_) => Err(LineFault::Name),
    }
}

/// The suite of a name, as files have it.
#[tactic(auto, unfolding(crate::specs::Reading::suite_in))]
pub(crate) fn suite_of(name: &str) -> Result<CipherSuite, LineFault>
    ensures { result ≡ suite_in name.now }
{
    match suite_named(name) {
        Some(suite) => Ok(suite),
        None => Err(LineFault::Suite),
    }
}

/// The suite of a name, as files have it, if there is one.
pub fn suite_named(name: &str) -> Option<CipherSuite>
    ensures { result ≡ find (λ suite. pointwise nat_eq name.now (suite_name suite)) cipher_suites }
{
    CipherSuite::all()
        .iter()
        .copied()
        .find(|suite| name == suite_name(*suite))
}

/// A kvno: a decimal number from 1 on, below 2^32.
pub(crate) fn kvno_of(digits: &str) -> Result<u32, LineFault>
    ensures { result ≡ kvno_in digits.now }
{
    match number_of(digits.as_bytes()) {
        Some(number) if 0 < number => Ok(number as u32),
        _ => Err(LineFault::Kvno),
    }
}

/// A greatest renewable life in seconds: a decimal number from 1 to a year's.
pub(crate) fn life_of(digits: &str) -> Result<u32, LineFault>
    ensures { result ≡ life_in digits.now }
{
    match number_of(digits.as_bytes()) {
        Some(number) if 1 <= number && number <= LIFETIME_LIMIT => Ok(number as u32),
        _ => Err(LineFault::Renewable),
    }
}

/// The number that decimal digits write, if it is below 2^32.
#[tactic(auto, unfolding(crate::specs::Reading::number_in))]
pub(crate) fn number_of(digits: &[u8]) -> Option<u64>
    ensures value { result ≡ number_in digits.now }
    ensures below { IfSome result (λ number. number < NUMBER_LIMIT) }
{
    if digits.is_empty() {
        return None;
    }
    digits_of(digits)
}

fn digits_of(digits: &[u8]) -> Option<u64>
    ensures value { result ≡ digits_behind 0 digits.now }
    ensures below { IfSome result (λ number. number < NUMBER_LIMIT) }
{
    let mut number = 0;
    for digit in digits {
        number = next_number(number, *digit)?;
    }
    Some(number)
}

fn next_number(number: u64, digit: u8) -> Option<u64>
    requires { number < NUMBER_LIMIT }
    ensures value { result ≡ next_number number digit }
    ensures below { IfSome result (λ next. next < NUMBER_LIMIT) }
{
    if digit < b'0' || b'9' < digit {
        return None;
    }
    let next = 10 * number + u64::from(digit - b'0');
    if next < NUMBER_LIMIT {
        Some(next)
    } else {
        None
    }
}

/// A salt in hexadecimal digits, each of whose octets is below 128, or none for `-`.
#[tactic(auto, unfolding(crate::specs::Reading::salt_in))]
pub(crate) fn salt_of(alloc: Global, text: &str) -> Result<Option<OctetStringAsn1>, LineFault>
    ensures { IsAside LineFault.Memory (λ salt. salt) (salt_in text.now) result }
{
    if text == "-" {
        return Ok(None);
    }
    let octets = octets_of(alloc, text, LineFault::Salt)?;
    if !is_ascii(&octets) {
        return Err(LineFault::SaltOctet);
    }
    Ok(Some(OctetStringAsn1::from(octets)))
}

fn is_ascii(octets: &[u8]) -> bool
    ensures { result ≡ is_ascii octets.now }
{
    octets.iter().all(|octet| *octet < 128)
}

/// The key of a suite that hexadecimal digits write. It is refused as `Key` if they are not as many as the suite's keys have.
#[tactic(auto, unfolding(crate::specs::Reading::key_in))]
pub fn read_key(alloc: Global, suite: CipherSuite, text: &str) -> Result<Key, LineFault>
    ensures value { IsAside LineFault.Memory (λ key. key.bytes) (key_in suite text.now) result }
    ensures suite { IfOk result (λ key. key.suite ≡ suite) }
{
    let octets = octets_of(alloc, text, LineFault::Key)?;
    sized_key(suite, &octets)
}

fn sized_key(suite: CipherSuite, octets: &[u8]) -> Result<Key, LineFault>
    ensures value { IsAside LineFault.Memory (λ key. key.bytes) (sized_key suite octets.now) result }
    ensures suite { IfOk result (λ key. key.suite ≡ suite) }
{
    if octets.len() != suite.key_size() {
        return Err(LineFault::Key);
    }
    let Ok(key) = Key::new(suite, octets) else {
        return Err(LineFault::Key);
    };
    Ok(key)
}

// The octets that hexadecimal digits write.
fn octets_of(alloc: Global, digits: &str, otherwise: LineFault) -> Result<Vec<u8>, LineFault>
    ensures { IsAside LineFault.Memory (λ v. v.items) (octets_told otherwise (decode_of digits.now)) result }
{
    match hex::decode(alloc, digits) {
        Ok(octets) => Ok(octets),
        Err(FromHexError::OutOfMemory) => Err(LineFault::Memory),
        Err(_) => Err(otherwise),
    }
}

/// A realm's name, of which no octet is below 32.
#[tactic(auto, unfolding(crate::specs::Reading::realm_name_in))]
pub(crate) fn realm_name_of_text(alloc: Global, text: &str) -> Result<GeneralStringAsn1, LineFault>
    ensures { IsAside LineFault.Memory (λ name. name) (realm_name_in text.now) result }
{
    let name = text.as_bytes();
    if !is_realm_name(name) || !is_printed(name) {
        return Err(LineFault::RealmName);
    }
    match realm_name_of(alloc, name) {
        Ok(name) => Ok(name),
        Err(_) => Err(LineFault::Memory),
    }
}

fn is_printed(name: &[u8]) -> bool
    ensures { result ≡ is_printed name.now }
{
    name.iter().all(|character| 32 <= *character)
}

/// What logins by certificate are answered by, in hexadecimal digits, if they are given.
pub(crate) fn pkinit_of(
    alloc: Global,
    digits: Option<&str>,
) -> Result<Option<OctetStringAsn1>, LineFault>
    ensures { IsAside LineFault.Memory (λ pkinit. pkinit) (pkinit_in (option_map (λ digits. digits.now) digits.entry)) result }
{
    let Some(digits) = digits else {
        return Ok(None);
    };
    let octets = octets_of(alloc, digits, LineFault::Pkinit)?;
    if octets.is_empty() {
        return Err(LineFault::Pkinit);
    }
    Ok(Some(OctetStringAsn1::from(octets)))
}

/// A number of seconds.
#[tactic(auto, unfolding(crate::specs::Reading::seconds_in))]
pub(crate) fn seconds_of(digits: &str) -> Result<u64, LineFault>
    ensures { result ≡ seconds_in digits.now }
{
    match number_of(digits.as_bytes()) {
        Some(number) => Ok(number),
        None => Err(LineFault::Seconds),
    }
}

/// The settings of this clock skew and lifetime, if a realm may have them.
#[tactic(auto, unfolding(crate::specs::Reading::settings_of))]
pub(crate) fn settings_of(skew: u64, lifetime: u64) -> Result<Settings, LineFault>
    ensures { result ≡ settings_of skew lifetime }
{
    match Settings::new(skew, lifetime) {
        Ok(settings) => Ok(settings),
        Err(_) => Err(LineFault::Seconds),
    }
}
