//! What the record of an account has behind its key.
ghost use Rattle.std.specs.Prelude.{◌≡◌, ◌≤◌, ◌++◌, ◌∷◌, [], length, nat_lt, IfOk, IfSome, MatchResult, Some, None};
ghost use Rattle.std.specs.List.{flat_map};
ghost use Rattle.std.specs.Option.{is_some, option_copied, option_map};
ghost use Rattle.krb_realm_accounts.specs.Account.{AccountKeyRecord, AreBefore, IsOlder};
ghost use Rattle.krb_realm_accounts.specs.declared.limits.TheConstants.{FORMER_LIMIT};
ghost use Rattle.krb_realm_files.specs.FurtherFields.{attributes_bytes, attributes_front, attributes_in, attributes_octets, attribute_marks, former_bytes, former_front, former_in, former_octets, further_bytes, keys_in, marks_of, number_where, older_bytes, older_in, older_of, salt_in, salt_octets, told_of_attributes, told_of_key, told_of_keys};
ghost use Rattle.krb_realm_files.specs.Reading.{IsReadAs};
ghost use Rattle.krb_realm_files.specs.SuiteNumbers.{suite_numbered};
ghost use Rattle.krb_realm_files.specs.declared.format.TheConstants.{ATTRIBUTES_LEN};
ghost use Rattle.krb_realm_files.specs.declared.fault.RecordFault.TheVariants.{Damaged};

use crate::fault::RecordFault;
use crate::format::{ATTRIBUTES, ATTRIBUTES_LEN, OLDER_HEAD, OLDER_KEYS, SALT};
use byte_streams::{u32_le, u32_le_bytes, u64_le, u64_le_bytes};
use krb_crypto::{CipherSuite, Key};
use krb_realm_accounts::{Account, AccountKey, Attributes, FORMER_LIMIT, NO_ATTRIBUTES};
use picky_asn1::wrapper::OctetStringAsn1;
use std::alloc::{AllocError, Global};

/// Attributes, and the octets behind them.
#[derive(Clone, Copy)]
pub(crate) struct FrontAttributes<'a> {
    pub(crate) attributes: Attributes,
    pub(crate) rest: &'a [u8],
}

/// An older key, and the octets behind it.
#[derive(Drop)]
pub(crate) struct FrontKey<'a> {
    pub(crate) own: AccountKey,
    pub(crate) rest: &'a [u8],
}

/// Older keys, and the octets behind them.
#[derive(Drop)]
pub(crate) struct FrontKeys<'a> {
    pub(crate) keys: Vec<AccountKey>,
    pub(crate) rest: &'a [u8],
}

// The number where something is so, and else 0.
fn number_where(is: bool, number: u8) -> u8
    ensures value { result ≡ number_where is number }
    ensures at_most { result ≤ number }
{
    if is { number } else { 0 }
}

/// Returns the marks of an account's record.
pub(crate) fn marks_of(account: &Account) -> u8
    ensures { result ≡ marks_of account.now }
{
    number_where(has_salt(account), SALT)
        + number_where(has_former(account), OLDER_KEYS)
        + number_where(account.attributes().is_set(), ATTRIBUTES)
}

fn has_salt(account: &Account) -> bool
    ensures { result ≡ is_some account.now.salt }
{
    account.salt().is_some()
}

fn has_former(account: &Account) -> bool
    ensures { result ≡ nat_lt 0 (length account.now.former) }
{
    0 < account.former().len()
}

/// Appends what stands behind the key.
pub(crate) fn put_further(to: &mut Vec<u8>, account: &Account) -> Result<(), AllocError>
    ensures { IfOk result (λ _. to.new.items ≡ to.old.items ++ further_bytes account.now) }
{
    put_set(to, account.attributes())?;
    put_former(to, account.former())?;
    put_salt(to, account.salt())?;
    Ok(())
}

// Appends the attributes, if one is set.
fn put_set(to: &mut Vec<u8>, attributes: Attributes) -> Result<(), AllocError>
    ensures { IfOk result (λ _. to.new.items ≡ to.old.items ++ attributes_octets attributes) }
{
    if !attributes.is_set() {
        return Ok(());
    }
    put_attributes(to, attributes)
}

// Appends the salt, if there is one.
fn put_salt(to: &mut Vec<u8>, salt: Option<&OctetStringAsn1>) -> Result<(), AllocError>
    ensures { IfOk result (λ _. to.new.items ≡ to.old.items ++ salt_octets (option_copied salt.entry)) }
{
    match salt {
        None => Ok(()),
        Some(salt) => {
            to.extend_from_slice(salt.as_bytes())?;
            Ok(())
        }
    }
}

// Appends the attributes.
fn put_attributes(to: &mut Vec<u8>, attributes: Attributes) -> Result<(), AllocError>
    ensures { IfOk result (λ _. to.new.items ≡ to.old.items ++ attributes_bytes attributes) }
{
    to.extend_from_slice(&u64_le_bytes(attributes.ends))?;
    to.extend_from_slice(&u32_le_bytes(attributes.lifetime))?;
    to.push(attribute_marks(attributes))?;
    Ok(())
}

// The last octet of the attributes.
fn attribute_marks(attributes: Attributes) -> u8
    ensures { result ≡ attribute_marks attributes }
{
    number_where(attributes.is_off, 1)
        + number_where(attributes.must_change, 2)
        + number_where(attributes.is_no_service, 4)
}

// Appends the older keys behind their number, or nothing where there are none.
fn put_former(to: &mut Vec<u8>, keys: &[AccountKey]) -> Result<(), AllocError>
    requires { length keys.now ≤ FORMER_LIMIT }
    ensures { IfOk result (λ _. to.new.items ≡ to.old.items ++ former_octets keys.now) }
{
    match keys {
        [] => Ok(()),
        [_, ..] => put_counted(to, keys),
    }
}

// Appends the older keys behind their number.
fn put_counted(to: &mut Vec<u8>, keys: &[AccountKey]) -> Result<(), AllocError>
    requires { length keys.now ≤ FORMER_LIMIT }
    ensures { IfOk result (λ _. to.new.items ≡ to.old.items ++ former_bytes keys.now) }
{
    to.push(keys.len() as u8)?;
    put_keys(to, keys)?;
    Ok(())
}

// Appends each older key.
fn put_keys(to: &mut Vec<u8>, keys: &[AccountKey]) -> Result<(), AllocError>
    ensures { IfOk result (λ _. to.new.items ≡ to.old.items ++ flat_map older_bytes keys.now) }
{
    for own in keys {
        put_older(to, own)?;
    }
    Ok(())
}

// Appends an older key.
fn put_older(to: &mut Vec<u8>, own: &AccountKey) -> Result<(), AllocError>
    ensures { IfOk result (λ _. to.new.items ≡ to.old.items ++ older_bytes own.now) }
{
    to.push(u8::from(own.suite()))?;
    to.extend_from_slice(&u32_le_bytes(own.kvno()))?;
    to.extend_from_slice(own.key().as_bytes())?;
    Ok(())
}

/// Reads the attributes in front, where the marks say that there are any.
pub(crate) fn attributes_front(is: bool, octets: &[u8]) -> Option<FrontAttributes<'_>>
    ensures { option_map told_of_attributes result ≡ attributes_front is octets.now }
{
    if !is {
        return Some(FrontAttributes {
            attributes: NO_ATTRIBUTES,
            rest: octets,
        });
    }
    let attributes = attributes_in(octets)?;
    let rest = &octets[ATTRIBUTES_LEN..];
    Some(FrontAttributes { attributes, rest })
}

// Reads attributes.
fn attributes_in(octets: &[u8]) -> Option<Attributes>
    ensures value { result ≡ attributes_in octets.now }
    ensures room { IfSome result (λ _. ATTRIBUTES_LEN ≤ length octets.now) }
{
    if octets.len() < ATTRIBUTES_LEN || 8 <= octets[12] {
        return None;
    }
    let marks = octets[12];
    Some(Attributes {
        ends: u64_le(octets, 0),
        is_off: marks % 2 == 1,
        must_change: marks / 2 % 2 == 1,
        lifetime: u32_le(octets, 8),
        is_no_service: marks / 4 % 2 == 1,
    })
}

/// Reads the older keys in front, where the marks say that there are any. Their kvnos are below this one.
pub(crate) fn former_front(
    alloc: Global,
    is: bool,
    kvno: u32,
    octets: &[u8],
) -> Result<FrontKeys<'_>, RecordFault>
    ensures read { IsReadAs (former_front is kvno octets.now) (told_of_keys result) }
    ensures before { IfOk result (λ front. AreBefore kvno front.keys.items) }
    ensures few { IfOk result (λ front. length front.keys.items ≤ FORMER_LIMIT) }
{
    if !is {
        return Ok(FrontKeys {
            keys: Vec::new(alloc),
            rest: octets,
        });
    }
    former_in(alloc, kvno, octets)
}

// Reads the older keys behind their number.
fn former_in(alloc: Global, kvno: u32, octets: &[u8]) -> Result<FrontKeys<'_>, RecordFault>
    ensures read { IsReadAs (former_in kvno octets.now) (told_of_keys result) }
    ensures before { IfOk result (λ front. AreBefore kvno front.keys.items) }
    ensures few { IfOk result (λ front. length front.keys.items ≤ FORMER_LIMIT) }
{
    let [count, behind @ ..] = octets else {
        return Err(RecordFault::Damaged);
    };
    if *count == 0 || FORMER_LIMIT < usize::from(*count) {
        return Err(RecordFault::Damaged);
    }
    keys_in(alloc, *count, kvno, behind)
}

// Reads so many older keys.
fn keys_in(alloc: Global, count: u8, kvno: u32, octets: &[u8]) -> Result<FrontKeys<'_>, RecordFault>
    requires { count ≤ FORMER_LIMIT }
    ensures read { IsReadAs (keys_in count kvno octets.now) (told_of_keys result) }
    ensures before { IfOk result (λ front. AreBefore kvno front.keys.items) }
    ensures few { IfOk result (λ front. length front.keys.items ≤ FORMER_LIMIT) }
{
    let mut keys = Vec::new(alloc);
    let mut below = kvno;
    let mut rest = octets;
    for _ in 0..count {
        let next = keep_older(below, rest, &mut keys)?;
        below = next.0;
        rest = next.1;
    }
    Ok(FrontKeys { keys, rest })
}

// Reads the older key in front and appends it to the keys. It returns its kvno, and the octets behind it.
fn keep_older<'a>(
    below: u32,
    octets: &'a [u8],
    keys: &mut Vec<AccountKey>,
) -> Result<(u32, &'a [u8]), RecordFault>
    ensures { MatchResult result
        (λ it. (own : AccountKeyRecord) × (older_in below octets.now ≡ Some (record { told = own; rest = it.1.now })) × (it.0 ≡ own.kvno)
        × IsOlder below own × (keys.new.items ≡ keys.old.items ++ own ∷ []))
        (λ e. (e ≡ Damaged) → older_in below octets.now ≡ None) }
{
    let Some(front) = older_in(below, octets) else {
        return Err(RecordFault::Damaged);
    };
    let FrontKey { own, rest } = front;
    let kvno = own.kvno();
    keep(keys, own)?;
    Ok((kvno, rest))
}

fn keep(keys: &mut Vec<AccountKey>, own: AccountKey) -> Result<(), AllocError>
    ensures { IfOk result (λ _. keys.new.items ≡ keys.old.items ++ own ∷ []) }
{
    keys.push(own)?;
    Ok(())
}

// Reads the older key in front.
fn older_in(below: u32, octets: &[u8]) -> Option<FrontKey<'_>>
    ensures read { option_map told_of_key result ≡ older_in below octets.now }
    ensures older { IfSome result (λ front. IsOlder below front.own) }
{
    if octets.len() < OLDER_HEAD {
        return None;
    }
    let Some(suite) = suite_numbered(octets[0]) else {
        return None;
    };
    older_of(below, suite, octets)
}

// Reads the older key in front, which is of this suite.
fn older_of(below: u32, suite: CipherSuite, octets: &[u8]) -> Option<FrontKey<'_>>
    requires { OLDER_HEAD ≤ length octets.now }
    ensures read { option_map told_of_key result ≡ older_of below octets.now suite }
    ensures older { IfSome result (λ front. IsOlder below front.own) }
{
    let kvno = u32_le(octets, 1);
    if kvno == 0 || below <= kvno {
        return None;
    }
    let size = suite.key_size();
    if octets.len() - OLDER_HEAD < size {
        return None;
    }
    let Ok(key) = Key::new(suite, &octets[OLDER_HEAD..OLDER_HEAD + size]) else {
        return None;
    };
    key.is_well_formed();
    let rest = &octets[OLDER_HEAD + size..];
    Some(FrontKey {
        own: AccountKey::new(key, kvno),
        rest,
    })
}

/// Reads the salt, where the marks say that there is one. Without it nothing follows.
pub(crate) fn salt_in(
    alloc: Global,
    is: bool,
    rest: &[u8],
) -> Result<Option<OctetStringAsn1>, RecordFault>
    ensures { IsReadAs (salt_in is rest.now) result }
{
    if is {
        let salt = Vec::from_slice(alloc, rest)?;
        return Ok(Some(OctetStringAsn1::from(salt)));
    }
    if !rest.is_empty() {
        return Err(RecordFault::Damaged);
    }
    Ok(None)
}

/// Returns the suite that has this number, if one has it.
pub(crate) fn suite_numbered(number: u8) -> Option<CipherSuite>
    ensures { result ≡ suite_numbered number }
{
    let Ok(suite) = CipherSuite::try_from(usize::from(number)) else {
        return None;
    };
    Some(suite)
}
