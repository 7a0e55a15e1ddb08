//! The realm of a settings file.
ghost use Rattle.std.specs.Prelude.{◌≡◌, ◌⊎◌, Err, Ok, MatchResult, OnOk, map};
ghost use Rattle.krb_realm_accounts.specs.Refusal.{IsMemoryAside};
ghost use Rattle.krb_settings.specs.Steps.{IsAside};
ghost use Rattle.krb_settings.specs.Written.{shown_account, shown_realm};
ghost use Rattle.krb_memory_realms.specs.Realm.{making, made};
ghost use Rattle.krb_settings_kdc.specs.Files.{HasFault, IsRealmFile};
ghost use Rattle.krb_settings_kdc.specs.Realms.{adding_account, in_account, in_realm, realm_of_settings, settings_of, with_account, with_accounts};

use crate::fault::RealmFault;
use krb_memory_realms::{Realm, Settings};
use krb_realm_accounts::RealmRefusal;
use krb_settings::{AccountSettings, RealmSettings, Secret, SettingsFault, read_settings_file};
use std::alloc::Global;

/// The realm that a settings file writes, or what is wrong with the file.
///
/// Faults of the file itself come first, then those of skew and lifetime, of the realm's name and key, and of the accounts
/// in the file's order. `Memory` says nothing of the file.
pub fn realm_of_file(alloc: Global, text: &[u8]) -> Result<Realm, RealmFault>
    ensures { MatchResult result (IsRealmFile text.now) (HasFault text.now) }
{
    match read_settings_file(alloc, text) {
        Ok(written) => realm_of_settings(alloc, &written),
        Err(SettingsFault::Memory) => Err(RealmFault::Memory),
        Err(fault) => Err(RealmFault::File(fault)),
    }
}

/// The realm of these settings, with each account added in their order.
pub fn realm_of_settings(alloc: Global, written: &RealmSettings) -> Result<Realm, RealmFault>
    ensures { IsAside RealmFault.Memory (λ realm. realm) (realm_of_settings (shown_realm written.now)) result }
{
    let settings = settings_of(alloc, written.skew, written.lifetime)?;
    let mut realm = new_realm(alloc, written, settings)?;
    add_accounts(alloc, &mut realm, &written.accounts)?;
    Ok(realm)
}

// Clients authenticate by password alone: a file has no anchor and no certificate.
fn settings_of(alloc: Global, skew: u64, lifetime: u64) -> Result<Settings, RealmFault>
    ensures { result ≡ settings_of skew lifetime }
{
    match Settings::new(alloc, skew, lifetime, None, None) {
        Ok(settings) => Ok(settings),
        Err(_) => Err(RealmFault::Realm(RealmRefusal::BadSetting)),
    }
}

// The realm with its ticket-granting service alone.
fn new_realm(
    alloc: Global,
    written: &RealmSettings,
    settings: Settings,
) -> Result<Realm, RealmFault>
    ensures { let w = shown_realm written.now in MatchResult result
        (λ realm. (making w.name w.suite w.key ≡ Ok tt) × (realm ≡ made w.name w.suite w.key settings))
        (λ fault. (fault ≡ RealmFault.Memory) ⊎ (in_realm (making w.name w.suite w.key) ≡ Err fault)) }
{
    match Realm::new(alloc, &written.name, written.suite, &written.key, settings) {
        Ok(realm) => Ok(realm),
        Err(RealmRefusal::Memory) => Err(RealmFault::Memory),
        Err(refusal) => Err(RealmFault::Realm(refusal)),
    }
}

fn add_accounts(
    alloc: Global,
    realm: &mut Realm,
    accounts: &[AccountSettings],
) -> Result<(), RealmFault>
    ensures { MatchResult result
        (λ _. with_accounts 1 realm.old (map shown_account accounts.now) ≡ Ok realm.new)
        (λ fault. (fault ≡ RealmFault.Memory) ⊎ (with_accounts 1 realm.old (map shown_account accounts.now) ≡ Err fault)) }
{
    for (index, account) in accounts.iter().enumerate() {
        add_account(alloc, realm, index + 1, account)?;
    }
    Ok(())
}

// Adds the account of this number.
fn add_account(
    alloc: Global,
    realm: &mut Realm,
    number: usize,
    account: &AccountSettings,
) -> Result<(), RealmFault>
    ensures { let added = adding_account realm.old (shown_account account.now) in MatchResult result
        (λ _. (added ≡ Ok tt) × (realm.new ≡ with_account realm.old (shown_account account.now)))
        (λ fault. (fault ≡ RealmFault.Memory) ⊎ (in_account number added ≡ Err fault)) }
{
    match add_secret(alloc, realm, account) {
        Ok(()) => Ok(()),
        Err(RealmRefusal::Memory) => Err(RealmFault::Memory),
        Err(refusal) => Err(RealmFault::Account(number, refusal)),
    }
}

fn add_secret(
    alloc: Global,
    realm: &mut Realm,
    account: &AccountSettings,
) -> Result<(), RealmRefusal>
    ensures refusal { IsMemoryAside result (adding_account realm.old (shown_account account.now)) }
    ensures ok { OnOk result (realm.new ≡ with_account realm.old (shown_account account.now)) }
{
    match &account.secret {
        Secret::Password(password) => {
            realm.add_account_by_password(alloc, &account.name, account.suite, password)
        }
        Secret::Key(key) => realm.add_account_by_key(alloc, &account.name, account.suite, key),
    }
}
