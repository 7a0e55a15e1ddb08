//! Writing a file of accounts.
ghost use Rattle.std.specs.Prelude.{◌≡◌, ◌⊎◌, false, List, Some, Ok, IfErr, IfOk, IsTrue};
ghost use Rattle.picky_asn1.specs.Bytes.{Bytes};
ghost use Rattle.std.specs.List.{Any, list_all};
ghost use Rattle.krb_realm_accounts.specs.Names.{IsRealmName, are_components, is_realm_name};
ghost use Rattle.krb_realm_files.specs.Files.{account_said, realm_key, realm_said};
ghost use Rattle.krb_realm_files.specs.Named.{AreNamed, AreRecords, IsAccountsFault, IsRealmRecord, IsRecordOf, IsRecordsFault, IsUnnamed, look_among};
ghost use Rattle.krb_realm_files.specs.AccountRecords.{account_bytes, account_in};
ghost use Rattle.krb_realm_files.specs.RealmRecords.{is_pkinit, is_recorded, realm_bytes, realm_in};

use crate::account_file::pack;
use crate::account_record::account_bytes;
use crate::format::{REALM_KEY, RECORD_ROOM};
use crate::laws::{account_as_written, realm_as_written};
use crate::realm_parameters::RealmParameters;
use crate::realm_record::{has_number, is_pkinit, realm_bytes};
use arrayvec::ArrayVec;
use cdb::{Record, WriteFault, write};
use krb_realm_accounts::{Account, BLOCK_ROOM, COMPONENT_LIMIT, is_realm_name};
use picky_asn1::wrapper::GeneralStringAsn1;
use std::alloc::{AllocError, Global};

/// An account with its name.
#[derive(Drop)]
pub struct NamedAccount {
    /// The name's components.
    pub name: Vec<GeneralStringAsn1>,
    /// The account.
    pub account: Account,
}

/// Returns the octets of a file of this realm and these accounts, which are in the order of their names: by the first component that
/// differs, and there by the first character that differs. In the file each name has its account, no other name has one, and the realm
/// is this realm.
///
/// It refuses as `Unsound` only if the realm has no record ([`record_of_realm`]), if a name of an account is none of a principal, or if its
/// records are none of a database: two accounts that differ have one name, the accounts are not in the order of their names, or a record
/// has more than [`RECORD_ROOM`] octets. It refuses as `Large` only if the file would have 2^32 octets or more, and as `Memory` if memory
/// runs out.
pub fn write_accounts(
    alloc: Global,
    realm: &RealmParameters,
    accounts: &[NamedAccount],
) -> Result<Vec<u8>, WriteFault>
    ensures names { IfOk result (λ _. AreNamed accounts.now) }
    ensures accounts { IfOk result (λ bytes. (name : List Bytes) → account_said bytes.items name ≡ Ok (look_among accounts.now name)) }
    ensures realm { IfOk result (λ bytes. realm_said bytes.items ≡ Ok realm.now) }
    ensures refusal { IfErr result (λ fault. IsAccountsFault realm.now accounts.now fault) }
{
    let records = records_of(alloc, accounts)?;
    let bytes = write_records(alloc, realm, records)?;
    Ok(bytes)
}

/// Returns the same file as [`write_accounts`] does, of the records of its accounts. So a record can be made of each account before the
/// next account is read ([`record_of_account`]), and many accounts take less memory.
///
/// It refuses as [`write_accounts`] does.
pub fn write_records(
    alloc: Global,
    realm: &RealmParameters,
    mut records: Vec<Record>,
) -> Result<Vec<u8>, WriteFault>
    ensures accounts { IfOk result (λ bytes. (accounts : List NamedAccount) → AreRecords accounts records.items
        → (name : List Bytes) → account_said bytes.items name ≡ Ok (look_among accounts name)) }
    ensures realm { IfOk result (λ bytes. (accounts : List NamedAccount) → AreRecords accounts records.items → realm_said bytes.items ≡ Ok realm.now) }
    ensures refusal { IfErr result (λ fault. IsRecordsFault realm.now records.items fault) }
{
    let own = record_of_realm(alloc, realm)?;
    records.push(own)?;
    let bytes = write(alloc, &records, RECORD_ROOM)?;
    Ok(bytes)
}

// Returns the records of the accounts.
fn records_of(alloc: Global, accounts: &[NamedAccount]) -> Result<Vec<Record>, WriteFault>
    ensures made { IfOk result (λ records. AreRecords accounts.now records.items) }
    ensures refusal { IfErr result (λ e. (e ≡ WriteFault.Memory) ⊎ ((e ≡ WriteFault.Unsound) × Any IsUnnamed accounts.now)) }
{
    let mut records = Vec::new(alloc);
    for one in accounts {
        let own = record_of_account(alloc, &one.name, &one.account)?;
        records.push(own)?;
    }
    Ok(records)
}

/// Returns the record of an account of this name. It refuses as `Unsound` only if the name is none of a principal, and as `Memory` if
/// memory runs out.
pub fn record_of_account(
    alloc: Global,
    name: &[GeneralStringAsn1],
    account: &Account,
) -> Result<Record, WriteFault>
    ensures made { IfOk result (λ r. IsRecordOf name.now account.now r) }
    ensures refusal { IfErr result (λ e. (e ≡ WriteFault.Memory) ⊎ ((e ≡ WriteFault.Unsound) × (are_components name.now ≡ false))) }
{
    if !is_principal_name(name) {
        return Err(WriteFault::Unsound);
    }
    let mut block = ArrayVec::<u8, BLOCK_ROOM>::new();
    if !pack(&mut block, name) {
        return Err(WriteFault::Unsound);
    }
    account_reads_again(account);
    let key = Vec::from_slice(alloc, block.as_slice())?;
    let content = account_bytes(alloc, account)?;
    Ok(Record { key, content })
}

// Returns whether a principal may have this name.
fn is_principal_name(name: &[GeneralStringAsn1]) -> bool
    ensures { result ≡ are_components name.now }
{
    if name.is_empty() || COMPONENT_LIMIT < name.len() {
        return false;
    }
    are_realm_names(name)
}

// Returns whether each component is as a realm's name.
fn are_realm_names(name: &[GeneralStringAsn1]) -> bool
    ensures { result ≡ list_all is_realm_name name.now }
{
    name.iter()
        .all(|component| is_realm_name(component.as_bytes()))
}

// What is written of an account is read as that account. It does nothing when it runs.
fn account_reads_again(account: &Account)
    ensures { account_in (account_bytes account.now) ≡ Some account.now }
{
    account_as_written();
    account.is_whole();
}

/// Returns the record of the realm. It comes after those of the accounts, since its key does. It refuses as `Unsound` only if the
/// realm's name is none of a realm, logins by certificate are answered by none or too many octets, or the policy's renewable life is more
/// than a year, and as `Memory` if memory runs out.
pub fn record_of_realm(alloc: Global, realm: &RealmParameters) -> Result<Record, WriteFault>
    ensures made { IfOk result (λ r. IsRealmRecord realm.now r) }
    ensures refusal { IfErr result (λ e. (e ≡ WriteFault.Memory) ⊎ ((e ≡ WriteFault.Unsound) × (is_recorded realm.now ≡ false))) }
{
    if !is_recorded(realm) {
        return Err(WriteFault::Unsound);
    }
    realm_reads_again(realm);
    let key = realm_key(alloc)?;
    let content = realm_bytes(alloc, realm)?;
    Ok(Record { key, content })
}

// Returns whether the realm has a record.
fn is_recorded(realm: &RealmParameters) -> bool
    ensures { result ≡ is_recorded realm.now }
{
    is_realm_name(realm.name.as_bytes())
        && is_pkinit(&realm.pkinit)
        && has_number(realm.settings.policy())
}

// Returns the key of the realm's record.
fn realm_key(alloc: Global) -> Result<Vec<u8>, AllocError>
    ensures { IfOk result (λ key. key.items ≡ realm_key) }
{
    let key = vec![in alloc; REALM_KEY]?;
    Ok(key)
}

// What is written of a realm is read as that realm. It does nothing when it runs.
fn realm_reads_again(realm: &RealmParameters)
    requires { IsTrue (is_recorded realm.now) }
    ensures { realm_in (realm_bytes realm.now) ≡ Some realm.now }
{
    realm_as_written();
    let _skew = realm.settings.skew();
    let _lifetime = realm.settings.lifetime();
}
