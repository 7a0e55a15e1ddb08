//! The service's entries in a keytab.
ghost use Rattle.std.specs.Prelude.{◌≡◌, ◌⊎◌, Ok, Err, IfOk, MatchResult, is_some};
ghost use Rattle.std.specs.Bool.{nat_eq};
ghost use Rattle.std.specs.Cmp.Lexicographic.{pointwise};
ghost use Rattle.krb_messages.specs.Names.{is_same_name};
ghost use Rattle.krb_realm_accounts.specs.Names.{parts};
ghost use Rattle.krb_service.specs.KeytabEntries.{entries_of, entry_of, entry_with, has_entry, is_counted, is_record_of, key_of};
ghost use Rattle.krb_service.specs.KeytabService.{giving};
ghost use Rattle.krb_service.specs.declared.keytab_service.refusal.KeytabServiceRefusal.{KeytabServiceRefusal};
ghost use Rattle.krb_service.specs.declared.keytab_service.refusal.KeytabServiceRefusal.TheVariants.{Memory};

use crate::KeytabEntry;
use crate::keytab_service::refusal::KeytabServiceRefusal;
use krb_crypto::Key;
use krb_file_formats::{Keytab, KeytabRecord};
use krb_messages::{is_same_name, is_same_realm};
use picky_asn1::wrapper::GeneralStringAsn1;
use std::alloc::{AllocError, Global};

/// Whether a keytab has an entry of the service of this realm and this name. It takes no memory.
pub(crate) fn has_entry(realm: &[u8], name: &[Vec<u8>], keytab: &Keytab) -> bool
    ensures { result ≡ has_entry realm.now (parts name.now) keytab.now }
{
    keytab
        .records()
        .iter()
        .any(|key_record| is_entry(realm, name, key_record))
}

// Whether a key record is an entry of the service of this realm and this name.
#[tactic(auto, using(crate::proofs::HasEntry::entry_is))]
fn is_entry(realm: &[u8], name: &[Vec<u8>], key_record: &KeytabRecord) -> bool
    ensures { result ≡ is_some (entry_of realm.now (parts name.now) key_record.now) }
{
    has_name(realm, name, key_record) && 1 <= key_record.kvno() && key_of(key_record).is_some()
}

// Whether a key record is of this realm and this name.
fn has_name(realm: &[u8], name: &[Vec<u8>], key_record: &KeytabRecord) -> bool
    ensures { result ≡ is_record_of realm.now (parts name.now) key_record.now }
{
    key_record.realm().as_bytes() == realm && has_components(key_record.components(), name)
}

// Whether these are the components of a name.
fn has_components(components: &[GeneralStringAsn1], name: &[Vec<u8>]) -> bool
    ensures { result ≡ is_same_name components.now (parts name.now) }
{
    if components.len() != name.len() {
        return false;
    }
    let mut same = true;
    for place in 0..name.len() {
        same &= has_octets(&components[place], name[place].as_slice());
    }
    same
}

// Whether a component has these octets.
fn has_octets(component: &GeneralStringAsn1, octets: &[u8]) -> bool
    ensures { result ≡ pointwise nat_eq component.now octets.now }
{
    component.as_bytes() == octets
}

/// The entries of the service of this realm and this name in a keytab. Where it has none it is refused (`NoKey`).
pub(crate) fn own_entries(
    alloc: Global,
    realm: &GeneralStringAsn1,
    name: &[GeneralStringAsn1],
    keytab: &Keytab,
) -> Result<Vec<KeytabEntry>, KeytabServiceRefusal>
    ensures given { MatchResult result
        (λ entries. (entries.items ≡ entries_of realm.now name.now keytab.now) × (giving (entries_of realm.now name.now keytab.now) ≡ Ok tt))
        (λ refusal. (refusal ≡ Memory) ⊎ (giving (entries_of realm.now name.now keytab.now) ≡ Err refusal)) }

    // Running out of memory hides no other refusal.
    ensures first { (refusal : KeytabServiceRefusal) → giving (entries_of realm.now name.now keytab.now) ≡ Err refusal → result ≡ Err refusal }
{
    if !has_own_entry(realm, name, keytab) {
        return Err(KeytabServiceRefusal::NoKey);
    }
    let entries = entries_of(alloc, realm, name, keytab)?;
    Ok(entries)
}

// Whether a keytab has an entry of this realm and this name.
fn has_own_entry(realm: &GeneralStringAsn1, name: &[GeneralStringAsn1], keytab: &Keytab) -> bool
    ensures { result ≡ has_entry realm.now name.now keytab.now }
{
    keytab
        .records()
        .iter()
        .any(|key_record| is_own_entry(realm, name, key_record))
}

// Whether a key record is an entry of this realm and this name.
#[tactic(auto, using(crate::proofs::HasEntry::entry_is))]
fn is_own_entry(
    realm: &GeneralStringAsn1,
    name: &[GeneralStringAsn1],
    key_record: &KeytabRecord,
) -> bool
    ensures { result ≡ is_some (entry_of realm.now name.now key_record.now) }
{
    is_counted(realm, name, key_record) && key_of(key_record).is_some()
}

// The entries of this realm and this name.
fn entries_of(
    alloc: Global,
    realm: &GeneralStringAsn1,
    name: &[GeneralStringAsn1],
    keytab: &Keytab,
) -> Result<Vec<KeytabEntry>, AllocError>
    ensures { IfOk result (λ entries. entries.items ≡ entries_of realm.now name.now keytab.now) }
{
    let mut entries = Vec::new(alloc);
    for key_record in keytab.records() {
        if let Some(entry) = entry_of(alloc, realm, name, key_record)? {
            entries.push(entry)?;
        }
    }
    Ok(entries)
}

// The entry that a key record is, if it is one of this realm and this name.
fn entry_of(
    alloc: Global,
    realm: &GeneralStringAsn1,
    name: &[GeneralStringAsn1],
    key_record: &KeytabRecord,
) -> Result<Option<KeytabEntry>, AllocError>
    ensures { IfOk result (λ entry. entry ≡ entry_of realm.now name.now key_record.now) }
{
    if !is_counted(realm, name, key_record) {
        return Ok(None);
    }
    let Some(key) = key_of(key_record) else {
        return Ok(None);
    };
    let entry = entry_with(alloc, realm, name, key, key_record.kvno())?;
    Ok(Some(entry))
}

// The entry of this realm and this name with this kvno and key.
fn entry_with(
    alloc: Global,
    realm: &GeneralStringAsn1,
    name: &[GeneralStringAsn1],
    key: Key,
    kvno: u32,
) -> Result<KeytabEntry, AllocError>
    ensures { IfOk result (λ entry. entry ≡ entry_with realm.now name.now kvno key) }
{
    let realm = realm.clone()?;
    let name = copy_of(alloc, name)?;
    Ok(KeytabEntry::new(realm, name, key, kvno))
}

// Whether a key record is of this realm and this name, and its kvno is one.
fn is_counted(
    realm: &GeneralStringAsn1,
    name: &[GeneralStringAsn1],
    key_record: &KeytabRecord,
) -> bool
    ensures { result ≡ is_counted realm.now name.now key_record.now }
{
    is_record_of(realm, name, key_record) && 1 <= key_record.kvno()
}

// Whether a key record is of this realm and this name.
fn is_record_of(
    realm: &GeneralStringAsn1,
    name: &[GeneralStringAsn1],
    key_record: &KeytabRecord,
) -> bool
    ensures { result ≡ is_record_of realm.now name.now key_record.now }
{
    is_same_realm(key_record.realm(), realm) && is_same_name(key_record.components(), name)
}

// The key of a record, if a suite has its etype and its length.
fn key_of(key_record: &KeytabRecord) -> Option<Key>
    ensures { result ≡ key_of key_record.now }
{
    let key = key_record.cipher_key()?;
    key.is_well_formed();
    Some(key)
}

// A copy of a name.
fn copy_of(alloc: Global, name: &[GeneralStringAsn1]) -> Result<Vec<GeneralStringAsn1>, AllocError>
    ensures { IfOk result (λ copy. copy.items ≡ name.now) }
{
    let mut copy = Vec::new(alloc);
    for component in name {
        copy.push(component.clone()?)?;
    }
    Ok(copy)
}
