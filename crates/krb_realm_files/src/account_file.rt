//! A file of accounts.
ghost use Rattle.std.specs.Prelude.{◌≡◌, ◌≤◌, ℕ, List, [], Some, IfErr, IfSome, IsTrue, length};
ghost use Rattle.cdb.specs.Find.{looked_up};
ghost use Rattle.krb_realm_accounts.specs.Packed.{fit, packed};
ghost use Rattle.krb_realm_accounts.specs.declared.packed.TheConstants.{BLOCK_ROOM};
ghost use Rattle.krb_realm_files.specs.declared.format.TheConstants.{RECORD_ROOM};
ghost use Rattle.krb_realm_files.specs.Files.{FailsRealm, account_found, account_front, account_said, fault_of, realm_found, realm_front, realm_said};
ghost use Rattle.krb_realm_files.specs.Reading.{IsSaid};
ghost use Rattle.krb_kdc.specs.Faults.{MayFail};

use crate::account_record::read_account;
use crate::fault::RecordFault;
use crate::format::{REALM_KEY, RECORD_ROOM};
use crate::realm_parameters::RealmParameters;
use crate::realm_record::read_realm;
use arrayvec::ArrayVec;
use cdb::{Fault, ReadAt, look_up};
use krb_kdc::{Lookup, LookupFault};
use krb_realm_accounts::{Account, BLOCK_ROOM, pack_within};
use picky_asn1::wrapper::GeneralStringAsn1;
use std::alloc::Global;

/// A file of accounts: a constant database that has an account's record under the block of each name, and one record of the realm.
///
/// It is a [`Lookup`] of the accounts. The file has to stay as it is while it is open: it is replaced by another file of its name, and
/// never written into.
#[derive(Clone, Copy, Debug, Drop)]
pub struct AccountFile<F> {
    /// The file.
    pub file: F,
}

impl<F: ReadAt> Lookup for AccountFile<F> {
    ghost use Rattle.krb_realm_files.specs.Files.{FailsAccount, Holds};
    ghost use Rattle.krb_realm_files.specs.Held.{account_file};

    ghost holds = { λ s. Holds (F.content (account_file s)) };

    ghost may_fail = { λ s. FailsAccount (F.content (account_file s)) (F.fails (account_file s)) };

    fn account(
        &self,
        alloc: Global,
        name: &[GeneralStringAsn1],
    ) -> Result<Option<Account>, LookupFault> {
        account_in(alloc, &self.file, name)
    }
}

/// Returns the realm's name and settings, as the file's record of the realm has them. It refuses as `Damaged` if the file has no such
/// record or is damaged there, as `Failed` if the file can't be read, and as `Memory` if memory runs out.
pub fn realm_of<F: ReadAt>(alloc: Global, file: &F) -> Result<RealmParameters, LookupFault>
    ensures said { (bytes : List ℕ) → F.content file.now ≡ Some bytes → IsSaid (F.fails file.now) (realm_said bytes) result }
    ensures fault { IfErr result (MayFail (FailsRealm (F.content file.now) (F.fails file.now))) }
{
    let mut room = [0; RECORD_ROOM];
    realm_within(alloc, file, &[REALM_KEY], &mut room)
}

// Returns the same, of the record with this key, with a buffer for the record.
fn realm_within<F: ReadAt>(
    alloc: Global,
    file: &F,
    key: &[u8],
    buffer: &mut [u8],
) -> Result<RealmParameters, LookupFault>
    requires key { length key.now ≤ BLOCK_ROOM }
    requires room { length buffer.old ≡ RECORD_ROOM }
    ensures { (bytes : List ℕ) → F.content file.now ≡ Some bytes
        → IsSaid (F.fails file.now) (realm_found (looked_up RECORD_ROOM bytes key.now)) result }
{
    match look_up(file, key, buffer) {
        Ok(found) => realm_at(alloc, buffer, found),
        Err(fault) => Err(fault_of(fault)),
    }
}

// Returns the realm whose record is at the front of a buffer, of so many octets.
fn realm_at(
    alloc: Global,
    buffer: &[u8],
    found: Option<usize>,
) -> Result<RealmParameters, LookupFault>
    requires { IfSome found (λ n. n ≤ length buffer.now) }
    ensures { IsSaid (λ _. ⊥) (realm_front buffer.now found) result }
{
    let Some(size) = found else {
        return Err(LookupFault::Damaged);
    };
    match read_realm(alloc, &buffer[..size]) {
        Ok(realm) => Ok(realm),
        Err(RecordFault::Damaged) => Err(LookupFault::Damaged),
        Err(RecordFault::Memory) => Err(LookupFault::Memory),
    }
}

// Returns the account of a name.
fn account_in<F: ReadAt>(
    alloc: Global,
    file: &F,
    name: &[GeneralStringAsn1],
) -> Result<Option<Account>, LookupFault>
    ensures { (bytes : List ℕ) → F.content file.now ≡ Some bytes → IsSaid (F.fails file.now) (account_said bytes name.now) result }
{
    let mut block = ArrayVec::<u8, BLOCK_ROOM>::new();
    if !pack(&mut block, name) {
        return Ok(None);
    }
    let mut room = [0; RECORD_ROOM];
    account_within(alloc, file, block.as_slice(), &mut room)
}

// Returns the account of the name with this block, with a buffer for its record.
fn account_within<F: ReadAt>(
    alloc: Global,
    file: &F,
    block: &[u8],
    buffer: &mut [u8],
) -> Result<Option<Account>, LookupFault>
    requires block { length block.now ≤ BLOCK_ROOM }
    requires room { length buffer.old ≡ RECORD_ROOM }
    ensures { (bytes : List ℕ) → F.content file.now ≡ Some bytes
        → IsSaid (F.fails file.now) (account_found (looked_up RECORD_ROOM bytes block.now)) result }
{
    match look_up(file, block, buffer) {
        Ok(found) => account_at(alloc, buffer, found),
        Err(fault) => Err(fault_of(fault)),
    }
}

// Returns the account whose record is at the front of a buffer, of so many octets, or none if no record was found.
fn account_at(
    alloc: Global,
    buffer: &[u8],
    found: Option<usize>,
) -> Result<Option<Account>, LookupFault>
    requires { IfSome found (λ n. n ≤ length buffer.now) }
    ensures { IsSaid (λ _. ⊥) (account_front buffer.now found) result }
{
    let Some(size) = found else {
        return Ok(None);
    };
    match read_account(alloc, &buffer[..size]) {
        Ok(account) => Ok(Some(account)),
        Err(RecordFault::Damaged) => Err(LookupFault::Damaged),
        Err(RecordFault::Memory) => Err(LookupFault::Memory),
    }
}

// Makes an empty block that of a name. The answer is false for a name that no principal has: with a character of 128 or more, or of more
// octets than the block has room for.
pub(crate) fn pack(block: &mut ArrayVec<u8, BLOCK_ROOM>, name: &[GeneralStringAsn1]) -> bool
    requires { block.old.items ≡ [] }
    ensures fits { result ≡ fit name.now }
    ensures packed { IsTrue result → block.new.items ≡ packed name.now }
{
    for component in name {
        if !pack_within(block, component.as_bytes()) {
            return false;
        }
    }
    true
}

// Returns the fault of a look-up that the database refused so.
fn fault_of(fault: Fault) -> LookupFault
    ensures { result ≡ fault_of fault }
{
    match fault {
        Fault::Failed(kind) => LookupFault::Failed(kind),
        Fault::Damaged | Fault::Long => LookupFault::Damaged,
    }
}
