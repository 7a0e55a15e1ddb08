//! The accounts of a realm.
ghost use Rattle.std.specs.Prelude.{◌≡◌, ◌↔◌, ◌⊎◌, [], IsSome, IsTrue, Some, Ok, Err, OnOk, OnErr, IfErr};
ghost use Rattle.std.specs.Option.{option_copied};
ghost use Rattle.std.specs.FinMap as finite;
ghost use Rattle.krb_realm_accounts.specs.Names.{parts};

use crate::account::{Account, key_of};
use crate::packed::{BLOCK_ROOM, pack_within};
use crate::refusal::RealmRefusal;
use arrayvec::ArrayVec;
use krb_crypto::{CipherSuite, Key};
use picky_asn1::wrapper::GeneralStringAsn1;
use std::alloc::Global;
use std::collections::BTreeMap;
use std::collections::btree_map::Entry;
use std::marker::Model;

/// How many octets a block has that is made first: enough for most names. A call clears a room of so many.
const SHORT_ROOM: usize = 256;

/// The accounts of a realm: at most one for each name. Names are the same where they have the same
/// components with the same characters, in the same case. A contract sees a finite map from the
/// components to the account.
///
/// Commands and look-ups take steps by the logarithm of the number of accounts.
#[derive(Drop)]
pub struct Accounts {
    // The accounts by the blocks of their names. Blocks have the order of the names.
    entries: BTreeMap<Vec<u8>, Account>,
}

impl Model for Accounts {
    ghost use Rattle.std.specs.Prelude.{ℕ};
    ghost use Rattle.std.specs.Coded.{coded_list, coded_ℕ};
    ghost use Rattle.std.specs.FinMap as finite;
    ghost use Rattle.std.specs.BTreeMap.{keys};
    ghost use Rattle.krb_realm_accounts.specs.Accounts.{AccountMap};
    ghost use Rattle.krb_realm_accounts.specs.Entries.{AreBlocks, named};
    ghost use Rattle.krb_realm_accounts.specs.contracts.account.Account as account;

    ghost Value = { AccountMap };

    ghost coded = { finite.code (coded_list (coded_list coded_ℕ)) account.the_row.coded };

    ghost view = { λ a. finite.from_entries (named a.entries.entries) };

    ghost invariant = { λ a. AreBlocks (keys a.entries) };
}

impl Accounts {
    ghost use Rattle.krb_realm_accounts.specs.Account.{AccountRecord};
    ghost use Rattle.krb_realm_accounts.specs.Accounts.{changing, inserting, removing};
    ghost use Rattle.krb_realm_accounts.specs.Refusal.{IsMemoryAside};
    ghost use Rattle.krb_realm_accounts.specs.declared.refusal.RealmRefusal.{RealmRefusal};

    /// No accounts.
    pub fn new(alloc: Global) -> Accounts
        ensures { result ≡ finite.empty }
    {
        Accounts {
            entries: BTreeMap::new(alloc),
        }
    }

    /// The account of a name. It takes no memory.
    pub fn get(&self, name: &[GeneralStringAsn1]) -> Option<&Account>
        ensures { option_copied result ≡ finite.get self.now name.now }
    {
        let entries = &self.entries;
        let mut block = ArrayVec::<u8, SHORT_ROOM>::new();
        if !pack_name(&mut block, name) {
            return self.get_long(name);
        }
        entries.get(block.as_slice())
    }

    // The account of a name of any length. It stands apart, so that only calls with a long name clear `BLOCK_ROOM` octets.
    #[inline(never)]
    fn get_long(&self, name: &[GeneralStringAsn1]) -> Option<&Account>
        ensures { option_copied result ≡ finite.get self.now name.now }
    {
        let held = &self.entries;
        let mut block = ArrayVec::<u8, BLOCK_ROOM>::new();
        if !pack_name(&mut block, name) {
            return None;
        }
        held.get(block.as_slice())
    }

    /// Whether a name has an account, by the characters of its components. It takes no memory.
    pub fn contains(&self, name: &[Vec<u8>]) -> bool
        ensures { result ≡ finite.contains_key self.now (parts name.now) }
    {
        let entries = &self.entries;
        let mut block = ArrayVec::<u8, BLOCK_ROOM>::new();
        if !pack_parts(&mut block, name) {
            return false;
        }
        entries.contains_key(block.as_slice())
    }

    /// Gives a name its account. A name that has one is refused.
    ///
    /// A name whose block is longer than `BLOCK_ROOM`, as no principal's of a realm is, finds no room: `Memory`.
    pub fn insert_new(
        &mut self,
        name: Vec<GeneralStringAsn1>,
        account: Account,
    ) -> Result<(), RealmRefusal>
        ensures exists { (result ≡ Err RealmRefusal.Exists) ↔ IsSome (finite.get self.old name.items) }
        ensures refusal { IsMemoryAside result (inserting self.old name.items) }
        ensures ok { OnOk result (self.new ≡ finite.insert self.old name.items account) }
        ensures err { OnErr result (self.new ≡ self.old) }
    {
        let entries = &mut self.entries;
        let mut block = ArrayVec::<u8, BLOCK_ROOM>::new();
        if !pack_name(&mut block, name.as_slice()) {
            return Err(RealmRefusal::Memory);
        }
        put_new(entries, *name.allocator(), block.as_slice(), account)
    }

    /// Gives the name of these components its account. A name that has one is refused.
    ///
    /// A name whose block is longer than `BLOCK_ROOM`, and one with a character that isn't below 128, finds no room: `Memory`.
    pub fn insert_components(
        &mut self,
        alloc: Global,
        name: &[Vec<u8>],
        account: Account,
    ) -> Result<(), RealmRefusal>
        ensures exists { (result ≡ Err RealmRefusal.Exists) ↔ IsSome (finite.get self.old (parts name.now)) }
        ensures refusal { IsMemoryAside result (inserting self.old (parts name.now)) }
        ensures ok { OnOk result (self.new ≡ finite.insert self.old (parts name.now) account) }
        ensures err { OnErr result (self.new ≡ self.old) }
    {
        let mut block = ArrayVec::<u8, SHORT_ROOM>::new();
        if !pack_parts(&mut block, name) {
            return self.insert_long(alloc, name, account);
        }
        let entries = &mut self.entries;
        put_new(entries, alloc, block.as_slice(), account)
    }

    // Does what `insert_components` does, with room for a block of up to `BLOCK_ROOM`. It stands apart: few calls clear that room.
    #[inline(never)]
    fn insert_long(
        &mut self,
        alloc: Global,
        name: &[Vec<u8>],
        account: Account,
    ) -> Result<(), RealmRefusal>
        ensures exists { (result ≡ Err RealmRefusal.Exists) ↔ IsSome (finite.get self.old (parts name.now)) }
        ensures refusal { IsMemoryAside result (inserting self.old (parts name.now)) }
        ensures ok { OnOk result (self.new ≡ finite.insert self.old (parts name.now) account) }
        ensures err { OnErr result (self.new ≡ self.old) }
    {
        let entries = &mut self.entries;
        let mut block = ArrayVec::<u8, BLOCK_ROOM>::new();
        if !pack_parts(&mut block, name) {
            return Err(RealmRefusal::Memory);
        }
        put_new(entries, alloc, block.as_slice(), account)
    }

    /// Takes a name's account away. A name that has none is refused. It takes no memory.
    pub fn remove(&mut self, name: &[Vec<u8>]) -> Result<(), RealmRefusal>
        ensures refusal { result ≡ removing self.old (parts name.now) }
        ensures ok { OnOk result (self.new ≡ finite.remove self.old (parts name.now)) }
        ensures err { OnErr result (self.new ≡ self.old) }
    {
        let entries = &mut self.entries;
        let mut block = ArrayVec::<u8, BLOCK_ROOM>::new();
        if !pack_parts(&mut block, name) {
            return Err(RealmRefusal::Unknown);
        }
        if entries.remove(block.as_slice()).is_none() {
            return Err(RealmRefusal::Unknown);
        }
        Ok(())
    }

    /// Gives a name's account its next key, with the next kvno and no salt. It takes no memory.
    ///
    /// It is refused, in this order: `BadKeyLength`; `Unknown` for a name that has no account; and `NumberSpent` where the
    /// account's kvno is the greatest.
    pub fn change_key(
        &mut self,
        name: &[Vec<u8>],
        suite: CipherSuite,
        key: &[u8],
    ) -> Result<(), RealmRefusal>
        ensures refusal { IfErr result (λ refusal. changing self.old (parts name.now) suite key.now ≡ Err refusal) }
        ensures refuses { (refusal : RealmRefusal) → changing self.old (parts name.now) suite key.now ≡ Err refusal → result ≡ Err refusal }
        ensures ok { OnOk result ((account : AccountRecord) × (changing self.old (parts name.now) suite key.now ≡ Ok account)
            × (self.new ≡ finite.insert self.old (parts name.now) account)) }
        ensures err { OnErr result (self.new ≡ self.old) }
    {
        let key = key_of(suite, key)?;
        let entries = &mut self.entries;
        let mut block = ArrayVec::<u8, BLOCK_ROOM>::new();
        if !pack_parts(&mut block, name) {
            return Err(RealmRefusal::Unknown);
        }
        rekey(entries, block.as_slice(), key)
    }
}

ghost use Rattle.std.specs.BTreeMap.{IsUnchanged, UpdatesBy, get_by, keys};
ghost use Rattle.krb_realm_accounts.specs.Packed.{fit_in, packed};
ghost use Rattle.krb_realm_accounts.specs.Account.{AccountRecord};
ghost use Rattle.krb_realm_accounts.specs.Accounts.{rekeyed};
ghost use Rattle.krb_realm_accounts.specs.Entries.{AreBlocks, IsBlock, block_cmp, cmp_blocks};

/// Makes an empty block that of a name. The answer is false where the block has no room for it.
fn pack_name<const N: usize>(block: &mut ArrayVec<u8, N>, name: &[GeneralStringAsn1]) -> bool
    requires { block.old.items ≡ [] }
    ensures fits { result ≡ fit_in N name.now }
    ensures packed { IsTrue result → block.new.items ≡ packed name.now }
{
    for component in name {
        if !pack_within(block, component.as_bytes()) {
            return false;
        }
    }
    true
}

/// Writes the block of the name with these components into an empty one. The result is false where there is no room for it, or
/// where a character isn't below 128.
fn pack_parts<const N: usize>(block: &mut ArrayVec<u8, N>, name: &[Vec<u8>]) -> bool
    requires { block.old.items ≡ [] }
    ensures fits { result ≡ fit_in N (parts name.now) }
    ensures packed { IsTrue result → block.new.items ≡ packed (parts name.now) }
{
    for component in name {
        if !pack_within(block, component.as_slice()) {
            return false;
        }
    }
    true
}

/// Puts an account at a block. A block that has one is refused.
fn put_new(
    entries: &mut BTreeMap<Vec<u8>, Account>,
    alloc: Global,
    block: &[u8],
    account: Account,
) -> Result<(), RealmRefusal>
    ensures exists { (result ≡ Err RealmRefusal.Exists) ↔ IsSome (get_by (block_cmp block.now) entries.old) }
    ensures refusal { IfErr result (λ refusal. (refusal ≡ RealmRefusal.Memory) ⊎ (refusal ≡ RealmRefusal.Exists)) }
    ensures ok { OnOk result (UpdatesBy cmp_blocks (block_cmp block.now) entries.old entries.new (Some account)) }
    ensures blocks { OnOk result (AreBlocks (keys entries.old) → IsBlock block.now → AreBlocks (keys entries.new)) }
    ensures err { OnErr result (IsUnchanged entries.old entries.new) }
{
    let Ok(key) = Vec::from_slice(alloc, block) else {
        if entries.contains_key(block) {
            return Err(RealmRefusal::Exists);
        }
        return Err(RealmRefusal::Memory);
    };
    let Ok(entry) = entries.entry(key) else {
        return Err(RealmRefusal::Memory);
    };
    match entry {
        Entry::Vacant(vacant) => {
            vacant.insert(account);
            Ok(())
        }
        Entry::Occupied(_) => Err(RealmRefusal::Exists),
    }
}

/// Gives the account at a block its next key.
fn rekey(
    entries: &mut BTreeMap<Vec<u8>, Account>,
    block: &[u8],
    key: Key,
) -> Result<(), RealmRefusal>
    ensures refusal { IfErr result (λ refusal. rekeyed key.suite key.bytes (get_by (block_cmp block.now) entries.old) ≡ Err refusal) }
    ensures ok { OnOk result ((account : AccountRecord) × UpdatesBy cmp_blocks (block_cmp block.now) entries.old entries.new (Some account)
        × (rekeyed key.suite key.bytes (get_by (block_cmp block.now) entries.old) ≡ Ok account)) }
    ensures keys { keys entries.new ≡ keys entries.old }
    ensures err { OnErr result (IsUnchanged entries.old entries.new) }
{
    let Some(account) = entries.get_mut(block) else {
        return Err(RealmRefusal::Unknown);
    };
    *account = account.with_key(key)?;
    Ok(())
}
