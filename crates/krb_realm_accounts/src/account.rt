//! An account: what a realm knows of a principal.
ghost use Rattle.krb_realm_accounts.specs.Account.{AreBefore, IsKept, IsWhole, one_key};
ghost use Rattle.krb_realm_accounts.specs.Accounts.{keeping, purged};
ghost use Rattle.krb_realm_accounts.specs.declared.limits.TheConstants.{FORMER_LIMIT};
ghost use Rattle.std.specs.Prelude.{◌≡◌, ◌≢◌, ◌≤◌, ◌<◌, ◌+◌, ◌↔◌, ◌⊎◌, [], ◌∷◌, length, take, IfOk, IfErr, Ok, Err, None};
ghost use Rattle.std.specs.Option.{option_copied, option_map_or};
ghost use Rattle.krb_crypto.specs.Suites.{cipher_key_size};
ghost use Rattle.krb_realm_accounts.specs.Passwords.{password_account};
ghost use Rattle.krb_realm_accounts.specs.declared.refusal.RealmRefusal.{RealmRefusal};

use crate::account_key::AccountKey;
use crate::attributes::{Attributes, NO_ATTRIBUTES};
use crate::limits::FORMER_LIMIT;
use crate::refusal::RealmRefusal;
use krb_crypto::{CipherSuite, KerberosCryptoError, Key};
use picky_asn1::wrapper::OctetStringAsn1;
use std::alloc::{AllocError, Global};
use std::marker::Model;

/// What a realm knows of a principal: a key, its kvno, which counts from 1, the salt with which the key was made of a password, if it was,
/// the keys before it, whose kvnos are less and less, and its attributes. A contract sees these, of a key its suite and its octets.
#[derive(Drop)]
pub struct Account {
    key: Key,
    kvno: u32,
    salt: Option<OctetStringAsn1>,
    // None where there are none, so that an account without older keys takes no memory for them.
    former: Option<Vec<AccountKey>>,
    attributes: Attributes,
}

impl Model for Account {
    ghost use Rattle.std.specs.Prelude.{[]};
    ghost use Rattle.std.specs.Option.{option_map_or};
    ghost use Rattle.krb_realm_accounts.specs.Account.{AccountRecord, IsKept};

    ghost Value = { AccountRecord };

    ghost view = { λ a. record { suite = a.key.suite; key = a.key.bytes; kvno = a.kvno; salt = a.salt; former = option_map_or (λ keys. keys.items) a.former []; attributes = a.attributes } };

    ghost invariant = { λ a. IsKept a.kvno (option_map_or (λ keys. keys.items) a.former []) };
}

impl Clone for Account {
    ghost is_clone = { λ account copy. copy ≡ account };

    fn clone(&self) -> Result<Account, AllocError> {
        let key = self.key.clone()?;
        let salt = copied_salt(&self.salt)?;
        let former = copied_former(&self.former)?;
        Ok(Account {
            key,
            kvno: self.kvno,
            salt,
            former,
            attributes: self.attributes,
        })
    }
}

impl Account {
    ghost use Rattle.krb_realm_accounts.specs.Accounts.{with_key};

    /// An account with this key, none before it, and no attribute.
    pub fn new(key: Key, kvno: u32, salt: Option<OctetStringAsn1>) -> Account
        requires { 1 ≤ kvno }
        ensures { result ≡ one_key key.suite key.bytes kvno salt }
    {
        Account {
            key,
            kvno,
            salt,
            former: None,
            attributes: NO_ATTRIBUTES,
        }
    }

    /// An account with this key, these keys before it, the newest first, and these attributes.
    pub fn of_keys(
        key: Key,
        kvno: u32,
        salt: Option<OctetStringAsn1>,
        former: Vec<AccountKey>,
        attributes: Attributes,
    ) -> Account
        requires counts { 1 ≤ kvno }
        requires before { AreBefore kvno former.items }
        requires few { length former.items ≤ FORMER_LIMIT }
        ensures { result ≡ record { suite = key.suite; key = key.bytes; kvno = kvno; salt = salt; former = former.items; attributes = attributes } }
    {
        let former = some_keys(former);
        Account {
            key,
            kvno,
            salt,
            former,
            attributes,
        }
    }

    /// The account with these attributes in place of its own.
    pub fn with_attributes(self, attributes: Attributes) -> Account
        ensures { result ≡ record self { attributes = attributes } }
    {
        Account {
            key: self.key,
            kvno: self.kvno,
            salt: self.salt,
            former: self.former,
            attributes,
        }
    }

    /// An account with this first key and no salt. A key that isn't of the suite's length is refused.
    pub fn by_key(suite: CipherSuite, key: &[u8]) -> Result<Account, RealmRefusal>
        ensures ok { IfOk result (λ a. a ≡ one_key suite key.now 1 None) }
        ensures key_size { IfOk result (λ _. length key.now ≡ cipher_key_size suite) }
        ensures bad_length { (result ≡ Err RealmRefusal.BadKeyLength) ↔ (length key.now ≢ cipher_key_size suite) }
        ensures refusal { IfErr result (λ e. e ≡ RealmRefusal.BadKeyLength) }
    {
        let key = key_of(suite, key)?;
        Ok(Account::new(key, 1, None))
    }

    /// An account with the first key of a password and a salt (RFC 3962, section 4).
    pub fn by_password(
        alloc: Global,
        suite: CipherSuite,
        password: &[u8],
        salt: Vec<u8>,
    ) -> Result<Account, KerberosCryptoError>
        ensures ok { IfOk result (λ a. a ≡ password_account suite password.now salt.items) }
        ensures memory { 0 < length password.now + length salt.items → IfErr result (λ e. e ≡ KerberosCryptoError.Memory) }
    {
        let key = Key::of_password(alloc, suite, password, &salt)?;
        let salt = OctetStringAsn1::from(salt);
        Ok(Account::new(key, 1, Some(salt)))
    }

    /// The account with its next key, with the next kvno, no salt and no key before it. Where there is no next kvno it is refused.
    pub(crate) fn with_key(&self, key: Key) -> Result<Account, RealmRefusal>
        ensures { result ≡ with_key key.suite key.bytes self.now }
    {
        if self.kvno == u32::MAX {
            return Err(RealmRefusal::NumberSpent);
        }
        let next = Account::new(key, self.kvno + 1, None);
        Ok(next.with_attributes(self.attributes.rekeyed()))
    }

    /// The account with its next key, with the next kvno and this salt, which keeps the keys before, up to [`FORMER_LIMIT`]. Where there is
    /// no next kvno it is refused.
    pub fn keeping(
        &self,
        alloc: Global,
        key: Key,
        salt: Option<OctetStringAsn1>,
    ) -> Result<Account, RealmRefusal>
        ensures ok { IfOk result (λ account. keeping key.suite key.bytes salt self.now ≡ Ok account) }
        ensures refusal { IfErr result (λ e. (e ≡ RealmRefusal.Memory) ⊎ (keeping key.suite key.bytes salt self.now ≡ Err e)) }
        ensures spent { self.now.kvno ≡ 4294967295 → result ≡ Err RealmRefusal.NumberSpent }
    {
        let kvno = self.kvno;
        if kvno == u32::MAX {
            return Err(RealmRefusal::NumberSpent);
        }
        let own = self.key.clone()?;
        let former = kept_keys(alloc, own, kvno, &self.former)?;
        Ok(Account {
            key,
            kvno: kvno + 1,
            salt,
            former: Some(former),
            attributes: self.attributes.rekeyed(),
        })
    }

    /// Takes the keys before the account's own away.
    pub fn purge(&mut self)
        ensures { self.new ≡ purged self.old }
    {
        self.former = None;
    }

    /// Gives the account these attributes in place of its own.
    pub fn set_attributes(&mut self, attributes: Attributes)
        ensures { self.new ≡ record self.old { attributes = attributes } }
    {
        self.attributes = attributes;
    }

    /// The keys before the account's own, the newest first.
    pub fn former(&self) -> &[AccountKey]
        ensures value { result.now ≡ self.now.former }
        ensures few { length result.now ≤ FORMER_LIMIT }
    {
        match &self.former {
            Some(keys) => keys.as_slice(),
            None => &[],
        }
    }

    /// What holds of every account. It does nothing when it runs.
    pub fn is_whole(&self)
        ensures { IsWhole self.now }
    {
        self.key.is_well_formed();
        let _kvno = self.kvno;
        let _ends = self.attributes.ends;
        let _lifetime = self.attributes.lifetime;
    }

    /// The attributes.
    pub fn attributes(&self) -> Attributes
        ensures { result ≡ self.now.attributes }
    {
        self.attributes
    }

    /// The suite of the key.
    pub fn suite(&self) -> CipherSuite
        ensures { result ≡ self.now.suite }
    {
        self.key.suite()
    }

    /// The key.
    pub fn key(&self) -> &Key
        ensures { result.now ≡ record { suite = self.now.suite; bytes = self.now.key } }
    {
        &self.key
    }

    /// The key's kvno (RFC 4120, section 5.2.9).
    pub fn kvno(&self) -> u32
        ensures value { result ≡ self.now.kvno }
        ensures from_one { 1 ≤ result }
    {
        self.kvno
    }

    /// The salt with which the key was made of a password (RFC 3961, section 3).
    pub fn salt(&self) -> Option<&OctetStringAsn1>
        ensures { option_copied result ≡ self.now.salt }
    {
        self.salt.as_ref()
    }
}

// Copies a salt.
fn copied_salt(salt: &Option<OctetStringAsn1>) -> Result<Option<OctetStringAsn1>, AllocError>
    ensures { IfOk result (λ copy. copy ≡ salt.now) }
{
    match salt {
        Some(salt) => {
            let copy = salt.clone()?;
            Ok(Some(copy))
        }
        None => Ok(None),
    }
}

// Copies the keys before an account's own.
fn copied_former(keys: &Option<Vec<AccountKey>>) -> Result<Option<Vec<AccountKey>>, AllocError>
    ensures { IfOk result (λ copy. option_map_or (λ keys. keys.items) copy [] ≡ option_map_or (λ keys. keys.items) keys.now []) }
{
    match keys {
        Some(keys) => {
            let copy = copied_keys(keys)?;
            Ok(Some(copy))
        }
        None => Ok(None),
    }
}

// Copies keys.
fn copied_keys(keys: &Vec<AccountKey>) -> Result<Vec<AccountKey>, AllocError>
    ensures { IfOk result (λ copy. copy.items ≡ keys.now.items) }
{
    let copy = keys.clone()?;
    Ok(copy)
}

// The keys that stay where a further one is made: this key, those before it, and no more than there is room for.
fn kept_keys(
    alloc: Global,
    key: Key,
    kvno: u32,
    former: &Option<Vec<AccountKey>>,
) -> Result<Vec<AccountKey>, AllocError>
    requires { IsKept kvno (option_map_or (λ keys. keys.items) former.now []) }
    ensures kept { IfOk result (λ keys. keys.items
        ≡ take FORMER_LIMIT (record { suite = key.suite; key = key.bytes; kvno = kvno } ∷ option_map_or (λ keys. keys.items) former.now [])) }
    ensures are { IfOk result (λ keys. IsKept (kvno + 1) keys.items) }
{
    key.is_well_formed();
    let own = AccountKey::new(key, kvno);
    let older = copied_former(former)?;
    let keys = behind(alloc, own, older)?;
    Ok(keys)
}

// The key in front of the keys before it, and as many of these as there is room for.
fn behind(
    alloc: Global,
    key: AccountKey,
    former: Option<Vec<AccountKey>>,
) -> Result<Vec<AccountKey>, AllocError>
    ensures { IfOk result (λ keys. keys.items ≡ take FORMER_LIMIT (key ∷ option_map_or (λ keys. keys.items) former [])) }
{
    let Some(mut keys) = former else {
        let keys = vec![in alloc; key]?;
        return Ok(keys);
    };
    keys.insert(0, key)?;
    keys.truncate(FORMER_LIMIT);
    Ok(keys)
}

// The keys, if there are any. Where there are none they take no memory.
fn some_keys(keys: Vec<AccountKey>) -> Option<Vec<AccountKey>>
    ensures { option_map_or (λ keys. keys.items) result [] ≡ keys.items }
{
    if keys.is_empty() {
        return None;
    }
    Some(keys)
}

/// The key of the suite that these octets are. Octets of another length are refused.
pub(crate) fn key_of(suite: CipherSuite, octets: &[u8]) -> Result<Key, RealmRefusal>
    ensures ok { IfOk result (λ key. key ≡ record { suite = suite; bytes = octets.now }) }
    ensures size { IfOk result (λ _. length octets.now ≡ cipher_key_size suite) }
    ensures bad_length { (result ≡ Err RealmRefusal.BadKeyLength) ↔ (length octets.now ≢ cipher_key_size suite) }
    ensures refusal { IfErr result (λ e. e ≡ RealmRefusal.BadKeyLength) }
{
    let Ok(key) = Key::new(suite, octets) else {
        return Err(RealmRefusal::BadKeyLength);
    };
    key.is_well_formed();
    Ok(key)
}
