//! A key of an account, with its kvno.
ghost use Rattle.std.specs.Prelude.{◌≡◌, ◌≤◌, IsTrue, length};
ghost use Rattle.krb_crypto.specs.Suites.{cipher_key_size};
ghost use Rattle.krb_realm_accounts.specs.Account.{AreBefore, are_falling};

use krb_crypto::{CipherSuite, Key};
use std::alloc::AllocError;
use std::marker::Model;

/// A key that an account has or had, with its kvno, which counts from 1. A contract sees the key's suite and octets, and the kvno.
pub struct AccountKey(Key, u32);

impl Drop for AccountKey {
    fn drop(self) {
        let AccountKey(_, _) = self;
    }
}

impl Model for AccountKey {
    ghost use Rattle.std.specs.Prelude.{◌≤◌};
    ghost use Rattle.krb_realm_accounts.specs.Account.{AccountKeyRecord};

    ghost Value = { AccountKeyRecord };

    ghost view = { λ a. record { suite = a.0.suite; key = a.0.bytes; kvno = a.1 } };

    ghost invariant = { λ a. 1 ≤ a.1 };
}

impl Clone for AccountKey {
    ghost is_clone = { λ own copy. copy ≡ own };

    fn clone(&self) -> Result<AccountKey, AllocError> {
        let key = self.0.clone()?;
        Ok(AccountKey(key, self.1))
    }
}

impl AccountKey {
    /// A key with its kvno.
    pub fn new(key: Key, kvno: u32) -> AccountKey
        requires { 1 ≤ kvno }
        ensures { result ≡ record { suite = key.suite; key = key.bytes; kvno = kvno } }
    {
        AccountKey(key, kvno)
    }

    /// The suite of the key.
    pub fn suite(&self) -> CipherSuite
        ensures { result ≡ self.now.suite }
    {
        self.0.suite()
    }

    /// The key.
    pub fn key(&self) -> &Key
        ensures { result.now ≡ record { suite = self.now.suite; bytes = self.now.key } }
    {
        &self.0
    }

    /// The key's kvno (RFC 4120, section 5.2.9).
    pub fn kvno(&self) -> u32
        ensures value { result ≡ self.now.kvno }
        ensures from_one { 1 ≤ result }
    {
        self.1
    }

    // What holds of every key. It does nothing when it runs.
    fn is_whole(&self)
        ensures counts { 1 ≤ self.now.kvno }
        ensures sized { length self.now.key ≡ cipher_key_size self.now.suite }
    {
        self.0.is_well_formed();
        let _kvno = self.1;
    }
}

/// Whether the kvnos of keys fall from this one on, from key to key.
pub fn are_falling(kvno: u32, keys: &[AccountKey]) -> bool
    ensures value { result ≡ are_falling kvno keys.now }
    ensures before { IsTrue result → AreBefore kvno keys.now }
{
    let mut below = kvno;
    for own in keys {
        own.is_whole();
        if below <= own.kvno() {
            return false;
        }
        below = own.kvno();
    }
    true
}
