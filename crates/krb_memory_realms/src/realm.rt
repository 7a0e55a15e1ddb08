//! Realms.
ghost use Rattle.std.specs.Prelude.{◌≡◌, ◌<◌, ◌^◌, true, ℕ, List, Ok, Err, Some, None, OnOk, OnErr, IfOk, IfErr, MatchResult, length, ◌⊎◌};
ghost use Rattle.std.specs.FinMap as finite;
ghost use Rattle.krb_messages.specs.RandomBytes.{AreEnoughForReply};
ghost use Rattle.block_ciphers.specs.Bytes.{IsBytes};
ghost use Rattle.krb_realm_accounts.specs.Names.{parts};
ghost use Rattle.krb_realm_accounts.specs.Refusal.{IsMemoryAside};
ghost use Rattle.decision_tables.specs.Some.{HasSome};
ghost use Rattle.krb_kdc_exchanges.specs.Call.{call_of};
ghost use Rattle.krb_kdc_exchanges.specs.Before.{AreFree, IsFree};
ghost use Rattle.krb_kdc_exchanges.specs.Calls.{AreKeyed};
ghost use Rattle.krb_kdc_exchanges.specs.Replies.{Replies};
ghost use Rattle.pkinit_validation.specs.PkinitRows.{pkinit_rows};
ghost use Rattle.pkinit_validation.specs.Trust.{trust_of};
ghost use Rattle.krb_memory_realms.specs.Realm.{IsOwn, call_to, is_krbtgt};

use crate::laws::has_reply;
use crate::settings::Settings;
use krb_crypto::CipherSuite;
use krb_frames::AnswerRefusal;
use krb_kdc::{LookupCall, answer_by, refusal_of};
use krb_kdc_exchanges::Call;
use krb_messages::{krbtgt, krbtgt_of};
use krb_realm_accounts::{
    Account, Accounts, RealmRefusal, are_components, is_realm_name, password_salt, realm_name_of,
};
use krb_time::Moment;
use picky_asn1::wrapper::GeneralStringAsn1;
use pkinit_validation::RealmPkinit;
use std::alloc::Global;
use std::marker::Model;
use x509_keys::KeyFunctions;

/// How many random bytes a request takes.
pub fn words_needed() -> usize
    ensures { result ≡ 128 }
{
    128
}

/// A realm: a name, settings, and the accounts of its principals, of which its ticket-granting service's is always one. A
/// contract sees them.
#[derive(Drop)]
pub struct Realm {
    name: GeneralStringAsn1,
    settings: Settings,
    accounts: Accounts,
}

impl Model for Realm {
    ghost use Rattle.std.specs.Prelude.{ℕ, List, refl};
    ghost use Rattle.std.specs.Coded.{code_by, coded×, coded_list, coded_ℕ};
    ghost use Rattle.krb_realm_accounts.specs.Accounts.{AccountMap};
    ghost use Rattle.krb_realm_accounts.specs.contracts.accounts.Accounts as account_map;
    ghost use Rattle.krb_memory_realms.specs.contracts.settings.Settings as realm_settings;
    ghost use Rattle.krb_memory_realms.specs.Realm.{IsRealm, RealmState};
    ghost use Rattle.krb_memory_realms.specs.Settings.{SettingsState};

    ghost Value = { RealmState };

    ghost coded = { code_by (List ℕ × (SettingsState × AccountMap))
        (coded× (coded_list coded_ℕ) (coded× realm_settings.the_row.coded account_map.the_row.coded))
        (λ r. (r.name, (record { limits = r.settings; trust = r.trust }, r.accounts)))
        (λ p. record { name = p.0; settings = p.1.0.limits; trust = p.1.0.trust; accounts = p.1.1 }) (λ _. refl) };

    ghost view = { λ r. record { name = r.name; settings = r.settings.limits; trust = r.settings.trust; accounts = r.accounts } };

    ghost invariant = { λ r. IsRealm r.name r.accounts };
}

impl Realm {
    ghost use Rattle.krb_realm_accounts.specs.Account.{AccountRecord};
    ghost use Rattle.krb_memory_realms.specs.Realm.{making, made, adding, adding_by_password, changing, first_key, has_krbtgt, removing};
    ghost use Rattle.krb_realm_accounts.specs.Passwords.{password_account, password_salt};
    ghost use Rattle.krb_realm_accounts.specs.declared.refusal.RealmRefusal.{RealmRefusal};
    ghost use Rattle.krb_realm_accounts.specs.Accounts.{look_in};
    ghost use Rattle.krb_kdc.specs.Begins.{BeginsRequest};
    ghost use Rattle.krb_memory_realms.specs.Answers.{IsAnswer};

    /// Makes a realm of this name, whose ticket-granting service `krbtgt/name` has this key (RFC 4120, section 7.3).
    pub fn new(
        alloc: Global,
        name: &[u8],
        suite: CipherSuite,
        key: &[u8],
        settings: Settings,
    ) -> Result<Realm, RealmRefusal>
        ensures made { MatchResult result
            (λ realm. (making name.now suite key.now ≡ Ok tt) × (realm ≡ made name.now suite key.now settings))
            (λ refusal. (refusal ≡ RealmRefusal.Memory) ⊎ (making name.now suite key.now ≡ Err refusal)) }

        // Running out of memory hides no other refusal.
        ensures first { (refusal : RealmRefusal) → making name.now suite key.now ≡ Err refusal → result ≡ Err refusal }
    {
        if !is_realm_name(name) {
            return Err(RealmRefusal::BadName);
        }
        let granting = Account::by_key(suite, key)?;
        is_own(&granting);
        let own = realm_name_of(alloc, name)?;
        let service = krbtgt_of(alloc, &own)?;
        let mut accounts = Accounts::new(alloc);
        // No account is there yet, so memory is the only refusal.
        let Ok(()) = accounts.insert_new(service, granting) else {
            return Err(RealmRefusal::Memory);
        };
        Ok(Realm {
            name: own,
            settings,
            accounts,
        })
    }

    /// What every realm has: the account of its ticket-granting service. It does nothing when it runs.
    pub fn is_granting(&self)
        ensures { has_krbtgt self.now.name self.now.accounts ≡ true }
    {
        // The clause is of the fields: the proof sees them where one is read.
        let _settings = &self.settings;
    }

    /// What every realm has: accounts whose keys are keys of their suites. It does nothing when it runs.
    pub fn are_keyed(&self)
        ensures { AreKeyed (look_in self.now.accounts) }
    {
        // The clause is of the fields: the proof sees them where one is read.
        let _settings = &self.settings;
    }

    /// What every realm has: accounts for which nobody sets an attribute. It does nothing when it runs.
    pub fn are_free(&self)
        ensures { AreFree (look_in self.now.accounts) }
    {
        // The clause is of the fields: the proof sees them where one is read.
        let _settings = &self.settings;
    }

    /// There is a reply to each request at each moment, by `laws::one_reply` exactly one. It does nothing when it runs. `words`: random
    /// bytes, 128 or more.
    pub fn has_reply<K: KeyFunctions>(&self, message: &[u8], moment: Moment, words: &[u8], keys: &K)
        requires { AreEnoughForReply words.now }
        ensures { HasSome (Replies (call_to self.now moment words.now) (pkinit_rows self.now.trust (K.functions keys.now)) message.now) }
    {
        self.are_keyed();
        let _micros = moment.micros();
        is_slice(message);
        is_slice(words);
        has_reply();
    }

    /// Gives a principal its account, by its first key. A refused command changes nothing.
    ///
    /// It is refused, in this order: `BadName`, `BadKeyLength`, `Exists`; and `Memory` only where it isn't refused so.
    pub fn add_account_by_key(
        &mut self,
        alloc: Global,
        name: &[Vec<u8>],
        suite: CipherSuite,
        key: &[u8],
    ) -> Result<(), RealmRefusal>
        ensures refusal { IsMemoryAside result (adding self.old.accounts (parts name.now) suite key.now) }

        // Running out of memory hides no other refusal.
        ensures first { (refusal : RealmRefusal) → adding self.old.accounts (parts name.now) suite key.now ≡ Err refusal → result ≡ Err refusal }
        ensures ok { OnOk result (self.new ≡ record self.old { accounts = finite.insert self.old.accounts (parts name.now) (first_key suite key.now) }) }
        ensures err { OnErr result (self.new ≡ self.old) }
    {
        if !are_components(name) {
            return Err(RealmRefusal::BadName);
        }
        let account = Account::by_key(suite, key)?;
        is_own(&account);
        self.accounts.insert_components(alloc, name, account)?;
        Ok(())
    }

    /// Gives a principal its account, by its first password. The salt is the realm, and behind it the name's components
    /// (RFC 4120, section 4). A refused command changes nothing.
    ///
    /// It is refused, in this order: `BadName`, `Exists`; and `Memory` only where it isn't refused so.
    pub fn add_account_by_password(
        &mut self,
        alloc: Global,
        name: &[Vec<u8>],
        suite: CipherSuite,
        password: &[u8],
    ) -> Result<(), RealmRefusal>
        ensures refusal { IsMemoryAside result (adding_by_password self.old.accounts (parts name.now)) }

        // Running out of memory hides no other refusal.
        ensures first { (refusal : RealmRefusal) → adding_by_password self.old.accounts (parts name.now) ≡ Err refusal → result ≡ Err refusal }
        ensures ok { OnOk result (self.new ≡ record self.old {
          accounts = finite.insert self.old.accounts (parts name.now)
              (password_account suite password.now (password_salt self.old.name (parts name.now)));
        }) }
        ensures err { OnErr result (self.new ≡ self.old) }
    {
        if !are_components(name) {
            return Err(RealmRefusal::BadName);
        }
        // A key of a password takes thousands of rounds, so a name that has an account is refused before.
        if self.accounts.contains(name) {
            return Err(RealmRefusal::Exists);
        }
        let salt = password_salt(alloc, self.name.as_bytes(), name)?;
        // A realm's name isn't empty and neither is the salt, so memory is the only refusal.
        let Ok(account) = Account::by_password(alloc, suite, password, salt) else {
            return Err(RealmRefusal::Memory);
        };
        is_own(&account);
        self.accounts.insert_components(alloc, name, account)?;
        Ok(())
    }

    /// Takes a principal's account away, but never that of the realm's own ticket-granting service `krbtgt/name`. A refused
    /// command changes nothing. It takes no memory.
    ///
    /// It is refused, in this order: `BadName`, `Unknown`, `KeptAccount`.
    pub fn remove_account(&mut self, name: &[Vec<u8>]) -> Result<(), RealmRefusal>
        ensures refusal { result ≡ removing self.old (parts name.now) }
        ensures ok { OnOk result (self.new ≡ record self.old { accounts = finite.remove self.old.accounts (parts name.now) }) }
        ensures err { OnErr result (self.new ≡ self.old) }
    {
        if !are_components(name) {
            return Err(RealmRefusal::BadName);
        }
        if !self.accounts.contains(name) {
            return Err(RealmRefusal::Unknown);
        }
        if is_krbtgt(&self.name, name) {
            return Err(RealmRefusal::KeptAccount);
        }
        self.accounts.remove(name)
    }

    /// Gives a principal's account its next key, with the next kvno and no salt (RFC 4120, section 5.2.9). A
    /// refused command changes nothing. It takes no memory.
    ///
    /// It is refused, in this order: `BadName`, `BadKeyLength`, `Unknown`, `NumberSpent`.
    pub fn change_key(
        &mut self,
        name: &[Vec<u8>],
        suite: CipherSuite,
        key: &[u8],
    ) -> Result<(), RealmRefusal>
        ensures refusal { IfErr result (λ refusal. changing self.old.accounts (parts name.now) suite key.now ≡ Err refusal) }
        ensures refuses { (refusal : RealmRefusal) → changing self.old.accounts (parts name.now) suite key.now ≡ Err refusal → result ≡ Err refusal }
        ensures ok { OnOk result ((account : AccountRecord) × (changing self.old.accounts (parts name.now) suite key.now ≡ Ok account)
            × (self.new ≡ record self.old { accounts = finite.insert self.old.accounts (parts name.now) account })) }
        ensures err { OnErr result (self.new ≡ self.old) }
    {
        if !are_components(name) {
            return Err(RealmRefusal::BadName);
        }
        self.accounts.change_key(name, suite, key)
    }

    /// The reply to a message at a moment (RFC 4120, sections 3.1 and 3.3), which [`answer_by`] gives from the realm's accounts. `words`:
    /// random bytes, of which the first 128 count. There is exactly one: `has_reply` and `laws::one_reply`.
    ///
    /// A realm with an anchor and an own certificate also grants by certificate (RFC 4556, section 3.2). The key functions verify
    /// signatures, sign the reply, and agree on its key. Without an anchor they are not called.
    ///
    /// `Unreadable` says that the bytes are the one encoding of no AS request and of no TGS request. Where they begin with the
    /// identifier octet of neither, that is answered however little memory there is.
    pub fn answer<K: KeyFunctions>(
        &self,
        alloc: Global,
        message: &[u8],
        moment: Moment,
        words: &[u8],
        keys: &K,
    ) -> Result<Vec<u8>, AnswerRefusal>
        requires { AreEnoughForReply words.now }
        ensures answer { IsAnswer (Replies (call_to self.now moment words.now) (pkinit_rows self.now.trust (K.functions keys.now)) message.now) result }
        ensures memory { IfErr result (λ refusal. refusal ≡ AnswerRefusal.Memory → BeginsRequest message.now) }
    {
        let call = LookupCall {
            realm: &self.name,
            settings: self.settings.limits(),
            moment,
            words,
        };
        let pkinit = self.pkinit(keys);
        match answer_by(alloc, &self.accounts, &call, &pkinit, message) {
            Ok(reply) => Ok(reply),
            Err(refusal) => Err(refusal_of(refusal)),
        }
    }

    /// Borrows what a request at a moment is answered by: the realm's name, limits and accounts, and these random bytes.
    pub fn call<'a>(&'a self, moment: Moment, words: &'a [u8]) -> Call<'a>
        ensures call { call_of result ≡ call_to self.now moment words.now }
        ensures words { result.words.now ≡ words.now }
    {
        Call {
            realm: &self.name,
            settings: self.settings.limits(),
            accounts: &self.accounts,
            moment,
            words,
        }
    }

    /// Borrows what requests by certificate are judged by: the realm's anchor and certificate, and these key functions.
    pub fn pkinit<'a, K: KeyFunctions>(&'a self, keys: &'a K) -> RealmPkinit<'a, K>
        ensures trust { trust_of result.anchor result.certificate ≡ self.now.trust }
        ensures keys { result.keys.now ≡ keys.now }
    {
        self.settings.pkinit(keys)
    }
}

// The key of an account has the length of its suite. It does nothing when it runs: its contract states this of a caller's account, for
// which nobody sets an attribute.
fn is_own(account: &Account)
    requires { IsFree account.now }
    ensures { IsOwn account.now }
{
    is_slice(account.key().as_bytes());
}

// The octets of a slice are bytes, fewer than 2^64. It does nothing when it runs.
fn is_slice(octets: &[u8])
    ensures bytes { IsBytes octets.now }
    ensures few { length octets.now < 2 ^ 64 }
{
    let _length = octets.len();
}

// Whether the name is that of the realm's ticket-granting service.
fn is_krbtgt(realm: &GeneralStringAsn1, name: &[Vec<u8>]) -> bool
    ensures { result ≡ is_krbtgt realm.now (parts name.now) }
{
    let [first, second] = name else {
        return false;
    };
    first.as_slice() == krbtgt() && second.as_slice() == realm.as_bytes()
}
