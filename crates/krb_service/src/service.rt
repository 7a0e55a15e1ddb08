//! Services.
ghost use Rattle.std.specs.Prelude.{◌≡◌, ◌≤◌, ◌⊎◌, List, length, Ok, Err, MatchResult, max};
ghost use Rattle.std.specs.List.{filter};
ghost use Rattle.std.specs.Set.{distinct_count};
ghost use Rattle.krb_messages.specs.RandomBytes.{AreEnoughForApReply};
ghost use Rattle.krb_realm_accounts.specs.Names.{parts};
ghost use Rattle.krb_service.specs.Pair.{PairRecord, is_recent, is_same_pair};
ghost use Rattle.krb_service.specs.Seen.{IsWindow};
ghost use Rattle.krb_service.specs.ApReply.{random_size};
ghost use Rattle.krb_service.specs.RememberingService.{IsStep, remembering, remembering_with};
ghost use Rattle.krb_service.specs.Service.{IsService, made, making};
ghost use Rattle.krb_realm_accounts.specs.declared.refusal.RealmRefusal.{RealmRefusal};

use crate::admission::Admission;
use crate::entry::KeytabEntry;
use crate::once::admit_once_with;
use crate::reply::ReplyFields;
use crate::seen::Seen;
use krb_ap_requests::AdmitRefusal;
use krb_crypto::{CipherSuite, Key};
use krb_realm_accounts::{
    RealmRefusal, SKEW_LIMIT, are_components, components_of, is_realm_name, realm_name_of,
};
use krb_time::Moment;
use std::alloc::Global;
use std::marker::Model;

/// A service: its key with its realm and its name, and what it has seen. A contract sees both. Realm and name are names, the
/// key has as many bytes as its suite's keys, and its kvno is 1 or more.
#[derive(Drop)]
pub struct Service {
    entry: KeytabEntry,
    seen: Seen,
}

impl Model for Service {
    ghost use Rattle.krb_service.specs.Service.{IsServiceEntry, ServiceRecord};

    ghost Value = { ServiceRecord };

    ghost view = { λ s. record { entry = s.entry; seen = s.seen } };

    ghost invariant = { λ s. IsServiceEntry s.entry };
}

impl Service {
    /// A service of this realm and this name, with a key and its kvno. The skew is in seconds.
    ///
    /// It is refused, in this order: `BadName` for what are no names of a realm and of a principal; `BadKeyLength`;
    /// `BadSetting` for a skew of more than a day, or kvno 0.
    pub fn new(
        alloc: Global,
        realm: &[u8],
        name: &[Vec<u8>],
        suite: CipherSuite,
        key: &[u8],
        kvno: u32,
        skew: u64,
    ) -> Result<Service, RealmRefusal>
        ensures made { MatchResult result
            (λ service. (making realm.now (parts name.now) suite key.now kvno skew ≡ Ok tt)
            × (service ≡ made realm.now (parts name.now) suite key.now kvno skew))
            (λ refusal. (refusal ≡ RealmRefusal.Memory)
            ⊎ (making realm.now (parts name.now) suite key.now kvno skew ≡ Err refusal)) }

        // Running out of memory hides no other refusal.
        ensures first { (refusal : RealmRefusal) → making realm.now (parts name.now) suite key.now kvno skew ≡ Err refusal → result ≡ Err refusal }
    {
        if !is_realm_name(realm) || !are_components(name) {
            return Err(RealmRefusal::BadName);
        }
        let Ok(key) = Key::new(suite, key) else {
            return Err(RealmRefusal::BadKeyLength);
        };
        if SKEW_LIMIT < skew || kvno == 0 {
            return Err(RealmRefusal::BadSetting);
        }
        let realm = realm_name_of(alloc, realm)?;
        let components = components_of(alloc, name)?;
        Ok(Service {
            entry: KeytabEntry::new(realm, components, key, kvno),
            seen: Seen::new(alloc, skew),
        })
    }

    /// The service's realm and name are names, its key has as many bytes as its suite's keys, its kvno is 1 or more, and its skew
    /// is whole seconds. It does nothing when it runs: its contract states this of a service that a caller was handed.
    pub fn is_well_formed(&self)
        ensures { IsService self.now }
    {
        let _skew = self.seen.skew();
    }

    /// The service's key, with its realm and its name.
    pub fn entry(&self) -> &KeytabEntry
        ensures { result.now ≡ self.now.entry }
    {
        &self.entry
    }

    /// The replay cache.
    pub fn seen(&self) -> &Seen
        ensures { result.now ≡ self.now.seen }
    {
        &self.seen
    }

    /// What the service holds is the window of a list of admitted pairs: of those that it holds. It does nothing when it
    /// runs: its contract states this of a service that a caller was handed.
    pub fn holds_window(&self)
        ensures { IsWindow self.now.seen self.now.seen.held }
    {
        self.seen.holds_window()
    }

    /// Admits an AP request at a moment, or refuses it (RFC 4120, section 3.2.3). The greatest moment that was ever
    /// handed in judges it. `words`: random bytes, of which the first 16 count, where a reply is asked for.
    ///
    /// A refused call records nothing. Where memory runs out the request may come again.
    pub fn admit(
        &mut self,
        alloc: Global,
        message: &[u8],
        moment: Moment,
        words: &[u8],
    ) -> Result<Admission, AdmitRefusal>
        requires { AreEnoughForApReply words.now }
        ensures greatest { self.new.seen.greatest ≡ max self.old.seen.greatest moment }
        ensures skew { self.new.seen.skew ≡ self.old.seen.skew }
        ensures rest { self.new ≡ record self.old { seen = self.new.seen } }
        ensures remembers { (admitted : List PairRecord) → IsWindow self.old.seen admitted
            → IsStep (remembering self.old (max self.old.seen.greatest moment) admitted message.now words.now).gives admitted result self.new.seen }
    {
        self.admit_with(alloc, message, moment, ReplyFields::TimeAlone, words)
    }

    /// Admits an AP request as [`Service::admit`] does, with these fields in the AP-REP. `words`: random bytes, of which the first 16
    /// count; with a subkey and a number 64: 16 to 19 are the number's, and 32 to 63 the subkey's seed.
    pub fn admit_with(
        &mut self,
        alloc: Global,
        message: &[u8],
        moment: Moment,
        fields: ReplyFields,
        words: &[u8],
    ) -> Result<Admission, AdmitRefusal>
        requires { random_size fields ≤ length words.now }
        ensures greatest { self.new.seen.greatest ≡ max self.old.seen.greatest moment }
        ensures skew { self.new.seen.skew ≡ self.old.seen.skew }
        ensures rest { self.new ≡ record self.old { seen = self.new.seen } }
        ensures remembers { (admitted : List PairRecord) → IsWindow self.old.seen admitted
            → IsStep (remembering_with fields self.old (max self.old.seen.greatest moment) admitted message.now words.now).gives admitted result self.new.seen }
    {
        self.seen.raise(moment);
        let now = self.seen.greatest();
        let skew = self.seen.skew();
        let presented = self.entry.receive(alloc, skew, now, message)?;
        admit_once_with(&mut self.seen, alloc, now, presented, fields, words)
    }

    /// How many pairs of a client and a time the replay cache holds: of those that were admitted the ones that lie no further
    /// back than the skew, each counted once. It takes no memory.
    pub fn kept(&self) -> usize
        ensures { (admitted : List PairRecord) → IsWindow self.now.seen admitted →
            result ≡ distinct_count is_same_pair (filter (is_recent self.now.seen.skew self.now.seen.greatest) admitted) }
    {
        self.seen.kept()
    }
}
