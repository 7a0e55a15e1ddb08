//! Services of keytabs.
ghost use Rattle.std.specs.Prelude.{◌≡◌, ◌≤◌, ◌⊎◌, List, length, IfOk, IsSome, Ok, Err, MatchResult, OnErr, OnOk, max};
ghost use Rattle.std.specs.List.{filter};
ghost use Rattle.std.specs.Set.{distinct_count};
ghost use Rattle.krb_messages.specs.RandomBytes.{AreEnoughForApReply};
ghost use Rattle.krb_realm_accounts.specs.Names.{parts};
ghost use Rattle.krb_service.specs.Pair.{PairRecord, is_recent, is_same_pair};
ghost use Rattle.krb_service.specs.RememberingService.{IsStep};
ghost use Rattle.krb_service.specs.Seen.{IsWindow};
ghost use Rattle.krb_service.specs.KeytabEntries.{entries_of};
ghost use Rattle.krb_service.specs.KeytabService.{IsKeytabService, giving, made, making, remembering_by_keytab, remembering_by_keytab_with};
ghost use Rattle.krb_service.specs.ApReply.{random_size};
ghost use Rattle.krb_service.specs.Unasked.{asking, remembering_unasked};
ghost use Rattle.krb_service.specs.declared.keytab_service.refusal.KeytabServiceRefusal.{KeytabServiceRefusal};
ghost use Rattle.krb_service.specs.declared.keytab_service.refusal.KeytabServiceRefusal.TheVariants.{Memory};

use crate::keytab_service::choosing::receive;
use crate::keytab_service::entries::{has_entry, own_entries};
use crate::keytab_service::refusal::KeytabServiceRefusal;
use crate::{Admission, Admitter, KeytabEntry, ReplyFields, Seen, admit_once_with};
use krb_ap_requests::{AdmitRefusal, Presented};
use krb_file_formats::Keytab;
use krb_realm_accounts::{SKEW_LIMIT, are_components, components_of, is_realm_name, realm_name_of};
use krb_time::Moment;
use picky_asn1::wrapper::GeneralStringAsn1;
use std::alloc::Global;
use std::marker::Model;

/// A service whose keys are those of a keytab: its realm and name, its entries in their order, and what it has seen under whatever entry. A
/// contract sees the four. Realm and name are names, there is an entry, each key has as many bytes as its suite's keys, and each kvno is 1
/// or more.
#[derive(Drop)]
pub struct KeytabService {
    realm: GeneralStringAsn1,
    components: Vec<GeneralStringAsn1>,
    entries: Vec<KeytabEntry>,
    seen: Seen,
}

impl Model for KeytabService {
    ghost use Rattle.krb_service.specs.KeytabService.{AreOwnEntries, KeytabServiceRecord};

    ghost Value = { KeytabServiceRecord };

    ghost view = { λ s. record { realm = s.realm; components = s.components.items; entries = s.entries.items; seen = s.seen } };

    ghost invariant = { λ s. AreOwnEntries s.realm s.components.items s.entries.items };
}

impl KeytabService {
    /// A service of this realm and this name, with its keys in a keytab. The skew is in seconds.
    ///
    /// It is refused, in this order: `BadName` for what are no names of a realm and of a principal; `BadSetting` for a skew of more than a
    /// day; `NoKey` where the keytab has no key of the service.
    pub fn new(
        alloc: Global,
        realm: &[u8],
        name: &[Vec<u8>],
        keytab: &Keytab,
        skew: u64,
    ) -> Result<KeytabService, KeytabServiceRefusal>
        ensures made { MatchResult result
            (λ service. (making realm.now (parts name.now) keytab.now skew ≡ Ok tt)
            × (service ≡ made realm.now (parts name.now) keytab.now skew))
            (λ refusal. (refusal ≡ Memory) ⊎ (making realm.now (parts name.now) keytab.now skew ≡ Err refusal)) }

        // Running out of memory hides no other refusal.
        ensures first { (refusal : KeytabServiceRefusal) → making realm.now (parts name.now) keytab.now skew ≡ Err refusal → result ≡ Err refusal }
    {
        if !is_realm_name(realm) || !are_components(name) {
            return Err(KeytabServiceRefusal::BadName);
        }
        if SKEW_LIMIT < skew {
            return Err(KeytabServiceRefusal::BadSetting);
        }
        if !has_entry(realm, name, keytab) {
            return Err(KeytabServiceRefusal::NoKey);
        }
        let Ok(realm) = realm_name_of(alloc, realm) else {
            return Err(KeytabServiceRefusal::Memory);
        };
        let Ok(components) = components_of(alloc, name) else {
            return Err(KeytabServiceRefusal::Memory);
        };
        let entries = own_entries(alloc, &realm, &components, keytab)?;
        Ok(KeytabService {
            realm,
            components,
            entries,
            seen: Seen::new(alloc, skew),
        })
    }

    /// Takes the service's keys in another keytab in place of those that it has. The replay cache stays: what was admitted under a key that
    /// is gone isn't admitted again.
    ///
    /// A keytab without a key of the service is refused (`NoKey`). What is refused changes nothing.
    pub fn replace_keys(
        &mut self,
        alloc: Global,
        keytab: &Keytab,
    ) -> Result<(), KeytabServiceRefusal>
        ensures replaced { OnOk result (self.new ≡ record self.old { entries = entries_of self.old.realm self.old.components keytab.now }) }
        ensures kept { OnErr result (self.new ≡ self.old) }
        ensures refused { MatchResult result
            (λ _. giving (entries_of self.old.realm self.old.components keytab.now) ≡ Ok tt)
            (λ refusal. (refusal ≡ Memory) ⊎ (giving (entries_of self.old.realm self.old.components keytab.now) ≡ Err refusal)) }

        // Running out of memory hides no other refusal.
        ensures first { (refusal : KeytabServiceRefusal) → giving (entries_of self.old.realm self.old.components keytab.now) ≡ Err refusal → result ≡ Err refusal }
    {
        let entries = own_entries(alloc, &self.realm, &self.components, keytab)?;
        self.entries = entries;
        Ok(())
    }

    /// The service's realm and name are names, and so on, as the struct's comment says, and its skew is whole seconds. It does nothing when it
    /// runs: its contract states this of a service that a caller was handed.
    pub fn is_well_formed(&self)
        ensures { IsKeytabService self.now }
    {
        let _skew = self.seen.skew();
    }

    /// What the service holds is the window of a list of admitted pairs: of those that it holds. It does nothing when it
    /// runs: its contract states this of a service that a caller was handed.
    pub fn holds_window(&self)
        ensures { IsWindow self.now.seen self.now.seen.held }
    {
        self.seen.holds_window()
    }

    /// Admits an AP request at a moment, or refuses it (RFC 4120, section 3.2.3), by the entry that has its ticket's kvno and etype. The
    /// greatest moment that was ever handed in judges it. `words`: random bytes, of which the first 16 count, where a reply is asked for.
    ///
    /// A refused call records nothing. Where memory runs out the request may come again.
    pub fn admit(
        &mut self,
        alloc: Global,
        message: &[u8],
        moment: Moment,
        words: &[u8],
    ) -> Result<Admission, AdmitRefusal>
        requires { AreEnoughForApReply words.now }
        ensures greatest { self.new.seen.greatest ≡ max self.old.seen.greatest moment }
        ensures skew { self.new.seen.skew ≡ self.old.seen.skew }
        ensures rest { self.new ≡ record self.old { seen = self.new.seen } }
        ensures remembers { (admitted : List PairRecord) → IsWindow self.old.seen admitted
            → IsStep (remembering_by_keytab self.old (max self.old.seen.greatest moment) admitted message.now words.now).gives admitted result self.new.seen }
    {
        self.admit_with(alloc, message, moment, ReplyFields::TimeAlone, words)
    }

    /// Admits an AP request as [`KeytabService::admit`] does, with these fields in the AP-REP. `words`: random bytes, of which the first 16
    /// count; with a subkey and a number 64: 16 to 19 are the number's, and 32 to 63 the subkey's seed.
    pub fn admit_with(
        &mut self,
        alloc: Global,
        message: &[u8],
        moment: Moment,
        fields: ReplyFields,
        words: &[u8],
    ) -> Result<Admission, AdmitRefusal>
        requires { random_size fields ≤ length words.now }
        ensures greatest { self.new.seen.greatest ≡ max self.old.seen.greatest moment }
        ensures skew { self.new.seen.skew ≡ self.old.seen.skew }
        ensures rest { self.new ≡ record self.old { seen = self.new.seen } }
        ensures remembers { (admitted : List PairRecord) → IsWindow self.old.seen admitted
            → IsStep (remembering_by_keytab_with fields self.old (max self.old.seen.greatest moment) admitted message.now words.now).gives admitted result self.new.seen }
    {
        self.seen.raise(moment);
        let now = self.seen.greatest();
        let skew = self.seen.skew();
        let presented = receive(alloc, self.entries.as_slice(), skew, now, message)?;
        admit_once_with(&mut self.seen, alloc, now, presented, fields, words)
    }

    /// Admits an AP request as [`KeytabService::admit_with`] does, with an AP-REP also where the request asks for none: the client of a
    /// password change expects one (RFC 3244, section 2).
    pub fn admit_replying(
        &mut self,
        alloc: Global,
        message: &[u8],
        moment: Moment,
        fields: ReplyFields,
        words: &[u8],
    ) -> Result<Admission, AdmitRefusal>
        requires { random_size fields ≤ length words.now }
        ensures greatest { self.new.seen.greatest ≡ max self.old.seen.greatest moment }
        ensures skew { self.new.seen.skew ≡ self.old.seen.skew }
        ensures rest { self.new ≡ record self.old { seen = self.new.seen } }
        ensures remembers { (admitted : List PairRecord) → IsWindow self.old.seen admitted
            → IsStep (remembering_unasked fields self.old (max self.old.seen.greatest moment) admitted message.now words.now).gives admitted result self.new.seen }
        ensures replied { IfOk result (λ admission. IsSome admission.reply) }
    {
        self.seen.raise(moment);
        self.seen.holds_window();
        let now = self.seen.greatest();
        let skew = self.seen.skew();
        let presented = receive(alloc, self.entries.as_slice(), skew, now, message)?;
        let asked = asking(presented);
        admit_once_with(&mut self.seen, alloc, now, asked, fields, words)
    }

    /// How many pairs of a client and a time the replay cache holds, under whatever entry they were admitted: of those that were admitted the
    /// ones that lie no further back than the skew, each counted once. It takes no memory.
    pub fn kept(&self) -> usize
        ensures { (admitted : List PairRecord) → IsWindow self.now.seen admitted →
            result ≡ distinct_count is_same_pair (filter (is_recent self.now.seen.skew self.now.seen.greatest) admitted) }
    {
        self.seen.kept()
    }
}

// What was presented, as where the request asks for an AP-REP.
fn asking(presented: Presented) -> Presented
    ensures { result ≡ asking presented }
{
    let mut asked = presented;
    asked.wants_reply = true;
    asked
}

impl Admitter for KeytabService {
    ghost as_keytab = { λ service. service };

    fn clock_skew(&self) -> u64 {
        self.seen.skew()
    }

    fn admit_request(
        &mut self,
        alloc: Global,
        message: &[u8],
        moment: Moment,
        fields: ReplyFields,
        words: &[u8],
    ) -> Result<Admission, AdmitRefusal> {
        self.admit_with(alloc, message, moment, fields, words)
    }
}
