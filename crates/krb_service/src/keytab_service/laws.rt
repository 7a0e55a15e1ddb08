//! What holds of every service of a keytab.
ghost use Rattle.std.specs.Prelude.{◌≡◌, ◌≤◌, ◌++◌, ℕ, true, false, List, [], ◌∷◌, Option, Result, Ok, Err, length, ◌↔◌};
ghost use Rattle.krb_messages.specs.RandomBytes.{AreEnoughForApReply};
ghost use Rattle.block_ciphers.specs.Bytes.{IsBytes};
ghost use Rattle.decision_tables.specs.Some.{HasSome};
ghost use Rattle.krb_messages.specs.Messages.{IsApReq};
ghost use Rattle.krb_messages.specs.declared.messages.ap_req.ApReqInner.{ApReqInner};
ghost use Rattle.krb_ap_requests.specs.ApTable.{enc_part_in};
ghost use Rattle.krb_ap_requests.specs.Entry.{EntryRecord};
ghost use Rattle.krb_ap_requests.specs.Presents.{Choice, Presents};
ghost use Rattle.krb_ap_requests.specs.declared.refusal.AdmitRefusal.{AdmitRefusal};
ghost use Rattle.krb_ap_requests.specs.declared.refusal.AdmitRefusal.TheVariants.{Krb};
ghost use Rattle.krb_service.specs.Admission.{AdmissionRecord, TellsOf};
ghost use Rattle.krb_service.specs.Pair.{PairRecord};
ghost use Rattle.krb_service.specs.RememberingService.{IsStep, Outcome, remembering, remembering_by, remembering_with};
ghost use Rattle.krb_service.specs.Seen.{SeenRecord};
ghost use Rattle.krb_service.specs.Service.{ServiceRecord};
ghost use Rattle.krb_service.specs.declared.reply.ReplyFields.{ReplyFields};
ghost use Rattle.krb_service.specs.ChosenEntry.{IsOtherwiseFor, IsPresentedTo, is_fitted, is_fitting, unfit_code_of};
ghost use Rattle.krb_service.specs.KeytabRuns.{AnswerAlike, JudgesOf};
ghost use Rattle.krb_service.specs.KeytabService.{AreOwnEntries, KeytabServiceRecord, keytab_service_of, remembering_by_keytab, remembering_by_keytab_with, service_for};
ghost use Rattle.krb_service.specs.Unasked.{IsRepliedTo, remembering_unasked};

/// The outcomes of a request are those of the service of one key that has the entry by which the request is judged. So what holds of every
/// service of one key (`crate::laws`) holds of it. It does nothing when it runs: its contract is the law.
pub fn as_one_key()
    ensures { (service : KeytabServiceRecord) (moment : ℕ) (admitted : List PairRecord) (bytes words : List ℕ) (request : ApReqInner) (outcome : Outcome)
        → IsApReq bytes request
        → (remembering_by_keytab service moment admitted bytes words).gives outcome
        ↔ (remembering (service_for service request) moment admitted bytes words).gives outcome }
{}

/// What is admitted was presented under the key of the entry by which it is judged, and the admission has the client and the keys as they
/// were chosen. It does nothing when it runs: its contract is the law.
pub fn admitted_as_presented()
    ensures { (service : KeytabServiceRecord) (moment : ℕ) (admitted : List PairRecord) (bytes words : List ℕ) (admission : AdmissionRecord) (after : List PairRecord)
        → (remembering_by_keytab service moment admitted bytes words).gives (Ok admission, after)
        → (choice : Choice) × IsPresentedTo service.entries choice bytes × TellsOf choice admission }
{}

/// A service has one answer at most to a call, and one list of admitted pairs after it. It does nothing when it runs:
/// its contract is the law.
pub fn one_outcome()
    ensures { (service : KeytabServiceRecord) (moment : ℕ) (admitted : List PairRecord) (bytes words : List ℕ) (a b : Outcome)
        → (remembering_by_keytab service moment admitted bytes words).gives a → (remembering_by_keytab service moment admitted bytes words).gives b → a ≡ b }
{}

/// Each call has an outcome: it can't be that the service's table gives nothing. It does nothing when it runs: its
/// contract is the law.
pub fn has_outcome()
    ensures { (service : KeytabServiceRecord) (moment : ℕ) (admitted : List PairRecord) (bytes words : List ℕ)
        → AreEnoughForApReply words → IsBytes words → HasSome (remembering_by_keytab service moment admitted bytes words).gives }
{}

/// A call is one of a run, with whatever entries the service then has: it is by some entry, and by each that judges the bytes. So over any
/// list of calls no client is admitted twice with one authenticator time (laws `run_goes_on`, `once_for_ever` of `crate::laws`). It does
/// nothing when it runs: its contract is the law.
pub fn calls_of_runs()
    ensures some { (service : KeytabServiceRecord) (fields : ReplyFields) (moment : ℕ) (admitted : List PairRecord) (bytes words : List ℕ)
        (answer : Result AdmissionRecord AdmitRefusal) (seen : SeenRecord)
        → IsStep (remembering_by_keytab_with fields service moment admitted bytes words).gives admitted answer seen
        → (entry : EntryRecord) × IsStep (remembering_by entry service.seen.skew fields moment admitted bytes words).gives admitted answer seen }
    ensures each { (service : KeytabServiceRecord) (fields : ReplyFields) (moment : ℕ) (admitted : List PairRecord) (bytes words : List ℕ)
        (answer : Result AdmissionRecord AdmitRefusal) (seen : SeenRecord) (entry : EntryRecord) → JudgesOf service.entries bytes entry
        → IsStep (remembering_by_keytab_with fields service moment admitted bytes words).gives admitted answer seen
        → IsStep (remembering_by entry service.seen.skew fields moment admitted bytes words).gives admitted answer seen }
{}

/// A service of one key answers as one of a keytab that has its entry alone, and the same bytes are presented to both. It does nothing when
/// it runs: its contract is the law.
pub fn sole_entry()
    ensures answers { (service : ServiceRecord) (fields : ReplyFields) (moment : ℕ) (admitted : List PairRecord) (bytes words : List ℕ) (outcome : Outcome)
        → (remembering_by_keytab_with fields (keytab_service_of service) moment admitted bytes words).gives outcome
        ↔ (remembering_with fields service moment admitted bytes words).gives outcome }
    ensures presents { (entry : EntryRecord) (choice : Choice) (bytes : List ℕ)
        → IsPresentedTo (entry ∷ []) choice bytes ↔ Presents entry.key choice bytes }
{}

/// An entry that is added or taken away changes no answer to a request whose ticket an entry before it fits, nor to one whose ticket it
/// doesn't fit, if another does. It does nothing when it runs: its contract is the law.
pub fn other_entries_alone()
    ensures earlier { (service : KeytabServiceRecord) (before behind : List EntryRecord) (entry : EntryRecord) (bytes : List ℕ) (request : ApReqInner)
        → IsApReq bytes request → is_fitted before (enc_part_in request) ≡ true
        → AnswerAlike service (before ++ entry ∷ behind) (before ++ behind) bytes }
    ensures unfit { (service : KeytabServiceRecord) (before behind : List EntryRecord) (entry : EntryRecord) (bytes : List ℕ) (request : ApReqInner)
        → IsApReq bytes request → is_fitting (enc_part_in request) entry ≡ false → is_fitted (before ++ behind) (enc_part_in request) ≡ true
        → AnswerAlike service (before ++ entry ∷ behind) (before ++ behind) bytes }
{}

/// A request whose ticket no entry fits isn't admitted. If it is else one for this service, the refusal is KRB_AP_ERR_NOKEY where some entry
/// has the ticket's kvno, and KRB_AP_ERR_BADKEYVER where none has it, in whatever order the entries are. It does nothing when it runs: its
/// contract is the law.
pub fn unfit_is_refused()
    ensures never { (service : KeytabServiceRecord) (moment : ℕ) (admitted : List PairRecord) (bytes words : List ℕ) (request : ApReqInner)
        (admission : AdmissionRecord) (after : List PairRecord)
        → IsApReq bytes request → 1 ≤ length service.entries → is_fitted service.entries (enc_part_in request) ≡ false
        → (remembering_by_keytab service moment admitted bytes words).gives (Ok admission, after) → ⊥ }
    ensures code { (service : KeytabServiceRecord) (moment : ℕ) (admitted : List PairRecord) (bytes words : List ℕ) (request : ApReqInner)
        → IsApReq bytes request → AreOwnEntries service.realm service.components service.entries
        → IsOtherwiseFor service.realm service.components request → is_fitted service.entries (enc_part_in request) ≡ false
        → (remembering_by_keytab service moment admitted bytes words).gives (Err (Krb (unfit_code_of service.entries (enc_part_in request))), admitted) }
{}

/// What is admitted with an AP-REP in any case (`remembering_unasked`) is admitted by `remembering_by_keytab_with` too. The admissions differ in
/// the AP-REP alone. What is refused is refused too. So each call is one of a run. What is admitted was presented, and its AP-REP has these
/// fields. It does nothing when it runs: its contract is the law.
pub fn unasked_as_asked()
    ensures admits { (service : KeytabServiceRecord) (fields : ReplyFields) (moment : ℕ) (admitted : List PairRecord) (bytes words : List ℕ)
        (admission : AdmissionRecord) (after : List PairRecord)
        → (remembering_unasked fields service moment admitted bytes words).gives (Ok admission, after)
        → (reply : Option (List ℕ))
        × (remembering_by_keytab_with fields service moment admitted bytes words).gives (Ok (record admission { reply = reply }), after) }
    ensures refuses { (service : KeytabServiceRecord) (fields : ReplyFields) (moment : ℕ) (admitted : List PairRecord) (bytes words : List ℕ)
        (refusal : AdmitRefusal) (after : List PairRecord)
        → (remembering_unasked fields service moment admitted bytes words).gives (Err refusal, after)
        → (remembering_by_keytab_with fields service moment admitted bytes words).gives (Err refusal, after) }
    ensures replies { (service : KeytabServiceRecord) (fields : ReplyFields) (moment : ℕ) (admitted : List PairRecord) (bytes words : List ℕ)
        (admission : AdmissionRecord) (after : List PairRecord)
        → (remembering_unasked fields service moment admitted bytes words).gives (Ok admission, after)
        → (choice : Choice) × IsPresentedTo service.entries choice bytes × TellsOf choice admission × IsRepliedTo fields words choice admission }
{}
