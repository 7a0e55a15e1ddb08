//! The laws of established contexts.
ghost use Rattle.std.specs.Prelude.{◌≡◌, ◌≤◌, ◌+◌, ℕ, List, length, Option, Result, Ok, true};
ghost use Rattle.krb_ap_requests.specs.Presents.{Choice};
ghost use Rattle.krb_ap_requests.specs.declared.refusal.AdmitRefusal.{AdmitRefusal};
ghost use Rattle.krb_service.specs.Admission.{AdmissionRecord};
ghost use Rattle.krb_service.specs.ChosenEntry.{IsPresentedTo};
ghost use Rattle.krb_service.specs.OnceForEver.{AreOnce};
ghost use Rattle.krb_service.specs.Pair.{PairRecord};
ghost use Rattle.krb_service.specs.Runs.{AdmissionCall, IsRun};
ghost use Rattle.krb_service.specs.Seen.{IsWindow};
ghost use Rattle.gss_acceptor.specs.Accepting.{AcceptorRecord, AdmitRequest, Handles, Takes, VerifyMic, carried, resumed};
ghost use Rattle.gss_acceptor.specs.AcceptorRuns.{AreCallsOf, AreTaken, TakenStep, contexts_in};
ghost use Rattle.gss_acceptor.specs.Chosen.{IsChosen, IsChosenAfter};
ghost use Rattle.gss_acceptor.specs.Due.{IsDue, IsDueAfter};
ghost use Rattle.gss_acceptor.specs.Established.{EstablishedRecord};
ghost use Rattle.gss_acceptor.specs.Negotiation.{offered};
ghost use Rattle.gss_acceptor.specs.Tokens.{IsApReqToken};
ghost use Rattle.gss_acceptor.specs.declared.accepted.Accepted.{Accepted};
ghost use Rattle.gss_acceptor.specs.declared.accepted.Accepted.TheVariants.{Established};
ghost use Rattle.gss_acceptor.specs.declared.accepted.Negotiation.{Negotiation};
ghost use Rattle.gss_acceptor.specs.declared.exchange.Exchange.{Exchange};
ghost use Rattle.gss_acceptor.specs.declared.exchange.Unverified.{Unverified};
ghost use Rattle.gss_acceptor.specs.declared.negotiation.Offer.{Offer};

/// The token of an established context holds an AP-REQ that a client presented, sealed under the session key and the key of the service's
/// entry that judges it. The context has what the client chose: its name, its ticket's times and flags, the flags and bindings, and the
/// sequence number. Its key is the client's, or the acceptor's subkey of the session key's suite. So has a context that waits for its
/// initiator's MIC, and what is handed out when the MIC was verified. It does nothing when it runs: its contract is the law.
pub fn established_as_presented()
    ensures first { (acceptor after : AcceptorRecord) (moment : ℕ) (token random : List ℕ) (admitted : List PairRecord) (established : EstablishedRecord)
        → IsWindow acceptor.service.seen admitted → Handles (carried token) acceptor moment random (Ok (Established established)) after
        → (message : List ℕ) × (exchange : Option Exchange) × (carried token).gives (Ok (AdmitRequest message exchange))
        × (choice : Choice) × IsPresentedTo acceptor.service.entries choice message × IsChosen choice established }
    ensures admitted { (acceptor after : AcceptorRecord) (moment : ℕ) (message random : List ℕ) (exchange : Option Exchange) (admitted : List PairRecord) (accepted : Accepted)
        → IsWindow acceptor.service.seen admitted → Takes (AdmitRequest message exchange) acceptor moment random (Ok accepted) after
        → (choice : Choice) × IsPresentedTo acceptor.service.entries choice message × IsChosenAfter choice accepted }
    ensures verified { (acceptor after : AcceptorRecord) (moment : ℕ) (theirs random : List ℕ) (unverified : Unverified) (choice : Choice) (accepted : Accepted)
        → IsChosen choice unverified.established → Takes (VerifyMic unverified theirs) acceptor moment random (Ok accepted) after
        → IsChosenAfter choice accepted }
{}

/// If Kerberos isn't the first mechanism that SPNEGO offers, no context is handed out before a MIC of the whole list
/// was verified, as the initiator makes it under the context's key. Who changes the list on its way needs that key. It
/// does nothing.
pub fn established_under_mic()
    ensures first { (acceptor after : AcceptorRecord) (moment : ℕ) (token random : List ℕ) (offer : Offer) (accepted : Accepted)
        → ((message : List ℕ) → IsApReqToken token message → ⊥) → (offered token).gives (Ok offer) → offer.terms.required ≡ true
        → Handles (carried token) acceptor moment random (Ok accepted) after → IsDueAfter offer.terms.list accepted }
    ensures later { (acceptor after : AcceptorRecord) (moment : ℕ) (token list random : List ℕ) (negotiation : Negotiation) (accepted : Accepted)
        → IsDue list negotiation.stage → Handles (resumed negotiation token) acceptor moment random (Ok accepted) after
        → IsDueAfter list accepted }
{}

/// The steps of an acceptor are a run of its service, with any entries at each step. Each AP-REQ is one call, and a context begins only if
/// that is admitted. So over any list of steps no client begins two contexts with one authenticator time, also where keys were replaced
/// between them. It does nothing when it runs: its contract is the law.
pub fn once_for_ever()
    ensures run { (acceptor after : AcceptorRecord) (steps : List TakenStep) (admitted : List PairRecord)
        → IsWindow acceptor.service.seen admitted → AreTaken acceptor steps after
        → (calls : List AdmissionCall) × (answers : List (Result AdmissionRecord AdmitRefusal)) × (all : List PairRecord)
        × IsRun acceptor.service.seen.skew acceptor.service.seen.greatest admitted calls answers all
        × IsWindow after.service.seen all × AreCallsOf steps calls answers }
    ensures once { (acceptor after : AcceptorRecord) (steps : List TakenStep) (admitted : List PairRecord)
        → IsWindow acceptor.service.seen admitted → AreOnce admitted → AreTaken acceptor steps after
        → (all : List PairRecord) × IsWindow after.service.seen all × AreOnce all × (contexts_in steps + length admitted ≤ length all) }
{}
