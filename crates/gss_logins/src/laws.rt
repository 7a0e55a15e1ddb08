//! The laws of both ends of a context. Each is a function that does nothing when it runs: its contract is the law.
ghost use Rattle.std.specs.Prelude.{◌≡◌, ◌<◌, List, ℕ, length, Ok, Result, true};
ghost use Rattle.krb_client.specs.Client.{ClientRecord, CredentialRecord};
ghost use Rattle.krb_kdc_exchanges.specs.declared.span.Span.{Span};
ghost use Rattle.krb_service.specs.Pair.{PairRecord};
ghost use Rattle.krb_service.specs.Seen.{IsWindow};
ghost use Rattle.krb_service.specs.Service.{ServiceRecord};
ghost use Rattle.krb_logins.specs.Held.{IsFirstSpan, IsFurtherSpan, IsHeld, further_grant};
ghost use Rattle.krb_logins.specs.Laws.{IsMet};
ghost use Rattle.krb_logins.specs.LoginRun.{Exchanges};
ghost use Rattle.krb_logins.specs.Parties.{LoginRecord, RealmRecord, RememberedRecord};
ghost use Rattle.krb_authenticity.specs.Ciphertexts.{IsRealmUnforged};
ghost use Rattle.krb_authenticity.specs.Parties.{ExchangeRecord, IsClient, IsServiceSent, SentRecord, service_request_of};
ghost use Rattle.gss_acceptor.specs.Accepting.{AcceptorRecord, Establishes, Handles, Step, Takes, carried};
ghost use Rattle.gss_acceptor.specs.Established.{EstablishedRecord};
ghost use Rattle.gss_acceptor.specs.declared.accepted.Accepted.{Accepted};
ghost use Rattle.gss_acceptor.specs.declared.accepted.Accepted.TheVariants.{Established};
ghost use Rattle.gss_acceptor.specs.declared.checksum.InitialChecksum.{InitialChecksum};
ghost use Rattle.gss_acceptor.specs.declared.terms.AcceptorTerms.{AcceptorTerms};
ghost use Rattle.gss_contexts.specs.Contexts.{ContextRecord, is_newer, last_number, peer, sender_of};
ghost use Rattle.gss_contexts.specs.Judging.{TakesMic, TakesWrap};
ghost use Rattle.gss_contexts.specs.Tokens.{WritesMic, WritesWrap};
ghost use Rattle.gss_contexts.specs.declared.side.Protection.{Protection};
ghost use Rattle.gss_initiator.specs.Initiating.{InitiatedRecord, Initiates};
ghost use Rattle.gss_initiator.specs.declared.initiated.TokenForm.TheVariants.{Bare, Negotiated};
ghost use Rattle.gss_initiator.specs.declared.refusal.InitiateRefusal.{InitiateRefusal};
ghost use Rattle.gss_initiator.specs.Checksums.{is_mutual};
ghost use Rattle.gss_initiator.specs.Requests.{AsksContext};
ghost use Rattle.gss_initiator.specs.Taking as taking;
ghost use Rattle.gss_initiator.specs.Taking.{TakenRecord};
ghost use Rattle.gss_initiator.specs.declared.initiated.Pending.{Pending};
ghost use Rattle.gss_logins.specs.AnsweredEnds.{IsAnswerUnforged, IsAnsweredEnd};
ghost use Rattle.gss_logins.specs.Carried.{Carries, IsAskedContext, IsAuthenticAfter, IsAuthenticContext, IsMessageUnforged, IsToAdmit, IsToVerify};
ghost use Rattle.gss_initiator.specs.Delegating.{HandsOn};
ghost use Rattle.gss_logins.specs.Delegations.{CanDelegate, IsHandedOut};
ghost use Rattle.gss_logins.specs.Granted.{IsContextAsked, IsHonestGssLogin, IsRemembered, gss_login_of};
ghost use Rattle.gss_logins.specs.GssLogins.{GssLogin};
ghost use Rattle.gss_logins.specs.Honest.{IsAnswering, IsHonest};
ghost use Rattle.krb_authenticity.specs.Among.{IsAmong};
ghost use Rattle.gss_logins.specs.WrittenTokens.{IsMicMade, IsMicUnforged, IsMicWritten, IsWrapUnforged, IsWrapWritten, IsWrapped, MicRecord, WrapRecord};
ghost use Rattle.gss_logins.specs.OneContext.{AreEnds, EndsInOneContext, IsMessageTaken, IsMicTaken};

use gss_acceptor::laws::established_as_presented;
use gss_contexts::laws::{mic_is_taken, unwraps_to_its_message, wrap_is_taken};
use krb_authenticity::laws::presented_was_authenticated;
use krb_client::Means;
use krb_kdc_exchanges::Pkinit;

/// An honest login whose first token is bare ends with two ends of one context, with the flags and channel bindings that the client chose,
/// or memory runs out.
pub fn one_context()
    ensures { (login : GssLogin) (result : Result InitiatedRecord InitiateRefusal) → IsHonest login
        → Initiates login.client login.credential login.initial Bare login.client_at login.words result → EndsInOneContext login result }
{}

/// An honest login whose first token is one of SPNEGO, which offers Kerberos alone, ends so too.
pub fn one_negotiated_context()
    ensures { (login : GssLogin) (result : Result InitiatedRecord InitiateRefusal) → IsHonest login
        → Initiates login.client login.credential login.initial Negotiated login.client_at login.words result → EndsInOneContext login result }
{}

/// What an initiator delegates is what the acceptor has of it: the acceptor reads the bindings and the flags, with that of delegation, and
/// hands out the ticket and what the initiator told of it. Both have one session key.
pub fn delegated_is_handed_out()
    ensures { (client : ClientRecord) (credential forwarded : CredentialRecord) (initial : InitialChecksum) (words deleg : List ℕ)
        → CanDelegate client credential forwarded initial → HandsOn client credential forwarded words deleg → length deleg < 65536
        → IsHandedOut client credential forwarded initial deleg }
{}

/// What an honest login grants its client makes a login by GSS honest, whatever the client asks for that is offered. So the laws
/// `one_context` and `one_negotiated_context` hold of it.
pub fn granted_is_honest()
    ensures { (client : ClientRecord) (realm : RealmRecord) (service : ServiceRecord) (terms : AcceptorTerms) (before : RememberedRecord) (login : LoginRecord) (initial : InitialChecksum) (words : List ℕ)
        (is : IsHonestGssLogin client realm service terms before login initial words) (first span : Span) (credential : CredentialRecord) → IsFirstSpan realm login first → IsFurtherSpan realm login first span
        → IsHeld is.honest.service.account login.realm_words_tgs (further_grant client realm login first span) credential
        → IsHonest (gss_login_of client credential initial words service terms before login) }
{}

/// So does the credential that the AS and TGS exchanges of an honest login make, by whatever means the client authenticates itself.
pub fn exchanged_is_honest<M: Means, P: Pkinit>(means: &M, pkinit: &P)
    ensures { (client : ClientRecord) (realm : RealmRecord) (service : ServiceRecord) (terms : AcceptorTerms) (before : RememberedRecord) (login : LoginRecord) (initial : InitialChecksum) (words : List ℕ) (credential : CredentialRecord)
        → IsMet client (M.means means.now) realm (P.rows pkinit.now) service before login → IsContextAsked client initial words → IsRemembered service before
        → IsAnswering terms initial login.service_words → Exchanges client (M.means means.now) realm (P.rows pkinit.now) login (Ok credential) → IsHonest (gss_login_of client credential initial words service terms before login) }
{}

/// What one of two ends wraps the other unwraps to the same message, and a MIC that one makes the other takes. Then they are two ends
/// still, so this holds for every message that follows in either direction, as long as the numbers go up.
pub fn one_conversation()
    ensures swapped { (one other : ContextRecord) → AreEnds one other → AreEnds other one }
    ensures wraps { (one other : ContextRecord) (protection : Protection) (confounder message token : List ℕ) → AreEnds one other → one.sending < last_number
        → WritesWrap (sender_of one) one.sending protection confounder message token → IsMessageTaken one other protection message token }
    ensures mics { (one other : ContextRecord) (message token : List ℕ) → AreEnds one other → one.sending < last_number
        → WritesMic (sender_of one) one.sending message token → IsMicTaken one other message token }
{
    wrap_is_taken();
    unwraps_to_its_message();
    mic_is_taken();
}

/// What an initiator sends is a request of the client, as the laws of `krb_authenticity` take it.
pub fn context_request_is_sent()
    ensures { (client : ClientRecord) (credential : CredentialRecord) (initial : InitialChecksum) (moment : ℕ) (words bytes : List ℕ) → IsClient client
        → (asks : AsksContext client credential initial moment words bytes)
        → IsServiceSent (service_request_of client credential (is_mutual initial.flags) moment words bytes asks.authenticator) }
{}

/// Where no ciphertext was forged, whoever gets a context of an acceptor the realm had authenticated: by a first token, by any AP-REQ that
/// is admitted, also one that waits for its initiator's MIC, and after the MIC was verified.
pub fn established_was_authenticated<P: Pkinit>(pkinit: &P)
    ensures first { (keys : List (List ℕ)) (exchanges : List ExchangeRecord) (sent : SentRecord) (acceptor after : AcceptorRecord) (moment : ℕ) (token random : List ℕ) (admitted : List PairRecord)
        (established : EstablishedRecord) → IsRealmUnforged (P.rows pkinit.now) keys exchanges sent
        → ((message : List ℕ) → Carries token message → IsMessageUnforged (P.rows pkinit.now) keys exchanges sent acceptor message)
        → IsWindow acceptor.service.seen admitted → Handles (carried token) acceptor moment random (Ok (Established established)) after
        → IsAuthenticContext (P.rows pkinit.now) keys exchanges sent established }
    ensures admitted { (keys : List (List ℕ)) (exchanges : List ExchangeRecord) (sent : SentRecord) (acceptor after : AcceptorRecord) (moment : ℕ) (message random : List ℕ)
        (step : Step) (admitted : List PairRecord) (accepted : Accepted) → IsRealmUnforged (P.rows pkinit.now) keys exchanges sent
        → IsMessageUnforged (P.rows pkinit.now) keys exchanges sent acceptor message → IsWindow acceptor.service.seen admitted
        → IsToAdmit message step → Takes step acceptor moment random (Ok accepted) after → IsAuthenticAfter (P.rows pkinit.now) keys exchanges sent accepted }
    ensures verified { (keys : List (List ℕ)) (exchanges : List ExchangeRecord) (sent : SentRecord) (acceptor after : AcceptorRecord) (moment : ℕ) (random : List ℕ)
        (step : Step) (established : EstablishedRecord) (accepted : Accepted) → IsAuthenticContext (P.rows pkinit.now) keys exchanges sent established
        → IsToVerify established step → Takes step acceptor moment random (Ok accepted) after → IsAuthenticAfter (P.rows pkinit.now) keys exchanges sent accepted }
{
    established_as_presented();
    presented_was_authenticated(pkinit);
}

/// Where no ciphertext was forged, an acceptor makes its context of an admission whose client the realm had authenticated. If the session key
/// is one of the run's, the client itself asked: the flags, the channel bindings, the subkey and the first number are those of its request.
pub fn context_was_asked<P: Pkinit>(pkinit: &P)
    ensures { (keys : List (List ℕ)) (exchanges : List ExchangeRecord) (sent : SentRecord) (acceptor after : AcceptorRecord) (moment : ℕ) (message random : List ℕ) (admitted : List PairRecord)
        (established : EstablishedRecord) → IsRealmUnforged (P.rows pkinit.now) keys exchanges sent
        → IsMessageUnforged (P.rows pkinit.now) keys exchanges sent acceptor message → IsWindow acceptor.service.seen admitted
        → Establishes acceptor moment message random (Ok established) after → IsAskedContext (P.rows pkinit.now) keys exchanges sent acceptor message random established }
{}

/// Where no ciphertext was forged, an initiator that asked for mutual authentication has its end by the AP-REP of a service. This service
/// opened the ticket, and admitted a request of the initiator's session and time (RFC 4121, section 4.1; RFC 4120, section 3.2.5).
pub fn end_was_answered<P: Pkinit>(pkinit: &P)
    ensures { (keys : List (List ℕ)) (exchanges : List ExchangeRecord) (sent : SentRecord) (pending : Pending) (answer : List ℕ) (taken : TakenRecord)
        → IsAnswerUnforged (P.rows pkinit.now) keys exchanges sent pending answer → taking.Takes pending answer (Ok taken) → IsAnsweredEnd sent pending taken.context }
{}

/// Where no one made what protects a message but the ends of the key, what an end unwraps an end on the other side wrapped, with this number
/// and protection, and it made a MIC that this end verifies (RFC 4121, section 4.2.6). The premise holds of tokens that come as they were
/// written (`written_wraps`, `written_mics`).
pub fn unwrapped_was_wrapped()
    ensures wraps { (wraps : List WrapRecord) (end after : ContextRecord) (token : List ℕ) (number : ℕ) (protection : Protection) (message : List ℕ) → is_newer end.key.suite ≡ true
        → IsWrapUnforged wraps (peer end) token → TakesWrap end after token number protection message → IsWrapped wraps (peer end) number protection message }
    ensures mics { (mics : List MicRecord) (end after : ContextRecord) (message token : List ℕ) → IsMicUnforged mics (peer end) message token
        → (takes : TakesMic end after message token) → IsMicMade mics (peer end) takes.number message }
    ensures written_wraps { (wraps : List WrapRecord) (wrap : WrapRecord) → IsAmong wrap wraps → IsWrapWritten wrap → IsWrapUnforged wraps wrap.sender wrap.token }
    ensures written_mics { (mics : List MicRecord) (mic : MicRecord) → IsAmong mic mics → IsMicWritten mic → IsMicUnforged mics mic.sender mic.message mic.token }
{}
