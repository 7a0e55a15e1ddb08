//! The laws of a run in which no ciphertext was forged. Each is a function that does nothing when it runs: its contract is the law.
ghost use Rattle.std.specs.Prelude.{◌≡◌, ℕ, List, [], None, Some, Result, Ok, length, Bool};
ghost use Rattle.asn1_leaves.specs.declared.date.GeneralizedTime.{GeneralizedTime};
ghost use Rattle.krb_constants.specs.declared.padata_types.TheConstants.{PA_PK_AS_REQ};
ghost use Rattle.krb_crypto.specs.Keys.{KeyRecord};
ghost use Rattle.krb_messages.specs.Messages.{IsApReq};
ghost use Rattle.krb_messages.specs.Names.{components};
ghost use Rattle.krb_messages.specs.Padata.{first_of, padata_in};
ghost use Rattle.krb_messages.specs.declared.data_types.principal_name.PrincipalName.{PrincipalName};
ghost use Rattle.krb_messages.specs.declared.messages.ap_req.ApReqInner.{ApReqInner};
ghost use Rattle.krb_realm_accounts.specs.Account.{AccountRecord};
ghost use Rattle.krb_tickets.specs.Grant.{GrantRecord};
ghost use Rattle.krb_tickets.specs.ReplyKeys.{ReplyKeyRecord};
ghost use Rattle.krb_kdc_exchanges.specs.Replies.{Replies};
ghost use Rattle.krb_ap_requests.specs.ApTable.{enc_part_in};
ghost use Rattle.krb_ap_requests.specs.Entry.{EntryRecord};
ghost use Rattle.krb_ap_requests.specs.Presents.{Choice, Presents};
ghost use Rattle.krb_ap_requests.specs.declared.presented.Presented.{Presented};
ghost use Rattle.krb_ap_requests.specs.declared.refusal.AdmitRefusal.{AdmitRefusal};
ghost use Rattle.krb_service.specs.Admission.{AdmissionRecord};
ghost use Rattle.krb_service.specs.ChosenEntry.{chosen};
ghost use Rattle.krb_service.specs.KeytabService.{KeytabServiceRecord, remembering_by_keytab_with};
ghost use Rattle.krb_service.specs.OnceForEver.{AreOnce, admissions_in};
ghost use Rattle.krb_service.specs.Pair.{PairRecord};
ghost use Rattle.krb_service.specs.RememberingService.{remembering, remembering_by, remembering_with};
ghost use Rattle.krb_service.specs.Runs.{AdmissionCall, IsRun};
ghost use Rattle.krb_service.specs.Service.{ServiceRecord};
ghost use Rattle.krb_service.specs.declared.reply.ReplyFields.{ReplyFields};
ghost use Rattle.krb_client.specs.ApReply.{TakesApReply};
ghost use Rattle.krb_client.specs.ApRequest.{AsksAp};
ghost use Rattle.krb_client.specs.AsReply.{TakesAsReply};
ghost use Rattle.krb_client.specs.Asked.{ApAskedRecord, AsAskedRecord, TgsAskedRecord};
ghost use Rattle.krb_client.specs.Client.{ClientRecord, CredentialRecord};
ghost use Rattle.krb_client.specs.TgsReply.{TakesTgsReply};
ghost use Rattle.krb_authenticity.specs.Among.{IsAmong};
ghost use Rattle.krb_authenticity.specs.Authentic.{IsAskedFirst, IsAuthentic, IsFurtherAsked, IsPartGranted, IsTicketGranted, WasAuthenticated};
ghost use Rattle.krb_authenticity.specs.Ciphertexts.{AreUnforged, IsGrantingKept, IsRealmUnforged, IsRequestUnforged, IsUnforged, OpensApReply, OpensFirstReply, OpensFurtherReply, RealmOpens, ServiceOpens};
ghost use Rattle.krb_authenticity.specs.Grants.{IsFurther, IsGrantOrError, IsGranted};
ghost use Rattle.krb_authenticity.specs.Honest.{AreHonest, IsApReplyHonest, IsFirstReplyHonest, IsFurtherReplyHonest, IsServiceHonest};
ghost use Rattle.krb_authenticity.specs.Named.{AreByOwnKeys, AreKeysApart, IsAskedByName};
ghost use Rattle.krb_authenticity.specs.Parties.{ExchangeRecord, IsAnswerSent, IsClient, IsServiceSent, SentRecord, answer_with, service_request_of};
ghost use Rattle.krb_authenticity.specs.Runs.{AreAsked, AreCallsUnforged, AreSessionsKept, IsAdmittedAt, IsAuthenticAt};
ghost use Rattle.krb_authenticity.specs.Taken.{AreAnswersOpened, AreSessionsApart, IsAnsweredUnder, IsByFirst, IsByFurther, IsFirstReplyUnforged, IsOpenedBy, IsServicesReply};

use krb_client::Means;
use krb_kdc_exchanges::Pkinit;

/// Each reply of a realm grants a ticket by the rows of its tables, or is a KRB-ERROR.
pub fn grants_or_refuses<P: Pkinit>(pkinit: &P)
    ensures { (exchange : ExchangeRecord) → Replies exchange.call (P.rows pkinit.now) exchange.request (Some exchange.reply) → IsGrantOrError (P.rows pkinit.now) exchange }
{}

/// The ticket of each admission was granted by the realm, under the key of the entry that judged the request.
pub fn ticket_was_granted<P: Pkinit>(pkinit: &P)
    ensures { (keys : List (List ℕ)) (exchanges : List ExchangeRecord) (sent : SentRecord) (entry : EntryRecord) (skew : ℕ) (fields : ReplyFields) (moment : ℕ) (admitted : List PairRecord)
        (bytes words : List ℕ) (admission : AdmissionRecord) (after : List PairRecord) → IsRequestUnforged (P.rows pkinit.now) keys exchanges sent entry bytes
        → (remembering_by entry skew fields moment admitted bytes words).gives (Ok admission, after) → IsTicketGranted (P.rows pkinit.now) exchanges entry admission }
{}

/// Where no two accounts share a key, that ticket was granted for this service.
pub fn service_was_named<P: Pkinit>(pkinit: &P)
    ensures { (exchanges : List ExchangeRecord) (entry : EntryRecord) (admission : AdmissionRecord) (ticket : IsTicketGranted (P.rows pkinit.now) exchanges entry admission)
        → AreKeysApart ticket.exchange.call.look → (account : AccountRecord) → ticket.exchange.call.look entry.components ≡ Some account → account.key ≡ entry.key
        → components ticket.grant.service ≡ entry.components }
{}

/// Each grant goes back to an AS exchange, in which the realm authenticated its client.
pub fn client_was_authenticated<P: Pkinit>(pkinit: &P)
    ensures { (keys : List (List ℕ)) (sent : SentRecord) (exchanges : List ExchangeRecord) → AreUnforged (P.rows pkinit.now) keys sent exchanges → IsGrantingKept keys exchanges
        → (exchange : ExchangeRecord) → IsAmong exchange exchanges → (grant : GrantRecord) (service : AccountRecord) → IsGranted (P.rows pkinit.now) exchange grant service
        → WasAuthenticated (P.rows pkinit.now) keys exchanges sent grant.realm grant.client grant.auth_time }
{}

/// Where no two accounts share a key, and each client asks by the key of its account, the client of that name itself asked for the first
/// ticket of an exchange by encrypted timestamp.
pub fn client_was_named<P: Pkinit>(pkinit: &P)
    ensures { (keys : List (List ℕ)) (exchanges : List ExchangeRecord) (sent : SentRecord) (realm : List ℕ) (client : PrincipalName) (authtime : GeneralizedTime)
        (was : WasAuthenticated (P.rows pkinit.now) keys exchanges sent realm client authtime) → IsAmong was.first.principals.client.key keys
        → first_of PA_PK_AS_REQ (padata_in was.first.asked) ≡ None → AreKeysApart was.exchange.call.look → AreByOwnKeys was.exchange.call sent
        → IsAskedByName sent was.exchange realm client }
{}

/// The client itself asked for each further ticket that is granted by a session key of these keys, also for each renewed or forwarded one.
pub fn further_was_asked<P: Pkinit>(pkinit: &P)
    ensures { (keys : List (List ℕ)) (before : List ExchangeRecord) (sent : SentRecord) (exchange : ExchangeRecord) → IsUnforged (P.rows pkinit.now) keys before sent (RealmOpens exchange)
        → (grant : GrantRecord) (under : ReplyKeyRecord) (service : AccountRecord) (is : IsFurther exchange grant under service) → IsAmong is.part.key.0.key_value.0 keys
        → IsFurtherAsked sent exchange grant is.asked }
{}

/// The client itself made the request of each admission, and it is the first of its client and time.
pub fn client_asked<P: Pkinit>(pkinit: &P)
    ensures { (keys : List (List ℕ)) (exchanges : List ExchangeRecord) (sent : SentRecord) (entry : EntryRecord) (skew : ℕ) (fields : ReplyFields) (moment : ℕ) (admitted : List PairRecord)
        (bytes words : List ℕ) (admission : AdmissionRecord) (after : List PairRecord) → IsUnforged (P.rows pkinit.now) keys exchanges sent (ServiceOpens entry bytes)
        → IsAmong admission.session.key_value.0 keys → (remembering_by entry skew fields moment admitted bytes words).gives (Ok admission, after)
        → IsAskedFirst sent admitted admission after }
{}

/// What is presented under a service's key the realm granted to a client that it had authenticated, whoever judges the request: a service,
/// one of a keytab, or an acceptor of GSS.
pub fn presented_was_authenticated<P: Pkinit>(pkinit: &P)
    ensures { (keys : List (List ℕ)) (exchanges : List ExchangeRecord) (sent : SentRecord) (entry : EntryRecord) (bytes : List ℕ) (choice : Choice)
        → IsRealmUnforged (P.rows pkinit.now) keys exchanges sent → IsRequestUnforged (P.rows pkinit.now) keys exchanges sent entry bytes → Presents entry.key choice bytes
        → IsPartGranted (P.rows pkinit.now) exchanges entry.key choice.part
        × WasAuthenticated (P.rows pkinit.now) keys exchanges sent choice.part.crealm.0 choice.part.cname.0 choice.part.auth_time.0.0 }
{}

/// What `Client::ap_request` writes is such a request of the client.
pub fn ap_request_is_sent()
    ensures { (client : ClientRecord) (credential : CredentialRecord) (mutual_required with_subkey : Bool) (moment : ℕ) (words bytes : List ℕ) → IsClient client
        → (asks : AsksAp client credential mutual_required with_subkey moment words bytes)
        → IsServiceSent (service_request_of client credential mutual_required moment words bytes asks.authenticator) }
{}

/// Whom a service admits the realm had authenticated, and the client itself made the request. So it is by an entry, as a call of a run has it
/// (`by_entry`), by a service of one key, with these fields in its reply or the time alone, and by a service of a keytab.
pub fn admitted_was_authenticated<P: Pkinit>(pkinit: &P)
    ensures by_entry { (keys : List (List ℕ)) (exchanges : List ExchangeRecord) (sent : SentRecord) (entry : EntryRecord) (skew : ℕ) (fields : ReplyFields) (moment : ℕ) (admitted : List PairRecord)
        (bytes words : List ℕ) (admission : AdmissionRecord) (after : List PairRecord) → IsRealmUnforged (P.rows pkinit.now) keys exchanges sent
        → IsRequestUnforged (P.rows pkinit.now) keys exchanges sent entry bytes → (remembering_by entry skew fields moment admitted bytes words).gives (Ok admission, after)
        → IsAuthentic (P.rows pkinit.now) keys exchanges sent entry admitted admission after }
    ensures with_fields { (keys : List (List ℕ)) (exchanges : List ExchangeRecord) (sent : SentRecord) (fields : ReplyFields) (service : ServiceRecord) (moment : ℕ) (admitted : List PairRecord)
        (bytes words : List ℕ) (admission : AdmissionRecord) (after : List PairRecord) → IsRealmUnforged (P.rows pkinit.now) keys exchanges sent
        → IsRequestUnforged (P.rows pkinit.now) keys exchanges sent service.entry bytes → (remembering_with fields service moment admitted bytes words).gives (Ok admission, after)
        → IsAuthentic (P.rows pkinit.now) keys exchanges sent service.entry admitted admission after }
    ensures with_time_alone { (keys : List (List ℕ)) (exchanges : List ExchangeRecord) (sent : SentRecord) (service : ServiceRecord) (moment : ℕ) (admitted : List PairRecord)
        (bytes words : List ℕ) (admission : AdmissionRecord) (after : List PairRecord) → IsRealmUnforged (P.rows pkinit.now) keys exchanges sent
        → IsRequestUnforged (P.rows pkinit.now) keys exchanges sent service.entry bytes → (remembering service moment admitted bytes words).gives (Ok admission, after)
        → IsAuthentic (P.rows pkinit.now) keys exchanges sent service.entry admitted admission after }
    ensures by_keytab { (keys : List (List ℕ)) (exchanges : List ExchangeRecord) (sent : SentRecord) (fields : ReplyFields) (service : KeytabServiceRecord) (moment : ℕ) (admitted : List PairRecord)
        (bytes words : List ℕ) (request : ApReqInner) (admission : AdmissionRecord) (after : List PairRecord) → IsRealmUnforged (P.rows pkinit.now) keys exchanges sent
        → IsApReq bytes request → IsRequestUnforged (P.rows pkinit.now) keys exchanges sent (chosen service.entries (enc_part_in request)) bytes
        → (remembering_by_keytab_with fields service moment admitted bytes words).gives (Ok admission, after)
        → IsAuthentic (P.rows pkinit.now) keys exchanges sent (chosen service.entries (enc_part_in request)) admitted admission after }
{}

/// Over any list of calls, each with its entry, each admission is of a client that the realm had authenticated, and of a request of its own,
/// which the client itself made. Such calls are those of a service of one key or of a keytab, also where keys are replaced between them, and
/// of an acceptor of GSS (laws `run_goes_on`, `calls_of_runs` of `krb_service`).
pub fn each_was_authenticated<P: Pkinit>(pkinit: &P)
    ensures clients { (keys : List (List ℕ)) (exchanges : List ExchangeRecord) (sent : SentRecord) → IsRealmUnforged (P.rows pkinit.now) keys exchanges sent
        → (skew greatest : ℕ) (admitted : List PairRecord) (calls : List AdmissionCall) (answers : List (Result AdmissionRecord AdmitRefusal)) (after : List PairRecord)
        → AreCallsUnforged (P.rows pkinit.now) keys exchanges sent calls → IsRun skew greatest admitted calls answers after
        → (call : AdmissionCall) (admission : AdmissionRecord) → IsAdmittedAt call admission calls answers
        → IsAuthenticAt (P.rows pkinit.now) keys exchanges sent call.entry admission }
    ensures requests { (keys : List (List ℕ)) (exchanges : List ExchangeRecord) (sent : SentRecord) (skew greatest : ℕ) (calls : List AdmissionCall)
        (answers : List (Result AdmissionRecord AdmitRefusal)) (after : List PairRecord) → AreCallsUnforged (P.rows pkinit.now) keys exchanges sent calls
        → AreSessionsKept keys calls answers → IsRun skew greatest [] calls answers after
        → AreOnce after × (length after ≡ admissions_in answers) × AreAsked sent after }
{}

/// What a service replies to a request that it admits is such an answer of the service, which had opened the request's ticket.
pub fn answer_is_sent()
    ensures { (entry : EntryRecord) (skew : ℕ) (fields : ReplyFields) (moment : ℕ) (admitted : List PairRecord) (bytes words : List ℕ) (admission : AdmissionRecord) (after : List PairRecord)
        → (remembering_by entry skew fields moment admitted bytes words).gives (Ok admission, after) → (reply : List ℕ) → admission.reply ≡ Some reply
        → (presented : Presented) × IsAnswerSent (answer_with presented fields words admission reply) × IsOpenedBy entry bytes presented }
{}

/// What a client takes as the reply to its AS request the realm granted in an AS exchange, to a request with its nonce, under the key that
/// its means give.
pub fn first_reply_was_sent<M: Means, P: Pkinit>(means: &M, pkinit: &P)
    ensures { (keys : List (List ℕ)) (exchanges : List ExchangeRecord) (sent : SentRecord) (client : ClientRecord) (asked : AsAskedRecord) (bytes : List ℕ) (credential : CredentialRecord)
        → IsFirstReplyUnforged (P.rows pkinit.now) keys exchanges sent client (M.means means.now) asked bytes
        → TakesAsReply client (M.means means.now) asked bytes (Ok credential)
        → (key : KeyRecord) × IsByFirst (P.rows pkinit.now) exchanges key.bytes asked.nonce credential }
{}

/// What a client takes as the reply to its TGS request the realm granted in a TGS exchange, to a request with its nonce, under its session
/// key.
pub fn further_reply_was_sent<P: Pkinit>(pkinit: &P)
    ensures { (keys : List (List ℕ)) (exchanges : List ExchangeRecord) (sent : SentRecord) (client : ClientRecord) (asked : TgsAskedRecord) (bytes : List ℕ) (credential : CredentialRecord)
        → IsUnforged (P.rows pkinit.now) keys exchanges sent (OpensFurtherReply asked bytes) → IsAmong asked.key keys
        → TakesTgsReply client asked bytes (Ok credential) → IsByFurther (P.rows pkinit.now) exchanges asked.key asked.nonce credential }
{}

/// What a client takes as an AP-REP some service sent, which opened the ticket and admitted a request with this session key and this time
/// (mutual authentication; RFC 4120, section 3.2.5).
pub fn service_replied<P: Pkinit>(pkinit: &P)
    ensures { (keys : List (List ℕ)) (exchanges : List ExchangeRecord) (sent : SentRecord) (asked : ApAskedRecord) (bytes : List ℕ)
        → IsUnforged (P.rows pkinit.now) keys exchanges sent (OpensApReply asked bytes) → IsAmong asked.key keys
        → TakesApReply asked bytes (Ok tt) → IsServicesReply sent asked }
{}

/// Where moreover no session key was granted for two services, that service is the one for which the realm granted the ticket with this
/// session key: it has the key of that account.
pub fn replying_service_was_asked<P: Pkinit>(pkinit: &P)
    ensures { (keys : List (List ℕ)) (exchanges : List ExchangeRecord) (sent : SentRecord) (asked : ApAskedRecord) → AreAnswersOpened (P.rows pkinit.now) keys exchanges sent
        → AreSessionsApart (P.rows pkinit.now) exchanges → (it : IsServicesReply sent asked) (exchange : ExchangeRecord) → IsAmong exchange exchanges → (grant : GrantRecord) (account : AccountRecord)
        → IsGranted (P.rows pkinit.now) exchange grant account → grant.session ≡ asked.key → IsAnsweredUnder account.key it.answer }
{}

/// The premise holds of honest runs: what comes as clients sent it, by tickets that they were granted, is unforged, whatever the keys.
/// So are the replies of the realm and of services that come to their clients.
pub fn honest_is_unforged<P: Pkinit>(pkinit: &P)
    ensures realm { (sent : SentRecord) (exchanges : List ExchangeRecord) → AreHonest (P.rows pkinit.now) sent exchanges → (keys : List (List ℕ)) → AreUnforged (P.rows pkinit.now) keys sent exchanges }
    ensures service { (exchanges : List ExchangeRecord) (sent : SentRecord) (entry : EntryRecord) (bytes : List ℕ) → IsServiceHonest (P.rows pkinit.now) exchanges sent entry bytes
        → (keys : List (List ℕ)) → IsUnforged (P.rows pkinit.now) keys exchanges sent (ServiceOpens entry bytes) }
    ensures first_reply { (exchanges : List ExchangeRecord) (sent : SentRecord) (under : KeyRecord) (bytes : List ℕ) → IsFirstReplyHonest (P.rows pkinit.now) exchanges under bytes
        → (keys : List (List ℕ)) → IsUnforged (P.rows pkinit.now) keys exchanges sent (OpensFirstReply under bytes) }
    ensures further_reply { (exchanges : List ExchangeRecord) (sent : SentRecord) (asked : TgsAskedRecord) (bytes : List ℕ) → IsFurtherReplyHonest (P.rows pkinit.now) exchanges asked bytes
        → (keys : List (List ℕ)) → IsUnforged (P.rows pkinit.now) keys exchanges sent (OpensFurtherReply asked bytes) }
    ensures ap_reply { (exchanges : List ExchangeRecord) (sent : SentRecord) (asked : ApAskedRecord) (bytes : List ℕ) → IsApReplyHonest sent asked bytes
        → (keys : List (List ℕ)) → IsUnforged (P.rows pkinit.now) keys exchanges sent (OpensApReply asked bytes) }
{}
