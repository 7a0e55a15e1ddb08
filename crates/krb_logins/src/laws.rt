//! What holds of every honest login, step by step, and of what a client writes to a service. Each is a function that does
//! nothing when it runs: its contract is the law.
ghost use Rattle.std.specs.Prelude.{◌≡◌, ◌⊎◌, ℕ, Bool, true, false, List, Result, Ok};
ghost use Rattle.std.specs.List.{All};
ghost use Rattle.krb_crypto.specs.Suites.{cipher_confounder_size};
ghost use Rattle.krb_time.specs.Skew.{is_far};
ghost use Rattle.krb_messages.specs.RandomBytes.{authenticator_confounder};
ghost use Rattle.krb_messages.specs.declared.messages.kdc_req_body.KdcReqBody.{KdcReqBody};
ghost use Rattle.krb_realm_accounts.specs.Account.{AccountRecord};
ghost use Rattle.krb_ap_requests.specs.Presents.{Presents};
ghost use Rattle.krb_kdc_exchanges.specs.Calls.{AreKeyed};
ghost use Rattle.krb_client.specs.Client.{ClientRecord, CredentialRecord};
ghost use Rattle.krb_client.specs.EncryptedTimestamps.{by_key};
ghost use Rattle.krb_client.specs.declared.options.TicketOptions.{TicketOptions};
ghost use Rattle.krb_service.specs.Service.{IsService, ServiceRecord};
ghost use Rattle.krb_logins.specs.Authenticated.{IsAuthenticatedFor};
ghost use Rattle.krb_logins.specs.Choices.{AsksService, choice_by};
ghost use Rattle.krb_logins.specs.Honest.{AreEnough, AreParties, AreUnlimited, Ends, IsGranting, IsHonestByPassword, IsOneKey, IsTimely, WantsMemory, realm_skew};
ghost use Rattle.krb_logins.specs.Laws.{IsClientAdmitted, IsFirstGranted, IsFirstTaken, IsFurtherGranted, IsFurtherTaken, IsMet};
ghost use Rattle.krb_logins.specs.LoginRun.{AsExchange, AsExchangeWith, Exchanges, Login, LoginRun, TgsExchangeWith};
ghost use Rattle.krb_logins.specs.Near.{AreNear, IsLasting, common_skew};
ghost use Rattle.krb_logins.specs.Parties.{LoginRecord, RealmRecord, RememberedRecord, TgsRecord};
ghost use Rattle.krb_logins.specs.Steps.{AreDecided};
ghost use Rattle.krb_logins.specs.TicketChains.{ChainLogin, IsChainLoginHonest, IsTicketLoginHonest, TicketLogin};
ghost use Rattle.krb_logins.specs.Tickets.{AreOfOneRealm, HoldsFirst, HoldsGranting, HoldsNext, IsAsHonest, IsRenewable, IsRenewed, IsTgsHonest};
ghost use Rattle.krb_logins.specs.Uses.{AreUses, AreUsesMet, IsVisit, IsVisitMet, UseRecord, VisitRecord};
ghost use Rattle.krb_logins.specs.declared.refusal.LoginRefusal.{LoginRefusal};

use krb_client::Means;
use krb_kdc_exchanges::Pkinit;

/// A login whose steps all lie within one clock skew, and for which the realm's tickets last longer than that skew, is timely.
pub fn near_is_timely()
    ensures { (realm : RealmRecord) (service : ServiceRecord) (before : RememberedRecord) (login : LoginRecord) → IsService service
        → AreNear (common_skew realm service) before login → IsLasting realm service login → IsTimely realm service before login }
{}

/// A realm has a reply to the first request of an honest login's client, and grants the ticket that it asks for.
pub fn first_granted<M: Means, P: Pkinit>(means: &M, pkinit: &P)
    ensures { (client : ClientRecord) (realm : RealmRecord) (service : ServiceRecord) (before : RememberedRecord) (login : LoginRecord) (met : IsMet client (M.means means.now) realm (P.rows pkinit.now) service before login)
        → IsFirstGranted client (M.means means.now) realm (P.rows pkinit.now) service before login met }
{}

/// The client takes the first ticket.
pub fn first_taken<M: Means, P: Pkinit>(means: &M, pkinit: &P)
    ensures { (client : ClientRecord) (realm : RealmRecord) (service : ServiceRecord) (before : RememberedRecord) (login : LoginRecord) (met : IsMet client (M.means means.now) realm (P.rows pkinit.now) service before login)
        → IsFirstTaken client (M.means means.now) realm (P.rows pkinit.now) service before login met }
{}

/// The realm has a reply to the client's request by the first ticket, and grants one for the service.
pub fn further_granted<M: Means, P: Pkinit>(means: &M, pkinit: &P)
    ensures { (client : ClientRecord) (realm : RealmRecord) (service : ServiceRecord) (before : RememberedRecord) (login : LoginRecord) (met : IsMet client (M.means means.now) realm (P.rows pkinit.now) service before login)
        → IsFurtherGranted client (M.means means.now) realm (P.rows pkinit.now) service before login met }
{}

/// The client takes the ticket for the service.
pub fn further_taken<M: Means, P: Pkinit>(means: &M, pkinit: &P)
    ensures { (client : ClientRecord) (realm : RealmRecord) (service : ServiceRecord) (before : RememberedRecord) (login : LoginRecord) (met : IsMet client (M.means means.now) realm (P.rows pkinit.now) service before login)
        → IsFurtherTaken client (M.means means.now) realm (P.rows pkinit.now) service before login met }
{}

/// The service admits the client by it, and the client takes the service's reply.
pub fn client_admitted<M: Means, P: Pkinit>(means: &M, pkinit: &P)
    ensures { (client : ClientRecord) (realm : RealmRecord) (service : ServiceRecord) (before : RememberedRecord) (login : LoginRecord) (met : IsMet client (M.means means.now) realm (P.rows pkinit.now) service before login)
        → IsClientAdmitted client (M.means means.now) realm (P.rows pkinit.now) service before login met }
{}

/// Every honest login ends with one session key on both sides, under the client's name, or memory runs out.
pub fn one_key<M: Means, P: Pkinit>(means: &M, pkinit: &P)
    ensures { (client : ClientRecord) (realm : RealmRecord) (service : ServiceRecord) (before : RememberedRecord) (login : LoginRecord) (result : Result Login LoginRefusal) (after : RememberedRecord)
        → IsMet client (M.means means.now) realm (P.rows pkinit.now) service before login → LoginRun client (M.means means.now) realm (P.rows pkinit.now) service login before result after → IsOneKey client result }
{}

/// Every honest login by password ends so, at a realm that judges PA-PK-AS-REQ by any rows.
pub fn one_key_by_password<P: Pkinit>(pkinit: &P)
    ensures { (client : ClientRecord) (key : List ℕ) (realm : RealmRecord) (service : ServiceRecord) (before : RememberedRecord) (login : LoginRecord) (result : Result Login LoginRefusal) (after : RememberedRecord)
        → AreParties client service → AreEnough login → IsGranting realm → AreKeyed realm.look → AreUnlimited client service realm → IsHonestByPassword client key realm service before login
        → LoginRun client (by_key client.suite key) realm (P.rows pkinit.now) service login before result after → IsOneKey client result }
{}

/// By one ticket-granting ticket a client is admitted at each of several services, or memory runs out. Each visit is timely by its own
/// moments.
pub fn several_services<M: Means, P: Pkinit>(means: &M, pkinit: &P)
    ensures { (client : ClientRecord) (realm : RealmRecord) (login : LoginRecord) (granting : CredentialRecord) (visits : List VisitRecord)
        → AsExchange client (M.means means.now) realm (P.rows pkinit.now) login (Ok granting)
        → All (IsVisit client realm (P.rows pkinit.now) login granting) visits
        → All (IsVisitMet client (M.means means.now) realm (P.rows pkinit.now) login) visits
        → All (λ visit. IsOneKey client visit.used.result) visits }
{}

/// By one service ticket a client is admitted each time that it uses it, or memory runs out. Each use has a time of its own, while the
/// ticket lasts.
pub fn several_uses<M: Means, P: Pkinit>(means: &M, pkinit: &P)
    ensures { (client : ClientRecord) (realm : RealmRecord) (service : ServiceRecord) (before : RememberedRecord) (login : LoginRecord) (credential : CredentialRecord) (uses : List UseRecord)
        → Exchanges client (M.means means.now) realm (P.rows pkinit.now) login (Ok credential)
        → AreUsesMet client (M.means means.now) realm (P.rows pkinit.now) service login before uses
        → AreUses client service login credential before uses
        → All (λ used. IsOneKey client used.result) uses }
{}

/// By the key of its account a client is authenticated in each request whose time is near the realm's, whatever its body asks for.
pub fn authenticated_by_key<P: Pkinit>(pkinit: &P)
    ensures { (client : ClientRecord) (key : List ℕ) (realm : RealmRecord) (account : AccountRecord) (login : LoginRecord) (body : KdcReqBody)
        → account.suite ≡ client.suite → account.key ≡ key → is_far (realm_skew realm) login.realm_as login.client_as ≡ false
        → IsAuthenticatedFor client (by_key client.suite key) realm (P.rows pkinit.now) account login body }
{}

/// In an honest AS exchange with options the client takes the first ticket, as the realm's policy grants it, or memory runs out.
pub fn first_held<M: Means, P: Pkinit>(means: &M, pkinit: &P)
    ensures { (client : ClientRecord) (options : TicketOptions) (realm : RealmRecord) (login : LoginRecord) (one : AreOfOneRealm client realm) (result : Result CredentialRecord LoginRefusal)
        → IsAsHonest client options (M.means means.now) realm (P.rows pkinit.now) one.known.account login
        → AsExchangeWith client options (M.means means.now) realm (P.rows pkinit.now) login result → Ends (HoldsFirst client options realm login) result }
{}

/// In an honest TGS exchange by a ticket-granting ticket that it holds, the client takes the next ticket, or memory runs out. The presented
/// ticket may be a first one, a renewed one or a forwarded one. The next one is for a service, or it is the presented one renewed or
/// forwarded.
pub fn next_held<P: Pkinit>(pkinit: &P)
    ensures { (client : ClientRecord) (realm : RealmRecord) (exchange : TgsRecord) (granting : CredentialRecord) (result : Result CredentialRecord LoginRefusal)
        → AreOfOneRealm client realm → (holds : HoldsGranting client realm granting) → IsTgsHonest client realm exchange granting
        → TgsExchangeWith client realm (P.rows pkinit.now) exchange granting result → Ends (HoldsNext client realm exchange granting holds) result }
{}

/// A renewed ticket lasts as long as the presented one, but no longer than to its renew-till, and can be renewed again.
pub fn renewed_as_seen()
    ensures { (client : ClientRecord) (realm : RealmRecord) (exchange : TgsRecord) (granting credential : CredentialRecord) (holds : HoldsGranting client realm granting)
        → exchange.options.renews ≡ true → IsRenewable client realm exchange granting → HoldsNext client realm exchange granting holds credential
        → IsRenewed exchange granting credential }
{}

/// Every honest login by a ticket-granting ticket that the client holds ends with one session key on both sides, under the client's name.
/// Or memory runs out. It doesn't matter how the client came by the ticket.
pub fn one_key_by_ticket<P: Pkinit>(pkinit: &P)
    ensures { (client : ClientRecord) (realm : RealmRecord) (service : ServiceRecord) (before : RememberedRecord) (login : LoginRecord) (granting : CredentialRecord)
        (result : Result Login LoginRefusal) (after : RememberedRecord)
        → AreOfOneRealm client realm → HoldsGranting client realm granting → IsTicketLoginHonest client realm service before login granting
        → TicketLogin client realm (P.rows pkinit.now) service login granting before result after → IsOneKey client result }
{}

/// An honest login is one by its first ticket: the client holds what the AS exchange makes, and the rest is an honest login by that ticket.
pub fn login_is_by_ticket<M: Means, P: Pkinit>(means: &M, pkinit: &P)
    ensures { (client : ClientRecord) (realm : RealmRecord) (service : ServiceRecord) (before : RememberedRecord) (login : LoginRecord) (granting : CredentialRecord)
        → IsMet client (M.means means.now) realm (P.rows pkinit.now) service before login → AsExchange client (M.means means.now) realm (P.rows pkinit.now) login (Ok granting)
        → AreOfOneRealm client realm × HoldsGranting client realm granting × IsTicketLoginHonest client realm service before login granting }
{}

/// Every honest login over renewed and forwarded tickets ends so. It is an AS exchange with options, any number of renewals and
/// forwardings, and the login by the last ticket.
pub fn one_key_over_chain<M: Means, P: Pkinit>(means: &M, pkinit: &P)
    ensures { (client : ClientRecord) (options : TicketOptions) (realm : RealmRecord) (service : ServiceRecord) (login : LoginRecord) (exchanges : List TgsRecord) (before : RememberedRecord)
        (result : Result Login LoginRefusal) (after : RememberedRecord)
        → IsChainLoginHonest client options (M.means means.now) realm (P.rows pkinit.now) service login exchanges before
        → ChainLogin client options (M.means means.now) realm (P.rows pkinit.now) service login exchanges before result after → IsOneKey client result }
{}

/// A login has one outcome: what it answers, and what the service remembers after it. The only exception is running out of memory.
/// The client's means refuse no request that they have padata for.
pub fn one_login<M: Means, P: Pkinit>(means: &M, pkinit: &P)
    ensures { AreDecided (M.means means.now) → (client : ClientRecord) (realm : RealmRecord) (service : ServiceRecord) (before : RememberedRecord) (login : LoginRecord)
        (result other : Result Login LoginRefusal) (after other_after : RememberedRecord)
        → LoginRun client (M.means means.now) realm (P.rows pkinit.now) service login before result after → LoginRun client (M.means means.now) realm (P.rows pkinit.now) service login before other other_after
        → WantsMemory result ⊎ WantsMemory other ⊎ ((result ≡ other) × (after ≡ other_after)) }
{}

/// What `Client::ap_request` writes presents what the client chose, and nothing else presents it: the string of that choice (RFC 4120,
/// section 3.2.2). Each choice whose etypes and confounders fit has one, by `has_presentation` and `one_presentation` of `krb_service`.
pub fn ap_request_presents_choice<M: Means>(means: &M)
    ensures presents { (client : ClientRecord) (credential : CredentialRecord) (mutual_required with_subkey : Bool) (moment : ℕ) (words bytes key : List ℕ)
        (by : AsksService client (M.means means.now) credential mutual_required with_subkey moment words bytes key)
        → Presents key (choice_by credential mutual_required by.part by.part_confounder by.asks.authenticator
        (authenticator_confounder (cipher_confounder_size credential.suite) words)) bytes }
    ensures only { (client : ClientRecord) (credential : CredentialRecord) (mutual_required with_subkey : Bool) (moment : ℕ) (words bytes key : List ℕ)
        (by : AsksService client (M.means means.now) credential mutual_required with_subkey moment words bytes key) (other : List ℕ)
        → Presents key (choice_by credential mutual_required by.part by.part_confounder by.asks.authenticator
        (authenticator_confounder (cipher_confounder_size credential.suite) words)) other → other ≡ bytes }
{}
