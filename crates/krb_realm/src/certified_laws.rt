//! What client and realm agree on where both are honest: each sign for the other, and their public keys give one secret; and what a
//! login by certificate ends with. Each is a function that does nothing when it runs: its contract is the law.
ghost use Rattle.std.specs.Prelude.{◌≡◌, ℕ, List, Ok, Result, pos};
ghost use Rattle.krb_kdc_exchanges.specs.PkinitCalls.{AgreedRecord, PkinitCallRecord};
ghost use Rattle.krb_kdc_exchanges.specs.Calls.{AreKeyed};
ghost use Rattle.krb_client.specs.Client.{ClientRecord};
ghost use Rattle.krb_service.specs.Service.{ServiceRecord};
ghost use Rattle.krb_logins.specs.Honest.{AreEnough, AreParties, AreUnlimited, IsGranting, IsOneKey};
ghost use Rattle.krb_logins.specs.LoginRun.{Login, LoginRun};
ghost use Rattle.krb_logins.specs.Parties.{LoginRecord, RealmRecord, RememberedRecord};
ghost use Rattle.krb_logins.specs.declared.refusal.LoginRefusal.{LoginRefusal};
ghost use Rattle.x509_keys.specs.KeyFunctions.{KeysRecord};
ghost use Rattle.pkinit_validation.specs.Anchors.{AnchorRecord};
ghost use Rattle.pkinit_validation.specs.PkinitRows.{pkinit_rows};
ghost use Rattle.pkinit_validation.specs.PkinitTable.{pkinit_table};
ghost use Rattle.pkinit_validation.specs.Trust.{TrustRecord};
ghost use Rattle.pkinit_clients.specs.Asked.{PkinitAskedRecord};
ghost use Rattle.pkinit_clients.specs.Faults.{Secret};
ghost use Rattle.pkinit_clients.specs.Means.{by_certificate};
ghost use Rattle.pkinit_clients.specs.Replies.{secret_of};
ghost use Rattle.pkinit_clients.specs.Requests.{IsNoPkAsReq, IsPkAsReqOf};
ghost use Rattle.krb_realm.specs.Agreements.{IsAgreedReply, IsGrantedAgreement};
ghost use Rattle.krb_realm.specs.Honest.{IsHonestReply, IsHonestRequest};
ghost use Rattle.krb_realm.specs.HonestByCertificate.{IsHonestByCertificate};

/// An honest client has a request, and an honest realm grants it: with the secret on which both agree, and with its public value
/// and the nonce of the request's body in the reply (RFC 4556, sections 3.2.1 to 3.2.3.1).
pub fn agreement_granted()
    ensures asked { (client_keys realm_keys : KeysRecord) (certificate : List ℕ) (client_moment : ℕ) (client_words : List ℕ) (trust : TrustRecord) (call : PkinitCallRecord)
        → IsHonestRequest client_keys realm_keys certificate client_moment client_words trust call
        → IsNoPkAsReq client_keys certificate call.body client_moment client_words → ⊥ }
    ensures granted { (client_keys realm_keys : KeysRecord) (certificate : List ℕ) (client_moment : ℕ) (client_words : List ℕ) (trust : TrustRecord) (call : PkinitCallRecord)
        (honest : IsHonestRequest client_keys realm_keys certificate client_moment client_words trust call) (bytes : List ℕ)
        → IsPkAsReqOf client_keys certificate call.body client_moment client_words bytes
        → (result : Result AgreedRecord ℕ) → (pkinit_table realm_keys trust call bytes).gives result
        → IsGrantedAgreement realm_keys honest.agreement.pkinit.own honest.agreement.agreeing.realm_key.subject_public_key call.body.nonce.0
        honest.agreement.agreeing.secret result }
{}

/// An honest client takes the secret on which both agree from the reply of an honest realm with the nonce that it asked with (RFC
/// 4556, section 3.2.4).
pub fn agreement_taken()
    ensures { (client_keys realm_keys : KeysRecord) (own realm_words : List ℕ) (asked : PkinitAskedRecord)
        (honest : IsHonestReply client_keys realm_keys own realm_words asked) (reply : List ℕ)
        → IsAgreedReply realm_keys own honest.agreeing.realm_key.subject_public_key (pos asked.nonce) reply
        → (result : Secret) → (secret_of client_keys asked reply).gives result → result ≡ Ok honest.agreeing.secret }
{}

/// Every honest login by certificate ends with one session key on both sides, under the client's name, or memory runs out (RFC 4556,
/// section 3.2).
pub fn one_key_by_certificate()
    ensures { (client : ClientRecord) (certificate : List ℕ) (anchor : AnchorRecord) (client_keys : KeysRecord) (realm : RealmRecord) (trust : TrustRecord) (realm_keys : KeysRecord)
        (service : ServiceRecord) (before : RememberedRecord) (login : LoginRecord) (result : Result Login LoginRefusal) (after : RememberedRecord)
        → AreParties client service → AreEnough login → IsGranting realm → AreKeyed realm.look → AreUnlimited client service realm
        → IsHonestByCertificate client certificate anchor client_keys realm trust realm_keys service before login
        → LoginRun client (by_certificate certificate anchor client_keys) realm (pkinit_rows trust realm_keys) service login before result after → IsOneKey client result }
{}
