//! Who asked for a first ticket by certificate, where no one made a signature but the holders of their keys. Each function does nothing when it
//! runs: its contract is the law.
ghost use Rattle.std.specs.Prelude.{◌≡◌, List, Some, Ok};
ghost use Rattle.asn1_leaves.specs.declared.date.GeneralizedTime.{GeneralizedTime};
ghost use Rattle.picky_asn1.specs.Bytes.{Bytes};
ghost use Rattle.krb_constants.specs.declared.padata_types.TheConstants.{PA_PK_AS_REQ};
ghost use Rattle.krb_messages.specs.Messages.{IsAsReq};
ghost use Rattle.krb_messages.specs.Padata.{first_of, padata_in};
ghost use Rattle.krb_messages.specs.declared.data_types.principal_name.PrincipalName.{PrincipalName};
ghost use Rattle.krb_messages.specs.declared.messages.kdc_req.KdcReq.{KdcReq};
ghost use Rattle.krb_kdc_exchanges.specs.PkinitCalls.{AgreedRecord, PkinitCallRecord};
ghost use Rattle.krb_authenticity.specs.Authentic.{WasAuthenticated};
ghost use Rattle.krb_authenticity.specs.Parties.{ExchangeRecord, SentRecord};
ghost use Rattle.x509_keys.specs.KeyFunctions.{KeysRecord};
ghost use Rattle.x509_keys.specs.declared.subject_public_key_info.SubjectPublicKeyInfo.{SubjectPublicKeyInfo};
ghost use Rattle.pkinit_validation.specs.Anchors.{AnchorRecord};
ghost use Rattle.pkinit_validation.specs.Judging.{judging_by};
ghost use Rattle.pkinit_validation.specs.PkinitRows.{pkinit_rows};
ghost use Rattle.pkinit_validation.specs.PkinitTable.{pkinit_table};
ghost use Rattle.pkinit_validation.specs.Trust.{TrustRecord};
ghost use Rattle.krb_realm.specs.FirstAsked.{AreKeysOwn, IsAskedByClient};
ghost use Rattle.krb_realm.specs.Signatures.{AreSignaturesMade, CertifiedRequest, IsByCertificate, IsCertifiedHonest};

/// Where the realm's rows accept a request by certificate (`IsShown` of `krb_authenticity`), the realm accepted a certificate of the client's
/// name under its anchor. If the certificate's key is one of the run's, a client that holds it asked: what it signed has the digest of what
/// the realm read (RFC 4556, section 3.2.2).
pub fn certified_client_asked()
    ensures { (keys : KeysRecord) (trust : TrustRecord) (holders : List SubjectPublicKeyInfo) (certified : List CertifiedRequest) (exchange : ExchangeRecord) (asked : KdcReq)
        → IsAsReq exchange.request asked → (padata : Bytes) → first_of PA_PK_AS_REQ (padata_in asked) ≡ Some padata → AreSignaturesMade keys holders certified exchange
        → (call : PkinitCallRecord) (agreed : AgreedRecord) → (pkinit_table keys trust call padata).gives (Ok agreed)
        → (anchor : AnchorRecord) × (trust.anchor ≡ Some anchor) × (certificate : Bytes) × IsByCertificate keys (judging_by call anchor certificate).expected holders certified exchange }
{}

/// Where moreover no two accounts share a key, and each client asks by the key of its account, the client that an AS exchange authenticated
/// (`WasAuthenticated` of `krb_authenticity`) itself asked for its first ticket: by its certificate, or by that key.
pub fn first_client_asked()
    ensures { (trust : TrustRecord) (keys : KeysRecord) (secrets : List Bytes) (exchanges : List ExchangeRecord) (sent : SentRecord) (holders : List SubjectPublicKeyInfo) (certified : List CertifiedRequest)
        (realm : Bytes) (client : PrincipalName) (authtime : GeneralizedTime) (was : WasAuthenticated (pkinit_rows trust keys) secrets exchanges sent realm client authtime)
        → AreKeysOwn keys holders certified was.exchange sent
        → IsAskedByClient keys trust secrets holders certified sent was.exchange was.first.principals.client.key realm client }
{}

/// The premise of `certified_client_asked` holds of each exchange whose request came to the realm as a client sent it by its certificate,
/// whatever the keys.
pub fn certified_is_signed()
    ensures { (keys : KeysRecord) (holders : List SubjectPublicKeyInfo) (certified : List CertifiedRequest) (exchange : ExchangeRecord)
        → IsCertifiedHonest certified exchange → AreSignaturesMade keys holders certified exchange }
{}
