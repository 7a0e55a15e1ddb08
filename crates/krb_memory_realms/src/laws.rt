//! What holds of every realm. Each is a function that does nothing when it runs: its contract is the law.
ghost use Rattle.std.specs.Prelude.{◌≡◌, ◌<◌, ◌^◌, ℕ, List, [], ◌∷◌, ◌++◌, Option, Some, length};
ghost use Rattle.picky_asn1_der.specs.Parts.{IsPart};
ghost use Rattle.cms_signed_data.specs.SignedContents.{IsSignedContent};
ghost use Rattle.cms_signed_data.specs.SignedParts.{SignedParts};
ghost use Rattle.cms_signed_data.specs.Parts.{attributes_place, certificate_place};
ghost use Rattle.block_ciphers.specs.Bytes.{IsBytes};
ghost use Rattle.decision_tables.specs.Some.{HasSome};
ghost use Rattle.x509_keys.specs.KeyFunctions.{KeysRecord};
ghost use Rattle.krb_constants.specs.declared.padata_types.TheConstants.{PA_PK_AS_REQ};
ghost use Rattle.krb_kdc_exchanges.specs.Call.{CallRecord};
ghost use Rattle.krb_kdc_exchanges.specs.Calls.{IsCall};
ghost use Rattle.krb_messages.specs.Padata.{padata_in};
ghost use Rattle.krb_messages.specs.Messages.{IsAsReq};
ghost use Rattle.krb_messages.specs.declared.messages.kdc_req.KdcReq.{KdcReq};
ghost use Rattle.krb_messages.specs.Padata.{first_of};
ghost use Rattle.krb_kdc_exchanges.specs.Involved.{IsOfInvolvedAlone};
ghost use Rattle.krb_kdc_exchanges.specs.Replies.{Replies};
ghost use Rattle.picky_asn1.specs.Bytes.{Bytes};
ghost use Rattle.pkinit_messages.specs.declared.pa_pk_as_req.PaPkAsReq.{PaPkAsReq};
ghost use Rattle.pkinit_validation.specs.AuthPacks.{IsPaPkAsReq};
ghost use Rattle.pkinit_validation.specs.PkinitRows.{pkinit_rows};
ghost use Rattle.pkinit_validation.specs.Trust.{TrustRecord};
ghost use Rattle.pkinit_validation.specs.Certificates.{IsCertificate, ReadRecord};

pub use krb_kdc_exchanges::as_exchange::laws::{as_body_is_part, padata_is_part};
pub use krb_kdc_exchanges::tgs_exchange::laws::body_is_part;
pub use pkinit_validation::laws::judged_is_part;

/// Realms of one name and of the same settings and key functions, which agree on the accounts involved in a request, reply to it
/// equally, whatever other accounts they have: to an AS request the accounts of the client and of the service that it names, to
/// a TGS request those of the ticket-granting service, of the service and of the ticket's client. It does nothing when it
/// runs: its contract is the law.
pub fn of_involved_alone()
    ensures { (trust : TrustRecord) (keys : KeysRecord) → IsOfInvolvedAlone (pkinit_rows trust keys) }
{}

/// A realm has one reply at most to a message at a moment. It does nothing when it runs: its contract is the law.
pub fn one_reply()
    ensures { (call : CallRecord) (trust : TrustRecord) (keys : KeysRecord) (request : List ℕ) (a b : Option (List ℕ))
        → Replies call (pkinit_rows trust keys) request a → Replies call (pkinit_rows trust keys) request b → a ≡ b }
{}

/// A realm has a reply to each request of fewer than 2^64 bytes, and every slice is shorter: it can't be that the realm's
/// table gives nothing. It does nothing when it runs: its contract is the law.
pub fn has_reply()
    ensures { (call : CallRecord) (trust : TrustRecord) (keys : KeysRecord) (request : List ℕ)
        → IsCall call → IsBytes request → length request < 2 ^ 64 → HasSome (Replies call (pkinit_rows trust keys) request) }
{}

/// What the two signatures of a request by certificate are verified over is in the request's own bytes: the signed attributes of
/// the signed content in the first padata PA-PK-AS-REQ, and the signed part of the certificate in it, however the certificate is
/// spelled (RFC 4556, section 3.2.1). The padata are at the request's `0, 2, 0`, and `entry` counts them. It does nothing when it
/// runs: its contract is the law.
pub fn verified_is_part()
    ensures attributes { (bytes padata : Bytes) (asked : KdcReq) (request : PaPkAsReq) (content : SignedParts) → IsAsReq bytes asked → first_of PA_PK_AS_REQ (padata_in asked) ≡ Some padata
        → IsPaPkAsReq padata request → IsSignedContent request.signed_auth_pack.0 content
        → ((entry : ℕ) × IsPart bytes (0 ∷ 2 ∷ 0 ∷ entry ∷ 1 ∷ 0 ∷ 0 ∷ 0 ∷ 0 ∷ attributes_place) content.signed_attributes) }
    ensures certificate { (bytes padata : Bytes) (asked : KdcReq) (request : PaPkAsReq) (content : SignedParts) (read : ReadRecord) → IsAsReq bytes asked → first_of PA_PK_AS_REQ (padata_in asked) ≡ Some padata
        → IsPaPkAsReq padata request → IsSignedContent request.signed_auth_pack.0 content → IsCertificate content.certificate read
        → ((entry : ℕ) × IsPart bytes (0 ∷ 2 ∷ 0 ∷ entry ∷ 1 ∷ 0 ∷ 0 ∷ 0 ∷ 0 ∷ (certificate_place ++ 0 ∷ [])) read.signed) }
{
    padata_is_part();
    judged_is_part();
}
