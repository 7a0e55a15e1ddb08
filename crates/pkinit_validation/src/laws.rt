//! What holds of all requests by certificate.
ghost use Rattle.std.specs.Prelude.{[], ◌∷◌, ◌++◌};
ghost use Rattle.picky_asn1_der.specs.Parts.{IsPart};
ghost use Rattle.picky_asn1.specs.Bytes.{Bytes};
ghost use Rattle.cms_signed_data.specs.Parts.{attributes_place, certificate_place};
ghost use Rattle.cms_signed_data.specs.SignedContents.{IsSignedContent};
ghost use Rattle.cms_signed_data.specs.SignedParts.{SignedParts};
ghost use Rattle.pkinit_messages.specs.declared.pa_pk_as_req.PaPkAsReq.{PaPkAsReq};
ghost use Rattle.pkinit_validation.specs.Certificates.{IsCertificate, ReadRecord};
ghost use Rattle.pkinit_validation.specs.AuthPacks.{IsPaPkAsReq};

/// What the two signatures of a request cover is in the padata's own bytes: the signed attributes of its signed content, and
/// the signed part of the certificate in it, however the certificate is spelled. Inside the SEQUENCE the first element holds the
/// signed content, as the content of an OCTET STRING. It does nothing when it runs: its contract is the law.
pub fn judged_is_part()
    ensures attributes { (padata : Bytes) (request : PaPkAsReq) (content : SignedParts) → IsPaPkAsReq padata request → IsSignedContent request.signed_auth_pack.0 content
        → IsPart padata (0 ∷ 0 ∷ attributes_place) content.signed_attributes }
    ensures certificate { (padata : Bytes) (request : PaPkAsReq) (content : SignedParts) (read : ReadRecord) → IsPaPkAsReq padata request → IsSignedContent request.signed_auth_pack.0 content
        → IsCertificate content.certificate read → IsPart padata (0 ∷ 0 ∷ (certificate_place ++ 0 ∷ [])) read.signed }
{}
