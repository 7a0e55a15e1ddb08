//! Laws of every AS request.
ghost use Rattle.std.specs.Prelude.{◌≡◌, ℕ, List, [], ◌∷◌, Some, IsSome};
ghost use Rattle.asn1_der.specs.Length.{element};
ghost use Rattle.krb_kdc_exchanges.specs.Requests.{body_of};
ghost use Rattle.krb_messages.specs.Padata.{padata_in};
ghost use Rattle.krb_messages.specs.Bodies.{body_bytes};
ghost use Rattle.krb_messages.specs.Messages.{IsAsReq};
ghost use Rattle.krb_messages.specs.declared.messages.kdc_req.KdcReq.{KdcReq};
ghost use Rattle.krb_messages.specs.Padata.{first_of};
ghost use Rattle.picky_asn1.specs.Bytes.{Bytes};
ghost use Rattle.picky_asn1_der.specs.Parts.{IsPart};
ghost use Rattle.asn1_der.specs.Octets.{octet_string_octet};

/// What the checksum of a PKINIT authenticator is computed over, the one encoding of the request's body, is in the request's
/// own bytes (RFC 4556, section 3.2.1). Its place leads to nothing else. The place is the SEQUENCE's element number 3, counted
/// from 0, and what its tag holds (RFC 4120, section 5.4.1). It does nothing when it runs: its contract is the law.
pub fn as_body_is_part()
    ensures part { (bytes : Bytes) (request : KdcReq) → IsAsReq bytes request → IsSome request.padata.0
        → IsPart bytes (0 ∷ 3 ∷ 0 ∷ []) (body_bytes (body_of request)) }
    ensures one { (bytes part : Bytes) (request : KdcReq) → IsAsReq bytes request → IsSome request.padata.0
        → IsPart bytes (0 ∷ 3 ∷ 0 ∷ []) part → part ≡ body_bytes (body_of request) }
{}

/// The data of the first padata of a type is in the request's own bytes, as an OCTET STRING in one of the entries, and so is
/// each part of the data. The entries are the SEQUENCE's element number 2 (RFC 4120, sections 5.2.7 and 5.4.1). It does nothing
/// when it runs: its contract is the law.
pub fn padata_is_part()
    ensures { (bytes padata : Bytes) (kind : ℕ) (request : KdcReq) → IsAsReq bytes request → first_of kind (padata_in request) ≡ Some padata
        → ((entry : ℕ) × IsPart bytes (0 ∷ 2 ∷ 0 ∷ entry ∷ 1 ∷ 0 ∷ []) (element octet_string_octet padata)
        × ((n : ℕ) (path : List ℕ) (part : Bytes) → IsPart padata (n ∷ path) part → IsPart bytes (0 ∷ 2 ∷ 0 ∷ entry ∷ 1 ∷ 0 ∷ 0 ∷ n ∷ path) part)) }
{}
