//! What holds of all signed content.
ghost use Rattle.std.specs.Prelude.{◌≡◌, ◌⊎◌, ℕ, List, Option, Result, Ok, Err};
ghost use Rattle.asn1_der.specs.Length.{element};
ghost use Rattle.asn1_der.specs.Tree.{der};
ghost use Rattle.picky_asn1_der.specs.Parts.{IsPart};
ghost use Rattle.x509_keys.specs.declared.functions.Signed.{Signed};
ghost use Rattle.cms_signed_data.specs.Parts.{content_place, digest_place, signature_place};
ghost use Rattle.cms_signed_data.specs.SignedContents.{IsSignedContent, Reads};
ghost use Rattle.cms_signed_data.specs.WrittenLaws.{written_parts};
ghost use Rattle.cms_signed_data.specs.SignedParts.{SignedParts, content_of, digest_of, signature_of, attributes_tree};
ghost use Rattle.cms_signed_data.specs.Written.{IsWritten};
ghost use Rattle.asn1_der.specs.Octets.{octet_string_octet};

use crate::fault::SignedFault;
use x509_certificates::Certificate;
use x509_spelling::Spelled;

/// Bytes are one signed content at most, with one certificate and one list of signed attributes. It does nothing when it runs: its
/// contract is the law.
pub fn one_signed_content()
    ensures { (bytes : List ℕ) (parts other : SignedParts) → IsSignedContent bytes parts → IsSignedContent bytes other → parts ≡ other }
{}

/// The certificate's bytes are a spelling of the value's certificate. The bytes of the signed attributes are their DER. The octets
/// of content, digest and signature are in the bytes. It does nothing when it runs: its contract is the law.
pub fn parts_are_spelled()
    ensures certificate { (bytes : List ℕ) (parts : SignedParts) → IsSignedContent bytes parts
        → (n : ℕ) × ⟦<Certificate as Spelled>⟧.spells parts.info.content.0.certificates.0 parts.certificate n }
    ensures attributes { (bytes : List ℕ) (parts : SignedParts) → IsSignedContent bytes parts
        → parts.signed_attributes ≡ der (attributes_tree parts.info.content.0.signer_infos.0.signed_attributes) }
    ensures content { (bytes : List ℕ) (parts : SignedParts) → IsSignedContent bytes parts → IsPart bytes content_place (element octet_string_octet (content_of parts.info)) }
    ensures digest { (bytes : List ℕ) (parts : SignedParts) → IsSignedContent bytes parts → IsPart bytes digest_place (element octet_string_octet (digest_of parts.info)) }
    ensures signature { (bytes : List ℕ) (parts : SignedParts) → IsSignedContent bytes parts → IsPart bytes signature_place (element octet_string_octet (signature_of parts.info)) }
{}

/// What is written is read back: type, content, the given certificate, its issuer and serial number, the SHA-256 of the content,
/// and the signature. It does nothing when it runs: its contract is the law.
pub fn written_is_read()
    ensures { (sign : List ℕ → Option Signed) (content_type content given bytes : List ℕ) (w : IsWritten sign content_type content given bytes) (answer : Result SignedParts SignedFault)
        → Reads (IsSignedContent bytes) answer → (answer ≡ Err SignedFault.Memory) ⊎ (answer ≡ Ok (written_parts sign content_type content given bytes w)) }
{}
