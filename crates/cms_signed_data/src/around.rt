//! Signed data around a certificate's bytes.
ghost use Rattle.std.specs.Prelude.{◌≡◌, ℕ, IfOk};
ghost use Rattle.x509_certificates.specs.declared.certificate.Certificate.{Certificate};
ghost use Rattle.cms_signed_data.specs.declared.signer_info.SignerInfo.{SignerInfo};
ghost use Rattle.cms_signed_data.specs.Around.{IsDataAround, IsInfoAround};

use crate::assembling::{element_of, sequence_of, spelled};
use crate::signer_info::SignerInfo;
use crate::written_parts::{encapsulated_bytes, sha256_bytes, signed_data_oid};
use asn1_der::octets::{CONTEXT_0, SET};
use picky_asn1::oid::ObjectIdentifier;
use std::alloc::{AllocError, Global};
use x509_certificates::Certificate;
use x509_spelling::Spelled;

/// Signed data with this content and the given spellings of a certificate and of a signer.
pub(crate) fn info_around(
    alloc: Global,
    content_type: &ObjectIdentifier,
    content: &[u8],
    certificate: &[u8],
    signer: &[u8],
) -> Result<Vec<u8>, AllocError>
    ensures { IfOk result (λ bytes. (value : Certificate) (n : ℕ) (made : SignerInfo)
        → ⟦<Certificate as Spelled>⟧.spells value certificate.now n → ⟦<SignerInfo as Spelled>⟧.spells made signer.now 0
        → IsInfoAround content_type.now content.now value n made certificate.now bytes.items) }
{
    let signed = data_around(alloc, content_type, content, certificate, signer)?;
    let tagged = element_of(alloc, CONTEXT_0, &signed)?;
    let oid = signed_data_oid(alloc)?;
    let bytes = sequence_of(alloc, &[oid.as_slice(), tagged.as_slice()])?;
    Ok(bytes)
}

// The SignedData alone, without the ContentInfo around it.
fn data_around(
    alloc: Global,
    content_type: &ObjectIdentifier,
    content: &[u8],
    certificate: &[u8],
    signer: &[u8],
) -> Result<Vec<u8>, AllocError>
    ensures { IfOk result (λ bytes. (value : Certificate) (n : ℕ) (made : SignerInfo)
        → ⟦<Certificate as Spelled>⟧.spells value certificate.now n → ⟦<SignerInfo as Spelled>⟧.spells made signer.now 0
        → IsDataAround content_type.now content.now value n made certificate.now bytes.items) }
{
    let version = spelled(alloc, &3u8)?;
    let digest_algorithm = sha256_bytes(alloc)?;
    let digest_algorithms = element_of(alloc, SET, &digest_algorithm)?;
    let encapsulated = encapsulated_bytes(alloc, content_type, content)?;
    let certificates = element_of(alloc, CONTEXT_0, certificate)?;
    let signers = element_of(alloc, SET, signer)?;
    let bytes = sequence_of(
        alloc,
        &[
            version.as_slice(),
            digest_algorithms.as_slice(),
            encapsulated.as_slice(),
            certificates.as_slice(),
            signers.as_slice(),
        ],
    )?;
    Ok(bytes)
}
