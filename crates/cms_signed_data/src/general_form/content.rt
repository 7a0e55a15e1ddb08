//! Signed data of the general form.
ghost use Rattle.std.specs.Prelude.{◌≡◌, ◌⊎◌, None, Some, IfOk, MatchResult};
ghost use Rattle.picky_asn1_der.specs.Found.{IsFound};
ghost use Rattle.x509_codec.specs.Covered.{as_set};
ghost use Rattle.cms_signed_data.specs.SignedContents.{Reads};
ghost use Rattle.cms_signed_data.specs.GeneralForm.{held_in};
ghost use Rattle.cms_signed_data.specs.GeneralContents.{IsGeneralContent, IsGeneralInfo, attributes_bytes, attributes_der, content_of, signature_of};

use crate::SignedFault;
use crate::general_form::attributes::GeneralAttributes;
use crate::general_form::digest_algorithm::DigestAlgorithm;
use crate::general_form::form::held_in;
use crate::general_form::general_info::GeneralInfo;
use picky_asn1::oid::ObjectIdentifier;
use picky_asn1_der::{Asn1RawDer, RawElement, read_whole, to_vec};
use std::alloc::{AllocError, Global};
use std::marker::Model;
use x509_codec::as_set;

/// Signed data of one content and one signer, with the parts that are judged. A contract sees the value, the digest algorithm, and the
/// octets of the digest.
#[derive(Drop)]
pub struct GeneralContent {
    info: GeneralInfo,
    algorithm: DigestAlgorithm,
    digest: Vec<u8>,
    covered: Vec<u8>,
}

impl Model for GeneralContent {
    ghost use Rattle.std.specs.Prelude.{◌≡◌};
    ghost use Rattle.x509_codec.specs.Covered.{as_set};
    ghost use Rattle.cms_signed_data.specs.GeneralContents.{GeneralParts, attributes_bytes};

    ghost Value = { GeneralParts };

    ghost view = { λ c. record { info = c.info; algorithm = c.algorithm; digest = c.digest.items } };

    ghost invariant = { λ c. c.covered.items ≡ as_set (attributes_bytes c.info) };
}

// What is read of a value beside it: the digest algorithm, the digest, and the bytes that the signature covers.
#[derive(Drop)]
struct HeldParts {
    algorithm: DigestAlgorithm,
    digest: Vec<u8>,
    covered: Vec<u8>,
}

impl GeneralContent {
    /// The signed data that the whole input is, if it is of the general form.
    ///
    /// `Unreadable` if it isn't. So are crls, unsignedAttrs, several signers, a second attribute content-type or message-digest, a second
    /// value of one, and a digest algorithm that isn't known or has parameters other than NULL.
    pub fn read(alloc: Global, bytes: &[u8]) -> Result<GeneralContent, SignedFault>
        ensures { Reads (IsGeneralContent bytes.now) result }
    {
        let Some(info) = read_info(alloc, bytes)? else {
            return Err(SignedFault::Unreadable);
        };
        match parts_of(alloc, &info) {
            Ok(parts) => Ok(GeneralContent {
                info,
                algorithm: parts.algorithm,
                digest: parts.digest,
                covered: parts.covered,
            }),
            Err(fault) => {
                drop(info);
                Err(fault)
            }
        }
    }

    /// Frees what the signed data holds.
    pub fn release(self) {}

    /// The content's type.
    pub fn content_type(&self) -> &ObjectIdentifier
        ensures { result.now ≡ self.now.info.content.0.encap_content_info.content_type.0 }
    {
        &self.info.content.0.encap_content_info.content_type.0
    }

    /// The content's octets.
    pub fn content(&self) -> &[u8]
        ensures { result.now ≡ content_of self.now.info }
    {
        self.info.content.0.encap_content_info.content.0.as_bytes()
    }

    /// The certificates as whole elements, in their order.
    pub fn certificates(&self) -> &[Asn1RawDer]
        ensures { result.now ≡ self.now.info.content.0.certificates.0 }
    {
        self.info.content.0.certificates.0.as_slice()
    }

    /// The signer's certificate, as the signer names it.
    pub fn sid(&self) -> &RawElement
        ensures { result.now ≡ self.now.info.content.0.signer_infos.0.sid }
    {
        &self.info.content.0.signer_infos.0.sid
    }

    /// The digest algorithm.
    pub fn digest_algorithm(&self) -> DigestAlgorithm
        ensures { result ≡ self.now.algorithm }
    {
        self.algorithm
    }

    /// The digest of the content, as the signed attributes have it.
    pub fn digest(&self) -> &[u8]
        ensures { result.now ≡ self.now.digest }
    {
        self.digest.as_slice()
    }

    /// The signature algorithm as a whole element.
    pub fn signature_algorithm(&self) -> &Asn1RawDer
        ensures { result.now ≡ self.now.info.content.0.signer_infos.0.signature_algorithm }
    {
        &self.info.content.0.signer_infos.0.signature_algorithm
    }

    /// The signature.
    pub fn signature(&self) -> &[u8]
        ensures { result.now ≡ signature_of self.now.info }
    {
        self.info.content.0.signer_infos.0.signature.as_bytes()
    }

    /// What the signature covers: the signed attributes, with the identifier octet of a SET OF in place of that of [0] (RFC 5652, section
    /// 5.4).
    pub fn covered(&self) -> &[u8]
        ensures { result.now ≡ as_set (attributes_bytes self.now.info) }
    {
        self.covered.as_slice()
    }
}

// The ContentInfo that the bytes are, or `None`.
#[tactic(auto, unfolding(crate::specs::GeneralContents::IsGeneralInfo))]
fn read_info(alloc: Global, bytes: &[u8]) -> Result<Option<GeneralInfo>, AllocError>
    ensures { IfOk result (IsFound (IsGeneralInfo bytes.now)) }
{
    read_whole(alloc, bytes)
}

// The parts of a value of the general form.
fn parts_of(alloc: Global, info: &GeneralInfo) -> Result<HeldParts, SignedFault>
    ensures { MatchResult result
        (λ parts. (held_in info.now ≡ Some (parts.algorithm, parts.digest.items))
        × (parts.covered.items ≡ as_set (attributes_bytes info.now)))
        (λ fault. (fault ≡ SignedFault.Memory) ⊎ ((fault ≡ SignedFault.Unreadable) × (held_in info.now ≡ None))) }
{
    let Some((algorithm, digest)) = held_in(info) else {
        return Err(SignedFault::Unreadable);
    };
    let digest = Vec::from_slice(alloc, digest)?;
    let covered = covered_of(alloc, &info.content.0.signer_infos.0.signed_attributes)?;
    Ok(HeldParts {
        algorithm,
        digest,
        covered,
    })
}

// The bytes that the signature covers.
#[tactic(auto, unfolding(crate::specs::GeneralContents::attributes_der))]
fn covered_of(alloc: Global, attributes: &GeneralAttributes) -> Result<Vec<u8>, AllocError>
    ensures { IfOk result (λ covered. covered.items ≡ as_set (attributes_der attributes.now)) }
{
    let Ok(bytes) = to_vec(alloc, attributes) else {
        return Err(AllocError);
    };
    let covered = as_set(alloc, &bytes)?;
    Ok(covered)
}
