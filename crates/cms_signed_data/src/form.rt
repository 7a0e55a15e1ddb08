//! The one form of signed data: what its types leave open.
ghost use Rattle.std.specs.Prelude.{◌≡◌, Bool, List};
ghost use Rattle.std.specs.Bool.{nat_eq};
ghost use Rattle.std.specs.Cmp.Lexicographic.{pointwise};
ghost use Rattle.asn1_leaves.specs.ObjectIdentifier.{oid_content};
ghost use Rattle.x509_fields.specs.RawParameters.{is_null};
ghost use Rattle.cms_signed_data.specs.Form.{signed_data_id, content_type_id, message_digest_id, sha256_id, is_sha256, are_attributes, is_signer, is_signed, has_form};

use crate::content_info::ContentInfo;
use crate::encapsulated_content_info::EncapsulatedContentInfo;
use crate::signed_attributes::{ContentTypeAttribute, SignedAttributes};
use crate::signed_data::SignedData;
use crate::signer_info::{IssuerAndSerialNumber, SignerInfo};
use picky_asn1::wrapper::{ObjectIdentifierAsn1, OctetStringAsn1};
use x509_algorithms::AlgorithmIdentifier;
use x509_certificates::Certificate;
use x509_fields::RawAlgorithmIdentifier;
use x509_spelling::Spelled;

/// Values that may be of a form. `spellings` says how the parts of signed data are spelled in them.
pub trait OfForm: Spelled {
    ghost use Rattle.cms_signed_data.specs.PartSpellings.{PartSpellings};

    ghost has: { Self → Bool };

    ghost spellings: { PartSpellings };

    /// Whether the value is of the form.
    fn is_of_form(&self) -> bool
        ensures { result ≡ has self.now };
}

impl OfForm for ContentInfo {
    ghost use Rattle.std.proofs.Common.{refl, true};
    ghost use Rattle.asn1_der.specs.Tree.{der};
    ghost use Rattle.asn1_leaves.specs.ObjectIdentifier.{is_object_identifier};
    ghost use Rattle.cms_signed_data.specs.Form.{has_form};
    ghost use Rattle.cms_signed_data.specs.SpelledElements.{spells_elements};
    ghost use Rattle.cms_signed_data.specs.PartSpellings.{PartSpellings, content_at, digest_at};

    ghost has = { has_form };

    ghost spellings = { record {
      oid = ⟦<ObjectIdentifierAsn1 as Spelled>⟧.spells;
      oid_are = spells_elements ⟦<ObjectIdentifierAsn1 as Spelled>⟧.has_low_tags ⟦<ObjectIdentifierAsn1 as Spelled>⟧.begun ⟦<ObjectIdentifierAsn1 as Spelled>⟧.written ⟦<ObjectIdentifierAsn1 as Spelled>⟧.spells ⟦<ObjectIdentifierAsn1 as Spelled>⟧.laws (refl {a = true});
      version = ⟦<u8 as Spelled>⟧.spells;
      version_are = spells_elements ⟦<u8 as Spelled>⟧.has_low_tags ⟦<u8 as Spelled>⟧.begun ⟦<u8 as Spelled>⟧.written ⟦<u8 as Spelled>⟧.spells ⟦<u8 as Spelled>⟧.laws (refl {a = true});
      digest_algorithm = ⟦<RawAlgorithmIdentifier as Spelled>⟧.spells;
      digest_algorithm_are = spells_elements ⟦<RawAlgorithmIdentifier as Spelled>⟧.has_low_tags ⟦<RawAlgorithmIdentifier as Spelled>⟧.begun ⟦<RawAlgorithmIdentifier as Spelled>⟧.written ⟦<RawAlgorithmIdentifier as Spelled>⟧.spells ⟦<RawAlgorithmIdentifier as Spelled>⟧.laws (refl {a = true});
      encapsulated = ⟦<EncapsulatedContentInfo as Spelled>⟧.spells;
      encapsulated_are = spells_elements ⟦<EncapsulatedContentInfo as Spelled>⟧.has_low_tags ⟦<EncapsulatedContentInfo as Spelled>⟧.begun ⟦<EncapsulatedContentInfo as Spelled>⟧.written ⟦<EncapsulatedContentInfo as Spelled>⟧.spells ⟦<EncapsulatedContentInfo as Spelled>⟧.laws (refl {a = true});
      certificate = ⟦<Certificate as Spelled>⟧.spells;
      certificate_are = spells_elements ⟦<Certificate as Spelled>⟧.has_low_tags ⟦<Certificate as Spelled>⟧.begun ⟦<Certificate as Spelled>⟧.written ⟦<Certificate as Spelled>⟧.spells ⟦<Certificate as Spelled>⟧.laws (refl {a = true});
      sid = ⟦<IssuerAndSerialNumber as Spelled>⟧.spells;
      sid_are = spells_elements ⟦<IssuerAndSerialNumber as Spelled>⟧.has_low_tags ⟦<IssuerAndSerialNumber as Spelled>⟧.begun ⟦<IssuerAndSerialNumber as Spelled>⟧.written ⟦<IssuerAndSerialNumber as Spelled>⟧.spells ⟦<IssuerAndSerialNumber as Spelled>⟧.laws (refl {a = true});
      attributes = ⟦<SignedAttributes as Spelled>⟧.spells;
      attributes_are = spells_elements ⟦<SignedAttributes as Spelled>⟧.has_low_tags ⟦<SignedAttributes as Spelled>⟧.begun ⟦<SignedAttributes as Spelled>⟧.written ⟦<SignedAttributes as Spelled>⟧.spells ⟦<SignedAttributes as Spelled>⟧.laws (refl {a = true});
      algorithm = ⟦<AlgorithmIdentifier as Spelled>⟧.spells;
      algorithm_are = spells_elements ⟦<AlgorithmIdentifier as Spelled>⟧.has_low_tags ⟦<AlgorithmIdentifier as Spelled>⟧.begun ⟦<AlgorithmIdentifier as Spelled>⟧.written ⟦<AlgorithmIdentifier as Spelled>⟧.spells ⟦<AlgorithmIdentifier as Spelled>⟧.laws (refl {a = true});
      octets = ⟦<OctetStringAsn1 as Spelled>⟧.spells;
      octets_are = spells_elements ⟦<OctetStringAsn1 as Spelled>⟧.has_low_tags ⟦<OctetStringAsn1 as Spelled>⟧.begun ⟦<OctetStringAsn1 as Spelled>⟧.written ⟦<OctetStringAsn1 as Spelled>⟧.spells ⟦<OctetStringAsn1 as Spelled>⟧.laws (refl {a = true});
      octets_is = λ v b n s. s.0.1;
      content_there = λ v b n s. content_at (is_object_identifier v.content_type.0) (oid_content v.content_type.0) v.content.0 b s.0.0 s.0.1;
      digest_there = λ v b n s. digest_at (is_object_identifier v.message_digest.ty.0) (oid_content v.message_digest.ty.0) v.message_digest.values.0
          (⟦<ContentTypeAttribute as Spelled>⟧.written v.content_type) b
          (spells_elements ⟦<ContentTypeAttribute as Spelled>⟧.has_low_tags ⟦<ContentTypeAttribute as Spelled>⟧.begun ⟦<ContentTypeAttribute as Spelled>⟧.written ⟦<ContentTypeAttribute as Spelled>⟧.spells ⟦<ContentTypeAttribute as Spelled>⟧.laws (refl {a = true})
          v.content_type (der (⟦<ContentTypeAttribute as Spelled>⟧.written v.content_type)) 0 ((s.0.0.0, refl), refl)) s.0.0 s.0.1;
    } };

    fn is_of_form(&self) -> bool {
        is_content_info_of_form(self)
    }
}

#[tactic(auto, unfolding(crate::specs::Form::has_form))]
fn is_content_info_of_form(info: &ContentInfo) -> bool
    ensures { result ≡ has_form info.now }
{
    is_id(
        &info.content_type,
        &[0x2A, 0x86, 0x48, 0x86, 0xF7, 0x0D, 1, 7, 2],
    ) && is_signed_data_of_form(&info.content.0)
}

#[tactic(auto, unfolding(crate::specs::Form::is_signed))]
fn is_signed_data_of_form(signed: &SignedData) -> bool
    ensures { result ≡ is_signed signed.now }
{
    signed.version == 3
        && is_sha256_algorithm(&signed.digest_algorithms.0)
        && is_signer_of_form(
            &signed.signer_infos.0,
            &signed.encap_content_info.content_type,
        )
}

#[tactic(auto, unfolding(crate::specs::Form::is_signer))]
fn is_signer_of_form(signer: &SignerInfo, content_type: &ObjectIdentifierAsn1) -> bool
    ensures { result ≡ is_signer content_type.now signer.now }
{
    signer.version == 1
        && is_sha256_algorithm(&signer.digest_algorithm)
        && are_attributes_of_form(&signer.signed_attributes, content_type)
}

#[tactic(auto, unfolding(crate::specs::Form::are_attributes))]
fn are_attributes_of_form(
    attributes: &SignedAttributes,
    content_type: &ObjectIdentifierAsn1,
) -> bool
    ensures { result ≡ are_attributes content_type.now attributes.now }
{
    is_id(
        &attributes.content_type.ty,
        &[0x2A, 0x86, 0x48, 0x86, 0xF7, 0x0D, 1, 9, 3],
    ) && is_id(
        &attributes.message_digest.ty,
        &[0x2A, 0x86, 0x48, 0x86, 0xF7, 0x0D, 1, 9, 4],
    ) && is_same(&attributes.content_type.values.0, content_type)
}

#[tactic(auto, unfolding(crate::specs::Form::is_sha256))]
fn is_sha256_algorithm(algorithm: &RawAlgorithmIdentifier) -> bool
    ensures { result ≡ is_sha256 algorithm.now }
{
    is_id(
        algorithm.algorithm(),
        &[0x60, 0x86, 0x48, 1, 0x65, 3, 4, 2, 1],
    ) && has_null(algorithm)
}

// Whether the parameters are NULL, or missing: they are read as NULL.
fn has_null(algorithm: &RawAlgorithmIdentifier) -> bool
    ensures { result ≡ is_null algorithm.now.parameters.0 }
{
    match algorithm.parameters() {
        None => true,
        Some(_) => false,
    }
}

// Whether the identifier has these content octets.
fn is_id(oid: &ObjectIdentifierAsn1, content: &[u8]) -> bool
    ensures { result ≡ pointwise nat_eq (oid_content oid.now.0) content.now }
{
    oid.0.as_bytes() == content
}

fn is_same(oid: &ObjectIdentifierAsn1, other: &ObjectIdentifierAsn1) -> bool
    ensures { result ≡ pointwise nat_eq oid.now.0 other.now.0 }
{
    oid.0 == other.0
}
