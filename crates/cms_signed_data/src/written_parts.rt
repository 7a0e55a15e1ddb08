//! The parts of signed content, as they are written.
ghost use Rattle.std.specs.Prelude.{◌≡◌, ◌⊎◌, ℕ, IfOk, MatchResult};
ghost use Rattle.sha2.specs.Sha256.{sha256};
ghost use Rattle.asn1_der.specs.Tree.{IsWhole, der};
ghost use Rattle.x509_certificates.specs.declared.certificate.Certificate.{Certificate};
ghost use Rattle.cms_signed_data.specs.declared.signed_attributes.SignedAttributes.{SignedAttributes};
ghost use Rattle.cms_signed_data.specs.declared.signer_info.IssuerAndSerialNumber.{IssuerAndSerialNumber};
ghost use Rattle.cms_signed_data.specs.SignedParts.{attributes_tree};
ghost use Rattle.cms_signed_data.specs.Written.{sha256_algorithm, attributes_of, id_of, id_tree, encapsulated_of, signer_of, IsNoCertificate};
ghost use Rattle.x509_oids.specs.Identifiers as oids;

use crate::assembling::{der_of, sequence_of, spelled};
use crate::encapsulated_content_info::EncapsulatedContentInfo;
use crate::fault::SignedFault;
use crate::set_of_one::SetOfOne;
use crate::signed_attributes::{ContentTypeAttribute, MessageDigestAttribute, SignedAttributes};
use crate::signer_info::{IssuerAndSerialNumber, SignerInfo};
use picky_asn1::oid::ObjectIdentifier;
use picky_asn1::wrapper::{
    ExplicitContextTag0, IntegerAsn1, ObjectIdentifierAsn1, OctetStringAsn1,
};
use picky_asn1_der::ExplicitContextTag;
use sha2::{Digest, Sha256};
use std::alloc::{AllocError, Global};
use x509_algorithms::AlgorithmIdentifier;
use x509_certificates::Certificate;
use x509_codec::from_bytes;
use x509_fields::{Name, RawAlgorithmIdentifier};
use x509_keys::{Signed, has_encoding};
use x509_spelling::Spelled;

/// The DER of issuer and serial number of the certificate that the bytes spell.
pub(crate) fn signer_id(alloc: Global, certificate: &[u8]) -> Result<Vec<u8>, SignedFault>
    ensures { MatchResult result
        (λ id. (value : Certificate) × (n : ℕ) × ⟦<Certificate as Spelled>⟧.spells value certificate.now n × (id.items ≡ der (id_tree (id_of value))))
        (λ fault. (fault ≡ SignedFault.Memory) ⊎ ((fault ≡ SignedFault.Unreadable) × IsNoCertificate certificate.now)) }
{
    let value: Certificate = from_bytes(alloc, certificate)?;
    let issued = &value.tbs_certificate;
    let id = id_bytes(alloc, &issued.issuer, &issued.serial_number);
    drop(value);
    let id = id?;
    Ok(id)
}

// The DER of an issuer and a serial number.
fn id_bytes(alloc: Global, issuer: &Name, serial: &IntegerAsn1) -> Result<Vec<u8>, AllocError>
    ensures { IfOk result (λ id. id.items ≡ der (id_tree (record { issuer = issuer.now; serial_number = serial.now }))) }
{
    let issuer = der_of(alloc, issuer)?;
    let serial = der_of(alloc, serial)?;
    let id = sequence_of(alloc, &[issuer.as_slice(), serial.as_slice()])?;
    Ok(id)
}

/// The DER of the signed attributes of a content.
pub(crate) fn attribute_bytes(
    alloc: Global,
    content_type: &ObjectIdentifier,
    content: &[u8],
) -> Result<Vec<u8>, AllocError>
    ensures { IfOk result (λ bytes. (bytes.items ≡ der (attributes_tree (attributes_of content_type.now content.now)))
        × IsWhole (attributes_tree (attributes_of content_type.now content.now))) }
{
    let _octets = content_type.as_bytes();
    let attributes = signed_attributes(alloc, content_type, content)?;
    let bytes = der_of(alloc, &attributes)?;
    Ok(bytes)
}

fn signed_attributes(
    alloc: Global,
    content_type: &ObjectIdentifier,
    content: &[u8],
) -> Result<SignedAttributes, AllocError>
    ensures { IfOk result (λ attributes. attributes ≡ attributes_of content_type.now content.now) }
{
    let content_type = type_attribute(alloc, content_type)?;
    let message_digest = digest_attribute(alloc, content)?;
    Ok(SignedAttributes {
        content_type,
        message_digest,
    })
}

fn type_attribute(
    alloc: Global,
    content_type: &ObjectIdentifier,
) -> Result<ContentTypeAttribute, AllocError>
    ensures { IfOk result (λ attribute. attribute ≡ record { ty = record { 0 = oids.content_type }; values = record { 0 = record { 0 = content_type.now } } }) }
{
    let ty = x509_oids::content_type(alloc)?;
    let value = content_type.clone()?;
    Ok(ContentTypeAttribute {
        ty: ObjectIdentifierAsn1(ty),
        values: SetOfOne(ObjectIdentifierAsn1(value)),
    })
}

fn digest_attribute(alloc: Global, content: &[u8]) -> Result<MessageDigestAttribute, AllocError>
    ensures { IfOk result (λ attribute. attribute ≡ record { ty = record { 0 = oids.message_digest }; values = record { 0 = sha256 content.now } }) }
{
    let ty = x509_oids::message_digest(alloc)?;
    let digest = OctetStringAsn1::new(alloc, &sha256_of(content))?;
    Ok(MessageDigestAttribute {
        ty: ObjectIdentifierAsn1(ty),
        values: SetOfOne(digest),
    })
}

fn sha256_of(content: &[u8]) -> [u8; 32]
    ensures { result ≡ sha256 content.now }
{
    let mut hasher = Sha256::new();
    hasher.update(content);
    hasher.finalize()
}

/// The spelling of a signer with this issuer and serial number, these signed attributes, and this signature.
pub(crate) fn signer_bytes(
    alloc: Global,
    id: &[u8],
    attributes: &[u8],
    signed: Signed,
) -> Result<Vec<u8>, AllocError>
    ensures { IfOk result (λ bytes. (sid : IssuerAndSerialNumber) (held : SignedAttributes)
        → ⟦<IssuerAndSerialNumber as Spelled>⟧.spells sid id.now 0 → ⟦<SignedAttributes as Spelled>⟧.spells held attributes.now 0
        → ⟦<SignerInfo as Spelled>⟧.spells (signer_of sid held signed) bytes.items 0) }
{
    let bytes = lent_signer_bytes(alloc, id, attributes, &signed);
    drop(signed);
    bytes
}

fn lent_signer_bytes(
    alloc: Global,
    id: &[u8],
    attributes: &[u8],
    signed: &Signed,
) -> Result<Vec<u8>, AllocError>
    ensures { IfOk result (λ bytes. (sid : IssuerAndSerialNumber) (held : SignedAttributes)
        → ⟦<IssuerAndSerialNumber as Spelled>⟧.spells sid id.now 0 → ⟦<SignedAttributes as Spelled>⟧.spells held attributes.now 0
        → ⟦<SignerInfo as Spelled>⟧.spells (signer_of sid held signed.now) bytes.items 0) }
{
    let version = spelled(alloc, &1u8)?;
    let digest_algorithm = sha256_bytes(alloc)?;
    let algorithm = algorithm_bytes(alloc, &signed.algorithm)?;
    let signature = spelled(alloc, &signed.signature)?;
    let bytes = sequence_of(
        alloc,
        &[
            version.as_slice(),
            id,
            digest_algorithm.as_slice(),
            attributes,
            algorithm.as_slice(),
            signature.as_slice(),
        ],
    )?;
    Ok(bytes)
}

/// The spelling of SHA-256 with NULL.
pub(crate) fn sha256_bytes(alloc: Global) -> Result<Vec<u8>, AllocError>
    ensures { IfOk result (λ bytes. ⟦<RawAlgorithmIdentifier as Spelled>⟧.spells sha256_algorithm bytes.items 0) }
{
    let oid = x509_oids::sha256(alloc)?;
    let algorithm = RawAlgorithmIdentifier::from_parts(alloc, ObjectIdentifierAsn1(oid), None);
    let bytes = spelled(alloc, &algorithm)?;
    Ok(bytes)
}

// The spelling of an algorithm: each that a program holds has an encoding.
fn algorithm_bytes(alloc: Global, algorithm: &AlgorithmIdentifier) -> Result<Vec<u8>, AllocError>
    ensures { IfOk result (λ bytes. ⟦<AlgorithmIdentifier as Spelled>⟧.spells algorithm.now bytes.items 0) }
{
    has_encoding(algorithm);
    let bytes = spelled(alloc, algorithm)?;
    Ok(bytes)
}

/// The spelling of a content with its type.
pub(crate) fn encapsulated_bytes(
    alloc: Global,
    content_type: &ObjectIdentifier,
    content: &[u8],
) -> Result<Vec<u8>, AllocError>
    ensures { IfOk result (λ bytes. ⟦<EncapsulatedContentInfo as Spelled>⟧.spells (encapsulated_of content_type.now content.now) bytes.items 0) }
{
    let _octets = content_type.as_bytes();
    let encapsulated = encapsulated_content(alloc, content_type, content)?;
    let bytes = spelled(alloc, &encapsulated)?;
    Ok(bytes)
}

fn encapsulated_content(
    alloc: Global,
    content_type: &ObjectIdentifier,
    content: &[u8],
) -> Result<EncapsulatedContentInfo, AllocError>
    ensures { IfOk result (λ made. made ≡ encapsulated_of content_type.now content.now) }
{
    let content_type = content_type.clone()?;
    let octets = OctetStringAsn1::new(alloc, content)?;
    let content: ExplicitContextTag0<OctetStringAsn1> = ExplicitContextTag(octets);
    Ok(EncapsulatedContentInfo {
        content_type: ObjectIdentifierAsn1(content_type),
        content,
    })
}

/// The spelling of id-signedData.
pub(crate) fn signed_data_oid(alloc: Global) -> Result<Vec<u8>, AllocError>
    ensures { IfOk result (λ bytes. ⟦<ObjectIdentifierAsn1 as Spelled>⟧.spells (record { 0 = oids.signed_data }) bytes.items 0) }
{
    let arcs = x509_oids::signed_data(alloc)?;
    let bytes = spelled(alloc, &ObjectIdentifierAsn1(arcs))?;
    Ok(bytes)
}
