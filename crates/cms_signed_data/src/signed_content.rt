//! Signed content of one form: what is borrowed of its bytes, and how it is written.
ghost use Rattle.std.specs.Prelude.{◌≡◌, ◌⊎◌, ℕ, IsTrue, MatchOption, MatchResult};
ghost use Rattle.cms_signed_data.specs.SignedContents.{IsSignedContent, Reads};
ghost use Rattle.x509_codec.specs.Covered.{as_set};
ghost use Rattle.cms_signed_data.specs.SignedParts.{content_of, digest_of, signature_of};
ghost use Rattle.cms_signed_data.specs.Written.{IsWritten, IsUnsigned, IsNoCertificate};

use crate::around::info_around;
use crate::content_info::ContentInfo;
use crate::fault::SignedFault;
use crate::form::OfForm;
use crate::slices::Slices;
use crate::written_parts::{attribute_bytes, signer_bytes, signer_id};
use picky_asn1::oid::ObjectIdentifier;
use picky_asn1::wrapper::IntegerAsn1;
use std::alloc::Global;
use std::marker::Model;
use x509_algorithms::AlgorithmIdentifier;
use x509_codec::{as_set, from_bytes};
use x509_fields::Name;
use x509_keys::KeyFunctions;

/// Signed data of one content, one certificate and one signer, with the parts of its bytes that are judged. A contract sees the
/// value, the certificate's bytes and those of the signed attributes.
#[derive(Drop)]
pub struct SignedContent<'a> {
    info: ContentInfo,
    slices: Slices<'a>,
    covered: Vec<u8>,
}

impl<'a> Model for SignedContent<'a> {
    ghost use Rattle.std.specs.Prelude.{◌≡◌};
    ghost use Rattle.x509_codec.specs.Covered.{as_set};
    ghost use Rattle.cms_signed_data.specs.SignedParts.{SignedParts, content_of, digest_of, signature_of};

    ghost Value = { SignedParts };

    ghost view = { λ s. record { info = s.info; certificate = s.slices.certificate.now; signed_attributes = s.slices.signed_attributes.now } };

    ghost invariant = { λ s. (s.slices.content.now ≡ content_of s.info) × (s.slices.digest.now ≡ digest_of s.info)
        × (s.slices.signature.now ≡ signature_of s.info) × (s.covered.items ≡ as_set s.slices.signed_attributes.now) };
}

impl<'a> SignedContent<'a> {
    /// The signed content that the whole input is, if it is of the one form: certificate and algorithms may deviate from DER.
    ///
    /// `Unreadable` if it isn't. So are crls, unsignedAttrs, further attributes, another order of them, and a second value of an
    /// attribute. So is a SHA-256 with parameters other than NULL.
    pub fn read(alloc: Global, bytes: &'a [u8]) -> Result<SignedContent<'a>, SignedFault>
        ensures { Reads (IsSignedContent bytes.now) result }
    {
        let Some(slices) = Slices::of_bytes(bytes) else {
            return Err(SignedFault::Unreadable);
        };
        let covered = as_set(alloc, slices.signed_attributes)?;
        let info: ContentInfo = read_of_form(alloc, bytes)?;
        Ok(SignedContent {
            info,
            slices,
            covered,
        })
    }

    /// Frees what the signed content holds.
    pub fn release(self) {}

    /// The content's type.
    pub fn content_type(&self) -> &ObjectIdentifier
        ensures { result.now ≡ self.now.info.content.0.encap_content_info.content_type.0 }
    {
        &self.info.content.0.encap_content_info.content_type.0
    }

    /// The content's octets.
    pub fn content(&self) -> &'a [u8]
        ensures { result.now ≡ content_of self.now.info }
    {
        self.slices.content
    }

    /// The signer's certificate as it is in the input, in whatever spelling.
    pub fn certificate(&self) -> &'a [u8]
        ensures { result.now ≡ self.now.certificate }
    {
        self.slices.certificate
    }

    /// The issuer of the signer's certificate, as the signer names it.
    pub fn issuer(&self) -> &Name
        ensures { result.now ≡ self.now.info.content.0.signer_infos.0.sid.issuer }
    {
        &self.info.content.0.signer_infos.0.sid.issuer
    }

    /// The serial number of the signer's certificate, as the signer names it.
    pub fn serial(&self) -> &IntegerAsn1
        ensures { result.now ≡ self.now.info.content.0.signer_infos.0.sid.serial_number }
    {
        &self.info.content.0.signer_infos.0.sid.serial_number
    }

    /// The signed attributes as they are in the input, under the tag [0].
    pub fn signed_attributes(&self) -> &'a [u8]
        ensures { result.now ≡ self.now.signed_attributes }
    {
        self.slices.signed_attributes
    }

    /// The digest of the content, as the signed attributes have it.
    pub fn digest(&self) -> &'a [u8]
        ensures { result.now ≡ digest_of self.now.info }
    {
        self.slices.digest
    }

    /// The signature algorithm.
    pub fn algorithm(&self) -> &AlgorithmIdentifier
        ensures { result.now ≡ self.now.info.content.0.signer_infos.0.signature_algorithm }
    {
        &self.info.content.0.signer_infos.0.signature_algorithm
    }

    /// The signature.
    pub fn signature(&self) -> &'a [u8]
        ensures { result.now ≡ signature_of self.now.info }
    {
        self.slices.signature
    }

    /// What the signature covers: the signed attributes as they are in the input, with the identifier octet of a SET OF in
    /// place of that of [0] (RFC 5652, section 5.4).
    pub fn covered(&self) -> &[u8]
        ensures { result.now ≡ as_set self.now.signed_attributes }
    {
        self.covered.as_slice()
    }

    /// Signed content in DER around the unchanged bytes of the certificate, with the SHA-256 of the content, signed by `keys`.
    ///
    /// `Unreadable` if the bytes are no certificate. `None` if the party doesn't sign.
    pub fn write<K: KeyFunctions>(
        alloc: Global,
        content_type: &ObjectIdentifier,
        content: &[u8],
        certificate: &[u8],
        keys: &K,
    ) -> Result<Option<Vec<u8>>, SignedFault>
        ensures { MatchResult result
            (λ written. MatchOption written
            (IsUnsigned (K.functions keys.now).sign content_type.now content.now certificate.now)
            (λ bytes. IsWritten (K.functions keys.now).sign content_type.now content.now certificate.now bytes.items))
            (λ fault. (fault ≡ SignedFault.Memory) ⊎ ((fault ≡ SignedFault.Unreadable) × IsNoCertificate certificate.now)) }
    {
        let id = signer_id(alloc, certificate)?;
        let attributes = attribute_bytes(alloc, content_type, content)?;
        let covered = as_set(alloc, &attributes)?;
        let Some(signed) = keys.sign(alloc, &covered)? else {
            return Ok(None);
        };
        let signer = signer_bytes(alloc, &id, &attributes, signed)?;
        let bytes = info_around(alloc, content_type, content, certificate, &signer)?;
        Ok(Some(bytes))
    }
}

// The value that the bytes spell, if it is of the form. Generic, so that a large type's drop isn't spelled out on each way out.
fn read_of_form<T: OfForm + Drop>(alloc: Global, bytes: &[u8]) -> Result<T, SignedFault>
    ensures { Reads (λ value. ((n : ℕ) × T.spells value bytes.now n) × IsTrue (T.has value)) result }
{
    let value: T = from_bytes(alloc, bytes)?;
    if !value.is_of_form() {
        return Err(SignedFault::Unreadable);
    }
    Ok(value)
}
