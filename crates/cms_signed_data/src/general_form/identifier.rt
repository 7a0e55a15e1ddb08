//! Which certificate a signer names (RFC 5652, section 5.3).
ghost use Rattle.std.specs.Prelude.{◌≡◌, IfOk};
ghost use Rattle.std.specs.Option.{option_copied};
ghost use Rattle.asn1_der.specs.Tree.{der};
ghost use Rattle.cms_signed_data.specs.Identifiers.{id_content, is_key_id, key_id_of, names, names_by_key, names_by_serial};

use asn1_der::octets::{CONTEXT_0, SEQUENCE};
use picky_asn1::wrapper::{IntegerAsn1, OctetStringAsn1};
use picky_asn1_der::{RawElement, Serialize, to_vec};
use std::alloc::{AllocError, Global};
use x509_certificates::Certificate;
use x509_fields::Name;

/// The identifier octet of an implicit tag [0] of an OCTET STRING.
pub(crate) const KEY_ID: u8 = 0x80;

/// Whether the signer's identifier names the certificate: by its issuer and serial number, or by its own extension subjectKeyIdentifier.
pub fn names(alloc: Global, sid: &RawElement, certificate: &Certificate) -> Result<bool, AllocError>
    ensures { IfOk result (λ is. is ≡ names sid.now certificate.now) }
{
    let by_serial = names_by_serial(alloc, sid, certificate)?;
    if by_serial {
        return Ok(true);
    }
    let by_key = names_by_key(alloc, sid, key_id_of(certificate))?;
    Ok(by_key)
}

// Whether this is the DER of the certificate's issuer and serial number.
#[tactic(auto, unfolding(crate::specs::Identifiers::names_by_serial))]
fn names_by_serial(
    alloc: Global,
    sid: &RawElement,
    certificate: &Certificate,
) -> Result<bool, AllocError>
    ensures { IfOk result (λ is. is ≡ names_by_serial sid.now certificate.now) }
{
    if sid.first() != SEQUENCE {
        return Ok(false);
    }
    let issued = &certificate.tbs_certificate;
    let content = id_content(alloc, &issued.issuer, &issued.serial_number)?;
    Ok(sid.content() == content.as_slice())
}

// The content octets of the DER of an issuer and a serial number.
#[tactic(auto, unfolding(crate::specs::Identifiers::id_content))]
fn id_content(alloc: Global, issuer: &Name, serial: &IntegerAsn1) -> Result<Vec<u8>, AllocError>
    ensures { IfOk result (λ content. content.items ≡ id_content (record { issuer = issuer.now; serial_number = serial.now })) }
{
    let mut content = der_of(alloc, issuer)?;
    let serial = der_of(alloc, serial)?;
    content.extend_from_slice(&serial)?;
    Ok(content)
}

// The certificate's own key identifier, if it has one.
fn key_id_of(certificate: &Certificate) -> Option<&OctetStringAsn1>
    ensures { option_copied result ≡ key_id_of certificate.now }
{
    certificate.subject_key_identifier()
}

// Whether this is the key identifier, if there is one.
fn names_by_key(
    alloc: Global,
    sid: &RawElement,
    key_id: Option<&OctetStringAsn1>,
) -> Result<bool, AllocError>
    ensures { IfOk result (λ is. is ≡ names_by_key sid.now (option_copied key_id.entry)) }
{
    match key_id {
        Some(key_id) => is_key_id(alloc, sid, key_id),
        None => Ok(false),
    }
}

// Whether this is the key identifier under the implicit tag [0] of RFC 5652, or under an explicit one.
#[tactic(auto, unfolding(crate::specs::Identifiers::is_key_id))]
fn is_key_id(alloc: Global, sid: &RawElement, key_id: &OctetStringAsn1) -> Result<bool, AllocError>
    ensures { IfOk result (λ is. is ≡ is_key_id sid.now key_id.now) }
{
    if sid.first() == KEY_ID {
        return Ok(sid.content() == key_id.as_bytes());
    }
    if sid.first() != CONTEXT_0 {
        return Ok(false);
    }
    let bytes = der_of(alloc, key_id)?;
    Ok(sid.content() == bytes.as_slice())
}

// The DER of a value.
fn der_of<T: Serialize>(alloc: Global, value: &T) -> Result<Vec<u8>, AllocError>
    ensures { IfOk result (λ bytes. bytes.items ≡ der (T.tree value.now)) }
{
    match to_vec(alloc, value) {
        Ok(bytes) => Ok(bytes),
        Err(_) => Err(AllocError),
    }
}
