//! Says why a PA-PK-AS-REQ isn't read to its end: the rows of its table that end with KDC_ERR_PREAUTH_FAILED, each by its name.
ghost use Rattle.std.specs.Prelude.{◌≡◌, IfOk};
ghost use Rattle.std.specs.List.{list_all};
ghost use Rattle.pkinit_validation.specs.Diagnoses.{content_fault, is_field, octets_fault, pack_fault, request_fault, signed_fault, unread_fault};

use crate::fault::PkAsReqFault;
use crate::fields::{covers, time_in, value_in};
use crate::reading::{read_auth_pack, read_elements, read_pa_pk_as_req};
use crate::table::is_auth_data;
use cms_signed_data::{SignedContent, SignedFault};
use krb_messages::messages::KdcReqBody;
use picky_asn1_der::Asn1RawDer;
use pkinit_messages::AuthPack;
use std::alloc::{AllocError, Global};

/// The identifier octet of pkAuthenticator, the first field of an AuthPack.
const PK_AUTHENTICATOR: u8 = 0xA0;

/// The identifier octet of clientDHNonce, the last field of an AuthPack.
const CLIENT_DH_NONCE: u8 = 0xA3;

/// Why the padata-value of a PA-PK-AS-REQ with this body isn't read to its end, or none if it is: what comes after that is judged by
/// certificates, and has error codes of its own (RFC 4556, section 3.2.2).
pub fn request_fault(
    alloc: Global,
    body: &KdcReqBody,
    padata: &[u8],
) -> Result<Option<PkAsReqFault>, AllocError>
    ensures { IfOk result (request_fault body.now padata.now).gives }
{
    let Some(request) = read_pa_pk_as_req(alloc, padata)? else {
        return Ok(Some(PkAsReqFault::PaPkAsReq));
    };
    let fault = signed_fault(alloc, body, request.signed_auth_pack.0.as_bytes());
    drop(request);
    fault
}

// The same for the octets of signedAuthPack.
fn signed_fault(
    alloc: Global,
    body: &KdcReqBody,
    bytes: &[u8],
) -> Result<Option<PkAsReqFault>, AllocError>
    ensures { IfOk result (signed_fault body.now bytes.now).gives }
{
    match SignedContent::read(alloc, bytes) {
        Ok(content) => {
            let fault = content_fault(alloc, body, &content);
            content.release();
            fault
        }
        Err(SignedFault::Memory) => Err(AllocError),
        Err(SignedFault::Unreadable) => Ok(Some(PkAsReqFault::SignedAuthPack)),
    }
}

// The same for SignedData of the one form.
fn content_fault(
    alloc: Global,
    body: &KdcReqBody,
    content: &SignedContent<'_>,
) -> Result<Option<PkAsReqFault>, AllocError>
    ensures { IfOk result (content_fault body.now content.now).gives }
{
    if !is_auth_data(content) {
        return Ok(Some(PkAsReqFault::ContentType));
    }
    octets_fault(alloc, body, content.content())
}

// The same for an eContent of the right type.
fn octets_fault(
    alloc: Global,
    body: &KdcReqBody,
    octets: &[u8],
) -> Result<Option<PkAsReqFault>, AllocError>
    ensures { IfOk result (octets_fault body.now octets.now).gives }
{
    let Some(pack) = read_auth_pack(alloc, octets)? else {
        let fault = unread_fault(alloc, octets)?;
        return Ok(Some(fault));
    };
    let fault = pack_fault(alloc, body, &pack);
    drop(pack);
    fault
}

// The same for an AuthPack.
fn pack_fault(
    alloc: Global,
    body: &KdcReqBody,
    pack: &AuthPack<Asn1RawDer>,
) -> Result<Option<PkAsReqFault>, AllocError>
    ensures { IfOk result (λ fault. fault ≡ pack_fault body.now pack.now) }
{
    if value_in(pack).is_none() {
        return Ok(Some(PkAsReqFault::PublicValue));
    }
    if time_in(pack).is_none() {
        return Ok(Some(PkAsReqFault::Cusec));
    }
    if !covers(alloc, body, pack)? {
        return Ok(Some(PkAsReqFault::PaChecksum));
    }
    Ok(None)
}

// The fault of octets that are no AuthPack.
fn unread_fault(alloc: Global, bytes: &[u8]) -> Result<PkAsReqFault, AllocError>
    ensures { IfOk result (unread_fault bytes.now).gives }
{
    let Some(elements) = read_elements(alloc, bytes)? else {
        return Ok(PkAsReqFault::AuthPack);
    };
    let are_known = are_fields(elements.as_slice());
    drop(elements);
    if are_known {
        return Ok(PkAsReqFault::AuthPack);
    }
    Ok(PkAsReqFault::UnknownField)
}

// Whether each element is one of the four fields of an AuthPack.
fn are_fields(elements: &[Asn1RawDer]) -> bool
    ensures { result ≡ list_all is_field elements.now }
{
    elements.iter().all(is_field)
}

#[tactic(auto, unfolding(asn1_der::specs::Length::element))]
fn is_field(element: &Asn1RawDer) -> bool
    ensures { result ≡ is_field element.now }
{
    match element.as_bytes().first() {
        Some(first) => PK_AUTHENTICATOR <= *first && *first <= CLIENT_DH_NONCE,
        None => false,
    }
}
