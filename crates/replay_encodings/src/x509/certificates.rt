//! Certificates and requests, by the names of their types.

use crate::first_of;
use crate::x509::line::Recorded;
use crate::x509::told::{Answer, is_told, spelled_as};
use std::alloc::Global;
use x509_certificates::{
    Certificate, CertificationRequest, CertificationRequestInfo, TbsCertificate,
};
use x509_spelling::{Spelled, X509Fault};

/// Whether a spelling of such a type is read, counted and rewritten as expected; none for any other type.
pub fn agrees(alloc: Global, recorded: &Recorded<'_>) -> Option<Answer> {
    first_of(&[
        spelled_as::<CertificationRequestInfo>(alloc, recorded, "CertificationRequestInfo"),
        spelled_as::<TbsCertificate>(alloc, recorded, "TbsCertificate"),
        other(alloc, recorded),
    ])
}

/// The same of what has a signed part.
fn other(alloc: Global, recorded: &Recorded<'_>) -> Option<Answer> {
    match recorded.type_name {
        "Certificate" => Some(certificate(alloc, recorded)),
        "CertificationRequest" => Some(certification_request(alloc, recorded)),
        _ => None,
    }
}

/// Whether a certificate is read and rewritten as expected, and its signed part is the expected one.
fn certificate(alloc: Global, recorded: &Recorded<'_>) -> Answer {
    let lent = Certificate::with_signed_part(alloc, &recorded.bytes);
    if !is_lent(recorded, lent)? {
        return Ok(false);
    }
    is_told::<Certificate>(alloc, recorded)
}

/// Whether a certification request is read and rewritten as expected, and its signed part is the expected one.
fn certification_request(alloc: Global, recorded: &Recorded<'_>) -> Answer {
    let lent = CertificationRequest::with_signed_part(alloc, &recorded.bytes);
    if !is_lent(recorded, lent)? {
        return Ok(false);
    }
    is_told::<CertificationRequest>(alloc, recorded)
}

/// Whether the part that is borrowed is the one whose place the line gives.
fn is_lent<T: Spelled>(recorded: &Recorded<'_>, lent: Result<(T, &[u8]), X509Fault>) -> Answer {
    match lent {
        Ok((_, part)) => Ok(recorded.has_signed(part)),
        Err(X509Fault::Memory) => Err(X509Fault::Memory),
        Err(_) => Ok(recorded.wanted.is_none()),
    }
}
