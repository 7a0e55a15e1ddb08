//! The content of a token.
ghost use Rattle.std.specs.Prelude.{◌≡◌, ℕ, ◌<◌, List, length, MatchResult};
ghost use Rattle.std.specs.declared.io.ErrorKind.{ErrorKind};
ghost use Rattle.picky_asn1.specs.declared.wrapper.ObjectIdentifierAsn1.{ObjectIdentifierAsn1};
ghost use Rattle.asn1_codec.specs.Reads.{BeginsBy};
ghost use Rattle.gss_contexts.specs.Faults.{of_der_fault};
ghost use Rattle.gss_contexts.specs.Fronts.{Leads};
ghost use Rattle.gss_contexts.specs.ContextTokens.{BeginsToken, IsOfMechanism, IsTold};
ghost use Rattle.gss_contexts.specs.ContextTokenRefusals.{IsUnread};

use crate::GssApiMessageError;
use crate::context_tokens::front::split_value;
use krb_constants::gss_api::INITIAL_TOKEN;
use picky_asn1::wrapper::ObjectIdentifierAsn1;
use picky_asn1_der::{Asn1DerError, FromDer, from_exact_bytes, split_element};
use std::alloc::Global;
use std::io::ErrorKind;

/// Returns the error of a fault of DER.
pub(crate) fn token_fault(fault: Asn1DerError) -> GssApiMessageError
    ensures { result ≡ of_der_fault fault }
{
    GssApiMessageError::from(fault)
}

/// The content of the token that begins the bytes. Bytes after the token are left.
fn content_of(bytes: &[u8]) -> Result<&[u8], GssApiMessageError>
    ensures { MatchResult result
        (λ content. BeginsToken content.now bytes.now)
        (IsUnread (λ (content : List ℕ). BeginsToken content bytes.now)) }
{
    let (element, _) = match split_element(bytes) {
        Ok(split) => split,
        Err(fault) => return Err(token_fault(fault)),
    };
    if u8::from(element.tag()) != INITIAL_TOKEN {
        return Err(GssApiMessageError::Asn1Error(Asn1DerError::InvalidData));
    }
    Ok(element.content())
}

/// The mechanism of the token that begins the bytes, and its inner token.
pub(crate) fn mechanism_of(
    alloc: Global,
    bytes: &[u8],
) -> Result<(ObjectIdentifierAsn1, &[u8]), GssApiMessageError>
    ensures { MatchResult result
        (λ read. IsOfMechanism bytes.now read.0 read.1.now)
        (IsUnread (λ (mechanism : ObjectIdentifierAsn1). (inner : List ℕ) × IsOfMechanism bytes.now mechanism inner)) }
{
    let content = content_of(bytes)?;
    let (mechanism, inner) = front_value(alloc, content)?;
    Ok((mechanism, inner))
}

/// The value that begins the bytes, and the bytes after it.
pub(crate) fn front_value<T: FromDer>(
    alloc: Global,
    bytes: &[u8],
) -> Result<(T, &[u8]), GssApiMessageError>
    ensures { MatchResult result
        (λ read. Leads T.reads read.0 bytes.now read.1.now)
        (IsUnread (λ value. BeginsBy T.reads value bytes.now)) }
{
    match split_value(alloc, bytes) {
        Ok(read) => Ok(read),
        Err(fault) => Err(token_fault(fault)),
    }
}

/// The token id of two octets, and the bytes after it.
pub(crate) fn split_id(inner: &[u8]) -> Result<([u8; 2], &[u8]), GssApiMessageError>
    ensures { MatchResult result
        (λ read. IsTold inner.now read.0 read.1.now)
        (λ fault. (fault ≡ GssApiMessageError.IoError ErrorKind.UnexpectedEof) × (length inner.now < 2)) }
{
    let [first, second, message @ ..] = inner else {
        return Err(GssApiMessageError::IoError(ErrorKind::UnexpectedEof));
    };
    Ok(([*first, *second], message))
}

/// The value that all of the bytes are.
pub(crate) fn whole_value<T: FromDer>(alloc: Global, bytes: &[u8]) -> Result<T, GssApiMessageError>
    ensures { MatchResult result
        (λ value. T.reads value bytes.now)
        (IsUnread (λ value. T.reads value bytes.now)) }
{
    match from_exact_bytes(alloc, bytes) {
        Ok(value) => Ok(value),
        Err(fault) => Err(token_fault(fault)),
    }
}
