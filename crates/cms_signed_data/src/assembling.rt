//! Elements and SEQUENCEs of spellings.
ghost use Rattle.std.specs.Prelude.{◌≡◌, ℕ, List, true, IfOk};
ghost use Rattle.std.specs.List.{flat_map};
ghost use Rattle.asn1_der.specs.Length.{element};
ghost use Rattle.asn1_der.specs.Tree.{IsWhole, der};
ghost use Rattle.picky_asn1_der.specs.Raw.{has_low_number};
ghost use Rattle.asn1_der.specs.Octets.{sequence_octet};

use asn1_der::octets::SEQUENCE;
use picky_asn1_der::{RawElement, Serialize};
use std::alloc::{AllocError, Global};
use x509_codec::to_vec;
use x509_spelling::Spelled;

/// The DER of a value.
pub(crate) fn der_of<T: Serialize>(alloc: Global, value: &T) -> Result<Vec<u8>, AllocError>
    ensures { IfOk result (λ bytes. bytes.items ≡ der (T.tree value.now)) }
{
    match picky_asn1_der::to_vec(alloc, value) {
        Ok(bytes) => Ok(bytes),
        Err(_) => Err(AllocError),
    }
}

/// The spelling of a value in which nothing deviates.
pub(crate) fn spelled<T: Spelled>(alloc: Global, value: &T) -> Result<Vec<u8>, AllocError>
    ensures { IfOk result (λ bytes. IsWhole (T.tree value.now) → T.spells value.now bytes.items 0) }
{
    match to_vec(alloc, value) {
        Ok(bytes) => Ok(bytes),
        Err(_) => Err(AllocError),
    }
}

/// One element with this identifier octet and content.
pub(crate) fn element_of(alloc: Global, first: u8, content: &[u8]) -> Result<Vec<u8>, AllocError>
    requires { has_low_number first ≡ true }
    ensures { IfOk result (λ bytes. bytes.items ≡ element first content.now) }
{
    let content = Vec::from_slice(alloc, content)?;
    let Some(raw) = RawElement::new(first, content) else {
        unreachable!()
    };
    let bytes = der_of(alloc, &raw)?;
    Ok(bytes)
}

/// A SEQUENCE of these spellings.
pub(crate) fn sequence_of(alloc: Global, parts: &[&[u8]]) -> Result<Vec<u8>, AllocError>
    ensures { IfOk result (λ bytes. bytes.items ≡ element sequence_octet (flat_map (λ part. part.now) parts.now)) }
{
    let mut content = Vec::new(alloc);
    for part in parts {
        content.extend_from_slice(part)?;
    }
    let bytes = element_of(alloc, SEQUENCE, &content)?;
    Ok(bytes)
}
