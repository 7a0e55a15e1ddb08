//! Elements of DER around octets.
ghost use Rattle.std.specs.Prelude.{◌≡◌, ◌++◌, IfOk};
ghost use Rattle.std.specs.Option.{option_map};
ghost use Rattle.asn1_der.specs.Length.{element};

use picky_asn1::wrapper::OctetStringAsn1;
use picky_asn1_der::{ExplicitContextTag, Retagged, encoding_of};
use std::alloc::{AllocError, Global};

/// The element with this identifier octet and this content.
pub fn element_of<const TAG: u8>(alloc: Global, content: Vec<u8>) -> Result<Vec<u8>, AllocError>
    ensures { IfOk result (λ bytes. bytes.items ≡ element TAG content.items) }
{
    let octets: Retagged<TAG, OctetStringAsn1> = Retagged(OctetStringAsn1::from(content));
    encoding_of(alloc, octets)
}

/// The octets, one after the other.
pub fn joined(alloc: Global, front: &[u8], behind: &[u8]) -> Result<Vec<u8>, AllocError>
    ensures { IfOk result (λ bytes. bytes.items ≡ front.now ++ behind.now) }
{
    let mut bytes = Vec::from_slice(alloc, front)?;
    bytes.extend_from_slice(behind)?;
    Ok(bytes)
}

/// The octets under a tag, if there are any.
pub fn octets_in<const N: u8>(
    field: Option<ExplicitContextTag<N, OctetStringAsn1>>,
) -> Option<OctetStringAsn1>
    ensures { result ≡ option_map (λ tagged. tagged.0) field.entry }
{
    match field {
        Some(octets) => Some(octets.0),
        None => None,
    }
}
