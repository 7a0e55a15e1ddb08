//! What a signature covers.
ghost use Rattle.std.specs.Prelude.{◌≡◌, IfOk};
ghost use Rattle.x509_codec.specs.Covered.{as_set};

use asn1_der::octets::SET;
use std::alloc::{AllocError, Global};

/// The signed attributes with the identifier octet of a SET OF in place of that of [0], which the signature covers (RFC 5652,
/// section 5.4). Without bytes there are none.
pub fn as_set(alloc: Global, signed_attributes: &[u8]) -> Result<Vec<u8>, AllocError>
    ensures { IfOk result (λ covered. covered.items ≡ as_set signed_attributes.now) }
{
    let Some((_, rest)) = signed_attributes.split_first() else {
        return Ok(Vec::new(alloc));
    };
    let mut covered = vec![in alloc; SET]?;
    covered.extend_from_slice(rest)?;
    Ok(covered)
}
