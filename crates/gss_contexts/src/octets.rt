//! Octets that are joined or rotated, and their checksums.
ghost use Rattle.std.specs.Prelude.{◌≡◌, ◌++◌, IfOk};
ghost use Rattle.std.specs.Int.{cast_unsigned, w32};
ghost use Rattle.gss_contexts.specs.Tokens.{rotated_right, sum_of};

use krb_crypto::Key;
use std::alloc::{AllocError, Global};

// The one, followed by the other.
pub(crate) fn joined(alloc: Global, front: &[u8], rest: &[u8]) -> Result<Vec<u8>, AllocError>
    ensures { IfOk result (λ whole. whole.items ≡ front.now ++ rest.now) }
{
    let mut whole = Vec::new(alloc);
    whole.extend_from_slice(front)?;
    whole.extend_from_slice(rest)?;
    Ok(whole)
}

// The checksum over a message and a header.
pub(crate) fn checksum(
    alloc: Global,
    key: &Key,
    usage: i32,
    message: &[u8],
    header: &[u8],
) -> Result<Vec<u8>, AllocError>
    ensures { IfOk result (λ sum. sum.items ≡ sum_of key.now (cast_unsigned w32 usage) (message.now ++ header.now)) }
{
    let text = joined(alloc, message, header)?;
    key.checksum(alloc, usage, &text)
}

// The text that is rotated to the right to these octets (RFC 4121, section 4.2.5).
pub(crate) fn rotated_back(alloc: Global, count: u16, octets: &[u8]) -> Result<Vec<u8>, AllocError>
    ensures { IfOk result (λ text. rotated_right count text.items ≡ octets.now) }
{
    if octets.is_empty() {
        return Ok(Vec::new(alloc));
    }
    let cut = usize::from(count) % octets.len();
    joined(alloc, &octets[cut..], &octets[..cut])
}
