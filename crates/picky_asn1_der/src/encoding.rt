//! Encoding what is sent or sealed, also under the application tag of a message (RFC 4120, sections 5.3 to 5.9).

ghost use Rattle.std.specs.Prelude.{◌≡◌, ◌+◌, ◌%◌, IfOk};
ghost use Rattle.asn1_der.specs.Tree.{Tree, der, wrapped};

use crate::{IsTagNumber, Serialize, Serializer, TagNumber, to_vec};
use std::alloc::{AllocError, Global};

// How many octets there is room for at first, where an encoding isn't measured.
const FIRST_OCTETS: usize = 256;

// How many octets stand before a content of up to 4 GiB (X.690, section 8.1.3).
const MOST_HEADER: usize = 6;

/// Encodes and consumes `value`. Fails only if memory runs out.
///
/// It consumes the value because a check takes up to a minute for each function that borrows a big message of its own for a call,
/// and none for one that passes it on. [`tagged_encoding`] consumes it too.
pub fn encoding_of<T: Serialize + Drop>(alloc: Global, value: T) -> Result<Vec<u8>, AllocError>
    ensures { IfOk result (λ bytes. bytes.items ≡ der (T.tree value)) }
{
    let Ok(bytes) = to_vec(alloc, &value) else {
        return Err(AllocError);
    };
    Ok(bytes)
}

/// Encodes and consumes `value` under the application tag `TAG`, which is below 31: an `ApplicationTag` around the value
/// is encoded so. Fails only if memory runs out.
pub fn tagged_encoding<T: Serialize + Drop, const TAG: u8>(
    alloc: Global,
    value: T,
) -> Result<Vec<u8>, AllocError>
where
    TagNumber<TAG>: IsTagNumber,
    ensures { IfOk result (λ bytes. bytes.items ≡ der (wrapped (96 + TAG % 32) (T.tree value))) }
{
    let content = grown_encoding(alloc, value)?;
    under_octet(alloc, 96 + TAG % 32, content)
}

/// Encodes and consumes `value`, in memory that grows if the first octets aren't enough. The length isn't measured
/// first.
fn grown_encoding<T: Serialize + Drop>(alloc: Global, value: T) -> Result<Vec<u8>, AllocError>
    ensures { IfOk result (λ bytes. bytes.items ≡ der (T.tree value)) }
{
    let bytes = Vec::with_capacity(alloc, FIRST_OCTETS)?;
    let mut to = Serializer::new_to_writer(bytes);
    match value.serialize(&mut to) {
        Ok(_) => Ok(to.into_writer()),
        Err(_) => Err(AllocError),
    }
}

/// An element of this content under a further identifier octet, and nothing where the content is none. A short one keeps its
/// memory.
fn under_octet(alloc: Global, tag: u8, mut content: Vec<u8>) -> Result<Vec<u8>, AllocError>
    ensures { IfOk result (λ bytes. (t : Tree) → der t ≡ content.items → bytes.items ≡ der (wrapped tag t)) }
{
    let count = content.len();
    if count == 0 {
        return Ok(content);
    }
    if count < 128 {
        content.insert(0, count as u8)?;
        content.insert(0, tag)?;
        return Ok(content);
    }
    let bytes = Vec::with_capacity(alloc, count.saturating_add(MOST_HEADER))?;
    let mut to = Serializer::new_to_writer(bytes);
    match to.element(tag, &content) {
        Ok(_) => Ok(to.into_writer()),
        Err(_) => Err(AllocError),
    }
}
