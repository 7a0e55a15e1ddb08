//! Reading a whole input, where any fault but `Memory` says that there is nothing.
ghost use Rattle.std.specs.Prelude.{IfOk};
ghost use Rattle.asn1_der.specs.Tree.{Writes};
ghost use Rattle.picky_asn1_der.specs.Found.{IsFound};

use asn1_codec::{Deserialize, from_exact_bytes};
use asn1_der::Asn1DerError;
use std::alloc::{AllocError, Global};

/// The value whose one encoding the bytes are, or none. Fails only if memory runs out.
pub fn read_whole<T: Deserialize + Drop>(
    alloc: Global,
    bytes: &[u8],
) -> Result<Option<T>, AllocError>
    ensures { IfOk result (IsFound (λ value. Writes T.tree value bytes.now)) }
{
    match from_exact_bytes(alloc, bytes) {
        Ok(value) => Ok(Some(value)),
        Err(fault) => {
            if fault == Asn1DerError::Memory {
                return Err(AllocError);
            }
            Ok(None)
        }
    }
}
