//! Certificates with what their issuers signed, and the encodings of names.
ghost use Rattle.std.specs.Prelude.{◌≡◌, IfOk};
ghost use Rattle.std.specs.Bool.{nat_eq};
ghost use Rattle.std.specs.Cmp.Lexicographic.{pointwise};
ghost use Rattle.pkinit_validation.specs.Certificates.{IsFoundSigned, name_bytes};

use std::alloc::{AllocError, Global};
use x509_codec::{Signed, with_signed_part};
use x509_fields::Name;
use x509_spelling::X509Fault;

/// The value that the bytes spell with the slice of them that is signed, or `None`. It is generic, since a certificate is dear
/// to drop.
pub(crate) fn read_signed<T: Signed + Drop>(
    alloc: Global,
    bytes: &[u8],
) -> Result<Option<(T, &[u8])>, AllocError>
    ensures { IfOk result (IsFoundSigned T.spells bytes.now) }
{
    match with_signed_part(alloc, bytes) {
        Ok(read) => Ok(Some(read)),
        Err(fault) => {
            if fault == X509Fault::Memory {
                return Err(AllocError);
            }
            Ok(None)
        }
    }
}

/// The encoding of a name. Names have one spelling alone.
#[tactic(auto, unfolding(crate::specs::Certificates::name_bytes))]
pub(crate) fn name_bytes(alloc: Global, name: &Name) -> Result<Vec<u8>, AllocError>
    ensures { IfOk result (λ bytes. bytes.items ≡ name_bytes name.now) }
{
    let Ok(bytes) = x509_codec::to_vec(alloc, name) else {
        return Err(AllocError);
    };
    Ok(bytes)
}

/// Whether these bytes are the encoding of the name.
pub(crate) fn is_encoded_as(alloc: Global, name: &Name, bytes: &[u8]) -> Result<bool, AllocError>
    ensures { IfOk result (λ is. is ≡ pointwise nat_eq (name_bytes name.now) bytes.now) }
{
    let encoding = name_bytes(alloc, name)?;
    Ok(encoding.as_slice() == bytes)
}
