//! Signs an AuthPack.
ghost use Rattle.std.specs.Prelude.{◌≡◌, ◌⊎◌, None, IfOk, MatchOption};
ghost use Rattle.cms_signed_data.specs.Written.{IsNoCertificate, IsWritten, signed_bytes};
ghost use Rattle.pkinit_clients.specs.AuthPacks.{auth_data};

use cms_signed_data::{SignedContent, SignedFault};
use std::alloc::{AllocError, Global};
use x509_keys::KeyFunctions;

/// The SignedData over an AuthPack, with the certificate in it. `None` if the certificate's holder doesn't sign, or the bytes are no
/// certificate.
pub(crate) fn signed_auth_pack<K: KeyFunctions>(
    alloc: Global,
    keys: &K,
    certificate: &[u8],
    pack: &[u8],
) -> Result<Option<Vec<u8>>, AllocError>
    ensures { IfOk result (λ signed. MatchOption signed
        (((K.functions keys.now).sign (signed_bytes auth_data pack.now) ≡ None) ⊎ IsNoCertificate certificate.now)
        (λ bytes. IsWritten (K.functions keys.now).sign auth_data pack.now certificate.now bytes.items)) }
{
    let content_type = x509_oids::pkinit_auth_data(alloc)?;
    match SignedContent::write(alloc, &content_type, pack, certificate, keys) {
        Ok(signed) => Ok(signed),
        Err(fault) => {
            if fault == SignedFault::Memory {
                return Err(AllocError);
            }
            Ok(None)
        }
    }
}
