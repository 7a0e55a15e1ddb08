//! Signs a KDCDHKeyInfo.
ghost use Rattle.std.specs.Prelude.{◌≡◌, IfOk, MatchOption};
ghost use Rattle.picky_asn1.specs.Bytes.{Bytes};
ghost use Rattle.cms_signed_data.specs.Written.{IsWritten};
ghost use Rattle.pkinit_validation.specs.Replies.{dh_key_data, key_info_bytes, key_info_of};

use cms_signed_data::{SignedContent, SignedFault};
use picky_asn1::wrapper::{BitStringAsn1, IntegerAsn1};
use picky_asn1_der::{ExplicitContextTag, Optional, encoding_of};
use pkinit_messages::KdcDhKeyInfo;
use std::alloc::{AllocError, Global};
use x509_keys::KeyFunctions;

/// The encoding of KDCDHKeyInfo with this public value and this nonce.
#[tactic(auto, unfolding(crate::specs::Replies::key_info_bytes))]
pub(crate) fn key_info_bytes(
    alloc: Global,
    value: &BitStringAsn1,
    nonce: &IntegerAsn1,
) -> Result<Vec<u8>, AllocError>
    ensures { IfOk result (λ bytes. bytes.items ≡ key_info_bytes (key_info_of value.now nonce.now)) }
{
    let value = value.clone()?;
    let nonce = nonce.clone()?;
    let info = KdcDhKeyInfo {
        subject_public_key: ExplicitContextTag(value),
        nonce: ExplicitContextTag(nonce),
        dh_key_expiration: Optional(None),
    };
    encoding_of(alloc, info)
}

/// The SignedData over KDCDHKeyInfo, with the certificate in it. `None` if the certificate's holder doesn't sign, or the bytes are no
/// certificate.
pub(crate) fn signed_key_info<K: KeyFunctions>(
    alloc: Global,
    keys: &K,
    certificate: &[u8],
    info: &[u8],
) -> Result<Option<Vec<u8>>, AllocError>
    ensures { IfOk result (λ signed. MatchOption signed
        ((bytes : Bytes) → IsWritten (K.functions keys.now).sign dh_key_data info.now certificate.now bytes → ⊥)
        (λ bytes. IsWritten (K.functions keys.now).sign dh_key_data info.now certificate.now bytes.items)) }
{
    let content_type = x509_oids::pkinit_dhkey_data(alloc)?;
    match SignedContent::write(alloc, &content_type, info, certificate, keys) {
        Ok(signed) => Ok(signed),
        Err(fault) => {
            if fault == SignedFault::Memory {
                return Err(AllocError);
            }
            Ok(None)
        }
    }
}
