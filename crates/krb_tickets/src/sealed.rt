//! Encrypted data of messages.
ghost use Rattle.std.specs.Prelude.{◌≡◌, IfOk};
ghost use Rattle.std.specs.Int.{cast_unsigned, w32};
ghost use Rattle.picky_asn1_der.specs.Found.{IsFound};
ghost use Rattle.krb_tickets.specs.SealedData.{IsSealedIn};

use crate::find::open_whole;
use asn1_codec::Deserialize;
use krb_crypto::Key;
use krb_messages::data_types::EncryptedData;
use krb_messages::is_number;
use std::alloc::{AllocError, Global};

/// The value that is sealed in the data under this key, for this usage, or none (RFC 4120, section 5.2.9).
pub fn open_sealed<T: Deserialize + Drop>(
    alloc: Global,
    key: &Key,
    usage: i32,
    sealed: &EncryptedData,
) -> Result<Option<T>, AllocError>
    ensures { IfOk result (IsFound (IsSealedIn T.tree key.now.suite key.now.bytes (cast_unsigned w32 usage) sealed.now)) }
{
    if !is_number(&sealed.etype.0, u32::from(&key.suite())) {
        return Ok(None);
    }
    let bytes = sealed.cipher.0.as_bytes();
    let value = open_whole(alloc, key, usage, bytes)?;
    Ok(value)
}
