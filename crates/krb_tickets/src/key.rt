//! Keys.
ghost use Rattle.std.specs.Prelude.{◌≡◌, IfOk};
ghost use Rattle.krb_tickets.specs.Sealing.{encryption_key};

use krb_crypto::CipherSuite;
use krb_messages::data_types::EncryptionKey;
use picky_asn1::wrapper::{IntegerAsn1, OctetStringAsn1};
use picky_asn1_der::ExplicitContextTag;
use std::alloc::{AllocError, Global};

/// The key with the number of its suite (RFC 4120, section 5.2.9).
pub fn encryption_key(
    alloc: Global,
    suite: CipherSuite,
    key: &OctetStringAsn1,
) -> Result<EncryptionKey, AllocError>
    ensures { IfOk result (λ made. made ≡ encryption_key suite key.now) }
{
    let number = IntegerAsn1::from_u64(alloc, u64::from(u8::from(suite)))?;
    let value = key.clone()?;
    Ok(EncryptionKey {
        key_type: ExplicitContextTag(number),
        key_value: ExplicitContextTag(value),
    })
}
