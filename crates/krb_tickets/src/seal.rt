//! Sealed data.
ghost use Rattle.std.specs.Prelude.{◌≡◌, length, IfOk};
ghost use Rattle.std.specs.Int.{cast_unsigned, w32};
ghost use Rattle.krb_crypto.specs.Suites.{cipher_confounder_size};
ghost use Rattle.krb_tickets.specs.Sealing.{Seals, encrypted_by, tagged_kvno};

use krb_crypto::{CipherSuite, Key};
use krb_messages::data_types::EncryptedData;
use picky_asn1::wrapper::{IntegerAsn1, OctetStringAsn1};
use picky_asn1_der::{ExplicitContextTag, ExplicitContextTag1, Optional};
use std::alloc::{AllocError, Global};

/// The text, sealed under the key for the usage after the confounder. It has the number of the suite and, if it is given,
/// the kvno (RFC 4120, section 5.2.9). Fails only if memory runs out.
pub fn sealed_data(
    alloc: Global,
    key: &Key,
    kvno: Option<u32>,
    usage: i32,
    confounder: &[u8],
    plain: &[u8],
) -> Result<EncryptedData, AllocError>
    requires { length confounder.now ≡ cipher_confounder_size key.now.suite }
    ensures { IfOk result (Seals key.now.suite key.now.bytes kvno (cast_unsigned w32 usage) confounder.now plain.now) }
{
    let cipher = key.encrypt(alloc, usage, plain, confounder)?;
    let sealed = encrypted_by(alloc, key.suite(), kvno, cipher)?;
    Ok(sealed)
}

// The ciphertext with the number of its suite and the kvno of its key.
fn encrypted_by(
    alloc: Global,
    suite: CipherSuite,
    kvno: Option<u32>,
    cipher: Vec<u8>,
) -> Result<EncryptedData, AllocError>
    ensures { IfOk result (λ made. made ≡ encrypted_by suite kvno cipher.items) }
{
    let etype = IntegerAsn1::from_u64(alloc, u64::from(u8::from(suite)))?;
    let kvno = tagged_kvno(alloc, kvno)?;
    Ok(EncryptedData {
        etype: ExplicitContextTag(etype),
        kvno: Optional(kvno),
        cipher: ExplicitContextTag(OctetStringAsn1::from(cipher)),
    })
}

fn tagged_kvno(
    alloc: Global,
    kvno: Option<u32>,
) -> Result<Option<ExplicitContextTag1<IntegerAsn1>>, AllocError>
    ensures { IfOk result (λ made. made ≡ tagged_kvno kvno) }
{
    let Some(kvno) = kvno else {
        return Ok(None);
    };
    let kvno = IntegerAsn1::from_u64(alloc, u64::from(kvno))?;
    Ok(Some(ExplicitContextTag(kvno)))
}
