//! Values that calls make, beside recorded spellings of the same.
use crate::x509::line::Recorded;
use crate::x509::told::{Answer, is_told};
use picky_asn1::wrapper::IntegerAsn1;
use picky_asn1_x509::{AlgorithmIdentifier, KeyUsage, Spelled, SubjectPublicKeyInfo, to_vec};
use std::alloc::Global;

/// Whether a value that such a call makes is spelled as expected; none for any other call.
pub fn agrees(alloc: Global, recorded: &Recorded<'_>) -> Option<Answer> {
    match recorded.type_name {
        "AlgorithmIdentifier::new_rsa_encryption" => Some(rsa_encryption(alloc, recorded)),
        "KeyUsage::new" => Some(key_usage(alloc, recorded)),
        "SubjectPublicKeyInfo::new_rsa_key" => Some(rsa_key(alloc, recorded)),
        _ => None,
    }
}

fn rsa_encryption(alloc: Global, recorded: &Recorded<'_>) -> Answer {
    let made = AlgorithmIdentifier::new_rsa_encryption(alloc)?;
    is_made(alloc, &made, recorded)
}

/// Seven bits, with digitalSignature and keyEncipherment.
fn key_usage(alloc: Global, recorded: &Recorded<'_>) -> Answer {
    let mut made = KeyUsage::new(alloc, 7)?;
    made.set_digital_signature(alloc, true)?;
    made.set_key_encipherment(alloc, true)?;
    is_made(alloc, &made, recorded)
}

/// The modulus 5 and the exponent 3.
fn rsa_key(alloc: Global, recorded: &Recorded<'_>) -> Answer {
    let modulus = IntegerAsn1::from_u64(alloc, 5)?;
    let public_exponent = IntegerAsn1::from_u64(alloc, 3)?;
    let made = SubjectPublicKeyInfo::new_rsa_key(alloc, modulus, public_exponent)?;
    is_made(alloc, &made, recorded)
}

/// Whether the value is written as expected, and the recorded spelling is one of the same strict bytes.
fn is_made<T: Spelled>(alloc: Global, made: &T, recorded: &Recorded<'_>) -> Answer {
    let Some(wanted) = &recorded.wanted else {
        return Ok(false);
    };
    let bytes = to_vec(alloc, made)?;
    Ok(bytes == wanted.strict && is_told::<T>(alloc, recorded)?)
}
