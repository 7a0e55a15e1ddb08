//! PAC_SIGNATURE_DATA, and the server signature of a PAC (MS-PAC, sections 2.8 and 2.8.1).
ghost use Rattle.std.specs.Prelude.{◌≡◌, replicate, vec_len, IfOk};
ghost use Rattle.krb_pac.specs.Reading.{Gives};
ghost use Rattle.krb_pac.specs.Signature.{zeroed, signed_octets, is_signature_type, signed_by, signature_judged};

use crate::error::PacFault;
use crate::table::{PacRow, content_of, needed_row};
use byte_streams::{put_at, u32_le};
use krb_constants::cksum_types;
use krb_crypto::{CipherSuite, Key};
use microsoft_messages::PacBufferType;
use std::alloc::{AllocError, Global};

/// KERB_NON_KERB_CKSUM_SALT: the key usage of the signatures of a PAC (MS-PAC, section 2.8.1).
pub(crate) const SIGNATURE_USAGE: i32 = 17;

/// The octets of SignatureType.
const TYPE_SIZE: usize = 4;

// Makes so many zeros.
fn zeros(alloc: Global, size: usize) -> Result<Vec<u8>, AllocError>
    ensures value { IfOk result (λ v. v.items ≡ replicate size 0) }
    ensures size { IfOk result (λ v. vec_len v ≡ size) }
{
    Ok(vec![in alloc; 0u8; size]?)
}

// Makes all octets behind SignatureType in the buffer of this row zero.
#[tactic(auto, unfolding(crate::specs::Signature::zeroed))]
fn zeroed(alloc: Global, octets: Vec<u8>, row: PacRow) -> Result<Vec<u8>, PacFault>
    ensures { Gives (λ v. v.items) result (zeroed row octets.items) }
{
    let mut octets = octets;
    if row.size < 4 {
        return Err(PacFault::Short);
    }
    if (octets.len() as u128) < u128::from(row.offset) + u128::from(row.size) {
        return Err(PacFault::Range);
    }
    let zero = zeros(alloc, row.size as usize - TYPE_SIZE)?;
    put_at(&mut octets, row.offset as usize + TYPE_SIZE, &zero);
    Ok(octets)
}

// Returns the octets that the server signature is of.
#[tactic(auto, unfolding(crate::specs::Signature::signed_octets))]
fn signed_octets(
    alloc: Global,
    bytes: &[u8],
    server: PacRow,
    kdc: PacRow,
) -> Result<Vec<u8>, PacFault>
    ensures { Gives (λ v. v.items) result (signed_octets server kdc bytes.now) }
{
    let octets = Vec::from_slice(alloc, bytes)?;
    let octets = zeroed(alloc, octets, server)?;
    zeroed(alloc, octets, kdc)
}

// Returns whether this is the checksum type of the suite, which is one of AES.
#[tactic(auto, unfolding(crate::specs::Signature::is_signature_type))]
fn is_signature_type(suite: CipherSuite, number: u32) -> bool
    ensures { result ≡ is_signature_type suite number }
{
    let number = number as usize;
    match suite {
        CipherSuite::Aes128CtsHmacSha196 => number == cksum_types::HMAC_SHA1_96_AES128,
        CipherSuite::Aes256CtsHmacSha196 => number == cksum_types::HMAC_SHA1_96_AES256,
        CipherSuite::Des3CbcSha1Kd => false,
        CipherSuite::Aes128CtsHmacSha256128 => number == cksum_types::HMAC_SHA256_128_AES128,
        CipherSuite::Aes256CtsHmacSha384192 => number == cksum_types::HMAC_SHA384_192_AES256,
    }
}

// Judges that the content is SignatureType and a Signature of these octets under the key.
#[tactic(auto, unfolding(crate::specs::Signature::signed_by))]
fn signed_by(alloc: Global, key: &Key, octets: &[u8], content: &[u8]) -> Result<(), PacFault>
    ensures { Gives (λ unit. unit) result (signed_by key.now octets.now content.now) }
{
    if content.len() < TYPE_SIZE {
        return Err(PacFault::Short);
    }
    if !is_signature_type(key.suite(), u32_le(content, 0)) {
        return Err(PacFault::SignatureType);
    }
    let signature = key.checksum(alloc, SIGNATURE_USAGE, octets)?;
    if &content[TYPE_SIZE..] != signature.as_slice() {
        return Err(PacFault::Signature);
    }
    Ok(())
}

/// Judges that the server signature of a PAC with these rows is one under the key.
#[tactic(auto, unfolding(crate::specs::Signature::signature_judged))]
pub(crate) fn judge_signature(
    alloc: Global,
    key: &Key,
    rows: &[PacRow],
    bytes: &[u8],
) -> Result<(), PacFault>
    ensures { Gives (λ unit. unit) result (signature_judged key.now rows.now bytes.now) }
{
    let server = needed_row(PacBufferType::ServerChecksum, rows)?;
    let kdc = needed_row(PacBufferType::KdcChecksum, rows)?;
    let octets = signed_octets(alloc, bytes, server, kdc)?;
    let content = content_of(bytes, server)?;
    signed_by(alloc, key, octets.as_slice(), content)
}
