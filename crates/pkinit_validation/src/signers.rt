//! Whether the holder of a certificate signed some content.
ghost use Rattle.std.specs.Prelude.{◌≡◌};
ghost use Rattle.std.specs.Bool.{nat_eq};
ghost use Rattle.std.specs.Cmp.Lexicographic.{pointwise};
ghost use Rattle.sha2.specs.Sha256.{sha256};
ghost use Rattle.picky_asn1.specs.Integer.{integer_content};
ghost use Rattle.pkinit_validation.specs.Judged.{judged_of};
ghost use Rattle.pkinit_validation.specs.Refusals.{IsOutcome};
ghost use Rattle.pkinit_validation.specs.Signers.{signed_by};

use crate::certificates::{is_encoded_as, name_bytes};
use crate::judged::JudgedContent;
use crate::refusal::{TrustFault, TrustRefusal};
use picky_asn1::wrapper::IntegerAsn1;
use sha2::{Digest, Sha256};
use std::alloc::Global;
use x509_certificates::Certificate;
use x509_keys::KeyFunctions;

/// Judges whether the certificate's holder signed the content.
pub fn check_signer<K: KeyFunctions>(
    alloc: Global,
    keys: &K,
    certificate: &Certificate,
    judged: &JudgedContent<'_>,
) -> Result<(), TrustFault>
    ensures { IsOutcome (signed_by (K.functions keys.now) certificate.now (judged_of judged.now)).gives result }
{
    let held = &certificate.tbs_certificate;
    let issuer = name_bytes(alloc, judged.issuer)?;
    if !is_encoded_as(alloc, &held.issuer, &issuer)? {
        return Err(TrustFault::Refused(TrustRefusal::InvalidSignature));
    }
    if !is_same_serial(&held.serial_number, judged.serial) {
        return Err(TrustFault::Refused(TrustRefusal::InvalidSignature));
    }
    if !is_digest_of(judged.content, judged.digest) {
        return Err(TrustFault::Refused(TrustRefusal::InvalidSignature));
    }
    let key = &held.subject_public_key_info;
    if !keys.verifies(key, judged.algorithm, judged.covered, judged.signature) {
        return Err(TrustFault::Refused(TrustRefusal::InvalidSignature));
    }
    Ok(())
}

fn is_same_serial(serial: &IntegerAsn1, other: &IntegerAsn1) -> bool
    ensures { result ≡ pointwise nat_eq (integer_content serial.now) (integer_content other.now) }
{
    serial.as_signed_bytes_be() == other.as_signed_bytes_be()
}

// Whether the digest is the content's SHA-256.
fn is_digest_of(content: &[u8], digest: &[u8]) -> bool
    ensures { result ≡ pointwise nat_eq (sha256 content.now) digest.now }
{
    let right = Sha256::digest(content);
    right.as_slice() == digest
}
