//! Whether the client signed its AuthPack.
ghost use Rattle.std.specs.Prelude.{◌≡◌, IfOk, unwrap_or};
ghost use Rattle.std.specs.Bool.{nat_eq};
ghost use Rattle.std.specs.Cmp.Lexicographic.{pointwise};
ghost use Rattle.asn1_leaves.specs.ObjectIdentifier.{oid_content};
ghost use Rattle.picky_asn1_der.specs.Found.{IsFound};
ghost use Rattle.krb_messages.specs.Refusals.{IsJudged};
ghost use Rattle.pkinit_validation.specs.Expected.{expected_of};
ghost use Rattle.cms_signed_data.specs.Digests.{digest_by};
ghost use Rattle.cms_signed_data.specs.GeneralContents.{content_of};
ghost use Rattle.pkinit_validation.specs.Refusals.{IsOutcome, as_answer};
ghost use Rattle.pkinit_validation.specs.GeneralTrust.{IsAlgorithm, IsJudgedAs, IsJudgedBy, by_algorithm, by_certificate, general_signed_by, general_signer, is_by_sha1, is_sha1, rsa_beside, signature_under, takes_digest, trusted_among, verified_by, verifies_by, verifies_under};

use crate::certificates::read_signed;
use crate::policies::policy::GeneralPolicy;
use crate::trusted::check_accepted;
use crate::{ExpectedSigner, TrustFault, TrustRefusal};
use cms_signed_data::general_form::{DigestAlgorithm, GeneralContent, names};
use krb_constants::error_codes::KDC_ERR_DIGEST_IN_SIGNED_DATA_NOT_ACCEPTED;
use krb_messages::Refusal;
use picky_asn1_der::Asn1RawDer;
use std::alloc::{AllocError, Global};
use x509_algorithms::AlgorithmIdentifier;
use x509_certificates::Certificate;
use x509_codec::from_bytes;
use x509_keys::KeyFunctions;
use x509_spelling::X509Fault;

/// The content octets of rsaEncryption, 1.2.840.113549.1.1.1.
pub(crate) const RSA_ENCRYPTION: [u8; 9] = [0x2A, 0x86, 0x48, 0x86, 0xF7, 0x0D, 0x01, 0x01, 0x01];

/// The content octets of sha1WithRSAEncryption, 1.2.840.113549.1.1.5.
pub(crate) const SHA1_WITH_RSA: [u8; 9] = [0x2A, 0x86, 0x48, 0x86, 0xF7, 0x0D, 0x01, 0x01, 0x05];

/// Judges whether the client signed the content, by a digest that the policy takes.
pub(crate) fn check_general_signer<K: KeyFunctions>(
    alloc: Global,
    keys: &K,
    policy: GeneralPolicy,
    expected: &ExpectedSigner<'_>,
    content: &GeneralContent,
) -> Result<(), Refusal>
    ensures { IsJudged (general_signer (K.functions keys.now) policy (expected_of expected.now) content.now).gives result }
{
    if !takes_digest(policy, content.digest_algorithm()) {
        return Err(Refusal::Krb(KDC_ERR_DIGEST_IN_SIGNED_DATA_NOT_ACCEPTED));
    }
    match check_among(alloc, keys, expected, content, content.certificates()) {
        Ok(()) => Ok(()),
        Err(fault) => Err(Refusal::from(fault)),
    }
}

fn takes_digest(policy: GeneralPolicy, digest: DigestAlgorithm) -> bool
    ensures { result ≡ takes_digest policy digest }
{
    match digest {
        DigestAlgorithm::Sha1 => policy.takes_sha1,
        DigestAlgorithm::Sha256 => true,
        DigestAlgorithm::Sha384 => true,
        DigestAlgorithm::Sha512 => true,
    }
}

/// Judges the content by the first of these certificates that its signer names.
pub fn check_among<K: KeyFunctions>(
    alloc: Global,
    keys: &K,
    expected: &ExpectedSigner<'_>,
    content: &GeneralContent,
    certificates: &[Asn1RawDer],
) -> Result<(), TrustFault>
    ensures { IsOutcome (trusted_among (K.functions keys.now) (expected_of expected.now) content.now certificates.now).gives result }
{
    for raw in certificates {
        let judged = judged_by(alloc, keys, expected, content, raw.as_bytes())?;
        match judged {
            Some(outcome) => return told(outcome),
            None => {}
        }
    }
    Err(TrustFault::Refused(TrustRefusal::InvalidSignature))
}

fn told(outcome: Result<(), TrustRefusal>) -> Result<(), TrustFault>
    ensures { IsOutcome (λ given. given ≡ outcome) result }
{
    match outcome {
        Ok(()) => Ok(()),
        Err(refusal) => Err(TrustFault::Refused(refusal)),
    }
}

// Judges the content by a certificate of the list, or `None` where the bytes are none that its signer names.
fn judged_by<K: KeyFunctions>(
    alloc: Global,
    keys: &K,
    expected: &ExpectedSigner<'_>,
    content: &GeneralContent,
    bytes: &[u8],
) -> Result<Option<Result<(), TrustRefusal>>, AllocError>
    ensures { IfOk result (IsJudgedBy (K.functions keys.now) (expected_of expected.now) content.now bytes.now) }
{
    let Some((certificate, signed)) = read_signed::<Certificate>(alloc, bytes)? else {
        return Ok(None);
    };
    let judged = judged_as(alloc, keys, expected, content, &certificate, signed);
    drop(certificate);
    judged
}

fn judged_as<K: KeyFunctions>(
    alloc: Global,
    keys: &K,
    expected: &ExpectedSigner<'_>,
    content: &GeneralContent,
    certificate: &Certificate,
    signed: &[u8],
) -> Result<Option<Result<(), TrustRefusal>>, AllocError>
    ensures { IfOk result (IsJudgedAs (K.functions keys.now) (expected_of expected.now) content.now (record { certificate = certificate.now; signed = signed.now })) }
{
    let named = names(alloc, content.sid(), certificate)?;
    if !named {
        return Ok(None);
    }
    let answer = check_certificate(alloc, keys, expected, content, certificate, signed);
    let outcome = outcome_of(answer)?;
    Ok(Some(outcome))
}

// The outcome for which this is the answer.
fn outcome_of(answer: Result<(), TrustFault>) -> Result<Result<(), TrustRefusal>, AllocError>
    ensures { IfOk result (λ outcome. answer ≡ as_answer outcome) }
{
    match answer {
        Ok(()) => Ok(Ok(())),
        Err(TrustFault::Refused(refusal)) => Ok(Err(refusal)),
        Err(TrustFault::Memory) => Err(AllocError),
    }
}

// Judges the certificate, and then the signature.
fn check_certificate<K: KeyFunctions>(
    alloc: Global,
    keys: &K,
    expected: &ExpectedSigner<'_>,
    content: &GeneralContent,
    certificate: &Certificate,
    signed: &[u8],
) -> Result<(), TrustFault>
    ensures { IsOutcome (by_certificate (K.functions keys.now) (expected_of expected.now) content.now (record { certificate = certificate.now; signed = signed.now })).gives result }
{
    check_accepted(alloc, keys, expected, certificate, signed)?;
    check_signature(alloc, keys, certificate, content)
}

// Judges whether the certificate's holder signed the content.
fn check_signature<K: KeyFunctions>(
    alloc: Global,
    keys: &K,
    certificate: &Certificate,
    content: &GeneralContent,
) -> Result<(), TrustFault>
    ensures { IsOutcome (general_signed_by (K.functions keys.now) certificate.now content.now).gives result }
{
    if !has_digest(content) {
        return Err(TrustFault::Refused(TrustRefusal::InvalidSignature));
    }
    check_by_algorithm(alloc, keys, certificate, content)
}

// Whether the digest is that of the content.
fn has_digest(content: &GeneralContent) -> bool
    ensures { result ≡ pointwise nat_eq (digest_by content.now.algorithm (content_of content.now.info)) content.now.digest }
{
    let digest = content.digest_algorithm();
    digest.is_digest_of(content.content(), content.digest())
}

// Judges the signature by its algorithm.
fn check_by_algorithm<K: KeyFunctions>(
    alloc: Global,
    keys: &K,
    certificate: &Certificate,
    content: &GeneralContent,
) -> Result<(), TrustFault>
    ensures { IsOutcome (by_algorithm (K.functions keys.now) certificate.now content.now).gives result }
{
    let Some(algorithm) = algorithm_in(alloc, content.signature_algorithm())? else {
        return Err(TrustFault::Refused(TrustRefusal::InvalidSignature));
    };
    let judged = check_verified(alloc, keys, certificate, content, &algorithm);
    drop(algorithm);
    judged
}

// Judges whether the signature verifies by this algorithm.
fn check_verified<K: KeyFunctions>(
    alloc: Global,
    keys: &K,
    certificate: &Certificate,
    content: &GeneralContent,
    algorithm: &AlgorithmIdentifier,
) -> Result<(), TrustFault>
    ensures { IsOutcome (verified_by (K.functions keys.now) certificate.now content.now algorithm.now).gives result }
{
    let verified = is_verified(alloc, keys, certificate, content, algorithm)?;
    if !verified {
        return Err(TrustFault::Refused(TrustRefusal::InvalidSignature));
    }
    Ok(())
}

// The algorithm of which the element is a spelling, or `None`.
fn algorithm_in(alloc: Global, raw: &Asn1RawDer) -> Result<Option<AlgorithmIdentifier>, AllocError>
    ensures { IfOk result (IsFound (IsAlgorithm raw.now)) }
{
    match from_bytes(alloc, raw.as_bytes()) {
        Ok(algorithm) => Ok(Some(algorithm)),
        Err(fault) => {
            if fault == X509Fault::Memory {
                return Err(AllocError);
            }
            Ok(None)
        }
    }
}

// Whether the signature verifies under the certificate's key.
fn is_verified<K: KeyFunctions>(
    alloc: Global,
    keys: &K,
    certificate: &Certificate,
    content: &GeneralContent,
    algorithm: &AlgorithmIdentifier,
) -> Result<bool, AllocError>
    ensures { IfOk result (λ is. is ≡ verifies_under (K.functions keys.now) certificate.now content.now algorithm.now) }
{
    let Some(named) = named_under(alloc, content.digest_algorithm(), algorithm)? else {
        return Ok(verifies(keys, certificate, content, algorithm));
    };
    let verified = verifies(keys, certificate, content, &named);
    drop(named);
    Ok(verified)
}

// The algorithm by which a signature is judged, if it is another one than this.
fn named_under(
    alloc: Global,
    digest: DigestAlgorithm,
    algorithm: &AlgorithmIdentifier,
) -> Result<Option<AlgorithmIdentifier>, AllocError>
    ensures { IfOk result (λ named. unwrap_or named algorithm.now ≡ signature_under digest algorithm.now) }
{
    if !is_rsa_encryption(algorithm) {
        return Ok(None);
    }
    let beside = rsa_beside(alloc, digest)?;
    Ok(beside)
}

// The algorithm that rsaEncryption is beside a digest algorithm, if it is another one.
fn rsa_beside(
    alloc: Global,
    digest: DigestAlgorithm,
) -> Result<Option<AlgorithmIdentifier>, AllocError>
    ensures { IfOk result (λ made. made ≡ rsa_beside digest) }
{
    match digest {
        DigestAlgorithm::Sha1 => {
            let sha1 = AlgorithmIdentifier::new_sha1_with_rsa_encryption(alloc)?;
            Ok(Some(sha1))
        }
        DigestAlgorithm::Sha256 => Ok(None),
        DigestAlgorithm::Sha384 => {
            let sha384 = AlgorithmIdentifier::new_sha384_with_rsa_encryption(alloc)?;
            Ok(Some(sha384))
        }
        DigestAlgorithm::Sha512 => {
            let sha512 = AlgorithmIdentifier::new_sha512_with_rsa_encryption(alloc)?;
            Ok(Some(sha512))
        }
    }
}

fn verifies<K: KeyFunctions>(
    keys: &K,
    certificate: &Certificate,
    content: &GeneralContent,
    algorithm: &AlgorithmIdentifier,
) -> bool
    ensures { result ≡ verifies_by (K.functions keys.now) certificate.now content.now algorithm.now }
{
    let key = &certificate.tbs_certificate.subject_public_key_info;
    let covered = content.covered();
    let signature = content.signature();
    if is_by_sha1(content, algorithm) {
        return keys.verifies_sha1(key, covered, signature);
    }
    keys.verifies(key, algorithm, covered, signature)
}

// Whether the signature is one of RSA with SHA-1, beside this digest algorithm.
fn is_by_sha1(content: &GeneralContent, algorithm: &AlgorithmIdentifier) -> bool
    ensures { result ≡ is_by_sha1 content.now algorithm.now }
{
    is_sha1(content.digest_algorithm()) && is_sha1_with_rsa(algorithm)
}

fn is_sha1(digest: DigestAlgorithm) -> bool
    ensures { result ≡ is_sha1 digest }
{
    match digest {
        DigestAlgorithm::Sha1 => true,
        DigestAlgorithm::Sha256 => false,
        DigestAlgorithm::Sha384 => false,
        DigestAlgorithm::Sha512 => false,
    }
}

fn is_sha1_with_rsa(algorithm: &AlgorithmIdentifier) -> bool
    ensures { result ≡ pointwise nat_eq (oid_content algorithm.now.algorithm.0) SHA1_WITH_RSA }
{
    algorithm.oid().as_bytes() == SHA1_WITH_RSA.as_slice()
}

fn is_rsa_encryption(algorithm: &AlgorithmIdentifier) -> bool
    ensures { result ≡ pointwise nat_eq (oid_content algorithm.now.algorithm.0) RSA_ENCRYPTION }
{
    algorithm.oid().as_bytes() == RSA_ENCRYPTION.as_slice()
}
