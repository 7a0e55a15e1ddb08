//! Which signed content is trusted.
ghost use Rattle.std.specs.Prelude.{Result};
ghost use Rattle.picky_asn1.specs.Bytes.{Bytes};
ghost use Rattle.x509_keys.specs.KeyFunctions.{KeysRecord};
ghost use Rattle.pkinit_validation.specs.Accepted.{accepted};
ghost use Rattle.pkinit_validation.specs.Certificates.{GivesOf};
ghost use Rattle.pkinit_validation.specs.Expected.{ExpectedRecord, expected_of};
ghost use Rattle.pkinit_validation.specs.Judged.{JudgedRecord, judged_of};
ghost use Rattle.pkinit_validation.specs.Refusals.{IsOutcome};
ghost use Rattle.pkinit_validation.specs.Trusted.{trusted};
ghost use Rattle.pkinit_validation.specs.declared.refusal.TrustRefusal.{TrustRefusal};
ghost use Rattle.pkinit_validation.specs.declared.refusal.TrustRefusal.TheVariants as trust_refusal;

use crate::accepted::check_issued;
use crate::certificates::read_signed;
use crate::expected::ExpectedSigner;
use crate::judged::JudgedContent;
use crate::principals::check_named;
use crate::refusal::{TrustFault, TrustRefusal};
use crate::signers::check_signer;
use std::alloc::Global;
use x509_certificates::Certificate;
use x509_codec::Signed;
use x509_keys::KeyFunctions;

/// Judges whether the expected principal signed the content, and its certificate, which the content has, is accepted. Of
/// several reasons against it the first in the order of [`TrustRefusal`] is returned.
pub fn check_trusted<K: KeyFunctions>(
    alloc: Global,
    keys: &K,
    expected: &ExpectedSigner<'_>,
    judged: &JudgedContent<'_>,
) -> Result<(), TrustFault>
    ensures { IsOutcome (trusted (K.functions keys.now) (expected_of expected.now) (judged_of judged.now)).gives result }
{
    check_in::<Certificate, K>(alloc, keys, expected, judged)
}

// Values by which content is judged.
trait Judges: Signed {
    ghost judged_by: { KeysRecord → ExpectedRecord → JudgedRecord → Self → Bytes → Result (Unit {0}) TrustRefusal → Type 0 };

    // Judges the content by it. `signed` is the slice of it that is signed.
    fn check<K: KeyFunctions>(
        &self,
        alloc: Global,
        keys: &K,
        expected: &ExpectedSigner<'_>,
        signed: &[u8],
        judged: &JudgedContent<'_>,
    ) -> Result<(), TrustFault>
        ensures { IsOutcome (judged_by (K.functions keys.now) (expected_of expected.now) (judged_of judged.now) self.now signed.now) result };
}

impl Judges for Certificate {
    ghost use Rattle.pkinit_validation.specs.Trusted.{trusted_by};

    ghost judged_by = { λ keys expected judged value part. (trusted_by keys expected judged (record { certificate = value; signed = part })).gives };

    fn check<K: KeyFunctions>(
        &self,
        alloc: Global,
        keys: &K,
        expected: &ExpectedSigner<'_>,
        signed: &[u8],
        judged: &JudgedContent<'_>,
    ) -> Result<(), TrustFault> {
        check_accepted(alloc, keys, expected, self, signed)?;
        check_signer(alloc, keys, self, judged)
    }
}

// Reads the content's certificate and judges by it. The certificate is owned here, where its type is a parameter.
fn check_in<T: Judges + Drop, K: KeyFunctions>(
    alloc: Global,
    keys: &K,
    expected: &ExpectedSigner<'_>,
    judged: &JudgedContent<'_>,
) -> Result<(), TrustFault>
    ensures { IsOutcome (GivesOf T.spells (judged_of judged.now).certificate trust_refusal.CantVerifyCertificate (T.judged_by (K.functions keys.now) (expected_of expected.now) (judged_of judged.now))) result }
{
    let Some((value, signed)) = read_signed::<T>(alloc, judged.certificate)? else {
        return Err(TrustFault::Refused(TrustRefusal::CantVerifyCertificate));
    };
    value.check(alloc, keys, expected, signed, judged)
}

/// Judges whether the certificate is accepted for the expected principal. `signed` is the slice that its issuer signed.
pub(crate) fn check_accepted<K: KeyFunctions>(
    alloc: Global,
    keys: &K,
    expected: &ExpectedSigner<'_>,
    certificate: &Certificate,
    signed: &[u8],
) -> Result<(), TrustFault>
    ensures { IsOutcome (accepted (K.functions keys.now) (expected_of expected.now) (record { certificate = certificate.now; signed = signed.now })).gives result }
{
    check_issued(alloc, keys, expected, certificate, signed)?;
    check_named(alloc, expected, certificate)
}
