//! Which certificates are accepted under an anchor.
ghost use Rattle.std.specs.Prelude.{◌≡◌, ◌/◌};
ghost use Rattle.pkinit_validation.specs.Accepted.{has_unrecognised, is_generic, is_unrecognised, is_valid_at, issued, time_seconds};
ghost use Rattle.pkinit_validation.specs.Expected.{expected_of};
ghost use Rattle.pkinit_validation.specs.Refusals.{IsOutcome};

use crate::certificates::is_encoded_as;
use crate::expected::ExpectedSigner;
use crate::refusal::{TrustFault, TrustRefusal};
use krb_time::{MICROSECONDS_IN_SECOND, Moment};
use std::alloc::Global;
use x509_certificates::{Certificate, Extension, ExtensionView};
use x509_fields::{Time, Validity};
use x509_keys::KeyFunctions;

/// Judges whether the certificate is valid at the moment, and the anchor issued it. `signed` is the slice that its issuer signed.
pub(crate) fn check_issued<K: KeyFunctions>(
    alloc: Global,
    keys: &K,
    expected: &ExpectedSigner<'_>,
    certificate: &Certificate,
    signed: &[u8],
) -> Result<(), TrustFault>
    ensures { IsOutcome (issued (K.functions keys.now) (expected_of expected.now) (record { certificate = certificate.now; signed = signed.now })).gives result }
{
    let held = &certificate.tbs_certificate;
    if !is_valid_at(expected.moment, &held.validity) {
        return Err(TrustFault::Refused(TrustRefusal::InvalidCertificate));
    }
    if !is_encoded_as(alloc, &held.issuer, expected.anchor.subject())? {
        return Err(TrustFault::Refused(TrustRefusal::CantVerifyCertificate));
    }
    if has_unrecognised(certificate) {
        return Err(TrustFault::Refused(TrustRefusal::CantVerifyCertificate));
    }
    let algorithm = &certificate.signature_algorithm;
    let signature = certificate.signature_value.as_bytes();
    if !keys.verifies(expected.anchor.key(), algorithm, signed, signature) {
        return Err(TrustFault::Refused(TrustRefusal::CantVerifyCertificate));
    }
    Ok(())
}

fn time_seconds(time: &Time) -> u64
    ensures { result ≡ time_seconds time.now }
{
    match time {
        Time::Utc(time) => time.0.seconds(),
        Time::Generalized(time) => time.0.seconds(),
    }
}

fn is_valid_at(moment: Moment, validity: &Validity) -> bool
    ensures { result ≡ is_valid_at moment validity.now }
{
    let second = moment.micros() / MICROSECONDS_IN_SECOND;
    time_seconds(&validity.not_before) <= second && second <= time_seconds(&validity.not_after)
}

fn is_unrecognised(extension: &Extension) -> bool
    ensures { result ≡ is_unrecognised extension.now }
{
    extension.critical() && is_generic(extension)
}

fn is_generic(extension: &Extension) -> bool
    ensures { result ≡ is_generic extension.now.extn_value }
{
    match extension.extn_value() {
        ExtensionView::Generic(_) => true,
        _ => false,
    }
}

fn has_unrecognised(certificate: &Certificate) -> bool
    ensures { result ≡ has_unrecognised certificate.now }
{
    certificate.extensions().iter().any(is_unrecognised)
}
