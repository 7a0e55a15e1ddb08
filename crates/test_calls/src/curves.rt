//! Keys on elliptic curves: that of RFC 8410, section 10.3, and some whose bytes `openssl asn1parse -genconf` writes.
use crate::written::{fault_of, is_written};
use picky_asn1::wrapper::{BitStringAsn1, OctetStringAsn1, OctetStringAsn1Container};
use std::alloc::Global;
use x509_algorithms::AlgorithmIdentifier;
use x509_keys::{PrivateKeyInfo, PrivateKeyValue};
use x509_spelling::X509Fault;

const WITH_CURVE: &[u8] =
    b"\x30\x37\x02\x01\0\x30\x13\x06\x07\x2A\x86\x48\xCE\x3D\x02\x01\x06\x08\x2A\x86\x48\xCE\x3D\x03\x01\x07\x04\x1D\x30\x1B\x02\x01\x01\x04\x03\x01\x02\x03\xA0\x0A\x06\x08\x2A\x86\x48\xCE\x3D\x03\x01\x07\xA1\x05\x03\x03\0\x04\x05";

const WITHOUT_CURVE: &[u8] =
    b"\x30\x24\x02\x01\0\x30\x13\x06\x07\x2A\x86\x48\xCE\x3D\x02\x01\x06\x08\x2A\x86\x48\xCE\x3D\x03\x01\x07\x04\x0A\x30\x08\x02\x01\x01\x04\x03\x01\x02\x03";

fn on_p256(alloc: Global, point: Option<BitStringAsn1>, skip: bool) -> Option<PrivateKeyInfo> {
    let curve = x509_oids::secp256r1(alloc).ok()?;
    let secret = OctetStringAsn1::new(alloc, &[1, 2, 3]).ok()?;
    PrivateKeyInfo::new_ec_encryption(alloc, curve, secret, point, skip).ok()
}

fn with_point(alloc: Global) -> Option<PrivateKeyInfo> {
    let point = BitStringAsn1::new(alloc, &[4, 5], 0).ok()?;
    on_p256(alloc, Some(point), false)
}

#[test]
fn named_curves(rt: HostRuntime) {
    let alloc = rt.alloc();
    assert!(rt; is_written(alloc, with_point(alloc), WITH_CURVE));
    assert!(rt; is_written(alloc, on_p256(alloc, None, true), WITHOUT_CURVE));
}

const SECRET: &[u8] =
    b"\xD4\xEE\x72\xDB\xF9\x13\x58\x4A\xD5\xB6\xD8\xF1\xF7\x69\xF8\xAD\x3A\xFE\x7C\x28\xCB\xF1\xD4\xFB\xE0\x97\xA8\x8F\x44\x75\x58\x42";

const PUBLIC: &[u8] =
    b"\x19\xBF\x44\x09\x69\x84\xCD\xFE\x85\x41\xBA\xC1\x67\xDC\x3B\x96\xC8\x50\x86\xAA\x30\xB6\xB6\xCB\x0C\x5C\x38\xAD\x70\x31\x66\xE1";

const ED25519: &[u8] =
    b"\x30\x2E\x02\x01\0\x30\x05\x06\x03\x2B\x65\x70\x04\x22\x04\x20\xD4\xEE\x72\xDB\xF9\x13\x58\x4A\xD5\xB6\xD8\xF1\xF7\x69\xF8\xAD\x3A\xFE\x7C\x28\xCB\xF1\xD4\xFB\xE0\x97\xA8\x8F\x44\x75\x58\x42";

const ED25519_WITH_PUBLIC: &[u8] =
    b"\x30\x51\x02\x01\x01\x30\x05\x06\x03\x2B\x65\x70\x04\x22\x04\x20\xD4\xEE\x72\xDB\xF9\x13\x58\x4A\xD5\xB6\xD8\xF1\xF7\x69\xF8\xAD\x3A\xFE\x7C\x28\xCB\xF1\xD4\xFB\xE0\x97\xA8\x8F\x44\x75\x58\x42\x81\x21\0\x19\xBF\x44\x09\x69\x84\xCD\xFE\x85\x41\xBA\xC1\x67\xDC\x3B\x96\xC8\x50\x86\xAA\x30\xB6\xB6\xCB\x0C\x5C\x38\xAD\x70\x31\x66\xE1";

fn of_curve(
    alloc: Global,
    algorithm: AlgorithmIdentifier,
    public: Option<BitStringAsn1>,
) -> Result<PrivateKeyInfo, X509Fault> {
    match OctetStringAsn1::new(alloc, SECRET) {
        Ok(secret) => PrivateKeyInfo::new_ed_encryption(algorithm, secret, public),
        Err(_) => Err(X509Fault::Memory),
    }
}

fn ed25519(alloc: Global) -> Option<PrivateKeyInfo> {
    let algorithm = AlgorithmIdentifier::new_ed25519(alloc).ok()?;
    of_curve(alloc, algorithm, None).ok()
}

fn ed25519_with_public(alloc: Global) -> Option<PrivateKeyInfo> {
    let public = BitStringAsn1::new(alloc, PUBLIC, 0).ok()?;
    let algorithm = AlgorithmIdentifier::new_ed25519(alloc).ok()?;
    of_curve(alloc, algorithm, Some(public)).ok()
}

fn rsa_as_curve(alloc: Global) -> Option<X509Fault> {
    let algorithm = AlgorithmIdentifier::new_rsa_encryption(alloc).ok()?;
    fault_of(of_curve(alloc, algorithm, None))
}

const ALONE: &[u8] =
    b"\x04\x22\x04\x20\xD4\xEE\x72\xDB\xF9\x13\x58\x4A\xD5\xB6\xD8\xF1\xF7\x69\xF8\xAD\x3A\xFE\x7C\x28\xCB\xF1\xD4\xFB\xE0\x97\xA8\x8F\x44\x75\x58\x42";

fn secret_alone(alloc: Global) -> Option<PrivateKeyValue> {
    let secret = OctetStringAsn1::new(alloc, SECRET).ok()?;
    Some(PrivateKeyValue::ED(OctetStringAsn1Container(secret)))
}

#[test]
fn curves_of_edwards(rt: HostRuntime) {
    let alloc = rt.alloc();
    assert!(rt; is_written(alloc, ed25519(alloc), ED25519));
    assert!(rt; is_written(alloc, ed25519_with_public(alloc), ED25519_WITH_PUBLIC));
    assert!(rt; rsa_as_curve(alloc) == Some(X509Fault::Meaning));
    assert!(rt; is_written(alloc, secret_alone(alloc), ALONE));
}
