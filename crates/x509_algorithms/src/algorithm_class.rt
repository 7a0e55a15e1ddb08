//! Classes of algorithms, by the object identifiers that tell them.
ghost use Rattle.std.specs.Prelude.{◌≡◌};
ghost use Rattle.x509_algorithms.specs.Arcs.{octet_behind, is_among};
ghost use Rattle.x509_algorithms.specs.Arcs as arcs;
ghost use Rattle.x509_algorithms.specs.AlgorithmClasses as classes;

use crate::octet_behind;
use x509_spelling::Identifiers;

/// RSA keys and signatures of PKCS #1 (RFC 4055, sections 1.2 and 5).
pub struct RsaAlgorithms;

/// Hashes.
pub struct Hashes;

/// Signatures that have no parameters: ECDSA, EdDSA and ML-DSA (RFC 5758, section 3.2; RFC 8410, section 3; RFC 9881, section 2).
pub struct Signatures;

/// Other algorithms that have no parameters: X25519, X448 and DSA with SHA-1 (RFC 8410, section 3; RFC 3279, section 2.2.2).
pub struct PlainAlgorithms;

/// Keys on elliptic curves (RFC 5480, section 2.1.1).
pub struct CurveKeys;

/// RSASSA-PSS (RFC 8017, appendix A.2.3).
pub struct PssSignatures;

/// AES (NIST, Computer Security Objects Register).
pub struct AesCiphers;

impl Identifiers for RsaAlgorithms {
    ghost are_told = { classes.is_rsa };

    fn tell(content: &[u8]) -> bool {
        is_rsa_of_pkcs1(content) || is_rsa_of_nist_signatures(content)
    }
}

impl Identifiers for Hashes {
    ghost are_told = { classes.is_hash };

    fn tell(content: &[u8]) -> bool {
        is_hash_of_digests(content) || is_hash_of_oiw(content) || is_hash_of_nist_hashes(content)
    }
}

impl Identifiers for Signatures {
    ghost are_told = { classes.is_signature };

    fn tell(content: &[u8]) -> bool {
        is_signature_of_ecdsa(content)
            || is_signature_of_nist_signatures(content)
            || is_signature_of_edwards(content)
    }
}

impl Identifiers for PlainAlgorithms {
    ghost are_told = { classes.is_plain };

    fn tell(content: &[u8]) -> bool {
        is_plain_of_edwards(content) || is_plain_of_dsa(content)
    }
}

impl Identifiers for CurveKeys {
    ghost are_told = { classes.is_curve_key };

    fn tell(content: &[u8]) -> bool {
        is_curve_key_arc(content)
    }
}

impl Identifiers for PssSignatures {
    ghost are_told = { classes.is_pss };

    fn tell(content: &[u8]) -> bool {
        is_pss_arc(content)
    }
}

impl Identifiers for AesCiphers {
    ghost are_told = { classes.is_aes };

    fn tell(content: &[u8]) -> bool {
        is_aes_arc(content)
    }
}

fn is_rsa_of_pkcs1(content: &[u8]) -> bool
    ensures { result ≡ is_among classes.is_rsa_of_pkcs1 (octet_behind classes.pkcs1 content.now) }
{
    match octet_behind(&[0x2A, 0x86, 0x48, 0x86, 0xF7, 0x0D, 1, 1], content) {
        Some(arc) => matches!(arc, 1 | 4..=5 | 11..=14),
        None => false,
    }
}

fn is_rsa_of_nist_signatures(content: &[u8]) -> bool
    ensures { result ≡ is_among classes.is_rsa_of_nist_signatures (octet_behind classes.nist_signatures content.now) }
{
    match octet_behind(&[0x60, 0x86, 0x48, 1, 0x65, 3, 4, 3], content) {
        Some(arc) => matches!(arc, 13..=16),
        None => false,
    }
}

fn is_hash_of_digests(content: &[u8]) -> bool
    ensures { result ≡ is_among classes.is_hash_of_digests (octet_behind classes.digests content.now) }
{
    match octet_behind(&[0x2A, 0x86, 0x48, 0x86, 0xF7, 0x0D, 2], content) {
        Some(arc) => matches!(arc, 5),
        None => false,
    }
}

fn is_hash_of_oiw(content: &[u8]) -> bool
    ensures { result ≡ is_among classes.is_hash_of_oiw (octet_behind classes.oiw content.now) }
{
    match octet_behind(&[0x2B, 0x0E, 3, 2], content) {
        Some(arc) => matches!(arc, 26),
        None => false,
    }
}

fn is_hash_of_nist_hashes(content: &[u8]) -> bool
    ensures { result ≡ is_among classes.is_hash_of_nist_hashes (octet_behind arcs.nist_hashes content.now) }
{
    match octet_behind(&[0x60, 0x86, 0x48, 1, 0x65, 3, 4, 2], content) {
        Some(arc) => matches!(arc, 1..=12),
        None => false,
    }
}

fn is_signature_of_ecdsa(content: &[u8]) -> bool
    ensures { result ≡ is_among classes.is_signature_of_ecdsa (octet_behind classes.ecdsa content.now) }
{
    match octet_behind(&[0x2A, 0x86, 0x48, 0xCE, 0x3D, 4, 3], content) {
        Some(arc) => matches!(arc, 2..=4),
        None => false,
    }
}

fn is_signature_of_nist_signatures(content: &[u8]) -> bool
    ensures { result ≡ is_among classes.is_signature_of_nist_signatures (octet_behind classes.nist_signatures content.now) }
{
    match octet_behind(&[0x60, 0x86, 0x48, 1, 0x65, 3, 4, 3], content) {
        Some(arc) => matches!(arc, 9..=12 | 17..=19),
        None => false,
    }
}

fn is_signature_of_edwards(content: &[u8]) -> bool
    ensures { result ≡ is_among classes.is_signature_of_edwards (octet_behind classes.edwards content.now) }
{
    match octet_behind(&[0x2B, 0x65], content) {
        Some(arc) => matches!(arc, 112..=113),
        None => false,
    }
}

fn is_plain_of_edwards(content: &[u8]) -> bool
    ensures { result ≡ is_among classes.is_plain_of_edwards (octet_behind classes.edwards content.now) }
{
    match octet_behind(&[0x2B, 0x65], content) {
        Some(arc) => matches!(arc, 110..=111),
        None => false,
    }
}

fn is_plain_of_dsa(content: &[u8]) -> bool
    ensures { result ≡ is_among classes.is_plain_of_dsa (octet_behind classes.dsa content.now) }
{
    match octet_behind(&[0x2A, 0x86, 0x48, 0xCE, 0x38, 4], content) {
        Some(arc) => matches!(arc, 3),
        None => false,
    }
}

fn is_curve_key_arc(content: &[u8]) -> bool
    ensures { result ≡ is_among classes.is_curve_key_arc (octet_behind classes.curve_keys content.now) }
{
    match octet_behind(&[0x2A, 0x86, 0x48, 0xCE, 0x3D, 2], content) {
        Some(arc) => matches!(arc, 1),
        None => false,
    }
}

fn is_pss_arc(content: &[u8]) -> bool
    ensures { result ≡ is_among classes.is_pss_arc (octet_behind classes.pkcs1 content.now) }
{
    match octet_behind(&[0x2A, 0x86, 0x48, 0x86, 0xF7, 0x0D, 1, 1], content) {
        Some(arc) => matches!(arc, 10),
        None => false,
    }
}

fn is_aes_arc(content: &[u8]) -> bool
    ensures { result ≡ is_among classes.is_aes_arc (octet_behind classes.nist_ciphers content.now) }
{
    match octet_behind(&[0x60, 0x86, 0x48, 1, 0x65, 3, 4, 1], content) {
        Some(arc) => matches!(arc, 1..=8 | 21..=28 | 41..=48),
        None => false,
    }
}
