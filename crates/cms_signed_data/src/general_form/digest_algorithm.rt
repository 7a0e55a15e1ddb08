//! The digest algorithms.
ghost use Rattle.std.specs.Prelude.{◌≡◌};
ghost use Rattle.std.specs.Bool.{nat_eq};
ghost use Rattle.std.specs.Cmp.Lexicographic.{pointwise};
ghost use Rattle.sha2.specs.Sha256.{sha256};
ghost use Rattle.sha2.specs.Sha512.{sha384, sha512};
ghost use Rattle.asn1_leaves.specs.ObjectIdentifier.{oid_content};
ghost use Rattle.cms_signed_data.specs.Digests.{are_no_parameters, digest_by, digest_named, named_by};

use crate::general_form::any_algorithm::AnyAlgorithm;
use asn1_der::octets::NULL;
use picky_asn1::wrapper::ObjectIdentifierAsn1;
use picky_asn1_der::RawElement;
use sha1::Sha1;
use sha2::{Digest, Sha256, Sha384, Sha512};

/// The content octets of id-sha1, 1.3.14.3.2.26.
pub(crate) const SHA1: [u8; 5] = [0x2B, 0x0E, 0x03, 0x02, 0x1A];

/// The content octets of id-sha256, 2.16.840.1.101.3.4.2.1.
pub(crate) const SHA256: [u8; 9] = [0x60, 0x86, 0x48, 0x01, 0x65, 0x03, 0x04, 0x02, 0x01];

/// The content octets of id-sha384, 2.16.840.1.101.3.4.2.2.
pub(crate) const SHA384: [u8; 9] = [0x60, 0x86, 0x48, 0x01, 0x65, 0x03, 0x04, 0x02, 0x02];

/// The content octets of id-sha512, 2.16.840.1.101.3.4.2.3.
pub(crate) const SHA512: [u8; 9] = [0x60, 0x86, 0x48, 0x01, 0x65, 0x03, 0x04, 0x02, 0x03];

/// A digest algorithm.
#[derive(Clone, Copy, Debug, PartialEq, Eq)]
pub enum DigestAlgorithm {
    /// SHA-1, which collides: no signature over it is worth much (RFC 6194).
    Sha1,
    /// SHA-256.
    Sha256,
    /// SHA-384.
    Sha384,
    /// SHA-512.
    Sha512,
}

impl DigestAlgorithm {
    /// The algorithm that this names, if it is one of these with no parameters or NULL.
    #[tactic(auto, unfolding(crate::specs::Digests::digest_named))]
    pub fn named(algorithm: &AnyAlgorithm) -> Option<DigestAlgorithm>
        ensures { result ≡ digest_named algorithm.now }
    {
        if !are_no_parameters(algorithm.parameters.as_slice()) {
            return None;
        }
        named_by(&algorithm.algorithm)
    }

    /// Whether the digest is that of these octets.
    pub fn is_digest_of(self, octets: &[u8], digest: &[u8]) -> bool
        ensures { result ≡ pointwise nat_eq (digest_by self octets.now) digest.now }
    {
        match self {
            DigestAlgorithm::Sha1 => Sha1::digest(octets).as_slice() == digest,
            DigestAlgorithm::Sha256 => sha256_of(octets).as_slice() == digest,
            DigestAlgorithm::Sha384 => sha384_of(octets).as_slice() == digest,
            DigestAlgorithm::Sha512 => sha512_of(octets).as_slice() == digest,
        }
    }
}

fn named_by(oid: &ObjectIdentifierAsn1) -> Option<DigestAlgorithm>
    ensures { result ≡ named_by oid.now }
{
    if has_content(oid, &SHA1) {
        Some(DigestAlgorithm::Sha1)
    } else if has_content(oid, &SHA256) {
        Some(DigestAlgorithm::Sha256)
    } else if has_content(oid, &SHA384) {
        Some(DigestAlgorithm::Sha384)
    } else if has_content(oid, &SHA512) {
        Some(DigestAlgorithm::Sha512)
    } else {
        None
    }
}

/// Whether these are the identifier's content octets.
pub(crate) fn has_content(oid: &ObjectIdentifierAsn1, content: &[u8]) -> bool
    ensures { result ≡ pointwise nat_eq (oid_content oid.now.0) content.now }
{
    oid.0.as_bytes() == content
}

// Whether there are no parameters, or NULL alone.
fn are_no_parameters(parameters: &[RawElement]) -> bool
    ensures { result ≡ are_no_parameters parameters.now }
{
    match parameters {
        [] => true,
        [only] => only.first() == NULL && only.content().is_empty(),
        _ => false,
    }
}

fn sha256_of(octets: &[u8]) -> [u8; 32]
    ensures { result ≡ sha256 octets.now }
{
    let mut hasher = Sha256::new();
    hasher.update(octets);
    hasher.finalize()
}

fn sha384_of(octets: &[u8]) -> [u8; 48]
    ensures { result ≡ sha384 octets.now }
{
    let mut hasher = Sha384::new();
    hasher.update(octets);
    hasher.finalize()
}

fn sha512_of(octets: &[u8]) -> [u8; 64]
    ensures { result ≡ sha512 octets.now }
{
    let mut hasher = Sha512::new();
    hasher.update(octets);
    hasher.finalize()
}
