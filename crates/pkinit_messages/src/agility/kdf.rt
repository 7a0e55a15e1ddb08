//! The key derivation functions.
ghost use Rattle.std.specs.Prelude.{◌≡◌, IfOk};
ghost use Rattle.std.specs.Bool.{nat_eq};
ghost use Rattle.std.specs.Cmp.Lexicographic.{pointwise};
ghost use Rattle.asn1_leaves.specs.ObjectIdentifier.{IsObjectIdentifier, oid_content};
ghost use Rattle.pkinit_messages.specs.Kdfs.{kdf_arcs, kdf_named};

use asn1_leaves::LeafFault;
use picky_asn1::oid::ObjectIdentifier;
use std::alloc::{AllocError, Global};

/// The content octets of id-pkinit-kdf-ah-sha1, 1.3.6.1.5.2.3.6.1.
pub(crate) const KDF_SHA1: [u8; 8] = [0x2B, 0x06, 0x01, 0x05, 0x02, 0x03, 0x06, 0x01];

/// The content octets of id-pkinit-kdf-ah-sha256, 1.3.6.1.5.2.3.6.2.
pub(crate) const KDF_SHA256: [u8; 8] = [0x2B, 0x06, 0x01, 0x05, 0x02, 0x03, 0x06, 0x02];

/// The content octets of id-pkinit-kdf-ah-sha512, 1.3.6.1.5.2.3.6.3.
pub(crate) const KDF_SHA512: [u8; 8] = [0x2B, 0x06, 0x01, 0x05, 0x02, 0x03, 0x06, 0x03];

/// A key derivation function, by its hash function (RFC 8636, section 6).
#[derive(Clone, Copy, Debug, PartialEq, Eq)]
pub enum Kdf {
    /// id-pkinit-kdf-ah-sha1.
    Sha1,
    /// id-pkinit-kdf-ah-sha256.
    Sha256,
    /// id-pkinit-kdf-ah-sha512.
    Sha512,
}

impl Kdf {
    /// The function that the identifier names, if it is one of these three.
    pub fn named(oid: &ObjectIdentifier) -> Option<Kdf>
        ensures { result ≡ kdf_named oid.now }
    {
        if has_content(oid, &KDF_SHA1) {
            Some(Kdf::Sha1)
        } else if has_content(oid, &KDF_SHA256) {
            Some(Kdf::Sha256)
        } else if has_content(oid, &KDF_SHA512) {
            Some(Kdf::Sha512)
        } else {
            None
        }
    }

    /// The function's identifier.
    pub fn identifier(self, alloc: Global) -> Result<ObjectIdentifier, AllocError>
        ensures { IfOk result (λ oid. oid ≡ kdf_arcs self) }
    {
        match self {
            Kdf::Sha1 => of_arcs(alloc, &[1, 3, 6, 1, 5, 2, 3, 6, 1]),
            Kdf::Sha256 => of_arcs(alloc, &[1, 3, 6, 1, 5, 2, 3, 6, 2]),
            Kdf::Sha512 => of_arcs(alloc, &[1, 3, 6, 1, 5, 2, 3, 6, 3]),
        }
    }
}

fn has_content(oid: &ObjectIdentifier, content: &[u8]) -> bool
    ensures { result ≡ pointwise nat_eq (oid_content oid.now) content.now }
{
    oid.as_bytes() == content
}

// The identifier of these arcs.
fn of_arcs(alloc: Global, arcs: &[u64]) -> Result<ObjectIdentifier, AllocError>
    requires { IsObjectIdentifier arcs.now }
    ensures { IfOk result (λ oid. oid ≡ arcs.now) }
{
    match ObjectIdentifier::from_arcs(alloc, arcs) {
        Ok(oid) => Ok(oid),
        Err(LeafFault::Memory) => Err(AllocError),
        Err(_) => unreachable!(),
    }
}
