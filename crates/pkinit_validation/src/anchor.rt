//! Trust anchors.
ghost use Rattle.std.specs.Prelude.{◌≡◌, IfOk};
ghost use Rattle.pkinit_validation.specs.Anchors.{ReadsMade};

use crate::certificates::name_bytes;
use std::alloc::{AllocError, Global};
use std::marker::Model;
use x509_certificates::Certificate;
use x509_codec::from_bytes;
use x509_keys::SubjectPublicKeyInfo;
use x509_spelling::{Spelled, X509Fault};

/// An authority that is trusted to issue certificates: its name and its public key (RFC 5280, section 6.1.1). Contracts see
/// the encoding of the name, and the key.
#[derive(Drop)]
pub struct Anchor {
    subject: Vec<u8>,
    key: SubjectPublicKeyInfo,
}

impl Model for Anchor {
    ghost use Rattle.pkinit_validation.specs.Anchors.{AnchorRecord};

    ghost Value = { AnchorRecord };

    ghost view = { λ a. record { subject = a.subject.items; key = a.key } };
}

impl Anchor {
    ghost use Rattle.pkinit_validation.specs.Anchors.{anchor_of};

    /// The anchor with a certificate's subject and public key. The certificate may have any of the accepted spellings. Its
    /// validity, its extensions and its own signature are not judged.
    pub fn from_certificate(alloc: Global, bytes: &[u8]) -> Result<Anchor, X509Fault>
        ensures { ReadsMade ⟦<Certificate as Spelled>⟧.spells anchor_of bytes.now result }
    {
        anchor_in::<Certificate>(alloc, bytes)
    }

    /// The DER of the authority's name.
    pub fn subject(&self) -> &[u8]
        ensures { result.now ≡ self.now.subject }
    {
        self.subject.as_slice()
    }

    /// The authority's public key.
    pub fn key(&self) -> &SubjectPublicKeyInfo
        ensures { result.now ≡ self.now.key }
    {
        &self.key
    }
}

// Values that name an authority.
trait NamesAuthority: Spelled {
    ghost use Rattle.pkinit_validation.specs.Anchors.{AnchorRecord};

    ghost authority: { Self → AnchorRecord };

    fn anchor(&self, alloc: Global) -> Result<Anchor, AllocError>
        ensures { IfOk result (λ anchor. anchor ≡ authority self.now) };
}

impl NamesAuthority for Certificate {
    ghost use Rattle.pkinit_validation.specs.Anchors.{anchor_of};

    ghost authority = { anchor_of };

    fn anchor(&self, alloc: Global) -> Result<Anchor, AllocError> {
        let held = &self.tbs_certificate;
        let subject = name_bytes(alloc, &held.subject)?;
        let key = held.subject_public_key_info.clone()?;
        Ok(Anchor { subject, key })
    }
}

// The authority that the value names. The value is owned here, where its type is a parameter.
fn anchor_in<T: NamesAuthority + Drop>(alloc: Global, bytes: &[u8]) -> Result<Anchor, X509Fault>
    ensures { ReadsMade T.spells T.authority bytes.now result }
{
    let value: T = from_bytes(alloc, bytes)?;
    let anchor = value.anchor(alloc)?;
    Ok(anchor)
}
