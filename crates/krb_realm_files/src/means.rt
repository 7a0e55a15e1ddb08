//! What logins by certificate are answered by.
ghost use Rattle.std.specs.Prelude.{◌≡◌, ◌≢◌, ◌⊎◌, Ok, Err, Some, IfOk, MatchOption, MatchResult};
ghost use Rattle.picky_asn1_der.specs.Found.{IsFound};
ghost use Rattle.std.specs.Bool.{MatchBool};
ghost use Rattle.krb_realm_files.specs.Means.{AreMeans, AreMeansIn, AreParts, IsHolder, IsNoHolder, IsNoMeans, IsNoOwnIn, IsNoPair, IsNoRow, IsOwnIn, IsPair, IsPrivateKey, IsUnusable};
ghost use Rattle.rsa_keys.specs.declared.own_key.OwnKey.{OwnKey};
ghost use Rattle.rsa_keys.specs.declared.refusal.RsaKeyRefusal.{RsaKeyRefusal};
ghost use Rattle.rsa_keys.specs.Functions.{IsPublicPart};
ghost use Rattle.rsa_keys.specs.OwnKeys.{key_refusal};
ghost use Rattle.rsa_keys.specs.PrivateKeys.{IsOwnKeyOf, public_part};

use crate::pkinit_fault::PkinitFault;
use picky_asn1_der::{read_whole, split_element};
use pkinit_validation::{Anchor, RealmPkinit};
use public_key_cryptography::Group;
use rsa_keys::{OwnKey, RsaKeys};
use std::alloc::{AllocError, Global};
use x509_keys::{PublicKey, RsaPrivateKey, RsaPublicKey};
use x509_spelling::X509Fault;

/// The parts of what logins by certificate are answered by, each in DER.
#[derive(Clone, Copy)]
pub struct PkinitParts<'a> {
    /// The KDC's certificate.
    pub certificate: &'a [u8],
    /// Its private key (RFC 8017, appendix A.1.2).
    pub key: &'a [u8],
    /// The certificate of the authority that issues the clients' certificates.
    pub anchor: &'a [u8],
}

/// What logins by certificate are answered by (RFC 4556, section 3.2): the anchor, and the KDC's certificate and key.
#[derive(Drop)]
pub struct PkinitMeans {
    anchor: Anchor,
    certificate: Vec<u8>,
    keys: RsaKeys,
}

impl PkinitMeans {
    ghost use Rattle.pkinit_validation.specs.Trust.{trust_of};
    ghost use Rattle.krb_realm_files.specs.Means.{trust_in};

    /// Borrows what requests by certificate are judged by.
    pub fn pkinit(&self) -> RealmPkinit<'_, RsaKeys>
        ensures trust { trust_of result.anchor result.certificate ≡ trust_in self.now }
        ensures keys { result.keys.now ≡ self.now.keys }
    {
        RealmPkinit {
            anchor: Some(&self.anchor),
            certificate: Some(self.certificate.as_slice()),
            keys: &self.keys,
        }
    }
}

/// Returns what logins by certificate are answered by, whose DER these octets are: of the KDC's certificate, of its private key and of the
/// anchor, one after the other. It refuses them by the first part that is wrong.
pub fn means_in(alloc: Global, octets: &[u8]) -> Result<PkinitMeans, PkinitFault>
    ensures { MatchResult result (AreMeansIn octets.now) (IsUnusable octets.now) }
{
    match parts_of(octets) {
        Some(parts) => means_of(alloc, parts),
        None => Err(PkinitFault::NotThree),
    }
}

// Returns the three elements that the octets are.
fn parts_of(octets: &[u8]) -> Option<PkinitParts<'_>>
    ensures { MatchOption result (IsNoRow 3 octets.now) (λ parts. AreParts octets.now parts.certificate.now parts.key.now parts.anchor.now) }
{
    let Ok((certificate, behind)) = split_element(octets) else {
        return None;
    };
    let Ok((key, last)) = split_element(behind) else {
        return None;
    };
    let Ok((anchor, rest)) = split_element(last) else {
        return None;
    };
    if !rest.is_empty() {
        return None;
    }
    Some(PkinitParts {
        certificate: certificate.whole(),
        key: key.whole(),
        anchor: anchor.whole(),
    })
}

/// Returns what logins by certificate are answered by, of its parts. The key has to be the certificate's.
pub fn means_of(alloc: Global, parts: PkinitParts<'_>) -> Result<PkinitMeans, PkinitFault>
    ensures { MatchResult result
        (AreMeans parts.entry.certificate.now parts.entry.key.now parts.entry.anchor.now)
        (IsNoMeans parts.entry.certificate.now parts.entry.key.now parts.entry.anchor.now) }
{
    let own = own_pair(alloc, parts.certificate, parts.key)?;
    match trust_of(alloc, parts) {
        Ok((anchor, certificate)) => Ok(PkinitMeans {
            anchor,
            certificate,
            keys: RsaKeys::new(Group::Modp2048, Some(own)),
        }),
        Err(fault) => {
            drop(own);
            Err(fault)
        }
    }
}

// Returns the anchor, and a copy of the KDC's certificate.
fn trust_of(alloc: Global, parts: PkinitParts<'_>) -> Result<(Anchor, Vec<u8>), PkinitFault>
    ensures { MatchResult result
        (λ trust. IsHolder parts.entry.anchor.now trust.0 × (trust.1.items ≡ parts.entry.certificate.now))
        (λ fault. (fault ≡ PkinitFault.Memory) ⊎ ((fault ≡ PkinitFault.Anchor) × IsNoHolder parts.entry.anchor.now)) }
{
    let anchor = holder_in(alloc, parts.anchor, PkinitFault::Anchor)?;
    let certificate = octets_of(alloc, parts.certificate)?;
    Ok((anchor, certificate))
}

fn octets_of(alloc: Global, octets: &[u8]) -> Result<Vec<u8>, PkinitFault>
    ensures { MatchResult result (λ own. own.items ≡ octets.now) (λ fault. fault ≡ PkinitFault.Memory) }
{
    match Vec::from_slice(alloc, octets) {
        Ok(own) => Ok(own),
        Err(_) => Err(PkinitFault::Memory),
    }
}

// Returns the private key of a certificate. It refuses a key that isn't the certificate's.
fn own_pair(alloc: Global, certificate: &[u8], key: &[u8]) -> Result<OwnKey, PkinitFault>
    ensures { MatchResult result (IsPair certificate.now key.now) (IsNoPair certificate.now key.now) }
{
    let holder = holder_in(alloc, certificate, PkinitFault::Certificate)?;
    let own = own_in(alloc, key);
    let pair = of_holder(&holder, own);
    drop(holder);
    pair
}

// Returns the key if it is the holder's.
fn of_holder(holder: &Anchor, own: Result<OwnKey, PkinitFault>) -> Result<OwnKey, PkinitFault>
    ensures { MatchResult result
        (λ pair. (own ≡ Ok pair) × IsPublicPart pair holder.now.key)
        (λ refusal. (own ≡ Err refusal) ⊎ ((refusal ≡ PkinitFault.OtherKey) × ((other : OwnKey) × (own ≡ Ok other) × (IsPublicPart other holder.now.key → ⊥)))) }
{
    match own {
        Ok(own) => {
            if is_public_part(holder, &own) {
                Ok(own)
            } else {
                drop(own);
                Err(PkinitFault::OtherKey)
            }
        }
        Err(fault) => Err(fault),
    }
}

// Whether the holder's key is the public part of this one.
fn is_public_part(holder: &Anchor, own: &OwnKey) -> bool
    ensures { MatchBool result (IsPublicPart own.now holder.now.key) (IsPublicPart own.now holder.now.key → ⊥) }
{
    match holder.key().subject_public_key() {
        PublicKey::Rsa(key) => are_same(&key.0, own.public()),
        _ => false,
    }
}

fn are_same(key: &RsaPublicKey, other: &RsaPublicKey) -> bool
    ensures { MatchBool result (key.now ≡ other.now) (key.now ≢ other.now) }
{
    key.modulus == other.modulus && key.public_exponent == other.public_exponent
}

// Returns the holder that a certificate names, with its public key, and this fault if the bytes are no certificate.
fn holder_in(alloc: Global, bytes: &[u8], otherwise: PkinitFault) -> Result<Anchor, PkinitFault>
    ensures { MatchResult result (IsHolder bytes.now) (λ refusal. (refusal ≡ PkinitFault.Memory) ⊎ ((refusal ≡ otherwise) × IsNoHolder bytes.now)) }
{
    match Anchor::from_certificate(alloc, bytes) {
        Ok(holder) => Ok(holder),
        Err(fault) => {
            if fault == X509Fault::Memory {
                return Err(PkinitFault::Memory);
            }
            Err(otherwise)
        }
    }
}

// Returns the key of a private key in DER.
fn own_in(alloc: Global, bytes: &[u8]) -> Result<OwnKey, PkinitFault>
    ensures { MatchResult result (IsOwnIn bytes.now) (IsNoOwnIn bytes.now) }
{
    let Ok(found) = read_private_key(alloc, bytes) else {
        return Err(PkinitFault::Memory);
    };
    match found {
        Some(private) => {
            let own = own_of(alloc, &private);
            drop(private);
            own
        }
        None => Err(PkinitFault::Key),
    }
}

// Returns the private key of PKCS#1 whose one encoding the bytes are, or none (RFC 8017, appendix A.1.2).
#[tactic(auto, unfolding(crate::specs::Means::IsPrivateKey))]
fn read_private_key(alloc: Global, bytes: &[u8]) -> Result<Option<RsaPrivateKey>, AllocError>
    ensures { IfOk result (IsFound (IsPrivateKey bytes.now)) }
{
    read_whole(alloc, bytes)
}

fn own_of(alloc: Global, private: &RsaPrivateKey) -> Result<OwnKey, PkinitFault>
    ensures { MatchResult result (IsOwnKeyOf private.now)
        (λ refusal. (refusal ≡ PkinitFault.Memory) ⊎ ((why : RsaKeyRefusal) × (refusal ≡ PkinitFault.Refused why) × (key_refusal (public_part private.now) ≡ Some why))) }
{
    match OwnKey::of_private(alloc, private) {
        Ok(Ok(own)) => Ok(own),
        Ok(Err(refusal)) => Err(PkinitFault::Refused(refusal)),
        Err(_) => Err(PkinitFault::Memory),
    }
}
