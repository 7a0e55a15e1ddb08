//! Files of certificates and private keys.
ghost use Rattle.std.specs.Prelude.{◌≡◌, ◌≢◌, ◌⊎◌, MatchResult};
ghost use Rattle.std.specs.Bool.{MatchBool};
ghost use Rattle.x509_certificates.specs.Files.{Holds, HoldsKey, HoldsNoKey, HoldsNone, IsEncrypted, IsGivenOr, IsIn, IsKeyFound, IsKeyOf, IsNoKeyFound, IsNoKeyOf, IsNoPkcs1, IsNoPkcs1Found, IsNoPlainKey, IsNotIn, IsNotRsa, IsSealed, IsSpelled, IsSpelling, IsUnread, IsUnspelled};
ghost use Rattle.x509_certificates.specs.declared.pem.Label.TheVariants.{Certificate as OfCertificate};
ghost use Rattle.x509_keys.specs.declared.private_key_value.PrivateKeyValue.TheVariants.{Rsa};

use crate::Certificate;
use crate::fault::FileFault;
use crate::pem::{Found, Label, found_under, is_pem};
use asn1_der::octets::OCTET_STRING;
use picky_asn1_der::{Tag, split_element};
use std::alloc::Global;
use x509_codec::{deviations, from_bytes};
use x509_keys::{PrivateKeyInfo, PrivateKeyValue, RsaPrivateKey};
use x509_spelling::{Spelled, X509Fault};

/// The DER of the certificate in a file, as the file has it (RFC 5280, section 4.1).
pub fn certificate_in(alloc: Global, file: &[u8]) -> Result<Vec<u8>, FileFault>
    ensures { MatchResult result (λ der. Holds ⟦<Certificate as Spelled>⟧.spells OfCertificate file.now der.items)
        (HoldsNone ⟦<Certificate as Spelled>⟧.spells OfCertificate file.now) }
{
    match found_in(alloc, file, Label::Certificate) {
        Ok(found) => certificate_of(alloc, found),
        Err(fault) => Err(fault),
    }
}

/// The DER, if it is that of a certificate.
fn certificate_of(alloc: Global, found: Found) -> Result<Vec<u8>, FileFault>
    ensures { MatchResult result (λ der. IsSpelled ⟦<Certificate as Spelled>⟧.spells found der.items) (IsUnspelled ⟦<Certificate as Spelled>⟧.spells found) }
{
    match deviations::<Certificate>(alloc, found.der.as_slice()) {
        Ok(_) => Ok(found.der),
        Err(fault) => Err(fault_at(found.place, fault)),
    }
}

/// The fault of DER at a place that isn't read.
fn fault_at(place: usize, fault: X509Fault) -> FileFault
    ensures { ((fault ≡ X509Fault.Memory) × (result ≡ FileFault.Memory)) ⊎ ((fault ≢ X509Fault.Memory) × (result ≡ FileFault.NotRead place)) }
{
    if fault == X509Fault::Memory {
        FileFault::Memory
    } else {
        FileFault::NotRead(place)
    }
}

/// The DER in a file: under a label in PEM, or else the whole file.
fn found_in(alloc: Global, file: &[u8], label: Label) -> Result<Found, FileFault>
    ensures { MatchResult result (IsIn label file.now) (IsNotIn label file.now) }
{
    if is_pem(file) {
        found_under(alloc, file, label)
    } else {
        whole(alloc, file)
    }
}

/// The file as a whole.
fn whole(alloc: Global, file: &[u8]) -> Result<Found, FileFault>
    ensures { MatchResult result (λ found. (found.der.items ≡ file.now) × (found.place ≡ 0)) (λ fault. fault ≡ FileFault.Memory) }
{
    match Vec::from_slice(alloc, file) {
        Ok(der) => Ok(Found { place: 0, der }),
        Err(_) => Err(FileFault::Memory),
    }
}

/// The private key of RSA in a file: of PKCS#8 (RFC 5958), or of PKCS#1 (RFC 8017, appendix A.1.2). In PEM the label of PKCS#8 counts
/// before that of PKCS#1, and that of an encrypted key last.
///
/// An encrypted key is `Encrypted`, a key for another algorithm `NotRsa`, and DER that is no private key `NotRead`, each with its place.
pub fn private_key_in(alloc: Global, file: &[u8]) -> Result<RsaPrivateKey, FileFault>
    ensures { MatchResult result (HoldsKey ⟦<PrivateKeyInfo as Spelled>⟧.spells ⟦<RsaPrivateKey as Spelled>⟧.spells file.now)
        (HoldsNoKey ⟦<PrivateKeyInfo as Spelled>⟧.spells ⟦<RsaPrivateKey as Spelled>⟧.spells file.now) }
{
    match key_found(alloc, file) {
        Ok(found) => key_of(alloc, &found),
        Err(fault) => Err(fault),
    }
}

/// The DER of the key in a file.
fn key_found(alloc: Global, file: &[u8]) -> Result<Found, FileFault>
    ensures { MatchResult result (IsKeyFound file.now) (IsNoKeyFound file.now) }
{
    match found_in(alloc, file, Label::PrivateKey) {
        Ok(found) => Ok(found),
        Err(fault) => pkcs1_found(alloc, file, fault),
    }
}

/// The DER of a key of PKCS#1, where that of PKCS#8 isn't there by this fault.
fn pkcs1_found(alloc: Global, file: &[u8], fault: FileFault) -> Result<Found, FileFault>
    ensures { MatchResult result (λ found. (fault ≡ FileFault.NotFound) × IsIn Label.RsaPrivateKey file.now found) (IsGivenOr fault (IsNoPkcs1Found file.now)) }
{
    if fault != FileFault::NotFound {
        return Err(fault);
    }
    match found_in(alloc, file, Label::RsaPrivateKey) {
        Ok(found) => Ok(found),
        Err(fault) => Err(if_encrypted(alloc, file, fault)),
    }
}

/// The fault of a file where neither key is, the last by this fault. There may be an encrypted one.
fn if_encrypted(alloc: Global, file: &[u8], fault: FileFault) -> FileFault
    ensures { IsGivenOr fault (IsNoPlainKey file.now) result }
{
    if fault != FileFault::NotFound {
        return fault;
    }
    match found_in(alloc, file, Label::EncryptedPrivateKey) {
        Ok(found) => FileFault::Encrypted(found.place),
        Err(fault) => fault,
    }
}

/// The key that DER holds.
fn key_of(alloc: Global, found: &Found) -> Result<RsaPrivateKey, FileFault>
    ensures { MatchResult result (IsKeyOf ⟦<PrivateKeyInfo as Spelled>⟧.spells ⟦<RsaPrivateKey as Spelled>⟧.spells found.now.der.items)
        (IsNoKeyOf ⟦<PrivateKeyInfo as Spelled>⟧.spells ⟦<RsaPrivateKey as Spelled>⟧.spells found.now) }
{
    match from_bytes::<PrivateKeyInfo>(alloc, found.der.as_slice()) {
        Ok(info) => {
            let key = rsa_key_of(&info, found.place);
            drop(info);
            key
        }
        Err(fault) => {
            if fault == X509Fault::Memory {
                return Err(FileFault::Memory);
            }
            pkcs1_key_of(alloc, found)
        }
    }
}

/// The key, if it is one of RSA.
fn rsa_key_of(info: &PrivateKeyInfo, place: usize) -> Result<RsaPrivateKey, FileFault>
    ensures { MatchResult result (λ key. info.now.fields.private_key ≡ Rsa (record { 0 = key })) (IsNotRsa info.now place) }
{
    match info.private_key() {
        PrivateKeyValue::Rsa(key) => copied(&key.0),
        PrivateKeyValue::EC(_) => Err(FileFault::NotRsa(place)),
        PrivateKeyValue::ED(_) => Err(FileFault::NotRsa(place)),
    }
}

fn copied(key: &RsaPrivateKey) -> Result<RsaPrivateKey, FileFault>
    ensures { MatchResult result (λ copy. copy ≡ key.now) (λ fault. fault ≡ FileFault.Memory) }
{
    match key.clone() {
        Ok(copy) => Ok(copy),
        Err(_) => Err(FileFault::Memory),
    }
}

fn pkcs1_key_of(alloc: Global, found: &Found) -> Result<RsaPrivateKey, FileFault>
    ensures { MatchResult result (IsSpelling ⟦<RsaPrivateKey as Spelled>⟧.spells found.now.der.items) (IsNoPkcs1 ⟦<RsaPrivateKey as Spelled>⟧.spells found.now) }
{
    match from_bytes::<RsaPrivateKey>(alloc, found.der.as_slice()) {
        Ok(key) => Ok(key),
        Err(fault) => Err(unread(found, fault)),
    }
}

/// The fault of DER that isn't read as a key by this fault.
fn unread(found: &Found, fault: X509Fault) -> FileFault
    ensures { ((fault ≡ X509Fault.Memory) × (result ≡ FileFault.Memory)) ⊎ ((fault ≢ X509Fault.Memory) × IsUnread found.now result) }
{
    if fault == X509Fault::Memory {
        return FileFault::Memory;
    }
    if is_encrypted(found.der.as_slice()) {
        FileFault::Encrypted(found.place)
    } else {
        FileFault::NotRead(found.place)
    }
}

/// Whether an encrypted private key begins the DER (RFC 5958, section 3).
fn is_encrypted(der: &[u8]) -> bool
    ensures { MatchBool result (IsEncrypted der.now) (IsEncrypted der.now → ⊥) }
{
    match split_element(der) {
        Ok((info, _)) => info.tag() == Tag::SEQUENCE && is_sealed(info.content()),
        Err(_) => false,
    }
}

/// Whether the content of a SEQUENCE begins with an algorithm and an OCTET STRING.
fn is_sealed(content: &[u8]) -> bool
    ensures { MatchBool result (IsSealed content.now) (IsSealed content.now → ⊥) }
{
    match split_element(content) {
        Ok((algorithm, rest)) => algorithm.tag() == Tag::SEQUENCE
            && rest.starts_with(&[OCTET_STRING]),
        Err(_) => false,
    }
}
