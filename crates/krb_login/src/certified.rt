//! A certificate with its private key, and the authority that the client trusts.

use crate::arguments::CertificateFiles;
use krb_commands::{FileKind, Stop, octets_of, refused};
use picky_asn1_der::both;
use pkinit_clients::ByCertificate;
use pkinit_validation::Anchor;
use public_key_cryptography::Group;
use rsa_keys::{OwnKey, RsaKeys};
use std::alloc::Global;
use x509_certificates::{FileFault, certificate_in, private_key_in};
use x509_keys::RsaPrivateKey;

/// The group in which client and KDC agree on a key: the 2048-bit group 14 (RFC 3526, section 3), the smallest that MIT's krb5kdc takes.
const GROUP: Group = Group::Modp2048;

/// What a client has that logs in by certificate.
#[derive(Drop)]
pub(crate) struct Certified {
    certificate: Vec<u8>,
    anchor: Anchor,
    keys: RsaKeys,
}

impl Certified {
    /// The client's means.
    pub(crate) fn means(&self) -> ByCertificate<'_, RsaKeys> {
        ByCertificate {
            certificate: self.certificate.as_slice(),
            anchor: &self.anchor,
            keys: &self.keys,
        }
    }
}

/// What these files have.
pub(crate) fn certified_in(
    rt: &HostRuntime,
    files: &CertificateFiles<'_>,
) -> Result<Certified, Stop> {
    let certificate = certificate_of(rt, files.certificate);
    let keys = keys_of(rt, files.key);
    let anchor = anchor_of(rt, files.anchor);
    let (certificate, (keys, anchor)) = both(certificate, both(keys, anchor))?;
    Ok(Certified {
        certificate,
        anchor,
        keys,
    })
}

// The DER of the certificate in a file.
fn certificate_of(rt: &HostRuntime, path: &str) -> Result<Vec<u8>, Stop> {
    let octets = octets_of(rt, path, FileKind::Certificate)?;
    match certificate_in(rt.alloc(), &octets) {
        Ok(der) => Ok(der),
        Err(fault) => Err(unread(rt.alloc(), path, fault, "a certificate in PEM or DER")),
    }
}

// The authority whose certificate is in a file.
fn anchor_of(rt: &HostRuntime, path: &str) -> Result<Anchor, Stop> {
    let der = certificate_of(rt, path)?;
    match Anchor::from_certificate(rt.alloc(), &der) {
        Ok(anchor) => Ok(anchor),
        // It is a certificate, so memory is the only fault.
        Err(_) => Err(Stop::Memory),
    }
}

// The key functions of the private key in a file.
fn keys_of(rt: &HostRuntime, path: &str) -> Result<RsaKeys, Stop> {
    let key = private_key_of(rt, path)?;
    let own = OwnKey::of_private(rt.alloc(), &key);
    drop(key);
    match own? {
        Ok(own) => Ok(RsaKeys::new(GROUP, Some(own))),
        Err(refusal) => Err(refused(
            rt.alloc(),
            format_args!("{path}: {refusal}: expected an RSA key of 2048 to 4096 bits"),
        )),
    }
}

fn private_key_of(rt: &HostRuntime, path: &str) -> Result<RsaPrivateKey, Stop> {
    let octets = octets_of(rt, path, FileKind::PrivateKey)?;
    match private_key_in(rt.alloc(), &octets) {
        Ok(key) => Ok(key),
        Err(fault) => Err(unread(
            rt.alloc(),
            path,
            fault,
            "a private RSA key of PKCS#8 or PKCS#1 in PEM or DER, not encrypted",
        )),
    }
}

// The stop of a file in which something else was expected.
fn unread(alloc: Global, path: &str, fault: FileFault, expected: &str) -> Stop {
    match fault {
        FileFault::Memory => Stop::Memory,
        fault => refused(alloc, format_args!("{path}: {fault}: expected {expected}")),
    }
}
