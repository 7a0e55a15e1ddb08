//! The commands `certify` and `uncertify`: what logins by certificate are answered by.

use crate::arguments::expected;
use crate::texts::finish_text;
use krb_account_texts::{Line, certify as put_certified};
use krb_commands::{FileKind, Stop, begin, lines_of, octets_of, refused, unnamed_realm};
use krb_realm_files::{PKINIT_ROOM, PkinitFault, means_in};
use picky_asn1::wrapper::OctetStringAsn1;
use std::alloc::Global;
use x509_certificates::{FileFault, certificate_in, private_key_in};
use x509_codec::to_vec;

/// What `certify` expects of the files of certificates.
const CERTIFICATE: &str = "expected a certificate of X.509, in PEM or DER";

/// What it expects of the file of the key.
const KEY: &str = "expected an RSA key of PKCS#8 or PKCS#1 that is not encrypted, in PEM or DER";

// The paths of the three files.
#[derive(Clone, Copy)]
struct Paths<'a> {
    certificate: &'a str,
    key: &'a str,
    anchor: &'a str,
}

/// `certify TEXT CERTIFICATE KEY ANCHOR`: gives the realm what its logins by certificate are answered by.
pub(crate) fn certify(rt: &HostRuntime, arguments: &[String]) -> Result<(), Stop> {
    let [path, certificate, key, anchor] = arguments else {
        return Err(expected(rt.alloc(), "certify TEXT CERTIFICATE KEY ANCHOR"));
    };
    let paths = Paths {
        certificate: certificate.as_str(),
        key: key.as_str(),
        anchor: anchor.as_str(),
    };
    let octets = octets_in(rt, paths)?;
    check_means(rt.alloc(), paths, &octets)?;
    change_realm(
        rt,
        path.as_str(),
        &[paths.certificate, paths.key, paths.anchor],
        Some(OctetStringAsn1::from(octets)),
    )
}

/// `uncertify TEXT`: takes it away.
pub(crate) fn uncertify(rt: &HostRuntime, arguments: &[String]) -> Result<(), Stop> {
    let [path] = arguments else {
        return Err(expected(rt.alloc(), "uncertify TEXT"));
    };
    change_realm(rt, path.as_str(), &[], None)
}

// Changes the realm's line of a text, by what was read of these files.
fn change_realm(
    rt: &HostRuntime,
    path: &str,
    read: &[&str],
    pkinit: Option<OctetStringAsn1>,
) -> Result<(), Stop> {
    let new_file = begin(rt, path, FileKind::Accounts, read)?;
    let lines = certified(rt, path, pkinit);
    finish_text(rt, new_file, lines)
}

fn certified(
    rt: &HostRuntime,
    path: &str,
    pkinit: Option<OctetStringAsn1>,
) -> Result<Vec<Line>, Stop> {
    let mut lines = lines_of(rt, path)?;
    match put_certified(&mut lines, pkinit) {
        Ok(()) => Ok(lines),
        // The order of the lines was checked, so there is one of a realm.
        Err(_) => Err(unnamed_realm(rt.alloc(), path)),
    }
}

// The DER of the certificate, of the key and of the anchor, one after the other.
fn octets_in(rt: &HostRuntime, paths: Paths<'_>) -> Result<Vec<u8>, Stop> {
    let mut octets = certificate_of(rt, paths.certificate)?;
    append(&mut octets, key_of(rt, paths.key))?;
    append(&mut octets, certificate_of(rt, paths.anchor))?;
    Ok(octets)
}

// Puts the octets of a file behind those before it.
fn append(octets: &mut Vec<u8>, further: Result<Vec<u8>, Stop>) -> Result<(), Stop> {
    let further = further?;
    octets.extend_from_slice(&further)?;
    Ok(())
}

fn certificate_of(rt: &HostRuntime, path: &str) -> Result<Vec<u8>, Stop> {
    let file = octets_of(rt, path, FileKind::Certificate)?;
    match certificate_in(rt.alloc(), &file) {
        Ok(der) => Ok(der),
        Err(fault) => Err(unread(rt.alloc(), path, fault, CERTIFICATE)),
    }
}

// The DER of the key, as PKCS#1 has it.
fn key_of(rt: &HostRuntime, path: &str) -> Result<Vec<u8>, Stop> {
    let file = octets_of(rt, path, FileKind::PrivateKey)?;
    match private_key_in(rt.alloc(), &file) {
        Ok(key) => {
            let der = to_vec(rt.alloc(), &key);
            drop(key);
            match der {
                Ok(der) => Ok(der),
                Err(_) => Err(Stop::Memory),
            }
        }
        Err(fault) => Err(unread(rt.alloc(), path, fault, KEY)),
    }
}

fn unread(alloc: Global, path: &str, fault: FileFault, wanted: &str) -> Stop {
    if fault == FileFault::Memory {
        return Stop::Memory;
    }
    refused(alloc, format_args!("{path}: {fault}: {wanted}"))
}

// Whether the KDC will take the octets.
fn check_means(alloc: Global, paths: Paths<'_>, octets: &[u8]) -> Result<(), Stop> {
    if PKINIT_ROOM < octets.len() {
        let size = octets.len();
        return Err(refused(
            alloc,
            format_args!(
                "certificate, key and anchor have {size} octets: expected at most {PKINIT_ROOM}"
            ),
        ));
    }
    match means_in(alloc, octets).err() {
        None => Ok(()),
        Some(PkinitFault::Memory) => Err(Stop::Memory),
        Some(fault) => Err(refused(alloc, format_args!("{}: {fault}", path_of(paths, fault)))),
    }
}

// The path of the file that is refused so.
fn path_of(paths: Paths<'_>, fault: PkinitFault) -> &str {
    match fault {
        PkinitFault::Key | PkinitFault::Refused(_) | PkinitFault::OtherKey => paths.key,
        PkinitFault::Anchor => paths.anchor,
        PkinitFault::NotThree | PkinitFault::Certificate | PkinitFault::Memory => {
            paths.certificate
        }
    }
}
