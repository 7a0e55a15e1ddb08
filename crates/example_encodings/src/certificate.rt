//! The alternative names of a certificate's subject (RFC 5280, section 4.2.1.6), and the bytes that its signature is over.

use crate::printing::print_bytes;
use picky_asn1_x509::{Certificate, Extension, ExtensionView, GeneralName};
use std::fs;

/// Reads the file `certificate.der`, and prints what its certificate has.
pub fn show_certificate(rt: &HostRuntime) -> anyhow::Result<()> {
    let bytes = fs::read(rt, "certificate.der")?;
    print_certificate(rt, &bytes)
}

fn print_certificate(rt: &HostRuntime, bytes: &[u8]) -> anyhow::Result<()> {
    let (certificate, signed) = Certificate::with_signed_part(rt.alloc(), bytes)?;
    print_extensions(rt, certificate.extensions())?;
    print_bytes(rt, signed)
}

/// Prints the names among the extensions of a certificate.
fn print_extensions(rt: &HostRuntime, extensions: &[Extension]) -> anyhow::Result<()> {
    for extension in extensions {
        if let ExtensionView::SubjectAltName(names) = extension.extn_value() {
            print_names(rt, names.as_slice())?;
        }
    }
    Ok(())
}

fn print_names(rt: &HostRuntime, names: &[GeneralName]) -> anyhow::Result<()> {
    for name in names {
        match name {
            GeneralName::DnsName(host) => print_text(rt, "DNS", host.as_bytes())?,
            GeneralName::Rfc822Name(address) => print_text(rt, "email", address.as_bytes())?,
            GeneralName::Uri(uri) => print_text(rt, "URI", uri.as_bytes())?,
            _ => println!(rt; "another name")?,
        }
    }
    Ok(())
}

fn print_text(rt: &HostRuntime, kind: &str, text: &[u8]) -> anyhow::Result<()> {
    let text = str::from_utf8(text)?;
    println!(rt; "{kind}:{text}")?;
    Ok(())
}
