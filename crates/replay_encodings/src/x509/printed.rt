//! Values as text. What owns a value is generic, since a drop at a type of X.509 is dear to prove.
use crate::x509::told::Answer;
use anyhow::{Context, bail};
use picky_asn1::wrapper::ObjectIdentifierAsn1;
use picky_asn1_x509::{
    AlgorithmIdentifier, Certificate, DirectoryString, GeneralName, Name, NamePrettyFormatter,
    ShaVariant, Spelled, UnsupportedAlgorithmError, X509Fault, from_bytes,
};
use std::alloc::{AllocError, Global};
use std::fmt;

/// Whether a value is printed as expected. A line has type, bytes, and text to the end of the line.
pub fn agrees(alloc: Global, line: &str) -> anyhow::Result<bool> {
    let (type_name, rest) = line.split_once(" | ").context("a line of one column")?;
    let (digits, text) = rest.split_once(" | ").context("a line of two columns")?;
    let bytes = hex::decode(alloc, digits)?;
    match answer_of(alloc, type_name, &bytes, text) {
        Some(answer) => Ok(answer?),
        None => bail!("no type {type_name}"),
    }
}

fn answer_of(alloc: Global, type_name: &str, bytes: &[u8], text: &str) -> Option<Answer> {
    match type_name {
        "AltNames" => Some(is_told::<Certificate, AltNames>(alloc, bytes, text)),
        "BasicConstraints" => Some(is_told::<Certificate, Constraints>(alloc, bytes, text)),
        "CommonName" => Some(is_told::<Name, CommonName>(alloc, bytes, text)),
        "DirectoryString" => Some(is_told::<DirectoryString, Plain>(alloc, bytes, text)),
        "GeneralName" => Some(is_told::<GeneralName, Plain>(alloc, bytes, text)),
        "KeyUsage" => Some(is_told::<Certificate, Usage>(alloc, bytes, text)),
        "Name" => Some(is_told::<Name, Plain>(alloc, bytes, text)),
        "Rfc4514" => Some(is_told::<Name, Rfc4514>(alloc, bytes, text)),
        "UnsupportedAlgorithmError" => Some(unsupported(alloc, bytes, text)),
        _ => None,
    }
}

/// What a value of this type tells as text.
trait Tells<T> {
    /// Whether this is the text.
    fn is_text(alloc: Global, value: &T, text: &str) -> Answer;
}

/// Whether the value that the bytes spell tells this text.
fn is_told<T: Spelled, S: Tells<T>>(alloc: Global, bytes: &[u8], text: &str) -> Answer {
    match from_bytes::<T>(alloc, bytes) {
        Ok(value) => S::is_text(alloc, &value, text),
        Err(fault) => Err(fault),
    }
}

/// What the value prints.
struct Plain;

impl Tells<DirectoryString> for Plain {
    fn is_text(alloc: Global, string: &DirectoryString, text: &str) -> Answer {
        let lossy = string.to_utf8_lossy(alloc)?;
        Ok(lossy.as_str() == text && is_printed(alloc, string, text)?)
    }
}

impl Tells<Name> for Plain {
    fn is_text(alloc: Global, name: &Name, text: &str) -> Answer {
        Ok(is_printed(alloc, name, text)? && is_printed(alloc, &NamePrettyFormatter(name), text)?)
    }
}

impl Tells<GeneralName> for Plain {
    fn is_text(alloc: Global, name: &GeneralName, text: &str) -> Answer {
        is_printed(alloc, name, text)
    }
}

/// A name in the notation of RFC 4514.
struct Rfc4514;

impl Tells<Name> for Rfc4514 {
    fn is_text(alloc: Global, name: &Name, text: &str) -> Answer {
        is_printed(alloc, &name.rfc4514(), text)
    }
}

/// The first common name of a name.
struct CommonName;

impl Tells<Name> for CommonName {
    fn is_text(alloc: Global, name: &Name, text: &str) -> Answer {
        match name.find_common_name() {
            Some(common_name) => is_printed(alloc, common_name, text),
            None => Ok(false),
        }
    }
}

/// What the extension for it of a certificate prints, `none` where there is none.
struct Usage;

impl Tells<Certificate> for Usage {
    fn is_text(alloc: Global, certificate: &Certificate, text: &str) -> Answer {
        match certificate.key_usage() {
            Some(usage) => is_printed(alloc, usage, text),
            None => Ok(text == "none"),
        }
    }
}

/// The further names of a certificate's subject, with `, ` between each two.
struct AltNames;

impl Tells<Certificate> for AltNames {
    fn is_text(alloc: Global, certificate: &Certificate, text: &str) -> Answer {
        match certificate.subject_alt_names() {
            Some(names) => are_printed(alloc, names.as_slice(), text),
            None => Ok(text == "none"),
        }
    }
}

fn are_printed(alloc: Global, names: &[GeneralName], text: &str) -> Answer {
    let mut texts = text.split(", ");
    for name in names {
        let Some(text) = texts.next() else {
            return Ok(false);
        };
        if !is_printed(alloc, name, text)? {
            return Ok(false);
        }
    }
    Ok(texts.next().is_none())
}

/// Whether a certificate says that it is an authority's.
struct Constraints;

impl Tells<Certificate> for Constraints {
    fn is_text(_alloc: Global, certificate: &Certificate, text: &str) -> Answer {
        Ok(match certificate.basic_constraints() {
            Some(constraints) => (text == "CA:TRUE") == constraints.ca(),
            None => text == "none",
        })
    }
}

/// A hash that RSA signatures can't be made over, and an identifier that isn't a hash's.
fn unsupported(alloc: Global, bytes: &[u8], text: &str) -> Answer {
    let oid: ObjectIdentifierAsn1 = from_bytes(alloc, bytes)?;
    match refusal_of(alloc, oid)? {
        Some(refusal) => Ok(is_printed(alloc, &refusal, text)?),
        None => Ok(false),
    }
}

fn refusal_of(
    alloc: Global,
    oid: ObjectIdentifierAsn1,
) -> Result<Option<UnsupportedAlgorithmError>, AllocError> {
    let hash = match ShaVariant::try_from(oid) {
        Ok(hash) => hash,
        Err(refusal) => return Ok(Some(refusal)),
    };
    let made = AlgorithmIdentifier::new_rsa_encryption_with_sha(alloc, hash)?;
    Ok(made.err())
}

fn is_printed<T: fmt::Display>(alloc: Global, value: &T, text: &str) -> Result<bool, X509Fault> {
    match format!(in alloc; "{value}") {
        Ok(printed) => Ok(printed.as_str() == text),
        Err(_) => Err(X509Fault::Memory),
    }
}
