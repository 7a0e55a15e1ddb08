//! What is read of signed data.

use crate::signed::lines::{bytes_of, column_of};
use crate::signed::trusted::code_of;
use anyhow::{Context, bail};
use cms_signed_data::{ContentInfo, SignedContent, SignedFault};
use picky_asn1_der::part_at;
use pkinit_validation::{JudgedContent, check_signer};
use sha2::{Digest, Sha256};
use std::alloc::Global;
use test_support::GivenSignature;
use x509_certificates::Certificate;
use x509_codec::{deviations, from_bytes, to_vec};
use x509_spelling::Spelled;

/// Where the signature's algorithm is in the bytes.
const ALGORITHM: [usize; 5] = [1, 0, 4, 0, 4];

/// Whether the bytes are refused.
pub(crate) fn is_refused(alloc: Global, input: &str) -> anyhow::Result<bool> {
    let input = bytes_of(alloc, input)?;
    match SignedContent::read(alloc, &input).err() {
        Some(fault) => is_unreadable(fault),
        None => Ok(false),
    }
}

/// Whether it was the bytes that were refused.
pub(crate) fn is_unreadable(fault: SignedFault) -> anyhow::Result<bool> {
    match fault {
        SignedFault::Unreadable => Ok(true),
        SignedFault::Memory => bail!("out of memory"),
    }
}

/// Whether the bytes are read as these parts.
pub(crate) fn is_read(alloc: Global, input: &str, parts: &[&str]) -> anyhow::Result<bool> {
    let input = bytes_of(alloc, input)?;
    match SignedContent::read(alloc, &input) {
        Ok(content) => {
            let told = is_told(alloc, &input, &content, parts);
            drop(content);
            told
        }
        Err(fault) => Ok(!is_unreadable(fault)?),
    }
}

fn is_told(
    alloc: Global,
    input: &[u8],
    content: &SignedContent<'_>,
    parts: &[&str],
) -> anyhow::Result<bool> {
    let told = parts_of(alloc, input, content)?;
    Ok(are_same(&told, parts))
}

fn are_same(told: &[String], parts: &[&str]) -> bool {
    told.len() == parts.len()
        && told
            .iter()
            .zip(parts)
            .all(|(text, part)| text.as_str() == *part)
}

/// The parts, each as its column.
fn parts_of(
    alloc: Global,
    input: &[u8],
    content: &SignedContent<'_>,
) -> anyhow::Result<Vec<String>> {
    let mut parts = Vec::new(alloc);
    put_signed(alloc, &mut parts, content)?;
    put_signer(alloc, &mut parts, content)?;
    put_signature(alloc, &mut parts, input, content)?;
    put_counts(alloc, &mut parts, input, content.certificate())?;
    put_judged(alloc, &mut parts, content)?;
    Ok(parts)
}

fn put_signed(
    alloc: Global,
    parts: &mut Vec<String>,
    content: &SignedContent<'_>,
) -> anyhow::Result<()> {
    parts.push(content.content_type().to_text()?)?;
    put(alloc, parts, content.content())?;
    put(alloc, parts, content.certificate())
}

fn put_signer(
    alloc: Global,
    parts: &mut Vec<String>,
    content: &SignedContent<'_>,
) -> anyhow::Result<()> {
    put_value(alloc, parts, content.issuer())?;
    put(alloc, parts, content.serial().as_signed_bytes_be())?;
    put(alloc, parts, content.signed_attributes())?;
    put(alloc, parts, content.covered())?;
    put(alloc, parts, content.digest())
}

fn put_signature(
    alloc: Global,
    parts: &mut Vec<String>,
    input: &[u8],
    content: &SignedContent<'_>,
) -> anyhow::Result<()> {
    let spelled = part_at(input, &ALGORITHM).context("no algorithm")?;
    put(alloc, parts, spelled)?;
    put_value(alloc, parts, content.algorithm())?;
    put(alloc, parts, content.signature())
}

/// The deviations in the certificate, and those outside.
fn put_counts(
    alloc: Global,
    parts: &mut Vec<String>,
    input: &[u8],
    certificate: &[u8],
) -> anyhow::Result<()> {
    let of_certificate = deviations::<Certificate>(alloc, certificate)?;
    let of_all = deviations::<ContentInfo>(alloc, input)?;
    put_number(alloc, parts, of_certificate)?;
    put_number(alloc, parts, of_all.saturating_sub(of_certificate))
}

fn put_number(alloc: Global, parts: &mut Vec<String>, number: usize) -> anyhow::Result<()> {
    parts.push(format!(in alloc; "{number}")?)?;
    Ok(())
}

fn put_value<T: Spelled>(alloc: Global, parts: &mut Vec<String>, value: &T) -> anyhow::Result<()> {
    let written = to_vec(alloc, value)?;
    put(alloc, parts, &written)
}

fn put(alloc: Global, parts: &mut Vec<String>, bytes: &[u8]) -> anyhow::Result<()> {
    parts.push(column_of(alloc, bytes)?)?;
    Ok(())
}

/// Whether the signer is the certificate's holder, and whether the digest is the content's, each as its word.
fn put_judged(
    alloc: Global,
    parts: &mut Vec<String>,
    content: &SignedContent<'_>,
) -> anyhow::Result<()> {
    let certificate: Certificate = from_bytes(alloc, content.certificate())?;
    let judged = JudgedContent::from(content);
    let signer = is_named(alloc, &certificate, &judged);
    let digest = is_digest(alloc, &certificate, &judged);
    drop(certificate);
    let signer = if signer? { "signer" } else { "other" };
    let digest = if digest? { "digest" } else { "differs" };
    put_word(alloc, parts, signer)?;
    put_word(alloc, parts, digest)
}

fn put_word(alloc: Global, parts: &mut Vec<String>, word: &str) -> anyhow::Result<()> {
    parts.push(String::from_str(alloc, word)?)?;
    Ok(())
}

/// Whether the signer is the certificate's holder, where the digest is the content's.
fn is_named(
    alloc: Global,
    certificate: &Certificate,
    judged: &JudgedContent<'_>,
) -> anyhow::Result<bool> {
    let right = Sha256::digest(judged.content);
    let judged = JudgedContent {
        digest: right.as_slice(),
        ..*judged
    };
    is_signer(alloc, certificate, &judged)
}

/// Whether the digest is the content's, where the signer is the certificate's holder.
fn is_digest(
    alloc: Global,
    certificate: &Certificate,
    judged: &JudgedContent<'_>,
) -> anyhow::Result<bool> {
    let judged = JudgedContent {
        issuer: &certificate.tbs_certificate.issuer,
        serial: &certificate.tbs_certificate.serial_number,
        ..*judged
    };
    is_signer(alloc, certificate, &judged)
}

/// Whether the certificate is the signer's, and the digest is the content's. Every signature counts as valid.
fn is_signer(
    alloc: Global,
    certificate: &Certificate,
    judged: &JudgedContent<'_>,
) -> anyhow::Result<bool> {
    let keys = GivenSignature {
        algorithm: None,
        signature: &[],
    };
    Ok(code_of(check_signer(alloc, &keys, certificate, judged))?.is_none())
}
