//! What is written as signed data.

use crate::signed::lines::bytes_of;
use anyhow::bail;
use cms_signed_data::{SignedContent, SignedFault};
use picky_asn1::oid::ObjectIdentifier;
use std::alloc::Global;
use test_support::{GivenSignature, signer};
use x509_algorithms::AlgorithmIdentifier;
use x509_codec::from_bytes;
use x509_keys::{KeyFunctions, SignatureAlgorithm};

/// What is to be written, and what comes of it.
#[derive(Clone, Copy)]
pub(crate) struct WrittenRow<'a> {
    /// The content's type, in dotted text.
    pub content_type: &'a str,
    /// The content.
    pub content: &'a str,
    /// The signer's certificate.
    pub certificate: &'a str,
    /// `test`, `nosign`, or `alg=` and the algorithm that the signature names.
    pub keys: &'a str,
    /// The signer's key.
    pub own: &'a str,
    /// The signed data, `none`, or `Unreadable`.
    pub wanted: &'a str,
}

/// Whether what is written is what the row says.
pub(crate) fn is_written(alloc: Global, row: &WrittenRow<'_>) -> anyhow::Result<bool> {
    if row.keys == "nosign" {
        let keys = GivenSignature {
            algorithm: None,
            signature: &[],
        };
        return is_written_by(alloc, row, &keys);
    }
    match row.keys.split_once(" signature=") {
        Some((algorithm, signature)) => is_written_around(alloc, row, algorithm, signature),
        None => is_written_by_digest(alloc, row),
    }
}

/// Whether this signature is written as the row says.
fn is_written_around(
    alloc: Global,
    row: &WrittenRow<'_>,
    algorithm: &str,
    signature: &str,
) -> anyhow::Result<bool> {
    let signature = bytes_of(alloc, signature)?;
    let algorithm = algorithm_of(alloc, algorithm)?;
    let keys = GivenSignature {
        algorithm: Some(&algorithm),
        signature: &signature,
    };
    let written = is_written_by(alloc, row, &keys);
    drop(algorithm);
    written
}

/// Whether the signature by the row's own key is written as the row says.
fn is_written_by_digest(alloc: Global, row: &WrittenRow<'_>) -> anyhow::Result<bool> {
    let own = bytes_of(alloc, row.own)?;
    let algorithm = algorithm_of(alloc, row.keys)?;
    let written = is_written_by(alloc, row, &signer(&own, &algorithm));
    drop(algorithm);
    written
}

fn is_written_by<K: KeyFunctions>(
    alloc: Global,
    row: &WrittenRow<'_>,
    keys: &K,
) -> anyhow::Result<bool> {
    let content_type = ObjectIdentifier::from_text(alloc, row.content_type)?;
    let content = bytes_of(alloc, row.content)?;
    let certificate = bytes_of(alloc, row.certificate)?;
    is_wanted(
        alloc,
        SignedContent::write(alloc, &content_type, &content, &certificate, keys),
        row.wanted,
    )
}

fn is_wanted(
    alloc: Global,
    written: Result<Option<Vec<u8>>, SignedFault>,
    wanted: &str,
) -> anyhow::Result<bool> {
    match written {
        Ok(Some(bytes)) => Ok(hex::encode(alloc, &bytes)?.as_str() == wanted),
        Ok(None) => Ok(wanted == "none"),
        Err(SignedFault::Unreadable) => Ok(wanted == "Unreadable"),
        Err(SignedFault::Memory) => bail!("out of memory"),
    }
}

/// The algorithm that the signer names: that behind `alg=`, or else sha256WithRSAEncryption.
fn algorithm_of(alloc: Global, keys: &str) -> anyhow::Result<SignatureAlgorithm> {
    let algorithm: AlgorithmIdentifier = match keys.strip_prefix("alg=") {
        Some(digits) => {
            let spelled = hex::decode(alloc, digits)?;
            from_bytes(alloc, &spelled)?
        }
        None => AlgorithmIdentifier::new_sha256_with_rsa_encryption(alloc)?,
    };
    Ok(SignatureAlgorithm::new(algorithm))
}
