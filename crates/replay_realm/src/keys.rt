//! The key functions of a row.

use anyhow::bail;
use krb_realm::{Anchor, SignatureAlgorithm};
use picky_asn1_der::{Asn1RawDer, both, part_at};
use std::alloc::Global;
use test_support::{DigestKeys, KnownKey};
use x509_algorithms::AlgorithmIdentifier;
use x509_codec::from_bytes;

/// sha256WithRSAEncryption with NULL.
const ALGORITHM: &str = "300d06092a864886f70d01010b0500";

/// A SubjectPublicKeyInfo of RSA.
const PUBLIC_VALUE: &str = "301a300d06092a864886f70d01010105000309003006020105020103";

/// 32 bytes.
const SECRET: &str = "5a5a5a5a5a5a5a5a5a5a5a5a5a5a5a5a5a5a5a5a5a5a5a5a5a5a5a5a5a5a5a5a";

/// How many padata of a message are looked at.
const PADATA_LIMIT: usize = 8;

/// Whether signatures verify, and what the key functions answer, in hexadecimal.
#[derive(Clone, Copy)]
struct KeyTexts<'a> {
    verifies: bool,
    algorithm: Option<&'a str>,
    public_value: Option<&'a str>,
    secret: Option<&'a str>,
}

/// Whether signatures verify, and what the key functions answer.
#[derive(Drop)]
pub(crate) struct RowKeys {
    pub(crate) verifies: bool,
    algorithm: Option<SignatureAlgorithm>,
    public_value: Option<Asn1RawDer>,
    secret: Option<Vec<u8>>,
}

impl RowKeys {
    /// The key functions, which sign by the key of this encoding.
    pub(crate) fn functions<'a>(
        &'a self,
        own: &'a [u8],
        known: &'a [KnownKey<'a>],
    ) -> DigestKeys<'a> {
        DigestKeys {
            own,
            algorithm: self.algorithm.as_ref(),
            known,
            public_value: self.public_value.as_ref(),
            secret: self.secret.as_deref(),
        }
    }
}

/// The keys of a column, which has words between commas: `test`, `noverify`, `nosign`, `nopublic`, `noagree`, `alg=` with an
/// algorithm, `public=` with a public value, and `agree=` with a secret. With `nosign` and `alg=` there is no signature, and so
/// of the other pairs.
pub(crate) fn keys_of(alloc: Global, column: &str) -> anyhow::Result<RowKeys> {
    let texts = texts_of(column)?;
    let public_value = public_value_of(alloc, texts.public_value);
    let agreed = both(public_value, secret_of(alloc, texts.secret));
    let (algorithm, (public_value, secret)) = both(algorithm_of(alloc, texts.algorithm), agreed)?;
    Ok(RowKeys {
        verifies: texts.verifies,
        algorithm,
        public_value,
        secret,
    })
}

fn texts_of(column: &str) -> anyhow::Result<KeyTexts<'_>> {
    let mut texts = KeyTexts {
        verifies: true,
        algorithm: Some(ALGORITHM),
        public_value: Some(PUBLIC_VALUE),
        secret: Some(SECRET),
    };
    for word in column.split(',') {
        texts = with_word(texts, word)?;
    }
    Ok(texts)
}

fn with_word<'a>(texts: KeyTexts<'a>, word: &'a str) -> anyhow::Result<KeyTexts<'a>> {
    let mut texts = texts;
    match word {
        "test" => {}
        "noverify" => texts.verifies = false,
        "nosign" => texts.algorithm = None,
        "nopublic" => texts.public_value = None,
        "noagree" => texts.secret = None,
        _ => match word.split_once('=') {
            Some(("alg", digits)) => texts.algorithm = texts.algorithm.and(Some(digits)),
            Some(("public", digits)) => texts.public_value = texts.public_value.and(Some(digits)),
            Some(("agree", digits)) => texts.secret = texts.secret.and(Some(digits)),
            _ => bail!("no keys {word}"),
        },
    }
    Ok(texts)
}

fn algorithm_of(alloc: Global, digits: Option<&str>) -> anyhow::Result<Option<SignatureAlgorithm>> {
    let Some(digits) = digits else {
        return Ok(None);
    };
    let spelled = hex::decode(alloc, digits)?;
    let algorithm: AlgorithmIdentifier = from_bytes(alloc, &spelled)?;
    Ok(Some(SignatureAlgorithm::new(algorithm)))
}

fn public_value_of(alloc: Global, digits: Option<&str>) -> anyhow::Result<Option<Asn1RawDer>> {
    let Some(digits) = digits else {
        return Ok(None);
    };
    Ok(Some(Asn1RawDer::new(hex::decode(alloc, digits)?)?))
}

fn secret_of(alloc: Global, digits: Option<&str>) -> anyhow::Result<Option<Vec<u8>>> {
    let Some(digits) = digits else {
        return Ok(None);
    };
    Ok(Some(hex::decode(alloc, digits)?))
}

/// The holder of the certificate in a request's padata, where one is read there.
pub(crate) fn requester_of(alloc: Global, request: &[u8]) -> Option<Anchor> {
    for place in 0..PADATA_LIMIT {
        let path = [0, 2, 0, place, 1, 0, 0, 0, 0, 1, 0, 3, 0];
        if let Some(holder) = holder_at(alloc, request, &path) {
            return Some(holder);
        }
    }
    None
}

/// The holder of the certificate in a reply's padata, where one is read there.
pub(crate) fn replier_of(alloc: Global, reply: &[u8]) -> Option<Anchor> {
    for place in 0..PADATA_LIMIT {
        let path = [0, 2, 0, place, 1, 0, 0, 0, 0, 0, 1, 0, 3, 0];
        if let Some(holder) = holder_at(alloc, reply, &path) {
            return Some(holder);
        }
    }
    None
}

fn holder_at(alloc: Global, message: &[u8], path: &[usize]) -> Option<Anchor> {
    if let Some(certificate) = part_at(message, path)
        && let Ok(holder) = Anchor::from_certificate(alloc, certificate)
    {
        return Some(holder);
    }
    None
}
