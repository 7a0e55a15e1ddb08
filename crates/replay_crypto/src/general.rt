//! Signed data as it is sent, and which certificate its signer names. `data/general_form.py` writes the rows.

use crate::row::columns_of;
use cms_signed_data::SignedFault;
use cms_signed_data::general_form::{DigestAlgorithm, GeneralContent, names};
use picky_asn1_der::{Asn1RawDer, to_vec};
use std::alloc::Global;
use test_support::rows::replay;
use test_support::{Row, Rows};
use x509_certificates::Certificate;
use x509_codec::from_bytes;

#[derive(Clone, Copy)]
struct General;

/// Replays the file of signed data.
pub(crate) fn replay_general(rt: &HostRuntime) -> anyhow::Result<()> {
    replay(rt, &mut General, "general_form.txt")
}

impl Rows for General {
    const COLUMNS: &'static str = " | ";

    const NAME: &'static str = "lines";

    fn agrees(&mut self, rt: &HostRuntime, row: &mut Row<'_>) -> anyhow::Result<bool> {
        let _label = row.word();
        let octets = row.octets(rt.alloc());
        let head = row.word();
        let columns = columns_of(rt.alloc(), row.word())?;
        match GeneralContent::read(rt.alloc(), &octets) {
            Ok(content) => {
                let agrees = is_told(rt.alloc(), &content, head, columns.as_slice());
                drop(content);
                agrees
            }
            Err(SignedFault::Unreadable) => Ok(head == "refused"),
            Err(fault) => Err(fault.into()),
        }
    }
}

/// Whether the content is told so: the digest algorithm, whether the digest is the content's, and the place of the first certificate that
/// the signer names, from 0. Then its parts.
fn is_told(
    alloc: Global,
    content: &GeneralContent,
    head: &str,
    columns: &[Vec<u8>],
) -> anyhow::Result<bool> {
    let Some((digest, place)) = head.split_once(' ') else {
        return Ok(false);
    };
    Ok(
        digest_of(content) == digest
            && place_of(alloc, content)? == place.parse::<usize>().ok()
            && are_parts(alloc, content, columns)?,
    )
}

fn digest_of(content: &GeneralContent) -> &'static str {
    let algorithm = content.digest_algorithm();
    if !algorithm.is_digest_of(content.content(), content.digest()) {
        return "differs";
    }
    match algorithm {
        DigestAlgorithm::Sha1 => "SHA-1",
        DigestAlgorithm::Sha256 => "SHA-256",
        DigestAlgorithm::Sha384 => "SHA-384",
        DigestAlgorithm::Sha512 => "SHA-512",
    }
}

/// The place of the first certificate that the signer names.
fn place_of(alloc: Global, content: &GeneralContent) -> anyhow::Result<Option<usize>> {
    for (place, element) in content.certificates().iter().enumerate() {
        if is_named(alloc, content, element)? {
            return Ok(Some(place));
        }
    }
    Ok(None)
}

/// Whether the element is a certificate that the signer names.
fn is_named(alloc: Global, content: &GeneralContent, element: &Asn1RawDer) -> anyhow::Result<bool> {
    let read: Result<Certificate, _> = from_bytes(alloc, element.as_bytes());
    let Ok(certificate) = read else {
        return Ok(false);
    };
    let named = names(alloc, content.sid(), &certificate);
    drop(certificate);
    Ok(named?)
}

fn are_parts(alloc: Global, content: &GeneralContent, columns: &[Vec<u8>]) -> anyhow::Result<bool> {
    let [kind, text, digest, covered, signing, signature, sid] = columns else {
        return Ok(false);
    };
    Ok(
        kind.as_slice() == content.content_type().as_bytes()
            && text.as_slice() == content.content()
            && digest.as_slice() == content.digest()
            && covered.as_slice() == content.covered()
            && signing.as_slice() == content.signature_algorithm().as_bytes()
            && signature.as_slice() == content.signature()
            && *sid == to_vec(alloc, content.sid())?,
    )
}
