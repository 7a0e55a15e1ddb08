//! The parts of signed data, where they are in its bytes.
ghost use Rattle.std.specs.Prelude.{◌≡◌, ℕ, List, IsSomeAnd, MatchOption};
ghost use Rattle.asn1_der.specs.Length.{element};
ghost use Rattle.picky_asn1_der.specs.Parts.{IsPart};
ghost use Rattle.cms_signed_data.specs.declared.content_info.ContentInfo.{ContentInfo};
ghost use Rattle.asn1_der.specs.Octets.{octet_string_octet};

use crate::content_info::ContentInfo;
use asn1_der::octets::OCTET_STRING;
use picky_asn1_der::part_at;
use x509_spelling::{Spelled, content_of};

/// Parts of signed data, borrowed from its bytes.
#[derive(Clone, Copy, Drop)]
pub(crate) struct Slices<'a> {
    pub(crate) content: &'a [u8],
    pub(crate) certificate: &'a [u8],
    pub(crate) signed_attributes: &'a [u8],
    pub(crate) digest: &'a [u8],
    pub(crate) signature: &'a [u8],
}

impl<'a> Slices<'a> {
    ghost use Rattle.cms_signed_data.specs.PartSlices.{AreSlices};

    /// The parts of the signed data that the bytes are. If they are none, the answer may be `None` or other bytes.
    pub(crate) fn of_bytes(bytes: &'a [u8]) -> Option<Slices<'a>>
        ensures { (info : ContentInfo) (n : ℕ) → ⟦<ContentInfo as Spelled>⟧.spells info bytes.now n → IsSomeAnd result (AreSlices info bytes.now) }
    {
        let content = octets_at(bytes, &[1, 0, 2, 1, 0])?;
        let certificate = part_at(bytes, &[1, 0, 3, 0])?;
        let signed_attributes = part_at(bytes, &[1, 0, 4, 0, 3])?;
        let digest = octets_at(bytes, &[1, 0, 4, 0, 3, 1, 1, 0])?;
        let signature = octets_at(bytes, &[1, 0, 4, 0, 5])?;
        Some(Slices {
            content,
            certificate,
            signed_attributes,
            digest,
            signature,
        })
    }
}

// The content of the OCTET STRING at a path.
fn octets_at<'a>(bytes: &'a [u8], path: &[usize]) -> Option<&'a [u8]>
    ensures { MatchOption result
        ((octets : List ℕ) → IsPart bytes.now path.now (element octet_string_octet octets) → ⊥)
        (λ found. IsPart bytes.now path.now (element octet_string_octet found.now)) }
{
    let Some(part) = part_at(bytes, path) else {
        return None;
    };
    match content_of(OCTET_STRING, part) {
        Ok(octets) => Some(octets),
        Err(_) => None,
    }
}
