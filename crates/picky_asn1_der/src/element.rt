//! The element that begins an input, in place.
ghost use Rattle.std.specs.Prelude.{◌≡◌, ◌∷◌, true, MatchResult};
ghost use Rattle.asn1_der.specs.Length.{element};
ghost use Rattle.asn1_codec.specs.Lengths.{IsWanting};
ghost use Rattle.picky_asn1_der.specs.Raw.{Raw, has_low_number};
ghost use Rattle.picky_asn1_der.specs.Parts.{IsStep};
ghost use Rattle.picky_asn1_der.specs.Splits.{IsNoSplit, IsOneElement};

use crate::tag::Tag;
use asn1_codec::split_length;
use asn1_der::Asn1DerError;
use std::marker::Model;

/// One element where it is in an input: a tag whose number is below 31, a definite length in as few octets as
/// there can be, and the content (X.690, sections 8.1 and 10.1). Of the content nothing is asked.
///
/// A contract sees the identifier octet and the content.
#[derive(Drop, Debug)]
pub struct Element<'a> {
    first: u8,
    whole: &'a [u8],
    content: &'a [u8],
}

impl<'a> Model for Element<'a> {
    ghost use Rattle.std.specs.Prelude.{◌≡◌, true};
    ghost use Rattle.asn1_der.specs.Length.{element};
    ghost use Rattle.picky_asn1_der.specs.Raw.{Raw, has_low_number};

    ghost Value = { Raw };

    ghost view = { λ e. record { first = e.first; content = e.content.now } };

    ghost invariant = { λ e. (has_low_number e.first ≡ true) × (e.whole.now ≡ element e.first e.content.now) };
}

impl<'a> Element<'a> {
    /// The identifier octet.
    pub fn tag(&self) -> Tag
        ensures { result ≡ self.now.first }
    {
        Tag::from(self.first)
    }

    /// All its octets.
    pub fn whole(&self) -> &'a [u8]
        ensures { result.now ≡ element self.now.first self.now.content }
    {
        self.whole
    }

    /// The content octets.
    pub fn content(&self) -> &'a [u8]
        ensures { result.now ≡ self.now.content }
    {
        self.content
    }
}

/// Returns the element that begins the input, and the bytes after it. It takes no memory.
///
/// If no element begins the input, the error is `TruncatedData` where further bytes could complete one. Else it is
/// `InvalidData`: the tag has several octets, or the length is indefinite, in more octets than it needs, or 2^64 and
/// more.
pub fn split_element(input: &[u8]) -> Result<(Element<'_>, &[u8]), Asn1DerError>
    ensures { MatchResult result
        (λ split. IsStep input.now split.0 split.1.now)
        (λ fault. IsNoSplit input.now × IsWanting IsOneElement input.now fault) }
{
    let (first, behind) = split_identifier(input)?;
    let (count, held) = split_length(behind)?;
    if held.len() < count {
        return Err(Asn1DerError::TruncatedData);
    }
    let (content, rest) = held.split_at(count);
    let (whole, _) = input.split_at(input.len() - rest.len());
    let element = Element {
        first,
        whole,
        content,
    };
    Ok((element, rest))
}

// The identifier octet that begins the input, and the bytes after it.
fn split_identifier(input: &[u8]) -> Result<(u8, &[u8]), Asn1DerError>
    ensures { MatchResult result
        (λ split. (has_low_number split.0 ≡ true) × (input.now ≡ split.0 ∷ split.1.now))
        (λ fault. IsWanting IsOneElement input.now fault) }
{
    let Some((first, behind)) = input.split_first() else {
        return Err(Asn1DerError::TruncatedData);
    };
    if *first % 32 == 31 {
        return Err(Asn1DerError::InvalidData);
    }
    Ok((*first, behind))
}
