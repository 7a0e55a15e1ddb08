//! SEQUENCEs, of which each field may deviate.
ghost use Rattle.std.specs.Prelude.{◌≡◌, ℕ, true, List, IsTrue, MatchResult};
ghost use Rattle.asn1_der.specs.Length.{element};
ghost use Rattle.picky_asn1_der.specs.Raw.{has_low_number};
ghost use Rattle.x509_spelling.specs.Spellings.{Holds};
ghost use Rattle.x509_spelling.specs.Answers.{Tells, IsRefusal};

use crate::counted::Counted;
use crate::fault::X509Fault;
use crate::fields::SpelledFields;
use picky_asn1_der::split_element;
use std::alloc::Global;

/// The fields that the bytes hold: one element with the identifier octet `first`, in whose content they are spelled.
pub fn read_fields<F: SpelledFields>(
    alloc: Global,
    first: u8,
    bytes: &[u8],
) -> Result<Counted<F>, X509Fault>
    requires sound { IsTrue F.is_sound }
    requires low { has_low_number first ≡ true }
    ensures { Tells (λ fields n. Holds first F.spells fields bytes.now n) result }
{
    let content = content_of(first, bytes)?;
    F::read_content(alloc, content)
}

/// The content of the one element with the identifier octet `first` that the bytes are.
pub fn content_of(first: u8, bytes: &[u8]) -> Result<&[u8], X509Fault>
    requires { has_low_number first ≡ true }
    ensures { MatchResult result
        (λ content. bytes.now ≡ element first content.now)
        (λ fault. (content : List ℕ) → bytes.now ≡ element first content → ⊥) }
{
    let (element, rest) = split_element(bytes)?;
    if u8::from(element.tag()) != first {
        return Err(X509Fault::Der);
    }
    if !rest.is_empty() {
        return Err(X509Fault::Der);
    }
    Ok(element.content())
}
