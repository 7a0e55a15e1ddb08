//! The part of an element at a path.
ghost use Rattle.std.specs.Prelude.{◌≡◌, ◌↔◌, ℕ, List, ◌∷◌, IsTrue, MatchOption};
ghost use Rattle.picky_asn1_der.specs.Parts.{IsPart, IsPartIn};
ghost use Rattle.picky_asn1_der.specs.PathLaws.{AreSome};

use crate::element::split_element;

/// The part of an element at a path, where it is in the bytes. `None` if the path leads to no part. It takes no memory.
///
/// The empty path leads to the bytes themselves. Each number of a path counts the elements of a content from 0: `[1, 0]`
/// leads to the first element inside the second element of the bytes' one element (X.690, section 8.1). The content may be
/// that of an OCTET STRING, too.
pub fn part_at<'a>(bytes: &'a [u8], path: &[usize]) -> Option<&'a [u8]>
    ensures { MatchOption result
        ((part : List ℕ) → IsPart bytes.now path.now part → ⊥)
        (λ found. IsPart bytes.now path.now found.now) }
{
    let mut part = bytes;
    let mut rest = path;
    'path: while let Some((n, further)) = rest.split_first() {
        let Some(inner) = inner_element(part, *n) else {
            return None;
        };
        part = inner;
        rest = further;
    }
    Some(part)
}

// The element number n of the content of the one element.
fn inner_element(bytes: &[u8], n: usize) -> Option<&[u8]>
    ensures { MatchOption result
        ((path part : List ℕ) → IsPart bytes.now (n ∷ path) part → ⊥)
        (λ inner. (path part : List ℕ) → IsPart bytes.now (n ∷ path) part ↔ IsPart inner.now path part) }
{
    let Ok((whole, rest)) = split_element(bytes) else {
        return None;
    };
    if !rest.is_empty() {
        return None;
    }
    let Some(inner) = element_at(whole.content(), n) else {
        return None;
    };
    Some(inner)
}

// The element number n of some elements.
fn element_at(bytes: &[u8], n: usize) -> Option<&[u8]>
    ensures { MatchOption result
        ((path part : List ℕ) → IsPartIn bytes.now n path part → ⊥)
        (λ inner. (path part : List ℕ) → IsPartIn bytes.now n path part ↔ IsPart inner.now path part) }
{
    let mut rest = bytes;
    let mut left = n;
    'elements: while left > 0 {
        let Ok((_, behind)) = split_element(rest) else {
            return None;
        };
        rest = behind;
        left -= 1;
    }
    let Ok((element, behind)) = split_element(rest) else {
        return None;
    };
    if !are_elements(behind) {
        return None;
    }
    Some(element.whole())
}

// Whether the bytes are elements, one after another.
fn are_elements(bytes: &[u8]) -> bool
    ensures { IsTrue result ↔ AreSome bytes.now }
{
    let mut rest = bytes;
    'elements: while !rest.is_empty() {
        let Ok((_, behind)) = split_element(rest) else {
            return false;
        };
        rest = behind;
    }
    true
}
