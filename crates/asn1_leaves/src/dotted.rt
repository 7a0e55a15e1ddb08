//! The dotted text of an object identifier: its arcs in decimal, a full stop between each two.
ghost use Rattle.std.specs.Prelude.{◌≡◌, ◌≢◌, ℕ, ◌^◌, ◌<◌, ◌==◌, ◌&&◌, ◌||◌, nat_lt, List, length, slice_index, IfOk, MatchOption};
ghost use Rattle.std.specs.Fmt.{decimal};
ghost use Rattle.asn1_leaves.specs.ObjectIdentifier.{IsDotted};

use std::alloc::{AllocError, Global};

/// The arcs, one at least and each below 2^64, of which this is the dotted text; none where it is none's.
pub fn read_arcs(alloc: Global, text: &str) -> Result<Option<Vec<u64>>, AllocError>
    ensures { IfOk result (λ read. MatchOption read
        ((arcs : List ℕ) → ¬ IsDotted arcs text.now)
        (λ arcs. IsDotted arcs.items text.now)) }
{
    let mut arcs = Vec::new(alloc);
    let mut rest = text;
    while let Some((part, more)) = rest.split_once('.') {
        let Some(arc) = arc_of(part) else {
            return Ok(None);
        };
        arcs.push(arc)?;
        rest = more;
    }
    let Some(last) = arc_of(rest) else {
        return Ok(None);
    };
    arcs.push(last)?;
    Ok(Some(arcs))
}

// The number below 2^64 that the text is in decimal, with no leading zero.
fn arc_of(text: &str) -> Option<u64>
    ensures { MatchOption result
        ((n : ℕ) → n < 2 ^ 64 → decimal n ≢ text.now)
        (λ n. (n < 2 ^ 64) × (decimal n ≡ text.now)) }
{
    if has_needless_first(text.as_bytes()) {
        return None;
    }
    text.parse().ok()
}

// Whether the text begins with a plus, or with a zero that more follows.
fn has_needless_first(text: &[u8]) -> bool
    ensures { result ≡ ((slice_index text.now 0 == 43)
        || ((slice_index text.now 0 == 48) && nat_lt 1 (length text.now))) }
{
    match text.first() {
        Some(b'+') => true,
        Some(b'0') => text.len() > 1,
        _ => false,
    }
}
