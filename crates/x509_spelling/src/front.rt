//! The spelling that begins some bytes.
ghost use Rattle.std.specs.Prelude.{◌≡◌, ℕ, List, MatchResult};
ghost use Rattle.x509_spelling.specs.Spellings.{Leads, begins};
ghost use Rattle.x509_spelling.specs.Answers.{IsRefusal};

use crate::counted::Counted;
use crate::fault::X509Fault;
use crate::spelled::Spelled;
use picky_asn1_der::split_element;
use std::alloc::Global;

/// Reads the value whose spelling begins the bytes. Returns it and the bytes after it.
pub fn read_front<'a, T: Spelled>(
    alloc: Global,
    bytes: &'a [u8],
) -> Result<(Counted<T>, &'a [u8]), X509Fault>
    ensures { MatchResult result
        (λ read. Leads T.spells read.0.value bytes.now read.1.now read.0.count)
        (IsRefusal (λ (value : T) n. (rest : List ℕ) × Leads T.spells value bytes.now rest n)) }
{
    let (element, rest) = split_element(bytes)?;
    let counted = T::read_counted(alloc, element.whole())?;
    Ok((counted, rest))
}

/// Whether the next octet begins a spelling.
pub(crate) fn is_next<T: Spelled>(bytes: &[u8]) -> bool
    ensures { result ≡ begins T.begun bytes.now }
{
    match bytes.first() {
        Some(first) => T::may_begin_with(*first),
        None => false,
    }
}
