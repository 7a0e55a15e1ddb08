//! Takes one element from a source.
ghost use Rattle.std.specs.Prelude.{◌≡◌, ◌⊎◌, ℕ, ◌-◌, ◌≤◌, [], ◌++◌, length, take, replicate, IfOk, IfErr, MatchResult};
ghost use Rattle.std.specs.Io.KnownBytes.{Consumes};
ghost use Rattle.asn1_codec.specs.Held.{HasHeader, IsFilled, IsHeaderOf, TellsHeld, TellsLeft};
ghost use Rattle.asn1_codec.specs.Named.{IsAnElement};
ghost use Rattle.asn1_codec.specs.Reading.{IsExcuse, IsOwn, TellsKind, result_faults};

use crate::input_end::split_length;
use asn1_der::{Asn1DerError, following};
use byte_streams::{Source, read_full};
use std::alloc::Global;

// Room for identifier and length octets, and for all of a short element.
const FIRST_ROOM: usize = 32;

/// Takes the element that comes next from `reader`, of at most `limit` octets, and just these. Of its content nothing is asked.
///
/// `TruncatedData` is the fault where what the reader has left, up to the limit, ends inside an element, and `InvalidData` where no element
/// begins it, whatever follows.
pub(crate) fn read_element<R: Source>(
    alloc: Global,
    reader: &mut R,
    limit: usize,
) -> Result<Vec<u8>, Asn1DerError>
    ensures element { IfOk result (λ element. IsAnElement element.items) }
    ensures took { IfOk result (λ element. Consumes (R.left reader.old) (R.left reader.new) element.items) }
    ensures within { IfOk result (λ element. length element.items ≤ limit) }
    ensures fault { IfErr result (λ fault. IsExcuse fault ⊎ TellsLeft limit (R.left reader.old) fault) }
    ensures count { R.failed reader.new ≡ result_faults result (R.failed reader.old) }
    ensures kind { IfErr result (λ fault. TellsKind fault (R.last_fault reader.new)) }
    ensures same { R.through reader.new ≡ R.through reader.old }
{
    let mut held = match Vec::with_capacity(alloc, FIRST_ROOM) {
        Ok(held) => held,
        Err(_) => return Err(Asn1DerError::Memory),
    };
    let size = take_header(reader, &mut held, limit)?;
    take_up_to(reader, &mut held, size)?;
    if held.len() < size {
        return Err(Asn1DerError::TruncatedData);
    }
    Ok(held)
}

// Takes identifier and length octets, and gives how many octets their element has.
fn take_header<R: Source>(
    reader: &mut R,
    held: &mut Vec<u8>,
    limit: usize,
) -> Result<usize, Asn1DerError>
    requires { held.old.items ≡ [] }
    ensures header { IfOk result (λ size. IsHeaderOf held.new.items size) }
    ensures took { IfOk result (λ _. Consumes (R.left reader.old) (R.left reader.new) held.new.items) }
    ensures within { IfOk result (λ size. size ≤ limit) }
    ensures fault { IfErr result (λ fault. IsExcuse fault ⊎ TellsLeft limit (R.left reader.old) fault) }
    ensures count { R.failed reader.new ≡ result_faults result (R.failed reader.old) }
    ensures kind { IfErr result (λ fault. TellsKind fault (R.last_fault reader.new)) }
    ensures same { R.through reader.new ≡ R.through reader.old }
{
    take_up_to(reader, held, limit.min(2))?;
    let header = header_size(held.as_slice())?;
    take_up_to(reader, held, limit.min(header))?;
    let size = element_size(held.as_slice(), header, limit)?;
    Ok(size)
}

// How many identifier and length octets there are, by the first two of them.
fn header_size(held: &[u8]) -> Result<usize, Asn1DerError>
    ensures told { MatchResult result (HasHeader held.now) (λ fault. (limit : ℕ) → TellsHeld limit 2 held.now fault) }
    ensures own { IfErr result IsOwn }
{
    let Some((_first, behind)) = held.split_first() else {
        return Err(Asn1DerError::TruncatedData);
    };
    let Some((second, _behind)) = behind.split_first() else {
        return Err(Asn1DerError::TruncatedData);
    };
    match following(*second) {
        Some(more) => Ok(2 + more),
        None => Err(Asn1DerError::InvalidData),
    }
}

// How many octets the element has, by its identifier and length octets. There are `header` of them, of which fewer may be held.
fn element_size(held: &[u8], header: usize, limit: usize) -> Result<usize, Asn1DerError>
    requires header { HasHeader held.now header }
    requires whole { length held.now ≤ header }
    requires within { length held.now ≤ limit }
    ensures told { MatchResult result
        (λ size. IsHeaderOf held.now size × (size ≤ limit))
        (λ fault. TellsHeld limit header held.now fault) }
    ensures own { IfErr result IsOwn }
{
    let Some((_first, behind)) = held.split_first() else {
        return Err(Asn1DerError::TruncatedData);
    };
    let (count, _) = split_length(behind)?;
    if limit - held.len() < count {
        return Err(Asn1DerError::TruncatedData);
    }
    Ok(held.len() + count)
}

// Takes octets after those that are held, until they are `size`, or fewer at the reader's end.
fn take_up_to<R: Source>(
    reader: &mut R,
    held: &mut Vec<u8>,
    size: usize,
) -> Result<(), Asn1DerError>
    requires { length held.old.items ≤ size }
    ensures filled { IfOk result (λ _. IsFilled size (R.left reader.old) (R.left reader.new) held.old.items held.new.items) }
    ensures excuse { IfErr result IsExcuse }
    ensures count { R.failed reader.new ≡ result_faults result (R.failed reader.old) }
    ensures kind { IfErr result (λ fault. TellsKind fault (R.last_fault reader.new)) }
    ensures same { R.through reader.new ≡ R.through reader.old }
{
    let start = held.len();
    widen(held, size)?;
    let count = fill_from(reader, held, start)?;
    held.truncate(count);
    Ok(())
}

// Gives `held` room for `size` octets.
fn widen(held: &mut Vec<u8>, size: usize) -> Result<(), Asn1DerError>
    ensures { MatchResult result
        (λ _. held.new.items ≡ take size held.old.items ++ replicate (size - length held.old.items) 0)
        (λ fault. fault ≡ Asn1DerError.Memory) }
{
    match held.resize(size, 0) {
        Ok(()) => Ok(()),
        Err(_) => Err(Asn1DerError::Memory),
    }
}

// Fills `octets` from `start` on, and gives how many there are then: fewer than all only at the reader's end.
fn fill_from<R: Source>(
    reader: &mut R,
    octets: &mut [u8],
    start: usize,
) -> Result<usize, Asn1DerError>
    requires { start ≤ length octets.old }
    ensures filled { IfOk result (λ count. IsFilled (length octets.old) (R.left reader.old) (R.left reader.new)
        (take start octets.old) (take count octets.new)) }
    ensures excuse { IfErr result IsExcuse }
    ensures count { R.failed reader.new ≡ result_faults result (R.failed reader.old) }
    ensures kind { IfErr result (λ fault. TellsKind fault (R.last_fault reader.new)) }
    ensures same { R.through reader.new ≡ R.through reader.old }
{
    match read_full(reader, &mut octets[start..]) {
        Ok(count) => Ok(start + count),
        Err(kind) => Err(Asn1DerError::Other(kind)),
    }
}
