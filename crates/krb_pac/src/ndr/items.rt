//! Arrays (C706, section 14.3.3), and what they have.
ghost use Rattle.std.specs.Prelude.{◌≡◌, ◌+◌, ◌≤◌, ◌⊎◌, ◌++◌, [], ◌∷◌, length, Ok, Err, IfOk, MatchResult};
ghost use Rattle.krb_pac.specs.declared.error.PacFault.TheVariants.{Memory};
ghost use Rattle.krb_pac.specs.Reading.{Reading, Gives};
ghost use Rattle.krb_pac.specs.Numbers.{u16_at, u32_at};
ghost use Rattle.krb_pac.specs.Arrays.{count_at, each_at, listed_at};

use crate::error::{Found, PacFault};
use crate::ndr::numbers::{u16_at, u32_at};
use byte_streams::u32_le;
use std::alloc::{AllocError, Global};

/// A value of which there may be an array.
pub(crate) trait NdrItem: Sized + Drop {
    ghost reading: { Reading Self };

    /// Reads the value at `place`, and returns the place behind it, too.
    fn read(alloc: Global, bytes: &[u8], place: usize) -> Found<Self>
        ensures { Gives (λ found. found) result (reading place bytes.now) };
}

impl NdrItem for u16 {
    ghost reading = { u16_at };

    fn read(_alloc: Global, bytes: &[u8], place: usize) -> Found<u16> {
        u16_at(bytes, place)
    }
}

impl NdrItem for u32 {
    ghost reading = { u32_at };

    fn read(_alloc: Global, bytes: &[u8], place: usize) -> Found<u32> {
        u32_at(bytes, place)
    }
}

fn keep<T: NdrItem>(items: &mut Vec<T>, item: T) -> Result<(), AllocError>
    ensures { IfOk result (λ _. items.new.items ≡ items.old.items ++ item ∷ []) }
{
    items.push(item)?;
    Ok(())
}

// Reads the value at `place`, appends it to the values, and returns the place behind it.
fn read_one<T: NdrItem>(
    alloc: Global,
    bytes: &[u8],
    place: usize,
    items: &mut Vec<T>,
) -> Result<usize, PacFault>
    ensures { MatchResult result
        (λ end. (item : T) × (T.reading place bytes.now ≡ Ok (item, end)) × (items.new.items ≡ items.old.items ++ item ∷ []))
        (λ e. (e ≡ Memory) ⊎ (T.reading place bytes.now ≡ Err e)) }
{
    let (item, end) = T::read(alloc, bytes, place)?;
    keep(items, item)?;
    Ok(end)
}

/// Reads so many values, each from the place behind the one before it on. A value is kept only once it is read.
pub(crate) fn read_list<T: NdrItem>(
    alloc: Global,
    bytes: &[u8],
    place: usize,
    count: usize,
) -> Found<Vec<T>>
    ensures { Gives (λ found. (found.0.items, found.1)) result (each_at T.reading count place bytes.now) }
{
    let mut items = Vec::new(alloc);
    let mut end = place;
    for _ in 0..count {
        end = read_one(alloc, bytes, end, &mut items)?;
    }
    Ok((items, end))
}

/// Reads a count of an array at `place`, and returns the place behind it. It refuses as `Count` if the count is another than `count`.
#[tactic(auto, unfolding(crate::specs::Arrays::count_at))]
pub(crate) fn count_at(bytes: &[u8], place: usize, count: u32) -> Result<usize, PacFault>
    ensures { result ≡ count_at count place bytes.now }
{
    let (told, end) = u32_at(bytes, place)?;
    if told != count {
        return Err(PacFault::Count);
    }
    Ok(end)
}

/// Reads the array at `place` of which the structure at `head` has the count and the pointer. A null pointer has none, and its count is 0.
#[tactic(auto, unfolding(crate::specs::Arrays::listed_at))]
pub(crate) fn listed_at<T: NdrItem>(
    alloc: Global,
    bytes: &[u8],
    head: usize,
    place: usize,
) -> Found<Vec<T>>
    requires { head + 8 ≤ length bytes.now }
    ensures { Gives (λ found. (found.0.items, found.1)) result (listed_at T.reading head place bytes.now) }
{
    let count = u32_le(bytes, head);
    if u32_le(bytes, head + 4) == 0 {
        if count != 0 {
            return Err(PacFault::Null);
        }
        return Ok((Vec::new(alloc), place));
    }
    let begin = count_at(bytes, place, count)?;
    read_list(alloc, bytes, begin, count as usize)
}
