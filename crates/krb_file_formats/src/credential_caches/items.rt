//! What may stand several times behind one another in a cache.
ghost use Rattle.std.specs.Prelude.{◌≡◌, ◌⊎◌, ◌++◌, [], ◌∷◌, length, Ok, Err, IfOk, MatchResult};
ghost use Rattle.krb_file_formats.specs.Formats.{Format, AllFit, Gives, IsWriteRefusal, Writes, all_from, list_bytes, listed, number32, repeated};
ghost use Rattle.krb_file_formats.specs.declared.credential_caches.fault.CacheFault.TheVariants.{Memory};
ghost use Rattle.krb_file_formats.specs.Writing.{Puts};

use crate::credential_caches::fault::{CacheFault, CacheWriteFault, Found};
use crate::credential_caches::fields::{count32, put_number32, read_number32};
use std::alloc::{AllocError, Global};

// What may stand several times behind one another in a cache.
pub(crate) trait CacheItem: Sized + Drop {
    ghost format: { Format Self };

    // Reads the item at `place`, and returns the place behind it, too.
    fn read(alloc: Global, bytes: &[u8], place: usize) -> Found<Self>
        ensures { Gives (λ found. found) result (format.read place bytes.now) };

    // Appends the item.
    fn put(&self, to: &mut Vec<u8>) -> Result<(), CacheWriteFault>
        ensures { Writes format self.now result to.old.items to.new.items };
}

fn keep<T: CacheItem>(items: &mut Vec<T>, item: T) -> Result<(), AllocError>
    ensures { IfOk result (λ _. items.new.items ≡ items.old.items ++ item ∷ []) }
{
    items.push(item)?;
    Ok(())
}

// Reads the item at `place`, appends it to the items, and returns the place behind it.
fn read_one<T: CacheItem>(
    alloc: Global,
    bytes: &[u8],
    place: usize,
    items: &mut Vec<T>,
) -> Result<usize, CacheFault>
    ensures { MatchResult result
        (λ end. (item : T) × (T.format.read place bytes.now ≡ Ok (item, end)) × (items.new.items ≡ items.old.items ++ item ∷ []))
        (λ e. (e ≡ Memory) ⊎ (T.format.read place bytes.now ≡ Err e)) }
{
    let (item, end) = T::read(alloc, bytes, place)?;
    keep(items, item)?;
    Ok(end)
}

// Reads so many items from `place` on.
pub(crate) fn read_list<T: CacheItem>(
    alloc: Global,
    bytes: &[u8],
    place: usize,
    count: u32,
) -> Found<Vec<T>>
    ensures { Gives (λ found. (found.0.items, found.1)) result ((repeated T.format count).read place bytes.now) }
{
    let mut items = Vec::new(alloc);
    let mut end = place;
    for _ in 0..count {
        end = read_one(alloc, bytes, end, &mut items)?;
    }
    Ok((items, end))
}

// Reads the items behind their count at `place`.
pub(crate) fn read_listed<T: CacheItem>(alloc: Global, bytes: &[u8], place: usize) -> Found<Vec<T>>
    ensures { Gives (λ found. (found.0.items, found.1)) result ((listed T.format).read place bytes.now) }
{
    let (count, begin) = read_number32(bytes, place)?;
    read_list(alloc, bytes, begin, count)
}

// Reads the items from `place` up to the end.
pub(crate) fn read_all<T: CacheItem>(
    alloc: Global,
    bytes: &[u8],
    place: usize,
) -> Result<Vec<T>, CacheFault>
    ensures { Gives (λ items. items.items) result (all_from T.format place bytes.now) }
{
    let mut items = Vec::new(alloc);
    let mut next = place;
    for _ in 0..bytes.len() {
        if bytes.len() <= next {
            return Ok(items);
        }
        next = read_one(alloc, bytes, next, &mut items)?;
    }
    Ok(items)
}

// Appends the items.
pub(crate) fn put_list<T: CacheItem>(to: &mut Vec<u8>, items: &[T]) -> Result<(), CacheWriteFault>
    ensures { MatchResult result
        (λ _. Puts (list_bytes T.format items.now) to.old.items to.new.items × AllFit T.format items.now)
        (IsWriteRefusal (AllFit T.format items.now)) }
{
    for item in items {
        item.put(to)?;
    }
    Ok(())
}

// Appends the items behind their count.
pub(crate) fn put_listed<T: CacheItem>(to: &mut Vec<u8>, items: &[T]) -> Result<(), CacheWriteFault>
    ensures { Writes (listed T.format) items.now result to.old.items to.new.items }
{
    let count = count32(items.len())?;
    put_number32(to, count)?;
    put_list(to, items)?;
    Ok(())
}
