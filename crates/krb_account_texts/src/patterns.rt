//! Patterns of names, as a shell has them.
ghost use Rattle.std.specs.Prelude.{◌≡◌, ◌+◌, ◌<◌, ◌≤◌, ◌&&◌, ◌||◌, ℕ, false, [], get_or, drop, length, slice_index, if◌then◌else◌, ◌==◌, IfOk};
ghost use Rattle.krb_account_texts.specs.Patterns.{IsRow, matches, stands_for};

use std::alloc::{AllocError, Global};

/// A pattern of names: `*` matches any characters, `/` too, `?` one, and each other character itself.
#[derive(Clone, Copy)]
pub struct Pattern<'a> {
    /// The pattern as it is written.
    pub marks: &'a [u8],
}

impl<'a> Pattern<'a> {
    /// Whether the pattern matches a name. It takes time by the product of both lengths at most.
    pub fn matches(self, alloc: Global, name: &[u8]) -> Result<bool, AllocError>
        ensures { IfOk result (λ found. found ≡ matches self.entry.marks.now name.now) }
    {
        let marks = self.marks;
        let mut row = last_row(alloc, name)?;
        for place in (0..marks.len()).rev() {
            put_mark(marks, place, name, &mut row);
        }
        Ok(first_of(&row))
    }
}

// Whether the empty pattern matches each end of a name: for the empty one alone.
fn last_row(alloc: Global, name: &[u8]) -> Result<Vec<bool>, AllocError>
    ensures { IfOk result (λ row. IsRow [] name.now row.items) }
{
    let mut row = vec![in alloc; false; name.len()]?;
    row.push(true)?;
    Ok(row)
}

// Whether the pattern from this place on matches each end of a name, where it is known of the pattern after this place.
fn put_mark(marks: &[u8], place: usize, name: &[u8], row: &mut Vec<bool>)
    requires inside { place < length marks.now }
    requires known { IsRow (drop (place + 1) marks.now) name.now row.old.items }
    ensures { IsRow (drop place marks.now) name.now row.new.items }
{
    let mark = marks[place];
    let end = name.len();
    let mut behind = row[end];
    row[end] = fits_end(mark, behind);
    for index in (0..end).rev() {
        let here = row[index];
        let next = row[index + 1];
        row[index] = fits(mark, name[index], Ends { here, next, behind });
        behind = here;
    }
}

// What is known at one place of a name, of the end from there on and of the next end, which is shorter by one character.
#[derive(Clone, Copy)]
struct Ends {
    // Whether the pattern after a mark matches the end.
    here: bool,
    // Whether the pattern from the mark on matches the next end.
    next: bool,
    // Whether the pattern after the mark matches the next end.
    behind: bool,
}

// Whether the pattern from a mark on matches the end that begins with this character.
fn fits(mark: u8, character: u8, ends: Ends) -> bool
    ensures { result ≡ (if mark == 42 then ends.here || ends.next else stands_for mark character && ends.behind) }
{
    if mark == b'*' {
        ends.here || ends.next
    } else {
        stands_for(mark, character) && ends.behind
    }
}

// Whether the pattern from a mark on matches the empty end, where the pattern after the mark matches it or doesn't.
fn fits_end(mark: u8, behind: bool) -> bool
    ensures { result ≡ ((mark == 42) && behind) }
{
    mark == b'*' && behind
}

// Whether a mark that isn't `*` matches a character.
fn stands_for(mark: u8, character: u8) -> bool
    ensures { result ≡ stands_for mark character }
{
    mark == b'?' || mark == character
}

fn first_of(row: &[bool]) -> bool
    ensures { result ≡ get_or row.now 0 false }
{
    match row.first() {
        Some(first) => *first,
        None => false,
    }
}
