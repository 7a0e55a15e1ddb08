//! RPC_UNICODE_STRING (MS-DTYP, section 2.3.10): a structure of two lengths and a pointer, whose referent has the characters.
ghost use Rattle.std.specs.Prelude.{◌≡◌, ◌+◌, ◌≤◌, length};
ghost use Rattle.krb_pac.specs.Reading.{Gives};
ghost use Rattle.krb_pac.specs.Texts.{has_lengths, text_head, varying_at, characters_at, text_at};

use crate::error::{Found, PacFault};
use crate::ndr::items::{count_at, read_list};
use crate::ndr::numbers::u16_le;
use byte_streams::u32_le;
use std::alloc::Global;

// What the structure states of the characters.
#[derive(Clone, Copy)]
struct TextHead {
    // How many octets the characters have.
    length: u16,
    // How many octets there is room for.
    maximum_length: u16,
    // Whether the pointer has a referent.
    is_set: bool,
}

// Returns whether both lengths are even and in order, and zero where there is no referent.
#[tactic(auto, unfolding(crate::specs::Texts::has_lengths))]
fn has_lengths(head: TextHead) -> bool
    ensures { result ≡ has_lengths head }
{
    let even = head.length % 2 == 0 && head.maximum_length % 2 == 0;
    let ordered = head.length <= head.maximum_length;
    even && ordered && (head.is_set || head.maximum_length == 0)
}

// Returns the structure at `place`.
#[tactic(auto, unfolding(crate::specs::Texts::text_head))]
fn text_head(bytes: &[u8], place: usize) -> TextHead
    requires { place + 8 ≤ length bytes.now }
    ensures { result ≡ text_head place bytes.now }
{
    TextHead {
        length: u16_le(bytes, place),
        maximum_length: u16_le(bytes, place + 2),
        is_set: u32_le(bytes, place + 4) != 0,
    }
}

// Returns the numbers of a conformant and varying array: its maximum count, the offset 0, its actual count, and the numbers.
#[tactic(auto, unfolding(crate::specs::Texts::varying_at))]
fn varying_at(
    alloc: Global,
    bytes: &[u8],
    place: usize,
    maximum: u32,
    actual: u32,
) -> Found<Vec<u16>>
    ensures { Gives (λ found. (found.0.items, found.1)) result (varying_at maximum actual place bytes.now) }
{
    let offset = count_at(bytes, place, maximum)?;
    let count = count_at(bytes, offset, 0)?;
    let begin = count_at(bytes, count, actual)?;
    read_list(alloc, bytes, begin, actual as usize)
}

// Returns the characters of a string with this structure. There are none, at `place`, where the pointer is null.
#[tactic(auto, unfolding(crate::specs::Texts::characters_at))]
fn characters_at(alloc: Global, bytes: &[u8], place: usize, head: TextHead) -> Found<Vec<u16>>
    ensures { Gives (λ found. (found.0.items, found.1)) result (characters_at head place bytes.now) }
{
    if !head.is_set {
        return Ok((Vec::new(alloc), place));
    }
    let maximum = (head.maximum_length / 2) as u32;
    let actual = (head.length / 2) as u32;
    varying_at(alloc, bytes, place, maximum, actual)
}

/// Returns the characters at `place` of the string whose structure is at `head`, and the place behind them. They are UTF-16, which isn't
/// judged. It refuses as `Lengths` if a length is odd, if Length is more than MaximumLength, or if MaximumLength isn't 0 where the pointer
/// is null.
#[tactic(auto, unfolding(crate::specs::Texts::text_at))]
pub(crate) fn text_at(alloc: Global, bytes: &[u8], head: usize, place: usize) -> Found<Vec<u16>>
    requires { head + 8 ≤ length bytes.now }
    ensures { Gives (λ found. (found.0.items, found.1)) result (text_at head place bytes.now) }
{
    let stated = text_head(bytes, head);
    if !has_lengths(stated) {
        return Err(PacFault::Lengths);
    }
    characters_at(alloc, bytes, place, stated)
}
