//! Names in one block of octets: the texts one after the other, each character plus one, and a zero after each text. Blocks
//! compare as the lists of their texts do: by the first text that differs, and there by the first character that differs.

ghost use Rattle.std.specs.Prelude.{◌≡◌, ◌++◌, IsTrue, OnOk};
ghost use Rattle.arrayvec.specs.ArrayVec.{array_vec_len};
ghost use Rattle.krb_realm_accounts.specs.Packed.{packed_text, text_fits};

use crate::names::has_characters_below_128;
use arrayvec::ArrayVec;
use picky_asn1::wrapper::GeneralStringAsn1;
use std::alloc::AllocError;

/// How many octets a block has that takes no memory: enough for each name that a realm may have, of 16 components of
/// 255 characters.
pub const BLOCK_ROOM: usize = 4_096;

/// Appends a text to a block.
pub fn pack(block: &mut Vec<u8>, text: &GeneralStringAsn1) -> Result<(), AllocError>
    ensures { OnOk result (block.new.items ≡ block.old.items ++ packed_text text.now) }
{
    for character in text.as_bytes() {
        block.push(character + 1)?;
    }
    block.push(0)?;
    Ok(())
}

/// Appends a text to a block of at most N octets, and takes no memory. The answer is false where the text has a character that
/// isn't below 128, or the block has no room for it.
pub fn pack_within<const N: usize>(block: &mut ArrayVec<u8, N>, text: &[u8]) -> bool
    ensures fits { result ≡ text_fits N (array_vec_len block.old) text.now }
    ensures packed { IsTrue result → block.new.items ≡ block.old.items ++ packed_text text.now }
{
    if !has_characters_below_128(text) || block.remaining_capacity() <= text.len() {
        return false;
    }
    for character in text {
        block.push(character + 1);
    }
    block.push(0);
    true
}
