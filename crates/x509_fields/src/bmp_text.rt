//! The text of a BMPString.
ghost use Rattle.std.specs.Prelude.{◌≡◌, [], ◌∷◌, IsTrue, ◌&&◌, MatchOption};
ghost use Rattle.std.specs.Option.{unwrap_or};
ghost use Rattle.std.specs.Char.Utf16.{is_high_surrogate, is_low_surrogate, surrogate_pair_char, lone_unit_char};
ghost use Rattle.x509_fields.specs.DirectoryStrings.{utf16_units, bmp_characters};

use std::fmt;
use std::fmt::Write;
use std::marker::Model;

/// The octets of a BMPString, which print as its text. Half a pair of surrogates is U+FFFD there.
#[derive(Clone, Copy)]
pub struct BmpText<'a>(pub &'a [u8]);

impl<'a> fmt::Display for BmpText<'a> {
    ghost use Rattle.std.specs.Prelude.{Some};
    ghost use Rattle.std.specs.List.{flat_map};
    ghost use Rattle.std.specs.Char.{encode_utf8};
    ghost use Rattle.x509_fields.specs.DirectoryStrings.{bmp_characters};

    ghost output = { λ text. Some (flat_map encode_utf8 (bmp_characters text.0.now)) };

    fn fmt<W: fmt::Write>(&self, f: &mut fmt::Formatter<W>) -> fmt::Result {
        let characters = BmpCharacters { octets: self.0 };
        for character in characters {
            f.write_char(character)?;
        }
        Ok(())
    }
}

// The characters of a BMPString that are left to be read, in order.
#[derive(Drop)]
struct BmpCharacters<'a> {
    octets: &'a [u8],
}

impl<'a> Model for BmpCharacters<'a> {
    ghost use Rattle.std.specs.Prelude.{ℕ, List};
    ghost use Rattle.x509_fields.specs.DirectoryStrings.{bmp_characters};

    ghost Value = { List ℕ };

    ghost view = { λ characters. bmp_characters characters.octets.now };
}

impl<'a> Iterator for BmpCharacters<'a> {
    ghost use Rattle.std.specs.Iterator.{YieldsFirst, item_count};

    type Item = char;

    ghost next_gives = { YieldsFirst (λ characters. characters) };

    ghost remaining = { item_count (λ characters. characters) };

    fn next(&mut self) -> Option<char> {
        let (character, rest) = take_character(self.octets)?;
        self.octets = rest;
        Some(character)
    }
}

// The first character, and the octets after it.
fn take_character(octets: &[u8]) -> Option<(char, &[u8])>
    ensures { MatchOption result
        (bmp_characters octets.now ≡ [])
        (λ taken. bmp_characters octets.now ≡ taken.0 ∷ bmp_characters taken.1.now) }
{
    let (unit, rest) = take_unit(octets)?;
    if let Some((second, further)) = take_unit(rest) {
        if is_pair(unit, second) {
            return Some((pair_character(unit, second), further));
        }
    }
    Some((lone_character(unit), rest))
}

// The first unit, of two octets, and the octets after it.
fn take_unit(octets: &[u8]) -> Option<(u16, &[u8])>
    ensures { MatchOption result
        (utf16_units octets.now ≡ [])
        (λ taken. utf16_units octets.now ≡ taken.0 ∷ utf16_units taken.1.now) }
{
    match octets {
        [high, low, rest @ ..] => Some((u16::from_be_bytes([*high, *low]), rest)),
        _ => None,
    }
}

// Whether the two units are one character.
fn is_pair(first: u16, second: u16) -> bool
    ensures { result ≡ (is_high_surrogate first && is_low_surrogate second) }
{
    0xD800 <= first && first < 0xDC00 && 0xDC00 <= second && second < 0xE000
}

// The character of a pair of surrogates.
fn pair_character(first: u16, second: u16) -> char
    requires { IsTrue (is_high_surrogate first && is_low_surrogate second) }
    ensures { result ≡ surrogate_pair_char first second }
{
    let code = 0x1_0000 + (u32::from(first) - 0xD800) * 0x400 + (u32::from(second) - 0xDC00);
    char::from_u32(code).unwrap_or(char::REPLACEMENT_CHARACTER)
}

// The character of a unit in no pair: U+FFFD for a surrogate.
fn lone_character(unit: u16) -> char
    ensures { result ≡ unwrap_or (lone_unit_char unit) 0xFFFD }
{
    char::from_u32(u32::from(unit)).unwrap_or(char::REPLACEMENT_CHARACTER)
}
