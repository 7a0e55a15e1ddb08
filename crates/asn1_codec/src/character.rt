//! Characters.
ghost use Rattle.std.specs.Prelude.{◌≡◌, ℕ, IfOk, MatchOption, IsTrue};
ghost use Rattle.asn1_codec.specs.Characters.{is_character, character_content};
ghost use Rattle.asn1_der.specs.Octets.{utf8_string_octet};

use crate::leaf::Leaf;
use crate::ser::Serializer;
use asn1_der::octets::UTF8_STRING;
use asn1_der::{Asn1DerError, Rule};
use byte_streams::Sink;
use std::alloc::{AllocError, Global};
use std::str;

/// A UTF8String (X.690, section 8.23) of exactly one character: `0C 02 C3 A9` is `é`.
impl Leaf for char {
    ghost use Rattle.asn1_codec.specs.Characters.{is_character, character_content};
    ghost use Rattle.asn1_codec.specs.CharacterLaws.{character_content-injective};

    const OCTET: u8 = UTF8_STRING;

    const RULE: Rule = Rule::Characters;

    ghost OCTET = { utf8_string_octet };

    ghost is_valid = { is_character };

    ghost content_of = { character_content };

    ghost one_content = { λ v w _ _ e. character_content-injective v w e };

    fn decode(alloc: Global, content: &[u8]) -> Result<Option<Self>, AllocError> {
        match str::from_utf8(content) {
            Ok(text) => Ok(only_character(text)),
            Err(_) => Ok(None),
        }
    }

    fn write_content<W: Sink>(
        &self,
        tag: u8,
        to: &mut Serializer<W>,
    ) -> Result<usize, Asn1DerError> {
        let character = *self;
        let mut octets = [0u8; 4];
        to.element(tag, character.encode_utf8(&mut octets).as_bytes())
    }
}

/// The character of a text of one, none of another.
fn only_character(text: &str) -> Option<char>
    ensures { MatchOption result
        ((character : ℕ) → character_content character ≡ text.now → ⊥)
        (λ character. IsTrue (is_character character) × (character_content character ≡ text.now)) }
{
    let Some(first) = text.chars().next() else {
        return None;
    };
    if first.len_utf8() != text.len() {
        return None;
    }
    Some(first)
}
