//! Text.
ghost use Rattle.std.specs.Prelude.{◌≡◌, None};
ghost use Rattle.asn1_der.specs.Octets.{utf8_string_octet};
ghost use Rattle.asn1_der.specs.Tree.{primitive};
ghost use Rattle.asn1_der.specs.Firsts.{only};

use crate::leaf::Leaf;
use crate::ser::{Serialize, Serializer};
use asn1_der::octets::UTF8_STRING;
use asn1_der::{Asn1DerError, Rule};
use byte_streams::Sink;
use std::alloc::{AllocError, Global};
use std::str;

/// A UTF8String (X.690, section 8.23). Two texts of the same octets have one spelling, whatever memory they hold.
impl Leaf for String {
    ghost use Rattle.std.specs.Prelude.{ℕ, List, true};
    ghost use Rattle.std.specs.String.{string_bytes};
    ghost use Rattle.asn1_der.specs.Seen.{by};

    const OCTET: u8 = UTF8_STRING;

    const RULE: Rule = Rule::Characters;

    ghost OCTET = { utf8_string_octet };

    ghost seen = { by (List ℕ) (λ text. string_bytes text) };

    ghost is_valid = { λ _. true };

    ghost content_of = { λ text. string_bytes text };

    ghost one_content = { λ v w _ _ e. e };

    fn decode(alloc: Global, content: &[u8]) -> Result<Option<Self>, AllocError> {
        match str::from_utf8(content) {
            Ok(text) => Ok(Some(String::from_str(alloc, text)?)),
            Err(_) => Ok(None),
        }
    }

    fn write_content<W: Sink>(
        &self,
        tag: u8,
        to: &mut Serializer<W>,
    ) -> Result<usize, Asn1DerError> {
        to.element(tag, self.as_bytes())
    }
}

/// A UTF8String (X.690, section 8.23), which is only written.
impl<'a> Serialize for &'a str {
    ghost use Rattle.std.specs.Prelude.{ℕ, List};
    ghost use Rattle.asn1_der.specs.Seen.{by};
    ghost use Rattle.asn1_der.proofs.Spelling.{may_begin-only};
    ghost use Rattle.asn1_der.proofs.Elements.{element-content};

    ghost tree = { λ text. primitive utf8_string_octet text.now };

    ghost seen = { by (List ℕ) (λ text. text.now) };

    ghost firsts = { only utf8_string_octet };

    ghost begins = { λ text. may_begin-only utf8_string_octet };

    ghost injective = { λ v w _ _ e. element-content utf8_string_octet v.now w.now e };

    fn serialize<W: Sink>(&self, to: &mut Serializer<W>) -> Result<usize, Asn1DerError> {
        to.element(UTF8_STRING, self.as_bytes())
    }
}
