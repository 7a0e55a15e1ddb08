//! Values read one by one, as a deserializer of serde is asked for them.
ghost use Rattle.std.specs.Prelude.{◌≡◌, ℕ, ◌^◌, List, ◌∷◌, Some, IsTrue, MatchOption, MatchResult};
ghost use Rattle.std.specs.String.{string_bytes};
ghost use Rattle.asn1_der.specs.Tree.{ders, trees_of, AreWhole};
ghost use Rattle.asn1_der.specs.Length.{element};
ghost use Rattle.asn1_codec.specs.Reading.{Took, TookNone, TookValue, Refused, IsSpelling, IsElement, IsList, HasOctets};
ghost use Rattle.asn1_codec.specs.Unsigned.{unsigned_tree};
ghost use Rattle.asn1_codec.specs.Values.{bool_tree, null_tree, character_tree, IsAnyElement, IsTextElement, IsUnsupported};
ghost use Rattle.asn1_der.specs.Octets.{integer_octet, octet_string_octet, sequence_octet, utf8_string_octet};

use crate::de::{Deserialize, Deserializer};
use crate::elements::Elements;
use crate::fields::Fields;
use asn1_der::octets::{OCTET_STRING, SEQUENCE, UTF8_STRING};
use asn1_der::{Asn1DerError, Rule};
use byte_streams::Source;

impl<R: Source> Deserializer<R> {
    /// Takes a BOOLEAN (X.690, section 8.2).
    pub fn deserialize_bool(&mut self) -> Result<bool, Asn1DerError>
        ensures { MatchResult result
            (λ value. TookValue bool_tree value self.old self.new)
            (λ fault. Refused (IsSpelling bool_tree) self.old self.new fault) }
    {
        bool::deserialize(self)
    }

    /// Takes an INTEGER below 2^8 (X.690, section 8.3).
    pub fn deserialize_u8(&mut self) -> Result<u8, Asn1DerError>
        ensures { MatchResult result
            (λ value. TookValue (unsigned_tree (2 ^ 8) integer_octet) value self.old self.new)
            (λ fault. Refused (IsSpelling (unsigned_tree (2 ^ 8) integer_octet)) self.old self.new fault) }
    {
        u8::deserialize(self)
    }

    /// Takes an INTEGER below 2^16 (X.690, section 8.3).
    pub fn deserialize_u16(&mut self) -> Result<u16, Asn1DerError>
        ensures { MatchResult result
            (λ value. TookValue (unsigned_tree (2 ^ 16) integer_octet) value self.old self.new)
            (λ fault. Refused (IsSpelling (unsigned_tree (2 ^ 16) integer_octet)) self.old self.new fault) }
    {
        u16::deserialize(self)
    }

    /// Takes an INTEGER below 2^32 (X.690, section 8.3).
    pub fn deserialize_u32(&mut self) -> Result<u32, Asn1DerError>
        ensures { MatchResult result
            (λ value. TookValue (unsigned_tree (2 ^ 32) integer_octet) value self.old self.new)
            (λ fault. Refused (IsSpelling (unsigned_tree (2 ^ 32) integer_octet)) self.old self.new fault) }
    {
        u32::deserialize(self)
    }

    /// Takes an INTEGER below 2^64 (X.690, section 8.3).
    pub fn deserialize_u64(&mut self) -> Result<u64, Asn1DerError>
        ensures { MatchResult result
            (λ value. TookValue (unsigned_tree (2 ^ 64) integer_octet) value self.old self.new)
            (λ fault. Refused (IsSpelling (unsigned_tree (2 ^ 64) integer_octet)) self.old self.new fault) }
    {
        u64::deserialize(self)
    }

    /// Takes an INTEGER below 2^128 (X.690, section 8.3).
    pub fn deserialize_u128(&mut self) -> Result<u128, Asn1DerError>
        ensures { MatchResult result
            (λ value. TookValue (unsigned_tree (2 ^ 128) integer_octet) value self.old self.new)
            (λ fault. Refused (IsSpelling (unsigned_tree (2 ^ 128) integer_octet)) self.old self.new fault) }
    {
        u128::deserialize(self)
    }

    /// Takes a UTF8String of one character (X.690, section 8.23).
    pub fn deserialize_char(&mut self) -> Result<char, Asn1DerError>
        ensures { MatchResult result
            (λ value. TookValue character_tree value self.old self.new)
            (λ fault. Refused (IsSpelling character_tree) self.old self.new fault) }
    {
        char::deserialize(self)
    }

    /// Takes an OCTET STRING (X.690, section 8.7), and gives its octets.
    pub fn deserialize_bytes(&mut self) -> Result<Vec<u8>, Asn1DerError>
        ensures { MatchResult result
            (λ octets. Took (element octet_string_octet octets.items) self.old self.new)
            (λ fault. Refused (IsElement octet_string_octet) self.old self.new fault) }
    {
        self.content(OCTET_STRING)
    }

    /// Takes an OCTET STRING (X.690, section 8.7), and gives its octets.
    pub fn deserialize_byte_buf(&mut self) -> Result<Vec<u8>, Asn1DerError>
        ensures { MatchResult result
            (λ octets. Took (element octet_string_octet octets.items) self.old self.new)
            (λ fault. Refused (IsElement octet_string_octet) self.old self.new fault) }
    {
        self.content(OCTET_STRING)
    }

    /// Takes a UTF8String (X.690, section 8.23).
    pub fn deserialize_string(&mut self) -> Result<String, Asn1DerError>
        ensures { MatchResult result
            (λ text. Took (element utf8_string_octet (string_bytes text)) self.old self.new)
            (λ fault. Refused IsTextElement self.old self.new fault) }
    {
        let content = self.content(UTF8_STRING)?;
        match String::from_utf8(content) {
            Ok(text) => Ok(text),
            Err(_) => Err(self.refuse(Asn1DerError::Message(Rule::Characters))),
        }
    }

    /// Takes a UTF8String (X.690, section 8.23).
    pub fn deserialize_str(&mut self) -> Result<String, Asn1DerError>
        ensures { MatchResult result
            (λ text. Took (element utf8_string_octet (string_bytes text)) self.old self.new)
            (λ fault. Refused IsTextElement self.old self.new fault) }
    {
        self.deserialize_string()
    }

    /// Takes NULL (X.690, section 8.8).
    pub fn deserialize_unit(&mut self) -> Result<(), Asn1DerError>
        ensures { MatchResult result
            (λ value. TookValue null_tree value self.old self.new)
            (λ fault. Refused (IsSpelling null_tree) self.old self.new fault) }
    {
        <() as Deserialize>::deserialize(self)
    }

    /// Takes NULL (X.690, section 8.8), for a struct of no fields.
    pub fn deserialize_unit_struct(&mut self) -> Result<(), Asn1DerError>
        ensures { MatchResult result
            (λ value. TookValue null_tree value self.old self.new)
            (λ fault. Refused (IsSpelling null_tree) self.old self.new fault) }
    {
        self.deserialize_unit()
    }

    /// Takes a value, which is always there: whether one is missing, the fields after it tell
    /// (see [`Optional`](crate::optional::Optional)).
    pub fn deserialize_option<T: Deserialize>(&mut self) -> Result<Option<T>, Asn1DerError>
        ensures { MatchResult result
            (λ option. MatchOption option ⊥ (λ value. TookValue T.tree value self.old self.new))
            (λ fault. Refused (IsSpelling T.tree) self.old self.new fault) }
    {
        let value = T::deserialize(self)?;
        Ok(Some(value))
    }

    /// Takes the value that a struct of one field holds.
    pub fn deserialize_newtype_struct<T: Deserialize>(&mut self) -> Result<T, Asn1DerError>
        ensures { MatchResult result
            (λ value. TookValue T.tree value self.old self.new)
            (λ fault. Refused (IsSpelling T.tree) self.old self.new fault) }
    {
        T::deserialize(self)
    }

    /// Takes a SEQUENCE OF values of one type (X.690, section 8.10).
    pub fn deserialize_seq<T: Deserialize + Drop>(&mut self) -> Result<Vec<T>, Asn1DerError>
        ensures { MatchResult result
            (λ values. AreWhole (trees_of T.tree values.items) × Took (element sequence_octet (ders (trees_of T.tree values.items))) self.old self.new)
            (λ fault. Refused (IsList sequence_octet (trees_of T.tree)) self.old self.new fault) }
    {
        let elements: Elements<T> = self.list(SEQUENCE)?;
        Ok(elements.into_vec())
    }

    /// Takes a SEQUENCE of the parts of a tuple (X.690, section 8.9).
    pub fn deserialize_tuple<F: Fields>(&mut self) -> Result<F, Asn1DerError>
        requires { IsTrue F.sound }
        ensures { MatchResult result
            (λ fields. AreWhole (F.trees fields) × Took (element sequence_octet (ders (F.trees fields))) self.old self.new)
            (λ fault. Refused (IsList sequence_octet F.trees) self.old self.new fault) }
    {
        self.list(SEQUENCE)
    }

    /// Takes a SEQUENCE of the parts of a struct without names of fields (X.690, section 8.9).
    pub fn deserialize_tuple_struct<F: Fields>(&mut self) -> Result<F, Asn1DerError>
        requires { IsTrue F.sound }
        ensures { MatchResult result
            (λ fields. AreWhole (F.trees fields) × Took (element sequence_octet (ders (F.trees fields))) self.old self.new)
            (λ fault. Refused (IsList sequence_octet F.trees) self.old self.new fault) }
    {
        self.list(SEQUENCE)
    }

    /// Takes a SEQUENCE of the fields of a struct (X.690, section 8.9).
    pub fn deserialize_struct<F: Fields>(&mut self) -> Result<F, Asn1DerError>
        requires { IsTrue F.sound }
        ensures { MatchResult result
            (λ fields. AreWhole (F.trees fields) × Took (element sequence_octet (ders (F.trees fields))) self.old self.new)
            (λ fault. Refused (IsList sequence_octet F.trees) self.old self.new fault) }
    {
        self.list(SEQUENCE)
    }

    /// The identifier octet of what comes next, which stays unread.
    pub fn deserialize_identifier(&mut self) -> Result<u8, Asn1DerError>
        ensures { MatchResult result
            (λ octet. TookNone self.old self.new × ((bytes : List ℕ) (first : ℕ)
            → self.old.left ≡ Some (first ∷ bytes) → first ≡ octet))
            (λ fault. Refused HasOctets self.old self.new fault) }
    {
        self.peek_in_limit()
    }

    /// The identifier octet that decides a choice's alternative. It stays unread.
    pub fn deserialize_enum(&mut self) -> Result<u8, Asn1DerError>
        ensures { MatchResult result
            (λ octet. TookNone self.old self.new × ((bytes : List ℕ) (first : ℕ)
            → self.old.left ≡ Some (first ∷ bytes) → first ≡ octet))
            (λ fault. Refused HasOctets self.old self.new fault) }
    {
        self.peek_in_limit()
    }

    /// Takes one element of any type, whose tag's number is below 31, and drops it.
    pub fn deserialize_ignored_any(&mut self) -> Result<(), Asn1DerError>
        ensures { MatchResult result
            (λ _. (bytes : List ℕ) × IsAnyElement bytes × Took bytes self.old self.new)
            (λ fault. Refused IsAnyElement self.old self.new fault) }
    {
        let first = self.peek_in_limit()?;
        if first % 32 == 31 {
            return Err(self.refuse(Asn1DerError::InvalidData));
        }
        let _content = self.short_content(first)?;
        Ok(())
    }
}

/// The types that have no DER here: each call takes nothing, and answers `UnsupportedType`.
impl<R: Source> Deserializer<R> {
    // Refuses the type.
    fn unsupported<T>(&mut self) -> Result<T, Asn1DerError>
        ensures { MatchResult result (λ _. ⊥) (IsUnsupported self.old self.new) }
    {
        self.ready()?;
        Err(self.refuse(Asn1DerError::UnsupportedType))
    }

    /// Refuses an `i8`: no signed integer is read.
    pub fn deserialize_i8(&mut self) -> Result<i8, Asn1DerError>
        ensures { MatchResult result (λ _. ⊥) (IsUnsupported self.old self.new) }
    {
        self.unsupported()
    }

    /// Refuses an `i16`: no signed integer is read.
    pub fn deserialize_i16(&mut self) -> Result<i16, Asn1DerError>
        ensures { MatchResult result (λ _. ⊥) (IsUnsupported self.old self.new) }
    {
        self.unsupported()
    }

    /// Refuses an `i32`: no signed integer is read.
    pub fn deserialize_i32(&mut self) -> Result<i32, Asn1DerError>
        ensures { MatchResult result (λ _. ⊥) (IsUnsupported self.old self.new) }
    {
        self.unsupported()
    }

    /// Refuses an `i64`: no signed integer is read.
    pub fn deserialize_i64(&mut self) -> Result<i64, Asn1DerError>
        ensures { MatchResult result (λ _. ⊥) (IsUnsupported self.old self.new) }
    {
        self.unsupported()
    }

    /// Refuses an `i128`: no signed integer is read.
    pub fn deserialize_i128(&mut self) -> Result<i128, Asn1DerError>
        ensures { MatchResult result (λ _. ⊥) (IsUnsupported self.old self.new) }
    {
        self.unsupported()
    }

    /// Refuses a map.
    pub fn deserialize_map(&mut self) -> Result<(), Asn1DerError>
        ensures { MatchResult result (λ _. ⊥) (IsUnsupported self.old self.new) }
    {
        self.unsupported()
    }
}
