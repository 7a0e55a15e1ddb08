//! Values written one by one, as a serializer of serde is asked for them.
ghost use Rattle.std.specs.Prelude.{◌≡◌, [], None, Some, MatchResult};
ghost use Rattle.asn1_der.specs.Tree.{der, ders, trees_of};
ghost use Rattle.asn1_der.specs.Length.{element};
ghost use Rattle.asn1_codec.specs.Booleans.{bool_content};
ghost use Rattle.asn1_codec.specs.Characters.{character_content};
ghost use Rattle.asn1_der.specs.Refusals.{refusal_of, refusal_of_list};
ghost use Rattle.asn1_codec.specs.Unsigned.{unsigned_content};
ghost use Rattle.asn1_codec.specs.Writing.{WroteValue, NotWroteValue};
ghost use Rattle.asn1_der.specs.Octets.{boolean_octet, integer_octet, null_octet, octet_string_octet, sequence_octet, utf8_string_octet};

use crate::fields::WriteFields;
use crate::integer::write_unsigned;
use crate::ser::{Serialize, Serializer};
use asn1_der::octets::{INTEGER, NULL, OCTET_STRING, SEQUENCE, UTF8_STRING};
use asn1_der::{Asn1DerError, Unsupported};
use byte_streams::Sink;

/// The types that are written.
impl<W: Sink> Serializer<W> {
    /// Writes a BOOLEAN (X.690, section 8.2).
    pub fn serialize_bool(&mut self, value: bool) -> Result<usize, Asn1DerError>
        ensures { MatchResult result
            (WroteValue None (element boolean_octet (bool_content value)) self.old self.new)
            (NotWroteValue None (element boolean_octet (bool_content value)) self.old self.new) }
    {
        value.serialize(self)
    }

    /// Writes an INTEGER (X.690, section 8.3).
    pub fn serialize_u8(&mut self, value: u8) -> Result<usize, Asn1DerError>
        ensures { MatchResult result
            (WroteValue None (element integer_octet (unsigned_content value)) self.old self.new)
            (NotWroteValue None (element integer_octet (unsigned_content value)) self.old self.new) }
    {
        write_unsigned(INTEGER, self, u128::from(value))
    }

    /// Writes an INTEGER (X.690, section 8.3).
    pub fn serialize_u16(&mut self, value: u16) -> Result<usize, Asn1DerError>
        ensures { MatchResult result
            (WroteValue None (element integer_octet (unsigned_content value)) self.old self.new)
            (NotWroteValue None (element integer_octet (unsigned_content value)) self.old self.new) }
    {
        write_unsigned(INTEGER, self, u128::from(value))
    }

    /// Writes an INTEGER (X.690, section 8.3).
    pub fn serialize_u32(&mut self, value: u32) -> Result<usize, Asn1DerError>
        ensures { MatchResult result
            (WroteValue None (element integer_octet (unsigned_content value)) self.old self.new)
            (NotWroteValue None (element integer_octet (unsigned_content value)) self.old self.new) }
    {
        write_unsigned(INTEGER, self, u128::from(value))
    }

    /// Writes an INTEGER (X.690, section 8.3).
    pub fn serialize_u64(&mut self, value: u64) -> Result<usize, Asn1DerError>
        ensures { MatchResult result
            (WroteValue None (element integer_octet (unsigned_content value)) self.old self.new)
            (NotWroteValue None (element integer_octet (unsigned_content value)) self.old self.new) }
    {
        write_unsigned(INTEGER, self, u128::from(value))
    }

    /// Writes an INTEGER (X.690, section 8.3).
    pub fn serialize_u128(&mut self, value: u128) -> Result<usize, Asn1DerError>
        ensures { MatchResult result
            (WroteValue None (element integer_octet (unsigned_content value)) self.old self.new)
            (NotWroteValue None (element integer_octet (unsigned_content value)) self.old self.new) }
    {
        write_unsigned(INTEGER, self, value)
    }

    /// Writes a UTF8String of one character (X.690, section 8.23).
    pub fn serialize_char(&mut self, value: char) -> Result<usize, Asn1DerError>
        ensures { MatchResult result
            (WroteValue None (element utf8_string_octet (character_content value)) self.old self.new)
            (NotWroteValue None (element utf8_string_octet (character_content value)) self.old self.new) }
    {
        let mut octets = [0u8; 4];
        self.element(UTF8_STRING, value.encode_utf8(&mut octets).as_bytes())
    }

    /// Writes a UTF8String (X.690, section 8.23).
    pub fn serialize_str(&mut self, value: &str) -> Result<usize, Asn1DerError>
        ensures { MatchResult result
            (WroteValue None (element utf8_string_octet value.now) self.old self.new)
            (NotWroteValue None (element utf8_string_octet value.now) self.old self.new) }
    {
        self.element(UTF8_STRING, value.as_bytes())
    }

    /// Writes an OCTET STRING (X.690, section 8.7).
    pub fn serialize_bytes(&mut self, value: &[u8]) -> Result<usize, Asn1DerError>
        ensures { MatchResult result
            (WroteValue None (element octet_string_octet value.now) self.old self.new)
            (NotWroteValue None (element octet_string_octet value.now) self.old self.new) }
    {
        self.element(OCTET_STRING, value)
    }

    /// Writes NULL (X.690, section 8.8).
    pub fn serialize_unit(&mut self) -> Result<usize, Asn1DerError>
        ensures { MatchResult result
            (WroteValue None (element null_octet []) self.old self.new)
            (NotWroteValue None (element null_octet []) self.old self.new) }
    {
        self.element(NULL, &[])
    }

    /// Writes NULL (X.690, section 8.8), for a struct of no fields.
    pub fn serialize_unit_struct(&mut self) -> Result<usize, Asn1DerError>
        ensures { MatchResult result
            (WroteValue None (element null_octet []) self.old self.new)
            (NotWroteValue None (element null_octet []) self.old self.new) }
    {
        self.serialize_unit()
    }

    /// Writes nothing.
    pub fn serialize_none(&mut self) -> Result<usize, Asn1DerError>
        ensures { MatchResult result
            (WroteValue None [] self.old self.new)
            (NotWroteValue None [] self.old self.new) }
    {
        self.octets(&[])
    }

    /// Writes the value as it stands.
    pub fn serialize_some<T: Serialize>(&mut self, value: &T) -> Result<usize, Asn1DerError>
        ensures { MatchResult result
            (WroteValue (refusal_of T.refusal value.now) (der (T.tree value.now)) self.old self.new)
            (NotWroteValue (refusal_of T.refusal value.now) (der (T.tree value.now)) self.old self.new) }
    {
        value.serialize(self)
    }

    /// Writes the value that a struct of one field holds, as it stands.
    pub fn serialize_newtype_struct<T: Serialize>(
        &mut self,
        value: &T,
    ) -> Result<usize, Asn1DerError>
        ensures { MatchResult result
            (WroteValue (refusal_of T.refusal value.now) (der (T.tree value.now)) self.old self.new)
            (NotWroteValue (refusal_of T.refusal value.now) (der (T.tree value.now)) self.old self.new) }
    {
        value.serialize(self)
    }

    /// Writes a SEQUENCE OF the values (X.690, section 8.10).
    pub fn serialize_seq<T: Serialize>(&mut self, values: &[T]) -> Result<usize, Asn1DerError>
        ensures { let bytes = element sequence_octet (ders (trees_of T.tree values.now)) in MatchResult result
            (WroteValue (refusal_of_list T.refusal values.now) bytes self.old self.new)
            (NotWroteValue (refusal_of_list T.refusal values.now) bytes self.old self.new) }
    {
        self.list(SEQUENCE, &values)
    }

    /// Writes a SEQUENCE of the parts of a tuple (X.690, section 8.9).
    pub fn serialize_tuple<F: WriteFields>(&mut self, fields: &F) -> Result<usize, Asn1DerError>
        ensures { MatchResult result
            (WroteValue (F.refusal fields.now) (element sequence_octet (ders (F.trees fields.now))) self.old self.new)
            (NotWroteValue (F.refusal fields.now) (element sequence_octet (ders (F.trees fields.now))) self.old self.new) }
    {
        self.list(SEQUENCE, fields)
    }

    /// Writes a SEQUENCE of the parts of a struct without names of fields (X.690, section 8.9).
    pub fn serialize_tuple_struct<F: WriteFields>(
        &mut self,
        fields: &F,
    ) -> Result<usize, Asn1DerError>
        ensures { MatchResult result
            (WroteValue (F.refusal fields.now) (element sequence_octet (ders (F.trees fields.now))) self.old self.new)
            (NotWroteValue (F.refusal fields.now) (element sequence_octet (ders (F.trees fields.now))) self.old self.new) }
    {
        self.list(SEQUENCE, fields)
    }

    /// Writes a SEQUENCE of the fields of a struct (X.690, section 8.9).
    pub fn serialize_struct<F: WriteFields>(&mut self, fields: &F) -> Result<usize, Asn1DerError>
        ensures { MatchResult result
            (WroteValue (F.refusal fields.now) (element sequence_octet (ders (F.trees fields.now))) self.old self.new)
            (NotWroteValue (F.refusal fields.now) (element sequence_octet (ders (F.trees fields.now))) self.old self.new) }
    {
        self.list(SEQUENCE, fields)
    }
}

/// The types that have no DER here: each call answers `UnsupportedType` and writes nothing.
impl<W: Sink> Serializer<W> {
    /// Refuses an `i8`: no signed integer is written.
    pub fn serialize_i8(&mut self, _value: i8) -> Result<usize, Asn1DerError>
        ensures { MatchResult result (λ _. ⊥) (NotWroteValue (Some Unsupported.WholeType) [] self.old self.new) }
    {
        self.refuse(Unsupported::WholeType)
    }

    /// Refuses an `i16`: no signed integer is written.
    pub fn serialize_i16(&mut self, _value: i16) -> Result<usize, Asn1DerError>
        ensures { MatchResult result (λ _. ⊥) (NotWroteValue (Some Unsupported.WholeType) [] self.old self.new) }
    {
        self.refuse(Unsupported::WholeType)
    }

    /// Refuses an `i32`: no signed integer is written.
    pub fn serialize_i32(&mut self, _value: i32) -> Result<usize, Asn1DerError>
        ensures { MatchResult result (λ _. ⊥) (NotWroteValue (Some Unsupported.WholeType) [] self.old self.new) }
    {
        self.refuse(Unsupported::WholeType)
    }

    /// Refuses an `i64`: no signed integer is written.
    pub fn serialize_i64(&mut self, _value: i64) -> Result<usize, Asn1DerError>
        ensures { MatchResult result (λ _. ⊥) (NotWroteValue (Some Unsupported.WholeType) [] self.old self.new) }
    {
        self.refuse(Unsupported::WholeType)
    }

    /// Refuses an `i128`: no signed integer is written.
    pub fn serialize_i128(&mut self, _value: i128) -> Result<usize, Asn1DerError>
        ensures { MatchResult result (λ _. ⊥) (NotWroteValue (Some Unsupported.WholeType) [] self.old self.new) }
    {
        self.refuse(Unsupported::WholeType)
    }

    /// Refuses a map.
    pub fn serialize_map(&mut self) -> Result<usize, Asn1DerError>
        ensures { MatchResult result (λ _. ⊥) (NotWroteValue (Some Unsupported.WholeType) [] self.old self.new) }
    {
        self.refuse(Unsupported::WholeType)
    }

    /// Refuses a variant of no fields: a choice writes its alternative.
    pub fn serialize_unit_variant(&mut self) -> Result<usize, Asn1DerError>
        ensures { MatchResult result (λ _. ⊥) (NotWroteValue (Some Unsupported.WholeType) [] self.old self.new) }
    {
        self.refuse(Unsupported::WholeType)
    }

    /// Refuses a variant of one value: a choice writes its alternative.
    pub fn serialize_newtype_variant(&mut self) -> Result<usize, Asn1DerError>
        ensures { MatchResult result (λ _. ⊥) (NotWroteValue (Some Unsupported.WholeType) [] self.old self.new) }
    {
        self.refuse(Unsupported::WholeType)
    }

    /// Refuses a variant of a tuple: a choice writes its alternative.
    pub fn serialize_tuple_variant(&mut self) -> Result<usize, Asn1DerError>
        ensures { MatchResult result (λ _. ⊥) (NotWroteValue (Some Unsupported.WholeType) [] self.old self.new) }
    {
        self.refuse(Unsupported::WholeType)
    }

    /// Refuses a variant of named fields: a choice writes its alternative.
    pub fn serialize_struct_variant(&mut self) -> Result<usize, Asn1DerError>
        ensures { MatchResult result (λ _. ⊥) (NotWroteValue (Some Unsupported.WholeType) [] self.old self.new) }
    {
        self.refuse(Unsupported::WholeType)
    }
}
