//! The unsigned integers of Rust, each an INTEGER (X.690, section 8.3) that isn't negative.
//!
//! What is no INTEGER in its fewest octets is refused as `InvalidData` or `TruncatedData`, and a number that is negative
//! or beyond the type as `UnsupportedValue`.
ghost use Rattle.std.specs.Prelude.{◌≡◌, ◌^◌};
ghost use Rattle.asn1_der.specs.Octets.{integer_octet};

use crate::de::Deserializer;
use crate::integer::{read_unsigned, write_unsigned};
use crate::ser::Serializer;
use crate::tagged::Tagged;
use asn1_der::Asn1DerError;
use asn1_der::octets::INTEGER;
use byte_streams::{Sink, Source};

impl Tagged for u8 {
    ghost use Rattle.std.specs.Prelude.{◌^◌};
    ghost use Rattle.asn1_codec.specs.Unsigned.{unsigned_tree};
    ghost use Rattle.asn1_codec.specs.UnsignedLaws.{unsigned_laws};

    type Row = u8;

    const FIRST: u8 = INTEGER;

    ghost FIRST = { integer_octet };

    ghost row_tree = { unsigned_tree (2 ^ 8) };

    ghost row_laws = { unsigned_laws (2 ^ 8) };

    ghost row_of = { λ number. number };

    ghost one_row = { λ v w e. e };

    fn read_row<R: Source>(tag: u8, from: &mut Deserializer<R>) -> Result<u8, Asn1DerError> {
        let number = read_unsigned(tag, from, u8::MAX as u128)?;
        Ok(number as u8)
    }

    fn of_row(number: u8) -> u8 {
        number
    }

    fn write_row<W: Sink>(&self, tag: u8, to: &mut Serializer<W>) -> Result<usize, Asn1DerError> {
        write_unsigned(tag, to, u128::from(*self))
    }
}

impl Tagged for u16 {
    ghost use Rattle.std.specs.Prelude.{◌^◌};
    ghost use Rattle.asn1_codec.specs.Unsigned.{unsigned_tree};
    ghost use Rattle.asn1_codec.specs.UnsignedLaws.{unsigned_laws};

    type Row = u16;

    const FIRST: u8 = INTEGER;

    ghost FIRST = { integer_octet };

    ghost row_tree = { unsigned_tree (2 ^ 16) };

    ghost row_laws = { unsigned_laws (2 ^ 16) };

    ghost row_of = { λ number. number };

    ghost one_row = { λ v w e. e };

    fn read_row<R: Source>(tag: u8, from: &mut Deserializer<R>) -> Result<u16, Asn1DerError> {
        let number = read_unsigned(tag, from, u16::MAX as u128)?;
        Ok(number as u16)
    }

    fn of_row(number: u16) -> u16 {
        number
    }

    fn write_row<W: Sink>(&self, tag: u8, to: &mut Serializer<W>) -> Result<usize, Asn1DerError> {
        write_unsigned(tag, to, u128::from(*self))
    }
}

impl Tagged for u32 {
    ghost use Rattle.std.specs.Prelude.{◌^◌};
    ghost use Rattle.asn1_codec.specs.Unsigned.{unsigned_tree};
    ghost use Rattle.asn1_codec.specs.UnsignedLaws.{unsigned_laws};

    type Row = u32;

    const FIRST: u8 = INTEGER;

    ghost FIRST = { integer_octet };

    ghost row_tree = { unsigned_tree (2 ^ 32) };

    ghost row_laws = { unsigned_laws (2 ^ 32) };

    ghost row_of = { λ number. number };

    ghost one_row = { λ v w e. e };

    fn read_row<R: Source>(tag: u8, from: &mut Deserializer<R>) -> Result<u32, Asn1DerError> {
        let number = read_unsigned(tag, from, u32::MAX as u128)?;
        Ok(number as u32)
    }

    fn of_row(number: u32) -> u32 {
        number
    }

    fn write_row<W: Sink>(&self, tag: u8, to: &mut Serializer<W>) -> Result<usize, Asn1DerError> {
        write_unsigned(tag, to, u128::from(*self))
    }
}

impl Tagged for u64 {
    ghost use Rattle.std.specs.Prelude.{◌^◌};
    ghost use Rattle.asn1_codec.specs.Unsigned.{unsigned_tree};
    ghost use Rattle.asn1_codec.specs.UnsignedLaws.{unsigned_laws};

    type Row = u64;

    const FIRST: u8 = INTEGER;

    ghost FIRST = { integer_octet };

    ghost row_tree = { unsigned_tree (2 ^ 64) };

    ghost row_laws = { unsigned_laws (2 ^ 64) };

    ghost row_of = { λ number. number };

    ghost one_row = { λ v w e. e };

    fn read_row<R: Source>(tag: u8, from: &mut Deserializer<R>) -> Result<u64, Asn1DerError> {
        let number = read_unsigned(tag, from, u64::MAX as u128)?;
        Ok(number as u64)
    }

    fn of_row(number: u64) -> u64 {
        number
    }

    fn write_row<W: Sink>(&self, tag: u8, to: &mut Serializer<W>) -> Result<usize, Asn1DerError> {
        write_unsigned(tag, to, u128::from(*self))
    }
}

impl Tagged for u128 {
    ghost use Rattle.std.specs.Prelude.{◌^◌};
    ghost use Rattle.asn1_codec.specs.Unsigned.{unsigned_tree};
    ghost use Rattle.asn1_codec.specs.UnsignedLaws.{unsigned_laws};

    type Row = u128;

    const FIRST: u8 = INTEGER;

    ghost FIRST = { integer_octet };

    ghost row_tree = { unsigned_tree (2 ^ 128) };

    ghost row_laws = { unsigned_laws (2 ^ 128) };

    ghost row_of = { λ number. number };

    ghost one_row = { λ v w e. e };

    fn read_row<R: Source>(tag: u8, from: &mut Deserializer<R>) -> Result<u128, Asn1DerError> {
        let number = read_unsigned(tag, from, u128::MAX)?;
        Ok(number)
    }

    fn of_row(number: u128) -> u128 {
        number
    }

    fn write_row<W: Sink>(&self, tag: u8, to: &mut Serializer<W>) -> Result<usize, Asn1DerError> {
        write_unsigned(tag, to, *self)
    }
}
