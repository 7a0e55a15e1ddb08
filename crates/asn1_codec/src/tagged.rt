//! Types whose values have one identifier octet, which an implicit tag may change.
ghost use Rattle.std.specs.Prelude.{◌≡◌, ℕ, Option, None, MatchResult, IsTrue};
ghost use Rattle.asn1_der.specs.Tree.{Tree, Trees, der, ders};
ghost use Rattle.asn1_der.specs.Firsts.{only};
ghost use Rattle.asn1_der.specs.Tagged.{sequence, tagged_tree};
ghost use Rattle.asn1_der.proofs.Tagged.{TagLawsAs};
ghost use Rattle.asn1_codec.specs.Reading.{TookValue, IsSpelling, Refused};

use crate::de::{Deserialize, Deserializer};
use crate::fields::Fields;
use crate::ser::{Serialize, Serializer};
use asn1_der::Asn1DerError;
use byte_streams::{Sink, Source};

/// A type whose values have the identifier octet `FIRST`, and are read and written under any other too.
///
/// A row describes a value: the fields of a SEQUENCE, or what the content of another type says. A type needs
/// nothing else to be read and written. A type that refuses to write some values says by `refuses` which and how;
/// most refuse none.
pub trait Tagged: Sized {
    ghost use Rattle.asn1_der.specs.Seen.{Seen, as_is, Alike};
    ghost use Rattle.asn1_codec.specs.Reading.{Reading, TookValue, IsSpelling, Refused};
    ghost use Rattle.asn1_der.specs.declared.error.Unsupported.{Unsupported};
    ghost use Rattle.asn1_der.specs.Refusals.{refusal_of};
    ghost use Rattle.asn1_codec.specs.Writing.{Writing, WroteValue, NotWroteValue};

    /// What a value holds.
    type Row;

    /// The identifier octet (X.690, section 8.1.2).
    const FIRST: u8;

    ghost FIRST: { ℕ };

    ghost row_tree: { ℕ → Self.Row → Tree };

    // What two rows, and two values, of one spelling have in common: all, where nothing else is said.
    ghost row_seen: { Seen Self.Row } = { as_is };

    ghost seen: { Seen Self } = { as_is };

    ghost row_laws: { TagLawsAs (Alike row_seen) row_tree };

    ghost row_of: { Self → Self.Row };

    ghost one_row: { (v w : Self) → Alike row_seen (row_of v) (row_of w) → Alike seen v w };

    ghost refuses: { Option (Self → Option Unsupported) } = { None };

    /// Takes what a value holds, under the identifier octet `tag`.
    fn read_row<R: Source>(tag: u8, from: &mut Deserializer<R>) -> Result<Self::Row, Asn1DerError>
        ensures { MatchResult result
            (λ row. TookValue (row_tree tag) row from.old from.new)
            (λ fault. Refused (IsSpelling (row_tree tag)) from.old from.new fault) };

    /// The value that holds this.
    fn of_row(row: Self::Row) -> Self
        ensures { row_of result ≡ row };

    /// Writes the value under the identifier octet `tag`, and gives how many bytes that took.
    fn write_row<W: Sink>(&self, tag: u8, to: &mut Serializer<W>) -> Result<usize, Asn1DerError>
        ensures { MatchResult result
            (WroteValue (refusal_of refuses self.now) (der (row_tree tag (row_of self.now))) to.old to.new)
            (NotWroteValue (refusal_of refuses self.now) (der (row_tree tag (row_of self.now))) to.old to.new) };
}

impl<T: Tagged> Serialize for T {
    ghost use Rattle.asn1_der.specs.Seen.{Alike};
    ghost use Rattle.asn1_der.proofs.Tagged.{tagged-injective_as};

    ghost tree = { tagged_tree T.FIRST T.row_tree T.row_of };

    ghost seen = { T.seen };

    ghost firsts = { only T.FIRST };

    ghost begins = { λ value. T.row_laws.begins T.FIRST (T.row_of value) };

    ghost refusal = { T.refuses };

    ghost injective = { tagged-injective_as (Alike T.row_seen) (Alike T.seen) T.FIRST T.row_tree T.row_laws T.row_of T.one_row };

    fn serialize<W: Sink>(&self, to: &mut Serializer<W>) -> Result<usize, Asn1DerError> {
        self.write_row(T::FIRST, to)
    }
}

impl<T: Tagged> Deserialize for T {
    fn may_start(first: u8) -> bool {
        first == T::FIRST
    }

    fn deserialize<R: Source>(from: &mut Deserializer<R>) -> Result<Self, Asn1DerError> {
        read_as(T::FIRST, from)
    }
}

/// A type whose values are written under an implicit tag: another identifier octet in place of their own (X.690, section 8.14.3).
///
/// Each [`Tagged`] type is one, and so is a vector.
pub trait WriteImplicit {
    ghost use Rattle.asn1_der.specs.Seen.{Seen, Alike};
    ghost use Rattle.asn1_der.specs.declared.error.Unsupported.{Unsupported};
    ghost use Rattle.asn1_der.specs.Refusals.{refusal_of};
    ghost use Rattle.asn1_codec.specs.Writing.{Writing, WroteValue, NotWroteValue};

    /// The identifier octet of the type's own (X.690, section 8.1.2).
    const OWN: u8;

    ghost OWN: { ℕ };

    // The value as a tree under each identifier octet.
    ghost tree_under: { ℕ → Self → Tree };

    // What two values of one spelling have in common.
    ghost seen_under: { Seen Self };

    ghost refusal_under: { Option (Self → Option Unsupported) };

    ghost laws_under: { TagLawsAs (Alike seen_under) tree_under };

    /// Writes the value under the identifier octet `tag`, and gives how many bytes that took.
    fn write_under<W: Sink>(&self, tag: u8, to: &mut Serializer<W>) -> Result<usize, Asn1DerError>
        ensures { MatchResult result
            (WroteValue (refusal_of refusal_under self.now) (der (tree_under tag self.now)) to.old to.new)
            (NotWroteValue (refusal_of refusal_under self.now) (der (tree_under tag self.now)) to.old to.new) };
}

/// A type whose values are read under an implicit tag, too.
pub trait ReadImplicit: WriteImplicit + Sized {
    ghost use Rattle.asn1_codec.specs.Reading.{Reading, TookValue, IsSpelling, Refused};

    /// Takes a value under the identifier octet `tag`.
    fn read_under<R: Source>(tag: u8, from: &mut Deserializer<R>) -> Result<Self, Asn1DerError>
        ensures { MatchResult result
            (λ value. TookValue (Self.tree_under tag) value from.old from.new)
            (λ fault. Refused (IsSpelling (Self.tree_under tag)) from.old from.new fault) };
}

impl<T: Tagged> WriteImplicit for T {
    ghost use Rattle.asn1_der.specs.Seen.{Alike};
    ghost use Rattle.asn1_der.proofs.Tagged.{tagged-injective_as};

    const OWN: u8 = T::FIRST;

    ghost OWN = { T.FIRST };

    ghost tree_under = { λ tag value. tagged_tree tag T.row_tree T.row_of value };

    ghost seen_under = { T.seen };

    ghost refusal_under = { T.refuses };

    ghost laws_under = { record {
      begins = λ octet value. T.row_laws.begins octet (T.row_of value);
      injective = λ octet. tagged-injective_as (Alike T.row_seen) (Alike T.seen) octet T.row_tree T.row_laws T.row_of T.one_row;
    } };

    fn write_under<W: Sink>(&self, tag: u8, to: &mut Serializer<W>) -> Result<usize, Asn1DerError> {
        self.write_row(tag, to)
    }
}

impl<T: Tagged> ReadImplicit for T {
    fn read_under<R: Source>(tag: u8, from: &mut Deserializer<R>) -> Result<Self, Asn1DerError> {
        read_as(tag, from)
    }
}

/// Takes a value under the identifier octet `tag`.
///
/// A type that puts a tag in place of another type's own calls it.
pub fn read_as<T: Tagged, R: Source>(tag: u8, from: &mut Deserializer<R>) -> Result<T, Asn1DerError>
    ensures { MatchResult result
        (λ value. TookValue (tagged_tree tag T.row_tree T.row_of) value from.old from.new)
        (λ fault. Refused (IsSpelling (tagged_tree tag T.row_tree T.row_of)) from.old from.new fault) }
{
    let row = T::read_row(tag, from)?;
    Ok(T::of_row(row))
}

/// Takes a constructed element of these fields under the identifier octet `tag`.
pub fn read_sequence<F: Fields, R: Source>(
    tag: u8,
    from: &mut Deserializer<R>,
) -> Result<F, Asn1DerError>
    requires { IsTrue F.sound }
    ensures { MatchResult result
        (λ fields. TookValue (sequence F.trees tag) fields from.old from.new)
        (λ fault. Refused (IsSpelling (sequence F.trees tag)) from.old from.new fault) }
{
    from.list(tag)
}
