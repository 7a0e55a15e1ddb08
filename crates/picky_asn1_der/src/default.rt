//! Fields that are left out where they have their default value (X.690, section 11.5).
ghost use Rattle.std.specs.Prelude.{◌≡◌, Bool, IsTrue, IfOk};
ghost use Rattle.asn1_der.specs.Tree.{put};
ghost use Rattle.asn1_der.specs.Firsts.{either, apart};

use crate::wrapper::ExplicitContextTag;
use asn1_codec::{
    Deserialize, Deserializer, Fields, IsTagNumber, Item, Serialize, Serializer, TagNumber,
    WriteFields, WriteItem, write_field,
};
use asn1_der::Asn1DerError;
use byte_streams::{Sink, Source};
use std::alloc::{AllocError, Global};

/// A type that has a default value. A value under an explicit tag has its type's.
pub trait HasDefault: Serialize + Sized + Drop {
    ghost use Rattle.asn1_der.specs.Seen.{Alike};

    ghost is_default_value: { Self → Bool };

    ghost one_default: { (v w : Self) → IsTrue (is_default_value v) → IsTrue (is_default_value w) → v ≡ w };

    /// Whether this is the default value.
    fn is_default(&self) -> bool
        ensures { result ≡ is_default_value self.now };

    /// The default value.
    fn default_value(alloc: Global) -> Result<Self, AllocError>
        ensures { IfOk result (λ value. IsTrue (is_default_value value)) };

    // If the same is seen of two values, both are the default or neither is.
    ghost kept: { (v w : Self) → Alike Self.seen v w → is_default_value v ≡ is_default_value w };
}

impl<const N: u8, T: HasDefault> HasDefault for ExplicitContextTag<N, T>
where
    TagNumber<N>: IsTagNumber,
{
    ghost use Rattle.picky_asn1_der.specs.DefaultLaws.{part-alike};

    ghost is_default_value = { λ value. T.is_default_value value.0 };

    ghost one_default = { λ v w left right.
        let same = T.one_default v.0 w.0 left right
        in λ i. record { 0 = same i } };

    fn is_default(&self) -> bool {
        self.0.is_default()
    }

    fn default_value(alloc: Global) -> Result<Self, AllocError> {
        let value = T::default_value(alloc)?;
        Ok(ExplicitContextTag(value))
    }

    ghost kept = { λ v w e. T.kept v.0 w.0 (part-alike T.seen v w (λ value. value.0) e) };
}

/// A field of a SEQUENCE that has a DEFAULT: the default value is not written, and refused where it stands (X.690,
/// 11.5).
#[derive(Clone, Copy, Debug, Drop, PartialEq, Eq)]
pub struct DefaultField<T>(pub T);

impl<T> From<T> for DefaultField<T> {
    ghost from_gives = { λ value made. made.0 ≡ value };

    fn from(value: T) -> Self {
        DefaultField(value)
    }
}

impl<H: HasDefault + Deserialize> WriteItem for DefaultField<H> {
    ghost use Rattle.asn1_der.specs.Refusals.{refusal_of_option};
    ghost use Rattle.picky_asn1_der.specs.Defaults.{told_value};

    ghost put_before = { λ item trees. put H.tree (told_value H.is_default_value item.0) trees };

    ghost own_refusal = { λ item. refusal_of_option H.refusal (told_value H.is_default_value item.0) };

    fn write_before<T: WriteFields, W: Sink>(
        &self,
        others: &T,
        to: &mut Serializer<W>,
    ) -> Result<usize, Asn1DerError> {
        if self.0.is_default() {
            return others.write(to);
        }
        write_field(&self.0, others, to)
    }
}

impl<H: HasDefault + Deserialize> Item for DefaultField<H> {
    ghost use Rattle.asn1_der.proofs.Rows.{optional-starts, optional-injective_as};
    ghost use Rattle.std.specs.Prelude.{refl};
    ghost use Rattle.asn1_der.specs.Seen.{seen_part};
    ghost use Rattle.asn1_der.proofs.Alike.{alike-part};
    ghost use Rattle.picky_asn1_der.specs.Defaults.{told_value};
    ghost use Rattle.picky_asn1_der.specs.DefaultLaws.{told-alike};

    ghost seen = { seen_part (λ item. item.0) H.seen };

    ghost put = { λ item trees. put H.tree (told_value H.is_default_value item.0) trees };

    ghost firsts_before = { λ others. either H.firsts others };

    ghost is_told = { λ others. apart H.firsts others };

    ghost starts = { λ B trees others starts item b whole octet rest e.
        optional-starts H B H.tree trees H.firsts others H.begins starts (told_value H.is_default_value item.0) b whole octet rest e };

    ghost injective = { λ B trees others Same starts one told v w x y whole also e.
        let same = optional-injective_as H B H.tree trees H.firsts others H.seen Same H.injective one told H.begins starts
        (told_value H.is_default_value v.0) (told_value H.is_default_value w.0) x y whole also e in
        let values = told-alike H.seen H.is_default_value H.one_default v.0 w.0 same.0
        in (alike-part H.seen v w (λ item. item.0) (λ held. record { 0 = held }) (λ item. refl) values, same.1) };

    fn read_before<T: Fields, R: Source>(
        from: &mut Deserializer<R>,
    ) -> Result<(Self, T), Asn1DerError> {
        let begins = from.starts::<H>()?;
        if begins {
            let head = H::deserialize(from)?;
            if head.is_default() {
                return Err(from.refuse(Asn1DerError::InvalidData));
            }
            let tail = T::read(from)?;
            return Ok((DefaultField(head), tail));
        }
        let head = match H::default_value(from.allocator()) {
            Ok(head) => head,
            Err(_) => return Err(from.refuse(Asn1DerError::Memory)),
        };
        let tail = T::read(from)?;
        Ok((DefaultField(head), tail))
    }
}
