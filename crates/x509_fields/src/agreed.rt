//! SEQUENCEs of which the fields have to agree.
ghost use Rattle.std.specs.Prelude.{◌≡◌, true, IsTrue, IfOk, MatchOption, MatchResult};
ghost use Rattle.asn1_der.specs.Tagged.{sequence};
ghost use Rattle.asn1_codec.specs.Reading.{TookValue, IsSpelling, Refused};
ghost use Rattle.x509_spelling.specs.PlainLaws.{IsPlain};

use byte_streams::Source;
use picky_asn1_der::{Asn1DerError, Deserializer, Fields, read_sequence};
use std::alloc::{AllocError, Global};

/// A type whose values are some of the rows of fields, those of which the fields agree.
///
/// The row is a parameter: as an associated type with a bound it would be spelled out at each impl.
pub trait Agreed<Row>: Sized {
    ghost row_of: { Self → Row };

    /// The value with these fields, or none.
    fn of_fields(alloc: Global, fields: Row) -> Result<Option<Self>, AllocError>
        ensures { IfOk result (λ read. MatchOption read
            ((value : Self) → row_of value ≡ fields → ⊥)
            (λ value. row_of value ≡ fields)) };
}

/// Takes a constructed element of fields that agree, under the identifier octet `tag`.
pub fn read_agreed<T: Agreed<F> + Drop, F: Fields, R: Source>(
    tag: u8,
    from: &mut Deserializer<R>,
) -> Result<T, Asn1DerError>
    requires sound { IsTrue F.sound }
    requires plain { IsPlain F.seen }
    ensures { MatchResult result
        (λ value. TookValue (λ v. sequence F.trees tag (T.row_of v)) value from.old from.new)
        (λ fault. Refused (IsSpelling (λ v. sequence F.trees tag (T.row_of v))) from.old from.new fault) }
{
    let fields: F = read_sequence(tag, from)?;
    let read = match T::of_fields(from.allocator(), fields) {
        Ok(read) => read,
        Err(_) => return Err(from.refuse(Asn1DerError::Memory)),
    };
    let Some(value) = read else {
        return Err(from.refuse(Asn1DerError::InvalidData));
    };
    Ok(value)
}
