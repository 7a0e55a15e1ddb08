//! A SEQUENCE with a text and lists, and its bytes, as `openssl asn1parse -genconf` writes them.
ghost use Rattle.asn1_der.specs.Octets.{sequence_octet};

use asn1_der::octets::SEQUENCE;
use byte_streams::{Sink, Source};
use picky_asn1_der::{
    Asn1DerError, Deserializer, ExplicitContextTag1, Fields, Optional, Row4, Serializer, Tagged,
    fields_of, from_fields, read_sequence,
};
use std::alloc::{AllocError, Global};

#[derive(Debug, Drop, PartialEq, Eq)]
pub struct Person {
    pub name: String,
    pub age: u8,
    pub numbers: ExplicitContextTag1<Vec<u16>>,
    pub others: Optional<Option<Vec<String>>>,
}

type PersonRow = Row4<String, u8, ExplicitContextTag1<Vec<u16>>, Optional<Option<Vec<String>>>>;

impl Tagged for Person {
    ghost use Rattle.std.proofs.Common.{refl, true};
    ghost use Rattle.asn1_der.specs.Seen.{Alike, seen_part};
    ghost use Rattle.asn1_der.specs.Tagged.{sequence};
    ghost use Rattle.asn1_der.proofs.Tagged.{sequence_laws_as};

    type Row = PersonRow;

    const FIRST: u8 = SEQUENCE;

    ghost FIRST = { sequence_octet };

    ghost row_tree = { sequence ⟦<PersonRow as Fields>⟧.trees };

    ghost row_seen = { ⟦<PersonRow as Fields>⟧.seen };

    ghost seen = { seen_part (λ v. (v.name, (v.age, (v.numbers, (v.others, tt))))) ⟦<PersonRow as Fields>⟧.seen };

    ghost row_laws = { sequence_laws_as (Alike ⟦<PersonRow as Fields>⟧.seen) ⟦<PersonRow as Fields>⟧.trees (⟦<PersonRow as Fields>⟧.injective (refl {a = true})) };

    ghost row_of = { λ v. (v.name, (v.age, (v.numbers, (v.others, tt)))) };

    ghost one_row = { λ v w e. e };

    fn read_row<R: Source>(tag: u8, from: &mut Deserializer<R>) -> Result<Self::Row, Asn1DerError> {
        read_sequence(tag, from)
    }

    fn of_row(row: Self::Row) -> Self {
        from_fields![row; name, age, numbers, others]
    }

    fn write_row<W: Sink>(&self, tag: u8, to: &mut Serializer<W>) -> Result<usize, Asn1DerError> {
        to.list(tag, &fields_of![self; name, age, numbers, others])
    }
}

pub fn person_of(alloc: Global, others: Option<Vec<String>>) -> Result<Person, AllocError> {
    let numbers = Vec::from_slice(alloc, &[5, 300])?;
    let name = String::from_str(alloc, "Ann")?;
    Ok(Person {
        name,
        age: 7,
        numbers: numbers.into(),
        others: others.into(),
    })
}

pub const SHORT_PERSON: [u8; 21] = [
    0x30, 0x13, 0x0C, 3, b'A', b'n', b'n', 2, 1, 7, 0xA1, 9, 0x30, 7, 2, 1, 5, 2, 2, 1, 0x2C,
];

pub const WHOLE_PERSON: [u8; 31] = [
    0x30, 0x1D, 0x0C, 3, b'A', b'n', b'n', 2, 1, 7, 0xA1, 9, 0x30, 7, 2, 1, 5, 2, 2, 1, 0x2C, 0x30,
    8, 0x0C, 2, b'B', b'o', 0x0C, 2, b'C', b'y',
];
