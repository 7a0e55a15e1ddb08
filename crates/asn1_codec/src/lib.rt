//! What a reader and a writer of DER are, and what a type says to be read and written (X.690).
//!
//! A [`Deserializer`] takes elements from a source, a [`Serializer`] writes them into a sink. A type is [`Serialize`] and
//! [`Deserialize`], most by their row of fields ([`Tagged`]) or by their content ([`Leaf`]). The forms that types are
//! made of (tags, choices, defaults) are in `picky_asn1_der`, which hands on all names of this crate.
//!
//! [`from_bytes`] answers a value if and only if the input begins with bytes that the type reads as it, and [`from_exact_bytes`] if and
//! only if the input is such bytes. Of a [`Deserialize`] type these are the value's one encoding. Their fault is `TruncatedData` exactly where
//! the input ends inside an element. After another fault of DER no continuation is read. [`from_reader`] takes just the bytes of
//! the value, within its limit, and its fault says the same of what the reader has left up to the limit. By the law [`one_reading`] its
//! answer is independent of the reader's cuts, device faults aside. [`to_vec`], [`to_bytes`], [`to_byte_buf`] and [`to_writer`] write the
//! encoding, and refuse what the type refuses.
#![tactic(auto)]

ghost use Rattle.std.specs.Prelude.{◌≡◌};

mod array;
mod boolean;
mod character;
mod de;
mod elements;
mod fields;
mod input_end;
mod integer;
mod laws;
mod leaf;
mod measure;
mod null;
mod octet_pair;
mod one_element;
mod option;
mod optional;
mod reading_calls;
mod row;
mod sequence;
mod sequence_writing;
mod ser;
mod slices;
mod tag_number;
mod tagged;
mod text;
mod tuple;
mod unsigned;
mod vector;
mod writing_calls;

pub use de::{
    Deserialize, Deserializer, FromDer, from_bytes, from_exact_bytes, from_reader,
    from_reader_with_max_len,
};
pub use elements::Elements;
pub use fields::{Fields, WriteFields, write_field};
pub use input_end::split_length;
pub use integer::{unsigned_of, write_unsigned};
pub use laws::one_reading;
pub use leaf::Leaf;
pub use octet_pair::OctetPair;
pub use optional::Optional;
pub use row::{
    Item, Row1, Row2, Row3, Row4, Row5, Row6, Row7, Row8, Row9, Row10, Row11, Row12, Row13,
    WriteItem,
};
pub use sequence::Sequence;
pub use sequence_writing::SequenceWriter;
pub use ser::{Serialize, Serializer, to_byte_buf, to_bytes, to_vec, to_writer, write_octets};
pub use tag_number::{IsTagNumber, TagNumber};
pub use tagged::{ReadImplicit, Tagged, WriteImplicit, read_as, read_sequence};
