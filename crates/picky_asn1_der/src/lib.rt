//! Canonical DER of typed values (X.690), and elements taken apart by hand.
//!
//! [`from_bytes`] reads a value from its one spelling, and [`to_vec`] writes it. A struct names its fields once, as a
//! row of pairs, and is read and written through it ([`Tagged`]); docs/DER.md says how a type is written.
//!
//! [`split_element`] returns the element that begins an input, in place, and [`Tag`] reads an identifier octet. The
//! module `misc` is for code that reads and writes octets by itself. [`part_at`] returns a part of an element by its path.
//!
//! Tags, choices, defaults, lists, containers and raw elements have one encoding for each value, which [`Serialize`] writes and
//! [`Deserialize`] reads. `Asn1RawDer::new` makes a raw element of bytes if and only if they are one element. [`encoding_of`] and
//! [`tagged_encoding`] answer the encoding of a value, and [`Lent`] is written as the value that it borrows. What [`read_whole`] finds is
//! the value that the bytes are the encoding of. `LentFields::copied` copies each field by its own `clone`. [`split_element`] answers the
//! first element of an input and the rest. Else it says `TruncatedData` if more bytes could complete an element, and `InvalidData` if none
//! could. [`part_at`] answers the part at a path exactly where there is one. The types of `misc` read and write lengths, and the contents
//! of BOOLEAN, INTEGER, NULL and UTF8String. Neither `split_element` nor `part_at` can run out of memory.
#![tactic(auto)]

ghost use Rattle.std.specs.Prelude.{◌≡◌};

pub mod application_tag;
mod bit_container;
mod byte_buf;
mod choice;
mod container;
mod copies;
mod default;
mod element;
mod encoding;
mod implicit_tag;
mod lent;
pub mod misc;
mod part;
mod raw;
mod raw_der;
mod retagged;
mod rows;
mod tag;
mod tag_peeker;
mod whole;
mod wrapper;

pub use application_tag::ApplicationTag;
pub use asn1_codec::Deserialize;
pub use asn1_codec::Deserializer;
pub use asn1_codec::Elements;
pub use asn1_codec::Fields;
pub use asn1_codec::FromDer;
pub use asn1_codec::IsTagNumber;
pub use asn1_codec::Item;
pub use asn1_codec::Leaf;
pub use asn1_codec::OctetPair;
pub use asn1_codec::Optional;
pub use asn1_codec::ReadImplicit;
pub use asn1_codec::Row1;
pub use asn1_codec::Row2;
pub use asn1_codec::Row3;
pub use asn1_codec::Row4;
pub use asn1_codec::Row5;
pub use asn1_codec::Row6;
pub use asn1_codec::Row7;
pub use asn1_codec::Row8;
pub use asn1_codec::Row9;
pub use asn1_codec::Row10;
pub use asn1_codec::Row11;
pub use asn1_codec::Row12;
pub use asn1_codec::Row13;
pub use asn1_codec::Serialize;
pub use asn1_codec::Serializer;
pub use asn1_codec::TagNumber;
pub use asn1_codec::Tagged;
pub use asn1_codec::WriteFields;
pub use asn1_codec::WriteImplicit;
pub use asn1_codec::WriteItem;
pub use asn1_codec::from_bytes;
pub use asn1_codec::from_exact_bytes;
pub use asn1_codec::from_reader;
pub use asn1_codec::from_reader_with_max_len;
pub use asn1_codec::one_reading;
pub use asn1_codec::read_sequence;
pub use asn1_codec::to_byte_buf;
pub use asn1_codec::to_bytes;
pub use asn1_codec::to_vec;
pub use asn1_codec::to_writer;
pub use asn1_der::Asn1DerError;
pub use asn1_der::Content;
pub use asn1_der::Rule;
pub use asn1_der::Unsupported;
pub use bit_container::BitStringContainer;
pub use byte_buf::ByteBuf;
pub use byte_streams::Sink;
pub use byte_streams::Source;
pub use byte_streams::Space;
pub use byte_streams::Watched;
pub use choice::Alternatives;
pub use choice::Choice;
pub use choice::Last;
pub use container::OctetStringContainer;
pub use copies::LentFields;
pub use copies::RecordFields;
pub use copies::both;
pub use default::DefaultField;
pub use default::HasDefault;
pub use element::Element;
pub use element::split_element;
pub use encoding::encoding_of;
pub use encoding::tagged_encoding;
pub use implicit_tag::ImplicitContextTag;
pub use implicit_tag::ImplicitContextTag0;
pub use implicit_tag::ImplicitContextTag1;
pub use implicit_tag::ImplicitContextTag2;
pub use implicit_tag::ImplicitContextTag3;
pub use implicit_tag::ImplicitContextTag4;
pub use implicit_tag::ImplicitContextTag5;
pub use implicit_tag::ImplicitContextTag6;
pub use implicit_tag::ImplicitContextTag7;
pub use implicit_tag::ImplicitContextTag8;
pub use implicit_tag::ImplicitContextTag9;
pub use implicit_tag::ImplicitContextTag10;
pub use implicit_tag::ImplicitContextTag11;
pub use implicit_tag::ImplicitContextTag12;
pub use implicit_tag::ImplicitContextTag13;
pub use implicit_tag::ImplicitContextTag14;
pub use implicit_tag::ImplicitContextTag15;
pub use lent::Lent;
pub use misc::Length;
pub use part::part_at;
pub use raw::RawElement;
pub use raw_der::Asn1RawDer;
pub use retagged::Retagged;
pub use tag::Tag;
pub use tag::TagClass;
pub use tag_peeker::TagPeeker;
pub use whole::read_whole;
pub use wrapper::ExplicitContextTag;
pub use wrapper::ExplicitContextTag0;
pub use wrapper::ExplicitContextTag1;
pub use wrapper::ExplicitContextTag2;
pub use wrapper::ExplicitContextTag3;
pub use wrapper::ExplicitContextTag4;
pub use wrapper::ExplicitContextTag5;
pub use wrapper::ExplicitContextTag6;
pub use wrapper::ExplicitContextTag7;
pub use wrapper::ExplicitContextTag8;
pub use wrapper::ExplicitContextTag9;
pub use wrapper::ExplicitContextTag10;
pub use wrapper::ExplicitContextTag11;
pub use wrapper::ExplicitContextTag12;
pub use wrapper::ExplicitContextTag13;
pub use wrapper::ExplicitContextTag14;
pub use wrapper::ExplicitContextTag15;
