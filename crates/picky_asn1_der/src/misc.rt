//! Lengths, single octets and the contents of primitive types, for code that reads and writes them by itself.

mod boolean;
mod length;
mod null;
mod peekable_reader;
mod peeked_content;
mod read_ext;
mod uint;
mod unsigned_integer;
mod utf8_string;
mod write_ext;

pub use asn1_codec::{Sequence, SequenceWriter};
pub use boolean::Boolean;
pub use length::Length;
pub use null::Null;
pub use peekable_reader::PeekableReader;
pub use peeked_content::{PEEKED_BUFFER_SIZE, PeekedContent};
pub use read_ext::ReadExt;
pub use uint::UInt;
pub use unsigned_integer::UnsignedInteger;
pub use utf8_string::Utf8String;
pub use write_ext::WriteExt;
