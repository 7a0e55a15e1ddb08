//! NDR, the transfer syntax of values of remote procedure calls (C706, chapter 14), as type serialization of version 1 has it (MS-RPCE,
//! section 2.2.6). Octets are little endian. A value begins at a place in the octets, and each reader also returns the place behind it.

mod headers;
mod items;
mod numbers;
mod places;
mod texts;

pub(crate) use headers::{ended_at, value_place};
pub(crate) use items::{NdrItem, listed_at, read_list};
pub use numbers::numbers_are_read;
pub(crate) use numbers::{pointer_at, u16_le, u32_at};
pub(crate) use texts::text_at;
