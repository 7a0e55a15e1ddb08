//! Bytes, as they come from devices and as binary layouts place them.
//!
//! A [`Source`] gives bytes and a [`Sink`] takes them, and both count the calls that failed. A read
//! may give fewer bytes than there is room for, and a write may take fewer than it is offered:
//! [`read_full`] and [`write_whole`] go on until all is moved, however the device cuts it.
//! [`Watched`] makes one of the two of any reader or writer of std, and a [`Space`] is a slice to write into.
//! The next octet of a [`PeekableReader`] can be looked at before it is read.
//!
//! A layout is a list of parts, and a part is a place with its bytes. Bytes are laid out if they have every part at
//! its place. Numbers are two, four or eight bytes, the highest or the lowest first.
//!
//! [`read_full`] reads the next bytes of the source in their order, and fewer than there is room for only where the source ends. After
//! `Ok`, [`write_whole`] has written all bytes, and after a fault the first of them. A fault is answered only where the device's count of
//! failures rose or was at its maximum, and with the device's own kind if it named one. No fault is `Interrupted`: such a call is tried
//! again. A refused growth is no failure of the device, and writes nothing. A [`PeekableReader`] gives the octet that was peeked at, and
//! then the rest in order. [`put_at`] writes a part to its place, and changes no other byte. By the lemmas `put_all-laid` and
//! `stands-put_apart` parts that lie apart all stand once each is put. `u16_be`, `u64_be`, `u32_le` and `u64_le` read the number at a
//! place, and `.._bytes` are its bytes. [`read_front`] and [`read_to_stop`] take the next bytes of a source, and stop short only at its end
//! or at a fault that it counted. [`write_bytes`] writes all bytes, or the first of them and says why it stopped.
#![tactic(auto)]

mod exact;
mod numbers;
mod peek;
mod reading;
mod sink;
mod source;
mod space;
mod watched;
mod writing;

pub use exact::{WholeFault, read_full, write_whole};
pub use numbers::{
    array_at, u16_be, u16_be_bytes, u32_le, u32_le_bytes, u64_be, u64_be_bytes, u64_le,
    u64_le_bytes,
};
pub use peek::PeekableReader;
pub use reading::{Came, Front, read_front, read_to_stop};
pub use sink::{Sink, SinkFault};
pub use source::Source;
pub use space::Space;
pub use watched::Watched;
pub use writing::{put_at, write_bytes};
