//! The PAC, by which a Windows realm describes a client to a service (MS-PAC, sections 2.3 and 2.4). It is a table of
//! buffers, and each buffer's content where the table puts it. Contents are returned as bytes.
//!
//! `Pac::deserialize` reads a PAC that is laid out in the source (`IsPac`), and the first wrong thing in the bytes decides the refusal. Of
//! any device an I/O error is the end of the bytes or the device's own counted fault. A buffer is kept only once its row is read: at most
//! one for 16 bytes that came. What is written is read again if the buffers lie behind the table and apart (law `written_is_read`).

mod buffer;
mod error;
mod info;
mod kind;
mod pac;

pub use buffer::PacBuffer;
pub use error::PacError;
pub use info::PacInfoBuffer;
pub use kind::PacBufferType;
pub use pac::{Pac, written_is_read};
