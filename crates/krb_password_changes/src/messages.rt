//! Messages of the exchange that changes a password (RFC 3244, section 2), in its version 0xFF80 and in version 1 of the protocol before it.
//!
//! A request and its reply are frames: an AP message, and a KRB-PRIV or the KRB-ERROR in its place. The KRB-PRIV of a request carries the
//! new password, and that of a reply a result code with a text. The parts of a frame are its octets as they are: `krb_messages` and
//! `microsoft_messages` have their types.
//!
//! `read_frame` gives the version and the parts of a message if and only if it is their frame (`IsFrame`), or else the code of the first
//! row of `frame_table` that refuses it. `frame_bytes` writes the frame, or refuses one of more than 65,535 octets. A frame has one version
//! and one pair of parts, and what is written is read again (laws `one_frame`, `written_is_read`). `result_bytes` and `read_result` write
//! and read what a reply carries. A `ResultCode` prints as its name.

mod frame;
mod laws;
mod result_code;
mod result_data;
mod version;

pub use frame::{Frame, FrameRefusal, frame_bytes, read_frame};
pub use laws::{one_frame, one_result, written_is_read};
pub use result_code::ResultCode;
pub use result_data::{ResultData, read_result, result_bytes};
pub use version::Version;
