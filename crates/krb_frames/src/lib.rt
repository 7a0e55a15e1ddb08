//! Messages in frames: the loop that answers a stream of requests.
//!
//! A frame is a message after its length in four bytes, the highest first (RFC 4120, section 7.2.2).
//! [`serve`] reads frames to the end of a stream and writes each reply in a frame of its own. A
//! [`Responder`] replies. Each message is answered at the next moment and with the next 128
//! random bytes. By a [`Tolerant`] responder a message that is no request doesn't stop serving. [`serve_by_clock`] serves so, and takes
//! each message's moment of the clock. [`serve_at`] serves at one moment, and ends at a message that is no request. [`read_frame`] and
//! [`write_frame`] are for the other side, which asks.
//!
//! `serve` writes the frames of the replies to the messages of the stream, however the reader cuts the bytes (`IsServed`). Two runs over
//! the same moments, stream and random bytes write the same as far as both go, where each message has at most one reply
//! ([`SoleResponder`]; laws `runs_agree`, `output_is_whole`). `Read` and `Write` are returned only if a device counted a failed call. A
//! message that is no request is `NoRequest`; `Memory` can take its place only where the responder may want memory for it. The output of
//! `serve_by_clock` is that of serving the stream, each message at some moment. No clause says that the clock gave these moments. That of
//! `serve_at` is the same at its moment. No failed call of a device is passed over (`AnswersFailures`).
#![tactic(auto)]

mod clock_moments;
mod fault;
mod frame;
mod laws;
mod responder;
mod stream;
mod timed;
mod tolerant;

pub use clock_moments::ClockMoments;
pub use fault::{AnswerRefusal, ServeFault};
pub use frame::{FRAME_LIMIT, WORDS_NEEDED, read_frame, write_frame};
pub use laws::{goes_on, output_is_whole, runs_agree};
pub use responder::{Responder, SoleResponder};
pub use stream::{serve, serve_bytes};
pub use timed::{serve_at, serve_by_clock};
pub use tolerant::Tolerant;
