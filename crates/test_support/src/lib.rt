//! What tests and replays share: devices that move a byte a call and fail in mid-stream, files of recorded lines, and key
//! functions. A signature is the SHA-256 digest of the signer's key followed by the signed bytes, so anyone can make one.
//! Another implementation computes the same (`replay_crypto`).
//!
//! The module `rows` is of the programs `replay_*`: rows that are read word by word, files of rows, and texts that are written piece by
//! piece. A row and a text keep their first fault, and each is refused once, at its end.
#![tactic(auto)]

mod columns;
mod digest_keys;
mod failing_devices;
mod files;
mod round_trip;
pub mod rows;

pub use columns::{Recorded, Wanted, recorded_of};
pub use digest_keys::{DigestKeys, GivenSignature, KnownKey, signer, verifier};
pub use failing_devices::{Drip, Trickle};
pub use files::{Lines, replay};
pub use round_trip::{Answer, are_wanted, is_read_told, is_refused, is_told, is_written};
pub use rows::{Row, Rows, Told, components_of};
