//! What a realm takes in requests by certificate beyond the rows of RFC 4556, if its policy says so: what stock clients send.

mod checksum;
mod fields;
mod general;
pub mod laws;
mod pa_checksum2;
mod parts;
mod policy;
mod reply;
mod signer;
mod table;

pub use general::PolicyPkinit;
pub use pa_checksum2::PaChecksum2;
pub use policy::GeneralPolicy;
pub use signer::check_among;
