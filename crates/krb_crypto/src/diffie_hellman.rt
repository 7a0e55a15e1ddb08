//! Keys that a Diffie-Hellman exchange agrees on (RFC 4556, section 3.2.3.1).

mod agreed;
mod digests;
mod error;
mod key;

pub use agreed::agreed_key;
pub use error::{DiffieHellmanError, DiffieHellmanResult};
pub use key::{DhNonce, generate_key_from_shared_secret};
