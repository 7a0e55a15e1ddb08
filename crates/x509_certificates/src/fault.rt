//! Why nothing is read of a file.
use thiserror::Error;

/// Why nothing is read of a file. Most faults have a place: how many octets of the file are in front.
#[derive(Clone, Copy, Debug, Drop, PartialEq, Eq, Error)]
pub enum FileFault {
    /// The text has no boundary that begins what is asked for.
    #[error("the file is text that has no BEGIN line of what is asked for")]
    NotFound,
    /// The boundary at this place has no boundary behind it that ends it.
    #[error("the BEGIN line at octet {0} of the file has no END line")]
    NotEnded(usize),
    /// What is behind the boundary at this place isn't base64.
    #[error("what follows the BEGIN line at octet {0} of the file is not base64")]
    NotBase64(usize),
    /// The key behind the boundary at this place is encrypted.
    #[error("the key at octet {0} of the file is encrypted")]
    Encrypted(usize),
    /// What is at this place is not a DER of what is asked for.
    #[error("what is at octet {0} of the file is not what is asked for")]
    NotRead(usize),
    /// The private key at this place isn't one of RSA.
    #[error("the key at octet {0} of the file is not an RSA key")]
    NotRsa(usize),
    /// The memory could not grow.
    #[error("out of memory")]
    Memory,
}
