//! What a realm takes beyond the rows of RFC 4556.

/// What a realm takes in requests by certificate beyond the rows of RFC 4556: what stock clients send. A realm without it takes no more
/// than these rows.
#[derive(Clone, Copy, Debug, PartialEq, Eq)]
pub struct GeneralPolicy {
    /// Whether a client may sign over SHA-1. A certificate may not be signed so, whatever this says.
    pub takes_sha1: bool,
}
