//! How many keys an account keeps.

/// How many keys before the newest one an account keeps at most.
pub const FORMER_LIMIT: usize = 15;
