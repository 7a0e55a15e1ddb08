//! What an end of a context goes by, beside its key and its side.

/// The sequence numbers of one end (RFC 4121, section 4.2.1). A lower number is old.
#[derive(Clone, Copy, Debug, PartialEq, Eq)]
pub struct SequenceNumbers {
    /// The number of the next token that is sent.
    pub sending: u64,
    /// The least number of a token that is taken.
    pub taking: u64,
}

/// What an end of a context goes by, beside its key and its side.
#[derive(Clone, Copy, Debug, PartialEq, Eq)]
pub struct ContextTerms {
    /// Whether the key is the acceptor's subkey (RFC 4121, section 4.2.2).
    pub acceptor_subkey: bool,
    /// Whether the initiator asked for sequencing (RFC 2743, section 1.2.3): then no number may be left out.
    pub in_sequence: bool,
    /// The last of the microseconds since 0000-01-01 00:00:00 UTC at which the context isn't over, if it has an end.
    pub ends: Option<u64>,
    /// The sequence numbers of the first tokens.
    pub numbers: SequenceNumbers,
}
