//! The sides of a context, and how a token protects its message.
ghost use Rattle.std.specs.Prelude.{◌≡◌};
ghost use Rattle.std.specs.Int.{cast_unsigned, w32};

use krb_constants::key_usages::{ACCEPTOR_SEAL, ACCEPTOR_SIGN, INITIATOR_SEAL, INITIATOR_SIGN};

/// How a wrap token protects its message (RFC 4121, section 4.2.4).
#[derive(Clone, Copy, Debug, PartialEq, Eq)]
pub enum Protection {
    /// The message is encrypted.
    Sealed,
    /// The message is readable, and a checksum follows it.
    Checksum,
}

/// A side of a context (RFC 2743, section 1.1).
#[derive(Clone, Copy, Debug, PartialEq, Eq)]
pub enum Side {
    /// The side that began the context.
    Initiator,
    /// The side that accepted it.
    Acceptor,
}

impl Side {
    ghost use Rattle.gss_contexts.specs.Contexts.{other_side};
    ghost use Rattle.gss_contexts.specs.Tokens.{is_acceptor, seal_usage, sign_usage};

    /// The other side.
    pub fn other(self) -> Side
        ensures { result ≡ other_side self }
    {
        match self {
            Side::Initiator => Side::Acceptor,
            Side::Acceptor => Side::Initiator,
        }
    }

    /// Whether it is the acceptor.
    pub fn is_acceptor(self) -> bool
        ensures { result ≡ is_acceptor self }
    {
        match self {
            Side::Initiator => false,
            Side::Acceptor => true,
        }
    }

    // Returns the key usage of the wrap tokens that this side sends (RFC 4121, section 2).
    pub(crate) fn seal_usage(self) -> i32
        ensures { cast_unsigned w32 result ≡ seal_usage self }
    {
        match self {
            Side::Initiator => INITIATOR_SEAL,
            Side::Acceptor => ACCEPTOR_SEAL,
        }
    }

    // Returns the key usage of the MIC tokens that this side sends (RFC 4121, section 2).
    pub(crate) fn sign_usage(self) -> i32
        ensures { cast_unsigned w32 result ≡ sign_usage self }
    {
        match self {
            Side::Initiator => INITIATOR_SIGN,
            Side::Acceptor => ACCEPTOR_SIGN,
        }
    }
}
