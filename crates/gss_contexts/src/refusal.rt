//! Why a token is not made or not taken.
ghost use Rattle.std.specs.Prelude.{◌≡◌};
ghost use Rattle.gss_contexts.specs.declared.refusal.TokenRefusal.TheVariants.{Memory};

use std::alloc::AllocError;
use thiserror::Error;

/// Why a token is not made or not taken.
#[derive(Clone, Copy, Debug, PartialEq, Eq, Error)]
pub enum TokenRefusal {
    /// The octets don't begin as such a token does.
    #[error("the octets are no such token")]
    NoSuchToken,
    /// The flags say that this side sent the token.
    #[error("the token was sent by this side")]
    OwnDirection,
    /// The flags say that another key protects the token: the acceptor's subkey, or not it.
    #[error("the token is protected by another key")]
    OtherKey,
    /// The sequence number is below the least one that is taken.
    #[error("the sequence number is old")]
    OldNumber,
    /// Tokens are missing before this one, of a context in sequence.
    #[error("tokens are missing before this one")]
    Gap,
    /// The sequence number is the last one of 64 bits.
    #[error("the sequence numbers are used up")]
    NumbersUsedUp,
    /// The checksum is not that of the message, or nothing is sealed under the key.
    #[error("the checksum is wrong")]
    WrongChecksum,
    /// The plaintext does not end with filler of EC octets and the token's header.
    #[error("what is sealed does not end with the filler and the token's header")]
    OtherHeader,
    /// The context is over.
    #[error("the context is over")]
    ContextExpired,
    /// Triple DES, whose tokens are those of RFC 1964.
    #[error("the suite has no such tokens")]
    OldSuite,
    /// Memory ran out.
    #[error("out of memory")]
    Memory,
}

impl From<AllocError> for TokenRefusal {
    ghost from_gives = { λ _ refusal. refusal ≡ Memory };

    fn from(_error: AllocError) -> TokenRefusal {
        TokenRefusal::Memory
    }
}
