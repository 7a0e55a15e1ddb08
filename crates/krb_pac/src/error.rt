//! Why a buffer was not read, or a PAC not verified.
ghost use Rattle.std.specs.Prelude.{◌≡◌};
ghost use Rattle.krb_pac.specs.declared.error.PacFault.TheVariants.{Memory};

use std::alloc::AllocError;
use thiserror::Error;

/// Why a buffer was not read, or a PAC not verified.
#[derive(Clone, Copy, Debug, PartialEq, Eq, Error)]
pub enum PacFault {
    /// The octets end inside a field.
    #[error("the octets end inside a field")]
    Short,

    /// The header isn't that of type serialization version 1, little endian.
    #[error("not the header of type serialization version 1")]
    Header,

    /// The header's length isn't that of the octets behind it.
    #[error("the header's length is not that of the octets")]
    ObjectBufferLength,

    /// A count of an array isn't the one that its structure states.
    #[error("a count is not the one that its structure states")]
    Count,

    /// A length is odd, more than its maximum, or of more words than there are.
    #[error("a length is wrong")]
    Lengths,

    /// A pointer is null, and its structure states that there is a referent.
    #[error("a pointer is null")]
    Null,

    /// A SID isn't of revision 1, or has more than 15 parts.
    #[error("not a SID of revision 1")]
    Sid,

    /// Octets follow the last field.
    #[error("octets follow the last field")]
    Trailing,

    /// The PAC isn't of version 0.
    #[error("the PAC is not of version 0")]
    Version,

    /// A buffer ends past the octets of the PAC.
    #[error("a buffer ends past the octets")]
    Range,

    /// The PAC has two buffers of one type, or the ticket two PACs.
    #[error("there are two where one may be")]
    Twice,

    /// A buffer that a PAC needs isn't there.
    #[error("a buffer is missing")]
    Missing,

    /// The server signature isn't of the checksum type of the key.
    #[error("the signature is not of the checksum type of the key")]
    SignatureType,

    /// The server signature isn't one under the key.
    #[error("the signature is wrong")]
    Signature,

    /// The PAC is of another authtime than the ticket.
    #[error("the PAC is of another authtime")]
    ClientTime,

    /// The PAC is of another client than the ticket.
    #[error("the PAC is of another client")]
    ClientName,

    /// An element of type AD-IF-RELEVANT is no encoding of authorization data.
    #[error("not an encoding of authorization data")]
    AuthorizationData,

    /// The ticket has no PAC.
    #[error("the ticket has no PAC")]
    NoPac,

    /// Memory ran out.
    #[error("out of memory")]
    Memory,
}

impl From<AllocError> for PacFault {
    ghost from_gives = { λ _ e. e ≡ Memory };

    fn from(_error: AllocError) -> PacFault {
        PacFault::Memory
    }
}

// A value that is read, and the place behind it.
pub(crate) type Found<T> = Result<(T, usize), PacFault>;
