//! Why a credential cache was not read or written.
ghost use Rattle.std.specs.Prelude.{◌≡◌};
ghost use Rattle.krb_file_formats.specs.declared.credential_caches.fault.CacheFault.TheVariants as fault;
ghost use Rattle.krb_file_formats.specs.declared.credential_caches.fault.CacheWriteFault.TheVariants as write;

use std::alloc::AllocError;
use thiserror::Error;

/// Why octets were not read as a credential cache. An offset counts octets from the file's first.
#[derive(Clone, Copy, Debug, PartialEq, Eq, Error)]
pub enum CacheFault {
    /// The first two octets aren't 5 and 4: this number, the first octet the higher. Versions 0x0501 to 0x0503 are other formats.
    #[error("the credential cache has version {0}, and not 1284 (0x0504)")]
    WrongVersion(u16),

    /// The number or the octets at this offset end past the file, or past the header's length where they are of one of its tags.
    #[error("the field at offset {0} of the credential cache ends past the file or the header")]
    PastEnd(usize),

    /// A realm or a component has an octet that isn't below 128, which no KerberosString has (RFC 4120, section 5.2.1). The offset is
    /// that of its length.
    #[error("the name at offset {0} of the credential cache has a character that is not ASCII")]
    Character(usize),

    /// Memory ran out.
    #[error("out of memory")]
    Memory,
}

impl From<AllocError> for CacheFault {
    ghost from_gives = { λ _ e. e ≡ fault.Memory };

    fn from(_error: AllocError) -> CacheFault {
        CacheFault::Memory
    }
}

/// Why a credential cache was not written.
#[derive(Clone, Copy, Debug, PartialEq, Eq, Error)]
pub enum CacheWriteFault {
    /// The header's tags take 65,536 octets or more, or a count or a length elsewhere is 2^32 or more.
    #[error("a field is too long for a credential cache")]
    TooLong,

    /// Memory ran out.
    #[error("out of memory")]
    Memory,
}

impl From<AllocError> for CacheWriteFault {
    ghost from_gives = { λ _ e. e ≡ write.Memory };

    fn from(_error: AllocError) -> CacheWriteFault {
        CacheWriteFault::Memory
    }
}

// A value that is read, and the place behind it.
pub(crate) type Found<T> = Result<(T, usize), CacheFault>;
