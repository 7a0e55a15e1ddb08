//! Why a keytab was not read or written.
ghost use Rattle.std.specs.Prelude.{◌≡◌};
ghost use Rattle.krb_file_formats.specs.declared.fault.KeytabFault.TheVariants as fault;
ghost use Rattle.krb_file_formats.specs.declared.fault.KeytabWriteFault.TheVariants as write;

use std::alloc::AllocError;
use thiserror::Error;

/// Why octets were not read as a keytab. An offset counts octets from the file's first.
#[derive(Clone, Copy, Debug, PartialEq, Eq, Error)]
pub enum KeytabFault {
    /// The first two octets aren't 5 and 2: this number, the first octet the higher. Version 0x0501 has the byte order of the host
    /// that wrote it.
    #[error("the keytab has version {0}, and not 1282 (0x0502)")]
    WrongVersion(u16),

    /// The file ends inside the version, or inside the size of a record or a hole, or before so many octets. The offset is that of the
    /// version or the size.
    #[error("the keytab ends inside what begins at offset {0}")]
    Truncated(usize),

    /// A field ends past its record. The offset is the field's.
    #[error("the field at offset {0} of the keytab ends past its record")]
    PastRecord(usize),

    /// A realm or a component has an octet that isn't below 128, which no KerberosString has (RFC 4120, section 5.2.1). The offset is
    /// that of its length.
    #[error("the name at offset {0} of the keytab has a character that is not ASCII")]
    Character(usize),

    /// Memory ran out.
    #[error("out of memory")]
    Memory,
}

impl From<AllocError> for KeytabFault {
    ghost from_gives = { λ _ e. e ≡ fault.Memory };

    fn from(_error: AllocError) -> KeytabFault {
        KeytabFault::Memory
    }
}

/// Why a keytab was not written.
#[derive(Clone, Copy, Debug, PartialEq, Eq, Error)]
pub enum KeytabWriteFault {
    /// A record has more than 65,535 components, or a realm, a component or a key of more octets than that, or it takes 2^31 octets or
    /// more.
    #[error("a record is too long for a keytab")]
    TooLong,

    /// Memory ran out.
    #[error("out of memory")]
    Memory,
}

impl From<AllocError> for KeytabWriteFault {
    ghost from_gives = { λ _ e. e ≡ write.Memory };

    fn from(_error: AllocError) -> KeytabWriteFault {
        KeytabWriteFault::Memory
    }
}
