//! Numbers and other fields of fixed size.
ghost use Rattle.std.specs.Prelude.{◌≡◌};

use crate::bytes::extend;
use crate::error::NegoexError;
use crate::laid::{Laid, Wide};
use byte_streams::{array_at, u32_le, u32_le_bytes, u64_le, u64_le_bytes};
use std::alloc::Global;
use std::io::ErrorKind;

/// "NEGOEXTS", the signature that each message begins with (MS-NEGOEX, section 2.2.3).
pub const NEGOEXTS_MESSAGE_SIGNATURE: u64 = 0x5354_5845_4f47_454e;

/// The only scheme of checksums (MS-NEGOEX, section 2.2.3).
pub const CHECKSUM_SCHEME_RFC3961: u32 = 1;

/// The length of a message's random bytes: 32 (MS-NEGOEX, section 2.2.4).
pub const RANDOM_ARRAY_SIZE: usize = 32;

impl Laid for u32 {
    ghost use Rattle.std.specs.Prelude.{ℕ};
    ghost use Rattle.negoex_messages.specs.Leaves.{number_layout};
    ghost use Rattle.negoex_messages.specs.LeafLaws.{number_laws};

    ghost Value = { ℕ };

    ghost view = { λ n. n };

    ghost layout = { number_layout };

    ghost laws = { number_laws };

    fn from_header(_alloc: Global, header: &[u8], _message: &[u8]) -> Result<Self, NegoexError> {
        if header.len() < 4 {
            return Err(NegoexError {
                kind: ErrorKind::UnexpectedEof,
            });
        }
        Ok(u32_le(header, 0))
    }

    fn put(
        &self,
        _alloc: Global,
        _offset: usize,
        header: &mut Vec<u8>,
        _payload: &mut Vec<u8>,
    ) -> Result<(), NegoexError> {
        extend(header, &u32_le_bytes(*self))
    }

    fn payload_size(&self) -> usize {
        0
    }
}

impl Wide for u32 {
    fn width() -> usize {
        4
    }
}

impl Laid for u64 {
    ghost use Rattle.std.specs.Prelude.{ℕ};
    ghost use Rattle.negoex_messages.specs.Leaves.{long_layout};
    ghost use Rattle.negoex_messages.specs.LeafLaws.{long_laws};

    ghost Value = { ℕ };

    ghost view = { λ n. n };

    ghost layout = { long_layout };

    ghost laws = { long_laws };

    fn from_header(_alloc: Global, header: &[u8], _message: &[u8]) -> Result<Self, NegoexError> {
        if header.len() < 8 {
            return Err(NegoexError {
                kind: ErrorKind::UnexpectedEof,
            });
        }
        Ok(u64_le(header, 0))
    }

    fn put(
        &self,
        _alloc: Global,
        _offset: usize,
        header: &mut Vec<u8>,
        _payload: &mut Vec<u8>,
    ) -> Result<(), NegoexError> {
        extend(header, &u64_le_bytes(*self))
    }

    fn payload_size(&self) -> usize {
        0
    }
}

impl Wide for u64 {
    fn width() -> usize {
        8
    }
}

impl Laid for [u8; RANDOM_ARRAY_SIZE] {
    ghost use Rattle.std.specs.Prelude.{ℕ, List};
    ghost use Rattle.negoex_messages.specs.Leaves.{random_layout};
    ghost use Rattle.negoex_messages.specs.LeafLaws.{random_laws};

    ghost Value = { List ℕ };

    ghost view = { λ v. v };

    ghost layout = { random_layout };

    ghost laws = { random_laws };

    fn from_header(_alloc: Global, header: &[u8], _message: &[u8]) -> Result<Self, NegoexError> {
        if header.len() < 32 {
            return Err(NegoexError {
                kind: ErrorKind::UnexpectedEof,
            });
        }
        Ok(array_at::<RANDOM_ARRAY_SIZE>(header, 0))
    }

    fn put(
        &self,
        _alloc: Global,
        _offset: usize,
        header: &mut Vec<u8>,
        _payload: &mut Vec<u8>,
    ) -> Result<(), NegoexError> {
        extend(header, self)
    }

    fn payload_size(&self) -> usize {
        0
    }
}

impl Wide for [u8; RANDOM_ARRAY_SIZE] {
    fn width() -> usize {
        32
    }
}

/// A signature, which is read only where it is NEGOEXTS.
#[derive(Clone, Copy, Debug)]
pub struct Signature(pub u64);

impl Laid for Signature {
    ghost use Rattle.std.specs.Prelude.{ℕ};
    ghost use Rattle.negoex_messages.specs.Leaves.{signature_layout};
    ghost use Rattle.negoex_messages.specs.LeafLaws.{signature_laws};

    ghost Value = { ℕ };

    ghost view = { λ s. s.0 };

    ghost layout = { signature_layout };

    ghost laws = { signature_laws };

    fn from_header(_alloc: Global, header: &[u8], _message: &[u8]) -> Result<Self, NegoexError> {
        if header.len() < 8 {
            return Err(NegoexError {
                kind: ErrorKind::UnexpectedEof,
            });
        }
        let signature = u64_le(header, 0);
        if signature != NEGOEXTS_MESSAGE_SIGNATURE {
            return Err(NegoexError {
                kind: ErrorKind::InvalidData,
            });
        }
        Ok(Signature(signature))
    }

    fn put(
        &self,
        _alloc: Global,
        _offset: usize,
        header: &mut Vec<u8>,
        _payload: &mut Vec<u8>,
    ) -> Result<(), NegoexError> {
        extend(header, &u64_le_bytes(self.0))
    }

    fn payload_size(&self) -> usize {
        0
    }
}

impl Wide for Signature {
    fn width() -> usize {
        8
    }
}

/// A scheme of checksums, which is read only where it is that of RFC 3961.
#[derive(Clone, Copy, Debug)]
pub struct ChecksumScheme(pub u32);

impl Laid for ChecksumScheme {
    ghost use Rattle.std.specs.Prelude.{ℕ};
    ghost use Rattle.negoex_messages.specs.Leaves.{scheme_layout};
    ghost use Rattle.negoex_messages.specs.LeafLaws.{scheme_laws};

    ghost Value = { ℕ };

    ghost view = { λ s. s.0 };

    ghost layout = { scheme_layout };

    ghost laws = { scheme_laws };

    fn from_header(_alloc: Global, header: &[u8], _message: &[u8]) -> Result<Self, NegoexError> {
        if header.len() < 4 {
            return Err(NegoexError {
                kind: ErrorKind::UnexpectedEof,
            });
        }
        let scheme = u32_le(header, 0);
        if scheme != CHECKSUM_SCHEME_RFC3961 {
            return Err(NegoexError {
                kind: ErrorKind::InvalidInput,
            });
        }
        Ok(ChecksumScheme(scheme))
    }

    fn put(
        &self,
        _alloc: Global,
        _offset: usize,
        header: &mut Vec<u8>,
        _payload: &mut Vec<u8>,
    ) -> Result<(), NegoexError> {
        extend(header, &u32_le_bytes(self.0))
    }

    fn payload_size(&self) -> usize {
        0
    }
}

impl Wide for ChecksumScheme {
    fn width() -> usize {
        4
    }
}
