//! Opening, where any fault but `Memory` says that there is nothing.
ghost use Rattle.std.specs.Prelude.{◌≡◌, ◌↔◌, IfOk, IsTrue};
ghost use Rattle.std.specs.Int.{cast_unsigned, w32};
ghost use Rattle.krb_crypto.specs.Suites.{cipher_number};
ghost use Rattle.picky_asn1_der.specs.Found.{IsFound};
ghost use Rattle.krb_tickets.specs.Opens.{IsWantOfMemory, Opens};

use crate::open::{OpenFault, open_part};
use asn1_codec::Deserialize;
use asn1_der::Asn1DerError;
use krb_crypto::{KerberosCryptoError, Key};
use std::alloc::{AllocError, Global};

impl OpenFault {
    /// Whether memory ran out. Such a fault says nothing about what is sealed.
    pub fn is_memory(&self) -> bool
        ensures { IsTrue result ↔ IsWantOfMemory self.now }
    {
        matches!(
            self,
            OpenFault::Crypto(KerberosCryptoError::Memory) | OpenFault::Der(Asn1DerError::Memory)
        )
    }
}

/// The value that is sealed here under the key, or none (see [`open_part`]).
pub fn open_whole<T: Deserialize + Drop>(
    alloc: Global,
    key: &Key,
    usage: i32,
    bytes: &[u8],
) -> Result<Option<T>, AllocError>
    ensures { IfOk result
        (IsFound (Opens T.tree (cipher_number key.now.suite) key.now.bytes (cast_unsigned w32 usage) bytes.now)) }
{
    match open_part(alloc, key.suite(), key.as_bytes(), usage, bytes) {
        Ok(value) => Ok(Some(value)),
        Err(fault) => {
            if fault.is_memory() {
                return Err(AllocError);
            }
            Ok(None)
        }
    }
}
