//! Opening the sealed parts of messages.
ghost use Rattle.std.specs.Prelude.{◌≡◌};
ghost use Rattle.std.specs.Int.{cast_unsigned, w32};
ghost use Rattle.krb_crypto.specs.Suites.{cipher_number};
ghost use Rattle.krb_tickets.specs.Opens.{IsOpened, Opens};

use crate::padded::read_padded;
use asn1_codec::Deserialize;
use asn1_der::Asn1DerError;
use krb_crypto::{Cipher, CipherSuite, KerberosCryptoError};
use std::alloc::Global;
use thiserror::Error;

/// Why a sealed part isn't opened.
#[derive(Debug, Drop, Error)]
pub enum OpenFault {
    /// Nothing is sealed here under this key for this usage.
    #[error("{0}")]
    Crypto(KerberosCryptoError),
    /// What is sealed here is no value of the type.
    #[error("{0}")]
    Der(Asn1DerError),
}

/// The value whose encoding is sealed here under this key for this usage, followed only by the suite's padding (RFC 3961,
/// section 5.3).
pub fn open_part<T: Deserialize + Drop>(
    alloc: Global,
    suite: CipherSuite,
    key: &[u8],
    usage: i32,
    bytes: &[u8],
) -> Result<T, OpenFault>
    ensures { IsOpened T.seen (Opens T.tree (cipher_number suite) key.now (cast_unsigned w32 usage) bytes.now) result }
{
    let plain = match suite.decrypt(alloc, key, usage, bytes) {
        Ok(plain) => plain,
        Err(fault) => return Err(OpenFault::Crypto(fault)),
    };
    match read_padded(alloc, suite, &plain) {
        Ok(value) => Ok(value),
        Err(fault) => Err(OpenFault::Der(fault)),
    }
}
