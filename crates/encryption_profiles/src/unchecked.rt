//! Messages that are encrypted without a checksum, or decrypted before the checksum is verified.

ghost use Rattle.std.specs.Prelude.{◌≡◌, ◌≢◌, ◌-◌, ◌≤◌, ◌++◌, length, vec_len, IfOk, IfErr};
ghost use Rattle.block_ciphers.specs.Bytes.{IsBytes};
ghost use Rattle.block_ciphers.specs.declared.error.KerberosCryptoError.TheVariants.{IntegrityCheck};

use crate::strings::same_bytes;
use block_ciphers::{KerberosCryptoError, KerberosCryptoResult};
use std::alloc::{AllocError, Global};

/// An encrypted message, still without its checksum.
#[derive(Drop)]
pub struct EncryptWithoutChecksum {
    /// The encrypted confounder and plaintext.
    pub encrypted: Vec<u8>,
    /// The confounder.
    pub confounder: Vec<u8>,
    /// Ki, the key of the checksum that follows the ciphertext.
    pub ki: Vec<u8>,
}

impl EncryptWithoutChecksum {
    /// The ciphertext, and behind it the checksum (RFC 3961, section 5.3).
    pub fn with_checksum(self, checksum: &[u8]) -> Result<Vec<u8>, AllocError>
        ensures { IfOk result (λ bytes. bytes.items ≡ self.encrypted.items ++ checksum.now) }
    {
        let mut bytes = self.encrypted;
        bytes.extend_from_slice(checksum)?;
        Ok(bytes)
    }
}

/// A decrypted message whose checksum isn't verified yet.
#[derive(Drop)]
pub struct DecryptWithoutChecksum {
    /// The plaintext after the confounder.
    pub plaintext: Vec<u8>,
    /// The confounder.
    pub confounder: Vec<u8>,
    /// The checksum that came with it.
    pub checksum: Vec<u8>,
    /// Ki, the key of the checksum.
    pub ki: Vec<u8>,
}

impl DecryptWithoutChecksum {
    /// The parts of a decrypted text, whose confounder has `size` bytes, with the checksum that came with it and Ki.
    pub fn of_text(
        alloc: Global,
        text: &[u8],
        size: usize,
        checksum: &[u8],
        ki: Vec<u8>,
    ) -> Result<DecryptWithoutChecksum, AllocError>
        requires { size ≤ length text.now }
        ensures text { IfOk result (λ d. d.confounder.items ++ d.plaintext.items ≡ text.now) }
        ensures sized { IfOk result (λ d. (vec_len d.confounder ≡ size) × (vec_len d.plaintext ≡ length text.now - size)) }
        ensures bytes { IfOk result (λ d. IsBytes d.confounder.items × IsBytes d.plaintext.items) }
        ensures checksum { IfOk result (λ d. d.checksum.items ≡ checksum.now) }
        ensures ki { IfOk result (λ d. d.ki.items ≡ ki.items) }
    {
        let (confounder, plaintext) = text.split_at(size);
        Ok(DecryptWithoutChecksum {
            plaintext: Vec::from_slice(alloc, plaintext)?,
            confounder: Vec::from_slice(alloc, confounder)?,
            checksum: Vec::from_slice(alloc, checksum)?,
            ki,
        })
    }

    /// The plaintext, if the checksum that came with it is the one that was computed: else it is refused (`IntegrityCheck`;
    /// RFC 3961, section 5.3).
    pub fn verified(self, computed: &[u8]) -> KerberosCryptoResult<Vec<u8>>
        ensures verified { IfOk result (λ p. (p ≡ self.plaintext) × (computed.now ≡ self.checksum.items)) }
        ensures refused { IfErr result (λ e. (e ≡ IntegrityCheck) × (computed.now ≢ self.checksum.items)) }
    {
        if !same_bytes(computed, &self.checksum) {
            return Err(KerberosCryptoError::IntegrityCheck);
        }
        Ok(self.plaintext)
    }
}
