//! The suites, and the numbers that name them in messages.

ghost use Rattle.std.specs.Prelude.{◌≡◌};
ghost use Rattle.krb_crypto.specs.Suites.{IsChecksumOf, IsCipherOf, IsCipherOfByte, checksum_number, checksum_suites, cipher_key_size, cipher_number, cipher_suites};

use block_ciphers::{AES128_KEY_SIZE, AES256_KEY_SIZE, DES3_KEY_SIZE, KerberosCryptoError};
use krb_constants::{cksum_types, etypes};

/// The ways to encrypt (RFC 3962, section 7; RFC 3961, section 6.3; RFC 8009, section 5).
#[derive(Clone, Copy, Debug, PartialEq, Eq)]
pub enum CipherSuite {
    /// AES with 128-bit keys in CBC mode with ciphertext stealing, and HMAC-SHA1 cut to 96 bits.
    Aes128CtsHmacSha196,

    /// AES with 256-bit keys in CBC mode with ciphertext stealing, and HMAC-SHA1 cut to 96 bits.
    Aes256CtsHmacSha196,

    /// Triple DES in CBC mode, and HMAC-SHA1.
    Des3CbcSha1Kd,

    /// AES with 128-bit keys in CBC mode with ciphertext stealing, and HMAC-SHA-256 cut to 128 bits.
    Aes128CtsHmacSha256128,

    /// AES with 256-bit keys in CBC mode with ciphertext stealing, and HMAC-SHA-384 cut to 192 bits.
    Aes256CtsHmacSha384192,
}

impl CipherSuite {
    /// All suites.
    pub fn all() -> &'static [CipherSuite]
        ensures { result.now ≡ cipher_suites }
    {
        &[
            CipherSuite::Aes128CtsHmacSha196,
            CipherSuite::Aes256CtsHmacSha196,
            CipherSuite::Des3CbcSha1Kd,
            CipherSuite::Aes128CtsHmacSha256128,
            CipherSuite::Aes256CtsHmacSha384192,
        ]
    }

    /// How many bytes a key of this suite has (RFC 3962, section 6; RFC 3961, section 6.3; RFC 8009, section 5).
    pub fn key_size(self) -> usize
        ensures { result ≡ cipher_key_size self }
    {
        match self {
            CipherSuite::Aes128CtsHmacSha196 => AES128_KEY_SIZE,
            CipherSuite::Aes256CtsHmacSha196 => AES256_KEY_SIZE,
            CipherSuite::Des3CbcSha1Kd => DES3_KEY_SIZE,
            CipherSuite::Aes128CtsHmacSha256128 => AES128_KEY_SIZE,
            CipherSuite::Aes256CtsHmacSha384192 => AES256_KEY_SIZE,
        }
    }
}

/// The suite's number, as `etype` in a message (RFC 3962, section 7; RFC 3961, section 8; RFC 8009, section 7).
impl From<CipherSuite> for u8 {
    ghost from_gives = { λ suite number. number ≡ cipher_number suite };

    fn from(suite: CipherSuite) -> u8 {
        match suite {
            CipherSuite::Aes128CtsHmacSha196 => etypes::AES128_CTS_HMAC_SHA1_96 as u8,
            CipherSuite::Aes256CtsHmacSha196 => etypes::AES256_CTS_HMAC_SHA1_96 as u8,
            CipherSuite::Des3CbcSha1Kd => etypes::DES3_CBC_SHA1_KD as u8,
            CipherSuite::Aes128CtsHmacSha256128 => etypes::AES128_CTS_HMAC_SHA256_128 as u8,
            CipherSuite::Aes256CtsHmacSha384192 => etypes::AES256_CTS_HMAC_SHA384_192 as u8,
        }
    }
}

/// The suite's number, as `etype` in a message (RFC 3962, section 7; RFC 3961, section 8; RFC 8009, section 7).
impl From<CipherSuite> for usize {
    ghost from_gives = { λ suite number. number ≡ cipher_number suite };

    fn from(suite: CipherSuite) -> usize {
        usize::from(u8::from(suite))
    }
}

/// The suite's number, as `etype` in a message (RFC 3962, section 7; RFC 3961, section 8; RFC 8009, section 7).
impl From<&CipherSuite> for u8 {
    ghost from_gives = { λ suite number. number ≡ cipher_number suite.now };

    fn from(suite: &CipherSuite) -> u8 {
        u8::from(*suite)
    }
}

/// The suite's number, as `etype` in a message (RFC 3962, section 7; RFC 3961, section 8; RFC 8009, section 7).
impl From<&CipherSuite> for u32 {
    ghost from_gives = { λ suite number. number ≡ cipher_number suite.now };

    fn from(suite: &CipherSuite) -> u32 {
        u32::from(u8::from(*suite))
    }
}

/// The suite that has this number.
impl TryFrom<usize> for CipherSuite {
    type Error = KerberosCryptoError;

    ghost try_from_gives = { λ number result. IsCipherOf number result };

    fn try_from(number: usize) -> Result<CipherSuite, KerberosCryptoError> {
        if number == etypes::DES3_CBC_SHA1_KD {
            Ok(CipherSuite::Des3CbcSha1Kd)
        } else if number == etypes::AES128_CTS_HMAC_SHA1_96 {
            Ok(CipherSuite::Aes128CtsHmacSha196)
        } else if number == etypes::AES256_CTS_HMAC_SHA1_96 {
            Ok(CipherSuite::Aes256CtsHmacSha196)
        } else if number == etypes::AES128_CTS_HMAC_SHA256_128 {
            Ok(CipherSuite::Aes128CtsHmacSha256128)
        } else if number == etypes::AES256_CTS_HMAC_SHA384_192 {
            Ok(CipherSuite::Aes256CtsHmacSha384192)
        } else {
            Err(KerberosCryptoError::AlgorithmIdentifier(number))
        }
    }
}

/// The suite whose number is the one byte.
impl TryFrom<&[u8]> for CipherSuite {
    type Error = KerberosCryptoError;

    ghost try_from_gives = { λ bytes result. IsCipherOfByte bytes.now result };

    fn try_from(bytes: &[u8]) -> Result<CipherSuite, KerberosCryptoError> {
        let refused = KerberosCryptoError::AlgorithmIdentifierData(bytes.len());
        match bytes {
            [number] => match CipherSuite::try_from(usize::from(*number)) {
                Ok(suite) => Ok(suite),
                Err(_) => Err(refused),
            },
            _ => Err(refused),
        }
    }
}

/// The keyed checksums (RFC 3962, section 7; RFC 3961, section 6.3; RFC 8009, section 6).
#[derive(Clone, Copy, Debug, PartialEq, Eq)]
pub enum ChecksumSuite {
    /// HMAC-SHA1 cut to 96 bits, with a 128-bit key.
    HmacSha196Aes128,

    /// HMAC-SHA1 cut to 96 bits, with a 256-bit key.
    HmacSha196Aes256,

    /// HMAC-SHA1, with a key of triple DES.
    HmacSha1Des3Kd,

    /// HMAC-SHA-256 cut to 128 bits, with a 128-bit key.
    HmacSha256128Aes128,

    /// HMAC-SHA-384 cut to 192 bits, with a 256-bit key.
    HmacSha384192Aes256,
}

impl ChecksumSuite {
    /// All checksums.
    pub fn all() -> &'static [ChecksumSuite]
        ensures { result.now ≡ checksum_suites }
    {
        &[
            ChecksumSuite::HmacSha196Aes128,
            ChecksumSuite::HmacSha196Aes256,
            ChecksumSuite::HmacSha1Des3Kd,
            ChecksumSuite::HmacSha256128Aes128,
            ChecksumSuite::HmacSha384192Aes256,
        ]
    }
}

/// The suite's number, as `cksumtype` in a message (RFC 3962, section 7; RFC 3961, section 8; RFC 8009, section 7).
impl From<ChecksumSuite> for u8 {
    ghost from_gives = { λ suite number. number ≡ checksum_number suite };

    fn from(suite: ChecksumSuite) -> u8 {
        match suite {
            ChecksumSuite::HmacSha196Aes128 => cksum_types::HMAC_SHA1_96_AES128 as u8,
            ChecksumSuite::HmacSha196Aes256 => cksum_types::HMAC_SHA1_96_AES256 as u8,
            ChecksumSuite::HmacSha1Des3Kd => cksum_types::HMAC_SHA1_DES3_KD as u8,
            ChecksumSuite::HmacSha256128Aes128 => cksum_types::HMAC_SHA256_128_AES128 as u8,
            ChecksumSuite::HmacSha384192Aes256 => cksum_types::HMAC_SHA384_192_AES256 as u8,
        }
    }
}

/// The suite's number, as `cksumtype` in a message (RFC 3962, section 7; RFC 3961, section 8; RFC 8009, section 7).
impl From<ChecksumSuite> for usize {
    ghost from_gives = { λ suite number. number ≡ checksum_number suite };

    fn from(suite: ChecksumSuite) -> usize {
        usize::from(u8::from(suite))
    }
}

/// The suite's number, as `cksumtype` in a message (RFC 3962, section 7; RFC 3961, section 8; RFC 8009, section 7).
impl From<ChecksumSuite> for u32 {
    ghost from_gives = { λ suite number. number ≡ checksum_number suite };

    fn from(suite: ChecksumSuite) -> u32 {
        u32::from(u8::from(suite))
    }
}

/// The suite's number, as `cksumtype` in a message (RFC 3962, section 7; RFC 3961, section 8; RFC 8009, section 7).
impl From<&ChecksumSuite> for u8 {
    ghost from_gives = { λ suite number. number ≡ checksum_number suite.now };

    fn from(suite: &ChecksumSuite) -> u8 {
        u8::from(*suite)
    }
}

/// The suite's number, as `cksumtype` in a message (RFC 3962, section 7; RFC 3961, section 8; RFC 8009, section 7).
impl From<&ChecksumSuite> for u32 {
    ghost from_gives = { λ suite number. number ≡ checksum_number suite.now };

    fn from(suite: &ChecksumSuite) -> u32 {
        u32::from(u8::from(*suite))
    }
}

/// The checksum that has this number.
impl TryFrom<usize> for ChecksumSuite {
    type Error = KerberosCryptoError;

    ghost try_from_gives = { λ number result. IsChecksumOf number result };

    fn try_from(number: usize) -> Result<ChecksumSuite, KerberosCryptoError> {
        if number == cksum_types::HMAC_SHA1_DES3_KD {
            Ok(ChecksumSuite::HmacSha1Des3Kd)
        } else if number == cksum_types::HMAC_SHA1_96_AES128 {
            Ok(ChecksumSuite::HmacSha196Aes128)
        } else if number == cksum_types::HMAC_SHA1_96_AES256 {
            Ok(ChecksumSuite::HmacSha196Aes256)
        } else if number == cksum_types::HMAC_SHA256_128_AES128 {
            Ok(ChecksumSuite::HmacSha256128Aes128)
        } else if number == cksum_types::HMAC_SHA384_192_AES256 {
            Ok(ChecksumSuite::HmacSha384192Aes256)
        } else {
            Err(KerberosCryptoError::AlgorithmIdentifier(number))
        }
    }
}
