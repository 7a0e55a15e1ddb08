//! Checksum types (RFC 3961, section 8).

/// CRC-32.
pub const CRC32: usize = 1;

/// MD4.
pub const RSA_MD4: usize = 2;

/// MD4 under DES.
pub const RSA_MD4_DES: usize = 3;

/// A MAC by DES.
pub const DES_MAC: usize = 4;

/// A MAC by DES under the key itself.
pub const DES_MAC_K: usize = 5;

/// MD4 under DES by the key itself.
pub const RSA_MD4_DES_K: usize = 6;

/// MD5.
pub const RSA_MD5: usize = 7;

/// MD5 under DES.
pub const RSA_MD5_DES: usize = 8;

/// MD5 under triple DES.
pub const RSA_MD5_DES3: usize = 9;

/// HMAC-SHA1 under a derived key of triple DES.
pub const HMAC_SHA1_DES3_KD: usize = 12;

/// HMAC-SHA1 under a key of triple DES.
pub const HMAC_SHA1_DES3: usize = 13;

/// HMAC-SHA1 under a derived key of AES-128 (RFC 3962, section 7).
pub const HMAC_SHA1_96_AES128: usize = 15;

/// HMAC-SHA1 under a derived key of AES-256 (RFC 3962, section 7).
pub const HMAC_SHA1_96_AES256: usize = 16;

/// HMAC-SHA-256 under a derived key of AES-128 (RFC 8009, section 7).
pub const HMAC_SHA256_128_AES128: usize = 19;

/// HMAC-SHA-384 under a derived key of AES-256 (RFC 8009, section 7).
pub const HMAC_SHA384_192_AES256: usize = 20;

/// The checksum of a first token of GSS-API (RFC 4121, section 4.1.1).
pub const GSS_API: usize = 0x8003;
