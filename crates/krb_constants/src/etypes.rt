//! Encryption types (RFC 3961, section 8).

/// Triple DES with MD5.
pub const DES3_CBC_MD5: usize = 5;

/// Triple DES with SHA-1.
pub const DES3_CBC_SHA1: usize = 7;

/// Triple DES with SHA-1 and derived keys.
pub const DES3_CBC_SHA1_KD: usize = 16;

/// AES-128 with HMAC-SHA1 (RFC 3962, section 7).
pub const AES128_CTS_HMAC_SHA1_96: usize = 17;

/// AES-256 with HMAC-SHA1 (RFC 3962, section 7).
pub const AES256_CTS_HMAC_SHA1_96: usize = 18;

/// AES-128 with HMAC-SHA-256 (RFC 8009, section 7).
pub const AES128_CTS_HMAC_SHA256_128: usize = 19;

/// AES-256 with HMAC-SHA-384 (RFC 8009, section 7).
pub const AES256_CTS_HMAC_SHA384_192: usize = 20;

/// RC4 with HMAC-MD5 (RFC 4757, section 5).
pub const RC4_HMA: usize = 23;
