//! Numbers of CredSSP.

/// Credentials by password (MS-CSSP, section 2.2.1.2).
pub const TS_PASSWORD_CREDS: u8 = 1;

/// Credentials by smart card (MS-CSSP, section 2.2.1.2).
pub const TS_SMART_CARD_CREDS: u8 = 2;

/// Credentials of remote guard (MS-CSSP, section 2.2.1.2).
pub const TS_REMOTE_GUARD_CREDS: u8 = 6;

/// A key for exchanging keys (MS-CSSP, section 2.2.1.2.2.1).
pub const AT_KEYEXCHANGE: u8 = 1;

/// A key for signing (MS-CSSP, section 2.2.1.2.2.1).
pub const AT_SIGNATURE: u8 = 2;
