//! Types of preauthentication data (RFC 4120, section 7.5.2; RFC 4556, section 3.1.3), as numbers.

/// Data with an AP request, PA-TGS-REQ (RFC 4120, section 7.5.2).
pub const PA_TGS_REQ: u32 = 1;

/// Data with a time that the client encrypts, PA-ENC-TIMESTAMP (RFC 4120, section 7.5.2).
pub const PA_ENC_TIMESTAMP: u32 = 2;

/// Data by public keys, PA-PK-AS-REQ (RFC 4556, section 3.1.3).
pub const PA_PK_AS_REQ: u32 = 16;

/// Data of a reply by public keys, PA-PK-AS-REP (RFC 4556, section 3.2.3).
pub const PA_PK_AS_REP: u32 = 17;

/// Data that says how a key is made of a password, PA-ETYPE-INFO2 (RFC 4120, section 7.5.2).
pub const PA_ETYPE_INFO2: u32 = 19;
