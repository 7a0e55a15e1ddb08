//! What a key is used for (RFC 4120, section 7.5.1), under the names of the ported crate.

/// The time of PA-ENC-TIMESTAMP, under the client's key.
pub const AS_REQ_TIMESTAMP: i32 = 1;

/// A ticket's part, under the service's key.
pub const TICKET_REP: i32 = 2;

/// The part of an AS-REP, under the client's key.
pub const AS_REP_ENC: i32 = 3;

/// The authorization data of a TGS-REQ, under the session key.
pub const TGS_REQ_AUTH_DATA_SESSION_KEY: i32 = 4;

/// The authorization data of a TGS-REQ, under the authenticator's subkey.
pub const TGS_REQ_AUTH_DATA_SUB_KEY: i32 = 5;

/// The checksum of a TGS-REQ's body in its authenticator, under the session key.
pub const TGS_REQ_PA_DATA_AP_REQ_AUTHENTICATOR_CKSUM: i32 = 6;

/// The authenticator of a TGS-REQ, under the session key.
pub const TGS_REQ_PA_DATA_AP_REQ_AUTHENTICATOR: i32 = 7;

/// The part of a TGS-REP, under the session key.
pub const TGS_REP_ENC_SESSION_KEY: i32 = 8;

/// The part of a TGS-REP, under the authenticator's subkey.
pub const TGS_REP_ENC_SUB_KEY: i32 = 9;

/// The checksum in the authenticator of an AP-REQ, under the session key.
pub const AP_REQ_AUTHENTICATOR_CKSUM: i32 = 10;

/// The authenticator of an AP-REQ, under the session key.
pub const AP_REQ_AUTHENTICATOR: i32 = 11;

/// The part of an AP-REP, under the session key.
pub const AP_REP_ENC: i32 = 12;

/// The part of a KRB-PRIV, under a key that both sides know.
pub const KRB_PRIV_ENC_PART: i32 = 13;

/// The part of a KRB-CRED, under a key that both sides know.
pub const KRB_CRED_ENC_PART: i32 = 14;

/// What a service seals in a wrap token (RFC 4121, section 2).
pub const ACCEPTOR_SEAL: i32 = 22;

/// What a service signs in a MIC token (RFC 4121, section 2).
pub const ACCEPTOR_SIGN: i32 = 23;

/// What a client seals in a wrap token (RFC 4121, section 2).
pub const INITIATOR_SEAL: i32 = 24;

/// What a client signs in a MIC token (RFC 4121, section 2).
pub const INITIATOR_SIGN: i32 = 25;

/// The checksum of KRB-FINISHED (draft-zhu-pku2u, section 6).
pub const KEY_USAGE_FINISHED: i32 = 41;
