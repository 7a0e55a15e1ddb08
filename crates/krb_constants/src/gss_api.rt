//! Numbers of the GSS-API mechanisms.

/// The identifier octet of a context's first token, \[APPLICATION 0\] (RFC 2743, section 3.1).
pub const INITIAL_TOKEN: u8 = 0x60;

/// An AP-REQ (RFC 4121, section 4.1).
pub const AP_REQ_TOKEN_ID: [u8; 2] = [0x01, 0x00];

/// An AP-REP (RFC 4121, section 4.1).
pub const AP_REP_TOKEN_ID: [u8; 2] = [0x02, 0x00];

/// A request for a ticket-granting ticket of user to user (draft-swift-win2k-krb-user2user, section 4).
pub const TGT_REQ_TOKEN_ID: [u8; 2] = [0x04, 0x00];

/// The reply to it (draft-swift-win2k-krb-user2user, section 4).
pub const TGT_REP_TOKEN_ID: [u8; 2] = [0x04, 0x01];

/// An AS-REQ (draft-zhu-pku2u, section 6).
pub const AS_REQ_TOKEN_ID: [u8; 2] = [0x05, 0x00];

/// An AS-REP (draft-zhu-pku2u, section 6).
pub const AS_REP_TOKEN_ID: [u8; 2] = [0x06, 0x00];

/// A MIC token (RFC 4121, section 4.2.6.1).
pub const MIC_TOKEN_ID: [u8; 2] = [0x04, 0x04];

/// A wrap token (RFC 4121, section 4.2.6.2).
pub const WRAP_TOKEN_ID: [u8; 2] = [0x05, 0x04];

/// The flag SentByAcceptor of a MIC or wrap token (RFC 4121, section 4.2.2).
pub const SENT_BY_ACCEPTOR: u8 = 1;

/// The flag Sealed of a wrap token (RFC 4121, section 4.2.2).
pub const SEALED: u8 = 2;

/// The flag AcceptorSubkey of a MIC or wrap token (RFC 4121, section 4.2.2).
pub const ACCEPTOR_SUBKEY: u8 = 4;

/// A message that is handed on by IAKERB (draft-ietf-kitten-iakerb, section 3).
pub const IAKERB_PROXY_TOKEN_ID: [u8; 2] = [0x05, 0x01];

/// The negotiation is complete, as an element (RFC 4178, section 4.2.2).
pub const ACCEPT_COMPLETE: [u8; 3] = [0x0A, 0x01, 0x00];

/// The negotiation goes on, as an element (RFC 4178, section 4.2.2).
pub const ACCEPT_INCOMPLETE: [u8; 3] = [0x0A, 0x01, 0x01];

/// The acceptor refuses the negotiation, as an element (RFC 4178, section 4.2.2).
pub const REJECT: [u8; 3] = [0x0A, 0x01, 0x02];

/// The acceptor asks for a MIC of the list of mechanisms, as an element (RFC 4178, section 4.2.2).
pub const REQUEST_MIC: [u8; 3] = [0x0A, 0x01, 0x03];

/// The type of the checksum in an authenticator, as the octets of its number (RFC 4121, section 4.1.1).
pub const AUTHENTICATOR_CHECKSUM_TYPE: [u8; 3] = [0x00, 0x80, 0x03];

/// The filler of a MIC token (RFC 4121, section 4.2.6.1).
pub const MIC_FILLER: [u8; 5] = [0xFF; 5];

/// The filler of a wrap token (RFC 4121, section 4.2.6.2).
pub const WRAP_FILLER: u8 = 0xFF;
