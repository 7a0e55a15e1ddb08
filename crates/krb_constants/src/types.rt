//! The version, message types, which are application tags too, further application tags, types of names, of addresses and of data.

/// The version of Kerberos, of messages, tickets and authenticators (RFC 4120, section 5.4.1).
pub const KERBEROS_VERSION: u32 = 5;

/// The identifier octet of a constructed value under an application tag, without the tag's number (X.690, section 8.1.2).
pub const APPLICATION: u8 = 0x60;

/// An AS-REQ (RFC 4120, section 5.10).
pub const AS_REQ_MSG_TYPE: u8 = 10;

/// An AS-REP (RFC 4120, section 5.10).
pub const AS_REP_MSG_TYPE: u8 = 11;

/// A TGS-REQ (RFC 4120, section 5.10).
pub const TGS_REQ_MSG_TYPE: u8 = 12;

/// A TGS-REP (RFC 4120, section 5.10).
pub const TGS_REP_MSG_TYPE: u8 = 13;

/// An AP-REQ (RFC 4120, section 5.10).
pub const AP_REQ_MSG_TYPE: u8 = 14;

/// An AP-REP (RFC 4120, section 5.10).
pub const AP_REP_MSG_TYPE: u8 = 15;

/// A request for a ticket-granting ticket of user to user (draft-swift-win2k-krb-user2user, section 4).
pub const TGT_REQ_MSG_TYPE: u8 = 16;

/// The reply to it (draft-swift-win2k-krb-user2user, section 4).
pub const TGT_REP_MSG_TYPE: u8 = 17;

/// A KRB-PRIV (RFC 4120, section 5.10).
pub const KRB_PRIV: u8 = 21;

/// A KRB-CRED (RFC 4120, section 5.10).
pub const KRB_CRED_MSG_TYPE: u8 = 22;

/// A KRB-ERROR (RFC 4120, section 5.10).
pub const KRB_ERROR_MSG_TYPE: u8 = 30;

/// A ticket (RFC 4120, section 5.10).
pub const TICKET_TYPE: u8 = 1;

/// An authenticator (RFC 4120, section 5.10).
pub const AUTHENTICATOR_TYPE: u8 = 2;

/// The sealed part of a ticket (RFC 4120, section 5.10).
pub const ENC_TICKET_PART_TYPE: u8 = 3;

/// The sealed part of an AS-REP (RFC 4120, section 5.10).
pub const ENC_AS_REP_PART_TYPE: u8 = 25;

/// The sealed part of a TGS-REP (RFC 4120, section 5.10).
pub const ENC_TGS_REP_PART_TYPE: u8 = 26;

/// The sealed part of an AP-REP (RFC 4120, section 5.10).
pub const ENC_AP_REP_PART_TYPE: u8 = 27;

/// The sealed part of a KRB-PRIV (RFC 4120, section 5.10).
pub const KRB_PRIV_ENC_PART: u8 = 28;

/// The sealed part of a KRB-CRED (RFC 4120, section 5.10).
pub const ENC_KRB_CRED_PART_TYPE: u8 = 29;

/// A name of no known type (RFC 4120, section 6.2).
pub const NT_UNKNOWN: u8 = 0;

/// The name of a principal (RFC 4120, section 6.2).
pub const NT_PRINCIPAL: u8 = 1;

/// The name of a service and its instance (RFC 4120, section 6.2).
pub const NT_SRV_INST: u8 = 2;

/// The name of a service and its host (RFC 4120, section 6.2).
pub const NT_SRV_HST: u8 = 3;

/// The name of a service with its host as further components (RFC 4120, section 6.2).
pub const NT_SRV_XHST: u8 = 4;

/// A unique identifier (RFC 4120, section 6.2).
pub const NT_UID: u8 = 5;

/// An encoded distinguished name (RFC 4120, section 6.2).
pub const NT_X500_PRINCIPAL: u8 = 6;

/// A mail address (RFC 4120, section 6.2).
pub const NT_SMTP_NAME: u8 = 7;

/// A name that the realm maps to a principal (RFC 4120, section 6.2; RFC 6806, section 5).
pub const NT_ENTERPRISE: u8 = 10;

/// Data with a time that the client seals, as the octets of its number (RFC 4120, section 7.5.2).
pub const PA_ENC_TIMESTAMP: [u8; 1] = [2];

/// What the key of such a time is used for (RFC 4120, section 7.5.1).
pub const PA_ENC_TIMESTAMP_KEY_USAGE: i32 = 1;

/// Data that says whether a PAC is to be included (MS-KILE, section 2.2.3).
pub const PA_PAC_REQUEST_TYPE: [u8; 2] = [0x00, 0x80];

/// Data that says how a key is made of a password (RFC 4120, section 7.5.2).
pub const PA_ETYPE_INFO2_TYPE: [u8; 1] = [0x13];

/// Data with an AP request (RFC 4120, section 7.5.2).
pub const PA_TGS_REQ_TYPE: [u8; 1] = [1];

/// Data with the options of a PAC (MS-KILE, section 2.2.10).
pub const PA_PAC_OPTIONS_TYPE: [u8; 2] = [0x00, 0xA7];

/// Data by public keys of a request (RFC 4556, section 3.1.3).
pub const PA_PK_AS_REQ: [u8; 1] = [0x10];

/// Data by public keys of a reply (RFC 4556, section 3.1.3).
pub const PA_PK_AS_REP: [u8; 1] = [0x11];

/// An address of IPv4 (RFC 4120, section 7.5.3).
pub const IP_V4_ADDR_TYPE: u8 = 2;

/// An address of a direction (RFC 4120, section 7.5.3).
pub const DIRECTIONAL_ADDR_TYPE: u8 = 3;

/// An address of ChaosNet (RFC 4120, section 7.5.3).
pub const CHAOS_NET_ADDR_TYPE: u8 = 5;

/// An address of Xerox Network Services (RFC 4120, section 7.5.3).
pub const XNS_ADDR_TYPE: u8 = 6;

/// An address of ISO (RFC 4120, section 7.5.3).
pub const ISO_ADDR_TYPE: u8 = 7;

/// An address of DECnet phase IV (RFC 4120, section 7.5.3).
pub const DECNET_PHASE_IV_ADDR_TYPE: u8 = 12;

/// An address of AppleTalk's DDP (RFC 4120, section 7.5.3).
pub const APPLETALK_DDP_ADDR_TYPE: u8 = 16;

/// An address of NetBIOS (RFC 4120, section 7.5.3).
pub const NET_BIOS_ADDR_TYPE: u8 = 20;

/// An address of IPv6 (RFC 4120, section 7.5.3).
pub const IP_V6_ADDR_TYPE: u8 = 24;

/// Authorization data with options of an AP request (MS-KILE, section 3.2.5.8).
pub const AD_AUTH_DATA_AP_OPTION_TYPE: [u8; 2] = [0x00, 0x8F];

/// The option that channel bindings are there (MS-KILE, section 3.2.5.8).
pub const KERB_AP_OPTIONS_CBT: [u8; 2] = [0x40, 0x00];
