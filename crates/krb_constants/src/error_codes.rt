//! Codes of a KRB-ERROR (RFC 4120, section 7.5.9; RFC 4556, section 3.1.3).

/// No error.
pub const KDC_ERR_NONE: u32 = 0;

/// The client's entry has expired.
pub const KDC_ERR_NAME_EXP: u32 = 1;

/// The service's entry has expired.
pub const KDC_ERR_SERVICE_EXP: u32 = 2;

/// The protocol version isn't 5.
pub const KDC_ERR_BAD_PVNO: u32 = 3;

/// The client's key is under an old master key.
pub const KDC_ERR_C_OLD_MAST_KVNO: u32 = 4;

/// The service's key is under an old master key.
pub const KDC_ERR_S_OLD_MAST_KVNO: u32 = 5;

/// The client isn't known.
pub const KDC_ERR_C_PRINCIPAL_UNKNOWN: u32 = 6;

/// The service isn't known.
pub const KDC_ERR_S_PRINCIPAL_UNKNOWN: u32 = 7;

/// A name has several entries.
pub const KDC_ERR_PRINCIPAL_NOT_UNIQUE: u32 = 8;

/// The client or the service has a null key.
pub const KDC_ERR_NULL_KEY: u32 = 9;

/// A ticket can't be postdated.
pub const KDC_ERR_CANNOT_POSTDATE: u32 = 10;

/// The ticket would end where it starts, or earlier.
pub const KDC_ERR_NEVER_VALID: u32 = 11;

/// A request asks for what the realm doesn't grant.
pub const KDC_ERR_POLICY: u32 = 12;

/// An option isn't granted.
pub const KDC_ERR_BADOPTION: u32 = 13;

/// No suite that the request lists is at hand.
pub const KDC_ERR_ETYPE_NOSUPP: u32 = 14;

/// The checksum's type isn't known.
pub const KDC_ERR_SUMTYPE_NOSUPP: u32 = 15;

/// The preauthentication isn't supported.
pub const KDC_ERR_PADATA_TYPE_NOSUPP: u32 = 16;

/// The transited encoding has a type that is not supported.
pub const KDC_ERR_TRTYPE_NOSUPP: u32 = 17;

/// The client's credentials are revoked.
pub const KDC_ERR_CLIENT_REVOKED: u32 = 18;

/// The service's credentials are revoked.
pub const KDC_ERR_SERVICE_REVOKED: u32 = 19;

/// The ticket-granting ticket is revoked.
pub const KDC_ERR_TGT_REVOKED: u32 = 20;

/// The client isn't valid yet.
pub const KDC_ERR_CLIENT_NOTYET: u32 = 21;

/// The service isn't valid yet.
pub const KDC_ERR_SERVICE_NOTYET: u32 = 22;

/// The password has expired.
pub const KDC_ERR_KEY_EXPIRED: u32 = 23;

/// The preauthentication doesn't show that the client has its key.
pub const KDC_ERR_PREAUTH_FAILED: u32 = 24;

/// The client has to authenticate first.
pub const KDC_ERR_PREAUTH_REQUIRED: u32 = 25;

/// The service and the ticket do not match.
pub const KDC_ERR_SERVER_NOMATCH: u32 = 26;

/// The service is to be used with a ticket of user to user.
pub const KDC_ERR_MUST_USE_USER2USER: u32 = 27;

/// The realm's policy refuses the path of the ticket.
pub const KDC_ERR_PATH_NOT_ACCEPTED: u32 = 28;

/// A service is not available.
pub const KDC_ERR_SVC_UNAVAILABLE: u32 = 29;

/// What is sealed doesn't open under the key.
pub const KRB_AP_ERR_BAD_INTEGRITY: u32 = 31;

/// The ticket has ended.
pub const KRB_AP_ERR_TKT_EXPIRED: u32 = 32;

/// The ticket isn't valid yet.
pub const KRB_AP_ERR_TKT_NYV: u32 = 33;

/// The request was admitted before.
pub const KRB_AP_ERR_REPEAT: u32 = 34;

/// The ticket is for another service.
pub const KRB_AP_ERR_NOT_US: u32 = 35;

/// The authenticator is another client's than the ticket.
pub const KRB_AP_ERR_BADMATCH: u32 = 36;

/// The clocks differ by more than the skew.
pub const KRB_AP_ERR_SKEW: u32 = 37;

/// The address is another one.
pub const KRB_AP_ERR_BADADDR: u32 = 38;

/// The protocol version of a ticket or an authenticator isn't 5.
pub const KRB_AP_ERR_BADVERSION: u32 = 39;

/// The message type isn't the request's.
pub const KRB_AP_ERR_MSG_TYPE: u32 = 40;

/// A message was modified.
pub const KRB_AP_ERR_MODIFIED: u32 = 41;

/// The message is out of order.
pub const KRB_AP_ERR_BADORDER: u32 = 42;

/// The ticket is under a key of another number.
pub const KRB_AP_ERR_BADKEYVER: u32 = 44;

/// The service has no key of the ticket's suite.
pub const KRB_AP_ERR_NOKEY: u32 = 45;

/// Mutual authentication failed.
pub const KRB_AP_ERR_MUT_FAIL: u32 = 46;

/// The direction of the message is wrong.
pub const KRB_AP_ERR_BADDIRECTION: u32 = 47;

/// The service doesn't authenticate in this way.
pub const KRB_AP_ERR_METHOD: u32 = 48;

/// The sequence number is wrong.
pub const KRB_AP_ERR_BADSEQ: u32 = 49;

/// There is no checksum, or one of another key's suite.
pub const KRB_AP_ERR_INAPP_CKSUM: u32 = 50;

/// The service's policy refuses the path of the ticket.
pub const KRB_AP_PATH_NOT_ACCEPTED: u32 = 51;

/// The reply is too long for UDP; try again over TCP.
pub const KRB_ERR_RESPONSE_TOO_BIG: u32 = 52;

/// An error that has no code of its own.
pub const KRB_ERR_GENERIC: u32 = 60;

/// A field is too long for this program.
pub const KRB_ERR_FIELD_TOOLONG: u32 = 61;

/// The client's certificate leads to no trusted authority.
pub const KDC_ERROR_CLIENT_NOT_TRUSTED: u32 = 62;

/// The KDC's certificate leads to no trusted authority.
pub const KDC_ERROR_KDC_NOT_TRUSTED: u32 = 63;

/// The signature doesn't verify.
pub const KDC_ERROR_INVALID_SIG: u32 = 64;

/// The key of the agreement is too weak.
pub const KDC_ERR_KEY_TOO_WEAK: u32 = 65;

/// The certificate isn't the client's.
pub const KDC_ERR_CERTIFICATE_MISMATCH: u32 = 66;

/// There is no ticket-granting ticket for user to user.
pub const KRB_AP_ERR_NO_TGT: u32 = 67;

/// The realm is another one.
pub const KDC_ERR_WRONG_REALM: u32 = 68;

/// The ticket is to be one of user to user.
pub const KRB_AP_ERR_USER_TO_USER_REQUIRED: u32 = 69;

/// The certificate can't be verified.
pub const KDC_ERR_CANT_VERIFY_CERTIFICATE: u32 = 70;

/// The certificate is invalid.
pub const KDC_ERR_INVALID_CERTIFICATE: u32 = 71;

/// The certificate is revoked.
pub const KDC_ERR_REVOKED_CERTIFICATE: u32 = 72;

/// Whether the certificate is revoked is unknown.
pub const KDC_ERR_REVOCATION_STATUS_UNKNOWN: u32 = 73;

/// Whether the certificate is revoked can't be asked.
pub const KDC_ERR_REVOCATION_STATUS_UNAVAILABLE: u32 = 74;

/// The client isn't the one of its certificate.
pub const KDC_ERR_CLIENT_NAME_MISMATCH: u32 = 75;

/// The KDC isn't the one of its certificate.
pub const KDC_ERR_KDC_NAME_MISMATCH: u32 = 76;

/// The certificate's key is for another purpose (RFC 4556, section 3.1.3).
pub const KDC_ERR_INCONSISTENT_KEY_PURPOSE: u32 = 77;

/// The certificate is signed under a digest that isn't accepted (RFC 4556, section 3.1.3).
pub const KDC_ERR_DIGEST_IN_CERT_NOT_ACCEPTED: u32 = 78;

/// The request has to carry its body's checksum (RFC 4556, section 3.1.3).
pub const KDC_ERR_PA_CHECKSUM_MUST_BE_INCLUDED: u32 = 79;

/// The signed data is signed under a digest that isn't accepted (RFC 4556, section 3.1.3).
pub const KDC_ERR_DIGEST_IN_SIGNED_DATA_NOT_ACCEPTED: u32 = 80;

/// The KDC doesn't encrypt the reply's key under the certificate's (RFC 4556, section 3.1.3).
pub const KDC_ERR_PUBLIC_KEY_ENCRYPTION_NOT_SUPPORTED: u32 = 81;

/// The IAKERB proxy found no KDC (draft-ietf-kitten-iakerb, section 3).
pub const KRB_AP_ERR_IAKERB_KDC_NOT_FOUND: u32 = 85;

/// The KDC gave the IAKERB proxy no reply (draft-ietf-kitten-iakerb, section 3).
pub const KRB_AP_ERR_IAKERB_KDC_NO_RESPONSE: u32 = 86;
