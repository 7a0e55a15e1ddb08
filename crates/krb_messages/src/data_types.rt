//! What messages hold (RFC 4120, sections 5.2 to 5.5).

mod authenticator;
mod authorization_data;
mod checksum;
mod enc_ap_rep_part;
mod enc_ticket_part;
mod encrypted_data;
mod encryption_key;
mod etype_info2;
mod host_address;
mod last_req;
mod name_text;
mod pa_data;
mod pa_enc_timestamp;
mod principal_name;
mod ticket;
mod transited_encoding;

pub use authenticator::{Authenticator, AuthenticatorInner};
pub use authorization_data::{AuthorizationData, AuthorizationDataInner};
pub use checksum::Checksum;
pub use enc_ap_rep_part::{EncApRepPart, EncApRepPartInner};
pub use enc_ticket_part::{EncTicketPart, EncTicketPartInner};
pub use encrypted_data::EncryptedData;
pub use encryption_key::EncryptionKey;
pub use etype_info2::{EtypeInfo2, EtypeInfo2Entry};
pub use host_address::{HostAddress, HostAddresses};
pub use last_req::{LastReq, LastReqInner};
pub use name_text::NameInRealm;
pub use pa_data::PaData;
pub use pa_enc_timestamp::{PaEncTimestamp, PaEncTsEnc};
use picky_asn1::wrapper::{BitStringAsn1, GeneralStringAsn1, GeneralizedTimeAsn1, IntegerAsn1};
pub use principal_name::PrincipalName;
pub use ticket::{Ticket, TicketInner};
pub use transited_encoding::TransitedEncoding;

/// A string (RFC 4120, section 5.2.1).
///
/// ```text
/// KerberosString ::= GeneralString (IA5String)
/// ```
pub type KerberosStringAsn1 = GeneralStringAsn1;

/// The name of a realm (RFC 4120, section 5.2.2).
///
/// ```text
/// Realm ::= KerberosString
/// ```
pub type Realm = KerberosStringAsn1;

/// A time to the second (RFC 4120, section 5.2.3).
///
/// ```text
/// KerberosTime ::= GeneralizedTime
/// ```
pub type KerberosTime = GeneralizedTimeAsn1;

/// Microseconds (RFC 4120, section 5.2.4): any number is read, since the rules that judge one say where.
///
/// ```text
/// Microseconds ::= INTEGER (0..999999)
/// ```
pub type Microseconds = IntegerAsn1;

/// Flags (RFC 4120, section 5.2.8): bits that are missing are 0.
///
/// ```text
/// KerberosFlags ::= BIT STRING (SIZE (32..MAX))
/// ```
pub type KerberosFlags = BitStringAsn1;

/// The options of a request to a service (RFC 4120, section 5.5.1).
///
/// ```text
/// APOptions ::= KerberosFlags
///      -- reserved(0),
///      -- use-session-key(1),
///      -- mutual-required(2)
/// ```
pub type ApOptions = KerberosFlags;
