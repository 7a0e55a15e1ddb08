//! Messages of Microsoft's protocols beside Kerberos: the exchange that changes a password (RFC 3244), data beside requests, errors and
//! tickets (MS-KILE, section 2.2), messages to a proxy of KDCs (MS-KKDCP) and those of user to user
//! (draft-swift-win2k-krb-user2user), and the credentials that a client delegates to a server by CredSSP (MS-CSSP, section 2.2.1.2). The
//! PAC, by which a Windows realm describes a client to a service (`pac`; MS-PAC, sections 2.3 and 2.4): a table of buffers, and each
//! buffer's content where the table puts it. Contents are returned as bytes.
//!
//! The names, fields and tags are those of the ported crate.
//!
//! Each type is read if and only if the bytes are its one encoding, and is written as that encoding (`Serialize`, `Deserialize`).
//! `KdcProxyMessage::from_raw` reads the message that begins its input, and leaves the rest. `KrbPrivFrame::deserialize` gives two
//! messages as they are laid out in the taken bytes, or the first fault of the bytes or of the device (`IsFramedAs`, `IsRefusal`).
//! `KrbPrivFrame::serialize` writes the frame with its true lengths, and refuses one of more than 65,535 bytes with nothing written. A
//! written frame is read again, where each part has at most 10,240 bytes (law `written_is_read`). `Pac::deserialize` reads a PAC that is
//! laid out in the source (`IsPac`), and the first wrong thing in the bytes decides the refusal. Of any device an I/O error is the end of
//! the bytes or the device's own counted fault. A buffer is kept only once its row is read: at most one for 16 bytes that came. What is
//! written is read again if the buffers lie behind the table and apart (law `pac::written_is_read`).
#![tactic(auto)]

mod ap_message;
mod change_passwd_data;
mod enc_krb_priv_part;
mod error;
mod frame;
mod header;
mod kdc_proxy_message;
mod kerb_ad_restriction_entry;
mod kerb_error_data;
mod kerb_pa_pac_request;
mod krb_priv;
mod pa_pac_options;
pub mod pac;
mod part;
mod tgt_rep;
mod tgt_req;
mod ts_credentials;
mod ts_csp_data_detail;
mod ts_password_creds;
mod ts_remote_guard_creds;
mod ts_remote_guard_package_cred;
mod ts_smart_card_creds;

pub use ap_message::ApMessage;
pub use change_passwd_data::ChangePasswdData;
pub use enc_krb_priv_part::{EncKrbPrivPart, EncKrbPrivPartInner};
pub use error::KrbPrivFrameError;
pub use frame::{KrbPrivFrame, written_is_read};
pub use kdc_proxy_message::KdcProxyMessage;
pub use kerb_ad_restriction_entry::KerbAdRestrictionEntry;
pub use kerb_error_data::KerbErrorData;
pub use kerb_pa_pac_request::KerbPaPacRequest;
pub use krb_priv::{KrbPriv, KrbPrivInner};
pub use pa_pac_options::PaPacOptions;
pub use pac::{Pac, PacBuffer, PacBufferType, PacError, PacInfoBuffer};
pub use tgt_rep::TgtRep;
pub use tgt_req::TgtReq;
pub use ts_credentials::TsCredentials;
pub use ts_csp_data_detail::TsCspDataDetail;
pub use ts_password_creds::TsPasswordCreds;
pub use ts_remote_guard_creds::TsRemoteGuardCreds;
pub use ts_remote_guard_package_cred::TsRemoteGuardPackageCred;
pub use ts_smart_card_creds::TsSmartCardCreds;

/// A request or a reply of the exchange that changes a password (RFC 3244, section 2), in its frame.
pub type KrbPrivMessage = KrbPrivFrame<ApMessage, KrbPriv>;
