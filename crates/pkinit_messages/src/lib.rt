//! What PKINIT (RFC 4556) and PKU2U send and sign, and the reply key of PKINIT's algorithm agility (`agility`; RFC 8636).
//!
//! Each type is read if and only if the bytes are its one encoding, and is written as that encoding (`Serialize`, `Deserialize`). An
//! `AuthPack` holds algorithms and keys of X.509 in their DER encoding only. An [`agility::ExtensibleAuthPack`] keeps fields that aren't
//! known as whole elements, and [`agility::ascend`] judges their order: a tag's number once, ascending. [`agility::first_known`] is the
//! first key derivation function that a client lists and that is known here. [`agility::agile_reply_bytes`] is the one encoding of a
//! PA-PK-AS-REP that names a key derivation function. [`agility::derived_key`] is random-to-key of as many octets as the suite's seed has:
//! of H(00000001 | x) | H(00000002 | x) | .., where x is the shared secret with OtherInfo (RFC 8636, section 6). OtherInfo has the
//! function, client and service with their realm, the etype, the whole AS-REQ, and the PA-PK-AS-REP. So a key is of one request and of one
//! reply, and a request or a reply that was changed on its way has another key.
#![tactic(auto)]

pub mod agility;
mod auth_pack;
mod client_public_value;
mod dh_domain_parameters;
mod dh_nonce;
mod dh_rep_info;
mod dh_req_info;
mod dh_req_key_info;
mod external_principal_identifier;
mod kdc_dh_key_info;
mod krb_finished;
mod pa_pk_as_rep;
mod pa_pk_as_req;
mod pk_authenticator;
mod pku2u_nego_body;
mod pku2u_nego_rep;
mod pku2u_nego_req;
mod pku2u_nego_req_metadata;
mod validation_params;

pub use auth_pack::{AuthPack, DhAuthPack, EcAuthPack};
pub use client_public_value::ClientPublicValue;
pub use dh_domain_parameters::DhDomainParameters;
pub use dh_nonce::DhNonce;
pub use dh_rep_info::DhRepInfo;
pub use dh_req_info::DhReqInfo;
pub use dh_req_key_info::DhReqKeyInfo;
pub use external_principal_identifier::ExternalPrincipalIdentifier;
pub use kdc_dh_key_info::KdcDhKeyInfo;
pub use krb_finished::KrbFinished;
pub use pa_pk_as_rep::PaPkAsRep;
pub use pa_pk_as_req::PaPkAsReq;
pub use pk_authenticator::PkAuthenticator;
pub use pku2u_nego_body::Pku2uNegoBody;
pub use pku2u_nego_rep::Pku2uNegoRep;
pub use pku2u_nego_req::Pku2uNegoReq;
pub use pku2u_nego_req_metadata::Pku2uNegoReqMetadata;
pub use validation_params::ValidationParams;
