//! The PAC of a ticket, by which a Windows realm describes a client to a service (MS-PAC): the account, its groups and names, and who asked
//! for the ticket.
//!
//! - [`verified_pac`] finds the PAC in an admitted ticket's authorization data, and verifies its server signature and its client.
//! - [`LogonInfo`] is KERB_VALIDATION_INFO (MS-PAC, section 2.5). It is a value of NDR (C706, chapter 14), in type serialization of version 1
//!   and little endian (MS-RPCE, section 2.2.6).
//! - [`UpnDnsInfo`] is UPN_DNS_INFO (section 2.10), [`PacAttributes`] PAC_ATTRIBUTES_INFO (section 2.14), [`PacRequestor`] PAC_REQUESTOR
//!   (section 2.15), and [`PacClientInfo`] PAC_CLIENT_INFO (section 2.7). These are layouts of their own.
//!
//! A pointer of NDR is a unique one: zero, or a number that says that its referent follows. Referents are deferred: each is read behind the
//! structure that it is of, in the order of the pointers (C706, section 14.3.12.3). No number leads back to an earlier referent, so there
//! are no cycles. Octets of a gap before a number have any value. Values of an array are kept only once their octets are read, so no count
//! takes memory past the input.
//!
//! What `verified_pac` returns is the only PAC of the ticket. Its server signature is the checksum, under the service's key, of the PAC
//! with zeros behind SignatureType in both signature buffers, and it states the ticket's client and authtime (`Verifies`). Otherwise the
//! call returns the first refusal by its name, unless memory runs out. Elements of authorization data have one PAC, or one reason why they
//! have none (law `one_pac`). Each `read` returns the value that its octets have by the definition in specs/, or the refusal by its name,
//! unless memory runs out (`logon_info`, `upn_dns_info`, `pac_attributes`, `client_info`, `sid_of_all`). So octets have one reading at
//! most. A number of NDR is read where its octets are laid at the first multiple of its size, within the input (`IsLaid`, law
//! `numbers_are_read`).
#![tactic(auto)]

mod attributes;
mod authorization_data;
mod client_info;
mod error;
mod extra_sids;
mod groups;
mod logon_domain;
mod logon_info;
mod logon_names;
mod logon_numbers;
mod ndr;
mod requestor;
mod resource_groups;
mod sid;
mod signature;
mod table;
mod upn;
mod verified;

pub use attributes::PacAttributes;
pub use authorization_data::one_pac;
pub use client_info::PacClientInfo;
pub use error::PacFault;
pub use extra_sids::ExtraSid;
pub use groups::GroupMembership;
pub use logon_domain::LogonDomain;
pub use logon_info::LogonInfo;
pub use logon_names::LogonNames;
pub use logon_numbers::{LogonNumbers, LogonTimes};
pub use ndr::numbers_are_read;
pub use requestor::PacRequestor;
pub use resource_groups::ResourceGroups;
pub use sid::Sid;
pub use upn::{UpnAccount, UpnDnsInfo};
pub use verified::{VerifiedPac, verified_elements, verified_pac};
