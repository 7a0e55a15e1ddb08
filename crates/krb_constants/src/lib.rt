//! Numbers of the standards, each under one name. The numbers of `krb_crypto`'s suites are these, too.
//!
//! `picky_krb` hands them on under the paths of the ported crate.
//!
//! `error_name` gives the name of an error code, if the code has one (RFC 4120, section 7.5.9). An `ErrorCode` is displayed as that name
//! and its number, or else as the number alone (`error_text`).
#![tactic(auto)]

pub mod ap_options;
pub mod cksum_types;
pub mod cred_ssp;
pub mod error_codes;
pub mod error_names;
pub mod etypes;
pub mod gss_api;
pub mod kdc_options;
pub mod key_usages;
pub mod krb_priv;
pub mod padata_types;
pub mod ticket_flags;
pub mod types;
