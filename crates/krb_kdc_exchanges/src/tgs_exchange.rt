//! The TGS exchange of a realm (RFC 4120, section 3.3): its table and the code of each row.
//!
//! The rows for the presented ticket and its authenticator are in `krb_ap_requests`. Those that AS and TGS requests share are in
//! `requests`.
//!
//! `judge_tgs` gives the reply that `tgs_table` grants, or the code of the first row that refuses. The checksum covers the one encoding of
//! the body, which is a part of the request's own bytes (law `body_is_part`).

mod checksum;
mod grant;
mod judge;
pub mod laws;
mod options;
mod renewing;
mod whole;

pub use whole::judge_tgs;
