//! The AS exchange of a realm (RFC 4120, section 3.1): its table and the code of each row.
//!
//! `judge_as` gives the reply that `as_table` grants, or the code of the first row that refuses, for each implementation of `Pkinit`. The
//! body and the first padata of a type are parts of the request's own bytes (laws `as_body_is_part`, `padata_is_part`).

mod grant;
mod judge;
pub mod laws;
mod whole;

pub(crate) use grant::Principals;
pub use whole::judge_as;
