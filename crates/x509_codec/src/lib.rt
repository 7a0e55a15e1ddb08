//! Reading and writing of X.509 values in any spelling that is accepted, and the bytes that signatures cover.
//!
//! [`from_bytes`] reads a value, [`deviations`] counts what deviates in its spelling, and [`to_vec`] writes it strictly.
//! [`with_signed_part`] reads a [`Signed`] value, as a certificate (RFC 5280, section 4.1), with the bytes that its signature is over.
//! [`as_set`] gives the bytes that a signature of signed data is over (RFC 5652, section 5.4).
//!
//! `from_bytes` reads the whole input and returns the value of which it is a spelling, and `deviations` the count of deviations. `to_vec`
//! writes DER, which is the input again exactly where the count is 0. `with_signed_part` returns the signed bytes as they are in the input.
//! `as_set` returns signed attributes with the identifier octet of a SET OF in place of their first octet: nothing else of them changes.
#![tactic(auto)]

mod calls;
mod covered;
mod laws;
mod signed;

pub use calls::{deviations, encoded_len, from_bytes, to_vec};
pub use covered::as_set;
pub use laws::valid_leaf_is_whole;
pub use signed::{Signed, with_signed_part};
