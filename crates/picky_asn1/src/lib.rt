//! The leaf types of ASN.1: integers, strings, object identifiers and times, and their lists, as DER has them (X.690).
//!
//! `from_content` of INTEGER, BIT STRING and the string types answers a value if and only if the content meets the type's condition, and
//! `new` refuses what doesn't. INTEGER has any size and sign. SEQUENCE OF and SET OF keep the given order. `BitStringAsn1::set` turns one
//! bit, and no other. `IntegerAsn1::to_i64`, [`is_number`] and `as_unsigned_bytes_be` say the number. The order
//! of INTEGER, BIT STRING, OCTET STRING and the string types is that of their content octets.
#![tactic(auto)]

pub mod bit_string;
mod encoding;
mod few_octets;
mod general_string;
mod integer;
mod integer_text;
mod list_of;
mod octet_string;
pub mod restricted_string;
pub mod tag;
pub mod wrapper;

pub use asn1_leaves::{LeafFault, date, oid};
