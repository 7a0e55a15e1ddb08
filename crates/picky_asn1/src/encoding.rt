//! How the leaf types are written and read in DER.

mod bit_string;
mod general_string;
mod integer;
mod octet_string;
mod oid;
mod restricted_string;
mod times;
