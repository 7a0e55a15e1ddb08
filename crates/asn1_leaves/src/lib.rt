//! The leaf types of ASN.1 that are distinguished by their content alone: object identifiers and times; the
//! character sets of the string types.
//!
//! `ObjectIdentifier::{from_arcs, from_text, from_content}` answer the identifier of these arcs, this dotted text or this content, or
//! refuse what is none. `GeneralizedTime::new` and `UTCTime::new` make a time of each real date of their years, and of nothing else. A
//! GeneralizedTime and its seconds determine each other (`seconds`, `from_seconds`). `CharSet::has_text` says which octets are characters
//! of a string type. Object identifiers are ordered by their arcs, and times by the calendar.
#![tactic(auto)]

mod ascii;
pub mod char_sets;
pub mod date;
mod dotted;
mod fault;
mod number;
pub mod oid;
mod utc_time;

pub use fault::LeafFault;
