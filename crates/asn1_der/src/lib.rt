//! The base of DER (X.690): trees of elements, lengths, contents, and what is refused.
//!
//! `LengthOctets::of` answers the one minimal spelling of a length. [`length_of`] reads that spelling alone, and [`following`] says how
//! many octets follow the first one. A [`Content`] holds the octets that it was made of. `Asn1DerError::number` gives each variant a
//! number of its own.
#![tactic(auto)]

ghost use Rattle.std.specs.Prelude.{◌≡◌};

mod content;
mod error;
mod length;
pub mod octets;

pub use content::{Content, MOST_IN_PLACE};
pub use error::{Asn1DerError, Rule, Unsupported};
pub use length::{LengthOctets, following, length_of};
