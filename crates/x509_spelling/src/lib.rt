//! Spellings of X.509 values, and how far they deviate from the strict ones.
//!
//! Certificates in the field aren't always DER: some spell out a default, or leave out a NULL. A [`Spelled`] type says
//! which such bytes are read as which value, and counts what deviates in them; it is written strictly. Of an extension, an attribute
//! or an algorithm's parameters the object identifier in front decides the kind of the value ([`Kinds`]).
//!
//! Bytes have at most one value and one count of deviations (`SpellingLaws`). The strict spelling of a value is its DER, and has the count 0.
//! [`read_strict`] reads DER alone. For one object identifier, bytes have at most one value of the kind that it decides. `read_identified`,
//! `read_chosen`, `read_chosen_in` and `read_chosen_behind` return that value and its count of deviations, or refuse bytes that have none.
#![tactic(auto)]

mod agreeing;
mod ahead;
mod chosen;
mod counted;
mod default_false;
mod enclosed;
mod exact;
mod fault;
mod fields;
mod fixed_number;
mod front;
mod identified;
mod implied;
mod kinds;
mod leaves;
mod list;
mod reading;
mod sequence;
mod spelled;
mod strict;
mod told_by;

pub use agreeing::{Agreeing, read_agreeing};
pub use ahead::Ahead;
pub use chosen::{Identified, read_chosen, read_chosen_behind, read_chosen_in};
pub use counted::{Counted, sum_of};
pub use default_false::{CaFlag, Critical, DefaultFalse};
pub use enclosed::{Enclosed, Explicit, read_held};
pub use exact::{Exact, read_exact};
pub use fault::X509Fault;
pub use fields::{Deviates, SpelledFields, SpelledItem};
pub use fixed_number::FixedNumber;
pub use front::read_front;
pub use identified::read_identified;
pub use implied::{Implied, Implies};
pub use kinds::{Kind, KindOf, Kinds, LastKind};
pub use list::Many;
pub use reading::read_strict;
pub use sequence::{content_of, read_fields};
pub use spelled::Spelled;
pub use strict::Strict;
pub use told_by::{Identifiers, ToldBy};
