//! A copy of a value is the value, for the types of Kerberos.
//!
//! Each type of the Kerberos messages has the law [`Copies`], with the leaves and wrappers of its fields, and with the faults. A type
//! with a parameter has it where its parameter has. For the types of X.509 each contract of `clone` says it.
//!
//! A copy by `clone` of a value whose type has [`Copies`] is the value (`is_copy`), and [`copy_of`] returns such a copy. Copies of a
//! record's fields, each by the field's own `clone`, are the fields ([`RowCopies`]).

ghost use Rattle.std.specs.Prelude.{◌≡◌, IfOk};

mod credentials;
mod data_types;
mod delegated;
mod kile;
mod layouts;
mod leaves;
mod messages;
mod passwords;
mod pkinit;
mod rows;
mod suites;
mod tokens;
mod wrapped;

pub use rows::RowCopies;
use std::alloc::AllocError;

/// Types of which a copy by `clone` is the value.
pub trait Copies: Clone {
    ghost is_copy: { (value copy : Self) → Self.is_clone value copy → copy ≡ value };
}

/// A copy of the value.
pub fn copy_of<T: Copies>(value: &T) -> Result<T, AllocError>
    ensures { IfOk result (λ copy. copy ≡ value.now) }
{
    value.clone()
}
