//! Copies of records of many fields, field by field.
//!
//! A derived `clone` drops on each of its ways out all that it has copied by then, so that its proof grows with the square of the
//! fields. Here one generic function copies a field and those behind it, and a record's `clone` has one way out.

ghost use Rattle.std.specs.Prelude.{◌≡◌, Err, IfOk, Ok};

use std::alloc::AllocError;

/// The fields of a record: `()`, or the first and those behind it.
///
/// It says nothing of what is done with them, and is in an `is_clone` alone.
pub trait RecordFields {
    ghost are_copies: { Self → Self → Type 0 };
}

impl RecordFields for () {
    ghost are_copies = { λ _ _. Unit {0} };
}

impl<A: Clone, B: RecordFields> RecordFields for (A, B) {
    ghost are_copies = { λ fields copies. A.is_clone fields.0 copies.0 × B.are_copies fields.1 copies.1 };
}

/// The fields of a record, borrowed, of which `Fields` are copies.
///
/// They are a parameter, since an associated type's bound would be spelled anew for each field and those behind it.
pub trait LentFields<Fields> {
    ghost are_copies: { Self → Fields → Type 0 };

    /// Copies each field by its own `clone`, in order.
    fn copied(&self) -> Result<Fields, AllocError>
        ensures { IfOk result (λ copies. are_copies self.now copies) };
}

impl LentFields<()> for () {
    ghost are_copies = { λ _ _. Unit {0} };

    fn copied(&self) -> Result<(), AllocError> {
        Ok(())
    }
}

impl<'a, A: Clone + Drop, B: LentFields<Fields>, Fields> LentFields<(A, Fields)> for (&'a A, B) {
    ghost are_copies = { λ lent copies. A.is_clone lent.0.now copies.0 × B.are_copies lent.1 copies.1 };

    fn copied(&self) -> Result<(A, Fields), AllocError> {
        let first = self.0.clone()?;
        let others = self.1.copied()?;
        Ok((first, others))
    }
}

/// Both values, or the first error.
///
/// Nested, it makes the parts of a record with one way out.
pub fn both<A: Drop, B: Drop, E: Drop>(
    first: Result<A, E>,
    second: Result<B, E>,
) -> Result<(A, B), E>
    ensures values { IfOk result (λ pair. (first ≡ Ok pair.0) × (second ≡ Ok pair.1)) }
    ensures first_error { (error : E) → first ≡ Err error → result ≡ Err error }
    ensures second_error { (value : A) (error : E) → first ≡ Ok value → second ≡ Err error → result ≡ Err error }
{
    match (first, second) {
        (Ok(first), Ok(second)) => Ok((first, second)),
        (Err(error), _) | (Ok(_), Err(error)) => Err(error),
    }
}
