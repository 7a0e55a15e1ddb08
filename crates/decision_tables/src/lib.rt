//! Decision tables (`specs/Tables`).
//!
//! A table is a relation with one outcome at most, of which the first case that holds counts. Contracts of the crates above say that a
//! call answers by a table. Code follows its rows by results: the first error is the outcome.
//!
//! A value of a type parameter is dropped by one call, of a function that is proved once. In a function that owns a big value at its
//! own type, such as a decoded message, the drop is spelled out at each way out, and is most of that function's proof. So a function
//! that makes a big value keeps the outcome of what it does with it, lets the value go by `drop`, and answers the outcome.
//!
//! A `Table` has one outcome at most, and proves it: the first row that holds decides. By the lemmas of proofs/Outcomes it can't be that a
//! table has no outcome where its parts have one. [`if_passed`] answers its
//! value where the check passed, and else the check's error. It can't run out of memory.
#![tactic(auto)]

ghost use Rattle.std.specs.Prelude.{◌≡◌, Err, Ok};

/// The value where its check passed, else the check's error.
pub fn if_passed<T: Drop, E: Drop>(value: T, check: Result<(), E>) -> Result<T, E>
    ensures passed { check ≡ Ok tt → result ≡ Ok value }
    ensures refused { (error : E) → check ≡ Err error → result ≡ Err error }
{
    match check {
        Ok(()) => Ok(value),
        Err(error) => Err(error),
    }
}
