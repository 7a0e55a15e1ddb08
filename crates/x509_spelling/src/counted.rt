//! Values with the count of what deviates in their spelling.
ghost use Rattle.std.specs.Prelude.{◌≡◌, ◌+◌, MatchResult};

use crate::fault::X509Fault;

/// A value, and how many deviations are in the bytes that it was read from.
#[derive(Drop)]
pub struct Counted<T> {
    /// The value.
    pub value: T,
    /// How many deviations there are.
    pub count: usize,
}

impl<T> Counted<T> {
    /// The value.
    pub fn into_value(self) -> T
        ensures { result ≡ self.value }
    {
        self.value
    }
}

/// The sum of two counts. A sum that no number holds is returned as `Memory`.
pub fn sum_of(first: usize, second: usize) -> Result<usize, X509Fault>
    ensures { MatchResult result (λ sum. sum ≡ first + second) (λ fault. fault ≡ X509Fault.Memory) }
{
    match first.checked_add(second) {
        Some(sum) => Ok(sum),
        None => Err(X509Fault::Memory),
    }
}
