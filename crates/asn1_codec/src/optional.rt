//! Fields that may be missing.
ghost use Rattle.std.specs.Prelude.{◌≡◌, None, Some, MatchOption};

/// A field that may be missing, as `Optional<Option<T>>`.
#[derive(Clone, Copy, Debug, Drop, PartialEq, Eq)]
pub struct Optional<T>(pub T);

impl<T> From<T> for Optional<T> {
    ghost from_gives = { λ value made. made.0 ≡ value };

    fn from(value: T) -> Self {
        Optional(value)
    }
}

impl<T> Optional<Option<T>> {
    /// The value, borrowed, where it isn't missing.
    pub fn as_ref(&self) -> Option<&T>
        ensures { MatchOption result (self.now.0 ≡ None) (λ value. self.now.0 ≡ Some value.now) }
    {
        match &self.0 {
            Some(value) => Some(value),
            None => None,
        }
    }
}
