//! What sees each request that is answered.
use crate::seen::Seen;
use std::alloc::Global;

/// What sees each request that is answered, before its reply is returned. A log is one.
pub trait Observer {
    ghost use Rattle.krb_kdc.specs.declared.seen.Seen.{Seen};

    // Whether an observer that was the first value may be the last one, after it saw this.
    ghost sees: { Self → Seen → Self → Type 0 };

    /// Takes what was seen of a request.
    fn see(&mut self, alloc: Global, seen: &Seen<'_>)
        ensures { sees self.old seen.now self.new };
}

/// An observer that keeps nothing.
#[derive(Clone, Copy, Debug)]
pub struct Unobserved;

impl Observer for Unobserved {
    ghost sees = { λ _ _ _. Unit {0} };

    fn see(&mut self, _alloc: Global, _seen: &Seen<'_>) {}
}
