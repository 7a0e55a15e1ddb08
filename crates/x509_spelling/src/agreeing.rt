//! Values of which the fields have to agree.
ghost use Rattle.std.specs.Prelude.{◌≡◌, Bool, IsTrue, MatchResult};
ghost use Rattle.x509_spelling.specs.Answers.{Tells};

use crate::counted::Counted;
use crate::fault::X509Fault;
use crate::spelled::Spelled;
use std::alloc::Global;

/// A type of which not each value is meant, but those whose fields agree.
pub trait Agreeing: Spelled {
    ghost agrees: { Self → Bool };

    /// Whether the fields agree.
    fn agree(&self) -> bool
        ensures { result ≡ agrees self.now };
}

/// The value of which the bytes are a spelling, and whose fields agree.
pub fn read_agreeing<T: Agreeing>(alloc: Global, bytes: &[u8]) -> Result<Counted<T>, X509Fault>
    ensures { Tells (λ value n. IsTrue (T.agrees value) × T.spells value bytes.now n) result }
{
    let read = T::read_counted(alloc, bytes)?;
    if !read.value.agree() {
        return Err(X509Fault::Meaning);
    }
    Ok(read)
}
