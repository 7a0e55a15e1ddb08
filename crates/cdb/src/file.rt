//! Files that are read at positions.
ghost use Rattle.std.specs.Prelude.{◌≡◌, List, ℕ, Option, None, Some};
ghost use Rattle.std.specs.declared.io.ErrorKind.{ErrorKind};
ghost use Rattle.cdb.specs.Reading.{ReadsAt};

use crate::fault::Fault;
use std::io::ErrorKind;
use std::os::unix::fs::FileExt;

/// A file that is read at positions. An octet's position is how many octets precede it.
pub trait ReadAt {
    // The file's octets, where they are known.
    ghost content: { Self → Option (List ℕ) };

    // The kinds of fault by which a read may fail.
    ghost fails: { Self → ErrorKind → Type 0 };

    /// Fills `buffer` with the octets from `position` on. It refuses as `Damaged` if the file ends before, and as `Failed` if the
    /// device fails. After a refusal the content of `buffer` isn't known.
    fn read_at(&self, position: u64, buffer: &mut [u8]) -> Result<(), Fault>
        ensures { (bytes : List ℕ) → content self.now ≡ Some bytes → ReadsAt (fails self.now) result position bytes buffer.new };
}

/// Octets in memory. No read fails.
impl ReadAt for &[u8] {
    ghost content = { λ s. Some s.now };

    ghost fails = { λ _ _. ⊥ };

    fn read_at(&self, position: u64, buffer: &mut [u8]) -> Result<(), Fault> {
        let bytes: &[u8] = *self;
        fill(bytes, position, buffer)
    }
}

// Fills the buffer with the octets from a position on.
fn fill(bytes: &[u8], position: u64, buffer: &mut [u8]) -> Result<(), Fault>
    ensures { ReadsAt (λ _. ⊥) result position bytes.now buffer.new }
{
    let size = bytes.len() as u64;
    let room = buffer.len();
    if position > size || size - position < room as u64 {
        return Err(Fault::Damaged);
    }
    let start = position as usize;
    buffer.copy_from_slice(&bytes[start..start + room]);
    Ok(())
}

/// A file of the system, read by `pread`. No clause says what a file of the system contains, so the clauses on octets say nothing of it.
#[derive(Debug, Drop)]
pub struct FileAt<F> {
    /// The file.
    pub file: F,
}

impl<F: FileExt> ReadAt for FileAt<F> {
    ghost content = { λ _. None };

    ghost fails = { λ _ _. Unit {0} };

    fn read_at(&self, position: u64, buffer: &mut [u8]) -> Result<(), Fault> {
        match self.file.read_exact_at(buffer, position) {
            Ok(()) => Ok(()),
            Err(fault) => Err(read_fault(fault.kind())),
        }
    }
}

// Returns the fault of a read that failed by this kind.
fn read_fault(kind: ErrorKind) -> Fault {
    match kind {
        ErrorKind::UnexpectedEof => Fault::Damaged,
        kind => Fault::Failed(kind),
    }
}
