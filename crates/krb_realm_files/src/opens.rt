//! What opens a realm's file.
ghost use Rattle.std.specs.Prelude.{◌≡◌, MatchResult};
ghost use Rattle.std.specs.declared.io.ErrorKind.{ErrorKind};

use cdb::{FileAt, Headed, ReadAt};
use std::fs::{self, File, Files};
use std::io::ErrorKind;

/// What opens a realm's file anew for each message.
pub trait Opens {
    /// The opened file.
    type File: ReadAt + Drop;

    // Whether it may be that this file is opened.
    ghost opens: { Self → Self.File → Type 0 };

    // The kinds of fault by which opening it may fail.
    ghost fails: { Self → ErrorKind → Type 0 };

    /// Opens the file. It fails by the kind of the fault.
    fn open(&self) -> Result<Self::File, ErrorKind>
        ensures { MatchResult result (λ file. opens self.now file) (λ kind. fails self.now kind) };
}

/// Octets in memory are one file, which is always opened.
impl<'a> Opens for &'a [u8] {
    type File = &'a [u8];

    ghost opens = { λ octets file. file.now ≡ octets.now };

    ghost fails = { λ _ _. ⊥ };

    fn open(&self) -> Result<&'a [u8], ErrorKind> {
        Ok(*self)
    }
}

/// The file of the system that has a path when it is opened, with its header read. No clause says which file that is.
#[derive(Clone, Copy)]
pub struct AtPath<'f, 'p, R: Files<File = File>> {
    /// What has the files.
    pub files: &'f R,
    /// The path.
    pub path: &'p str,
}

impl<'f, 'p, R: Files<File = File>> Opens for AtPath<'f, 'p, R> {
    type File = Headed<FileAt<File>>;

    ghost opens = { λ _ _. Unit {0} };

    ghost fails = { λ _ _. Unit {0} };

    fn open(&self) -> Result<Headed<FileAt<File>>, ErrorKind> {
        match fs::open(self.files, self.path) {
            Ok(file) => Ok(Headed::new(FileAt { file })),
            Err(fault) => Err(fault.kind()),
        }
    }
}
