//! A file whose header was read.
ghost use Rattle.std.specs.Prelude.{◌≡◌, ℕ, List, Option};
ghost use Rattle.cdb.specs.Headers.{content_behind, file_of, front_of};

use crate::fault::Fault;
use crate::file::ReadAt;
use crate::format::HEADER_SIZE;

/// A file whose header was read when it was opened. A look-up finds its pointer there, without a read of the file.
#[derive(Drop)]
pub struct Headed<F> {
    file: F,
    header: [u8; HEADER_SIZE],
    // Whether the file has so many octets and they were read.
    is_read: bool,
}

impl<F: ReadAt> Headed<F> {
    /// Reads the header of a file. Where it can't be read, reads of it fail as those of the file do.
    pub fn new(file: F) -> Headed<F>
        ensures { content_behind (front_of result) (F.content (file_of result)) ≡ F.content file }
    {
        let mut header = [0; HEADER_SIZE];
        match file.read_at(0, &mut header) {
            Ok(()) => Headed {
                file,
                header,
                is_read: true,
            },
            Err(_) => Headed {
                file,
                header,
                is_read: false,
            },
        }
    }

    // The octets of the header, or none where it wasn't read.
    fn front(&self) -> &[u8]
        ensures { result.now ≡ front_of self.now }
    {
        if self.is_read { &self.header } else { &[] }
    }
}

impl<F: ReadAt> ReadAt for Headed<F> {
    ghost use Rattle.cdb.specs.Headers.{content_behind, file_of, front_of};

    ghost content = { λ own. content_behind (front_of own) (F.content (file_of own)) };

    ghost fails = { λ own. F.fails (file_of own) };

    fn read_at(&self, position: u64, buffer: &mut [u8]) -> Result<(), Fault> {
        match self.front().read_at(position, buffer) {
            Ok(()) => Ok(()),
            Err(_) => self.file.read_at(position, buffer),
        }
    }
}
