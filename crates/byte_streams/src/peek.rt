//! A source whose next octet can be looked at.
ghost use Rattle.std.specs.Prelude.{◌≡◌, ℕ, ◌<◌, ◌≤◌, List, [], ◌∷◌, length, take, true, false, is_some, Some, IfOk, IfErr, MatchOption, MatchResult};
ghost use Rattle.std.specs.Io.KnownBytes.{Keeps, Consumes, IsAtEnd};
ghost use Rattle.byte_streams.specs.Counting.{one_more, CountsRead};

use crate::exact::read_full;
use crate::source::Source;
use std::io::ErrorKind;

/// A source whose next octet can be looked at before it is read.
#[derive(Drop)]
pub struct PeekableReader<R: Source> {
    reader: R,
    looked: Option<u8>,
}

impl<R: Source> Source for PeekableReader<R> {
    ghost use Rattle.byte_streams.specs.Peeking.{seen};

    ghost left = { λ p. seen p.looked (R.left p.reader) };

    ghost failed = { λ p. R.failed p.reader };

    ghost last_fault = { λ p. R.last_fault p.reader };

    ghost through = { λ p. R.through p.reader };

    fn read_some(&mut self, buffer: &mut [u8]) -> Result<usize, ErrorKind> {
        if let Some(octet) = self.looked {
            if buffer.is_empty() {
                return Ok(0);
            }
            buffer[0] = octet;
            self.looked = None;
            return Ok(1);
        }
        self.reader.read_some(buffer)
    }

    fn failures(&self) -> u64 {
        self.reader.failures()
    }
}

impl<R: Source> PeekableReader<R> {
    ghost use Rattle.byte_streams.specs.Peeking.{left_of, failed_of, looked_of, kind_of, names_of};

    /// A source that gives what `reader` does.
    pub fn new(reader: R) -> Self
        ensures left { left_of R.left result ≡ R.left reader }
        ensures looked { looked_of result ≡ false }
        ensures failed { failed_of R.failed result ≡ R.failed reader }
        ensures kind { kind_of R.last_fault result ≡ R.last_fault reader }
        ensures same { names_of R.through result ≡ R.through reader }
    {
        PeekableReader {
            reader,
            looked: None,
        }
    }

    /// The reader, which has given the octet that was looked at.
    ///
    /// A deserializer gives its reader back by it.
    pub fn into_inner(self) -> R
        ensures left { looked_of self ≡ false → R.left result ≡ left_of R.left self }
        ensures failed { R.failed result ≡ failed_of R.failed self }
        ensures kind { R.last_fault result ≡ kind_of R.last_fault self }
        ensures same { R.through result ≡ names_of R.through self }
    {
        let PeekableReader { reader, looked: _ } = self;
        reader
    }

    /// The next octet, which stays unread, or none at the end.
    pub fn peek_one(&mut self) -> Result<Option<u8>, ErrorKind>
        ensures kept { IfOk result (λ _. Keeps (left_of R.left self.old) (left_of R.left self.new)) }
        ensures next { IfOk result (λ read. MatchOption read
            (IsAtEnd (left_of R.left self.old))
            (λ octet. (bytes : List ℕ) (first : ℕ) → left_of R.left self.old ≡ Some (first ∷ bytes) → first ≡ octet)) }
        ensures count { MatchResult result
            (λ _. failed_of R.failed self.new ≡ failed_of R.failed self.old)
            (λ _. failed_of R.failed self.new ≡ one_more (failed_of R.failed self.old)) }
        ensures looked { IfOk result (λ read. looked_of self.new ≡ is_some read) }
        ensures unlooked { IfErr result (λ _. looked_of self.new ≡ false) }
        ensures kind { IfErr result (λ kind. kind_of R.last_fault self.new ≡ Some kind) }
        ensures same { names_of R.through self.new ≡ names_of R.through self.old }
    {
        if let Some(octet) = self.looked {
            return Ok(Some(octet));
        }
        let read = read_octet(&mut self.reader)?;
        self.looked = read;
        Ok(read)
    }

    /// Takes the next octet, or none at the end.
    ///
    /// A deserializer takes identifier and length octets by it.
    pub fn take_one(&mut self) -> Result<Option<u8>, ErrorKind>
        ensures octet { IfOk result (λ read. MatchOption read
            (Consumes (left_of R.left self.old) (left_of R.left self.new) [] × IsAtEnd (left_of R.left self.new))
            (λ octet. Consumes (left_of R.left self.old) (left_of R.left self.new) (octet ∷ []))) }
        ensures count { MatchResult result
            (λ _. failed_of R.failed self.new ≡ failed_of R.failed self.old)
            (λ _. failed_of R.failed self.new ≡ one_more (failed_of R.failed self.old)) }
        ensures looked { looked_of self.new ≡ false }
        ensures kind { IfErr result (λ kind. kind_of R.last_fault self.new ≡ Some kind) }
        ensures same { names_of R.through self.new ≡ names_of R.through self.old }
    {
        if let Some(octet) = self.looked {
            self.looked = None;
            return Ok(Some(octet));
        }
        read_octet(&mut self.reader)
    }

    /// Fills `buffer`, of which no octet was looked at before (see [`read_full`]).
    ///
    /// A deserializer takes contents by it.
    pub fn read_unlooked(&mut self, buffer: &mut [u8]) -> Result<usize, ErrorKind>
        requires { looked_of self.old ≡ false }
        ensures bound { IfOk result (λ n. n ≤ length buffer.new) }
        ensures bytes { IfOk result (λ n. Consumes (left_of R.left self.old) (left_of R.left self.new) (take n buffer.new)) }
        ensures end { IfOk result (λ n. n < length buffer.new → IsAtEnd (left_of R.left self.new)) }
        ensures count { CountsRead (failed_of R.failed self.old) (failed_of R.failed self.new) result }
        ensures looked { looked_of self.new ≡ false }
        ensures kind { IfErr result (λ kind. kind_of R.last_fault self.new ≡ Some kind) }
        ensures same { names_of R.through self.new ≡ names_of R.through self.old }
    {
        self.looked = None;
        read_full(&mut self.reader, buffer)
    }
}

/// The next octet of `reader`, or none at its end.
fn read_octet<R: Source>(reader: &mut R) -> Result<Option<u8>, ErrorKind>
    ensures octet { IfOk result (λ read. MatchOption read
        (Consumes (R.left reader.old) (R.left reader.new) [] × IsAtEnd (R.left reader.new))
        (λ octet. Consumes (R.left reader.old) (R.left reader.new) (octet ∷ []))) }
    ensures count { MatchResult result
        (λ _. R.failed reader.new ≡ R.failed reader.old)
        (λ _. R.failed reader.new ≡ one_more (R.failed reader.old)) }
    ensures kind { IfErr result (λ kind. R.last_fault reader.new ≡ Some kind) }
    ensures same { R.through reader.new ≡ R.through reader.old }
{
    let mut octet = [0u8; 1];
    let count = reader.read_some(&mut octet)?;
    if count == 0 {
        return Ok(None);
    }
    Ok(Some(octet[0]))
}
