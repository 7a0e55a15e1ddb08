//! A source of which several octets can be looked at.
ghost use Rattle.std.specs.Prelude.{◌≡◌, ◌≤◌, ◌<◌, ◌⊎◌, [], ◌∷◌, length, take, MatchResult};
ghost use Rattle.picky_asn1_der.specs.Peeking.{Peeking, Looked, LookedOn, NotLooked};

use crate::misc::peeked_content::{PEEKED_BUFFER_SIZE, PeekedContent};
use asn1_der::Asn1DerError;
use byte_streams::Source;
use std::io::ErrorKind;
use std::marker::Model;

/// A source of which up to ten octets can be looked at before they are taken.
///
/// A contract sees the octets that are looked at, what the source gives behind them, and how many were taken.
#[derive(Drop)]
pub struct PeekableReader<R: Source> {
    reader: R,
    peeked: PeekedContent,
    pos: usize,
}

impl<R: Source> Model for PeekableReader<R> {
    ghost use Rattle.std.specs.Prelude.{◌≤◌, length};
    ghost use Rattle.picky_asn1_der.specs.Peeking.{Peeking};

    ghost Value = { Peeking };

    ghost view = { λ p. record {
      seen = p.peeked;
      further = R.left p.reader;
      pos = p.pos;
      faults = R.failed p.reader;
      kind = R.last_fault p.reader;
      through = R.through p.reader;
    } };

    ghost invariant = { λ p. length p.peeked ≤ 10 };
}

impl<R: Source> Source for PeekableReader<R> {
    ghost use Rattle.picky_asn1_der.specs.Peeking.{left_of};

    ghost left = { left_of };

    ghost failed = { λ p. p.faults };

    ghost last_fault = { λ p. p.kind };

    ghost through = { λ p. p.through };

    fn read_some(&mut self, buffer: &mut [u8]) -> Result<usize, ErrorKind> {
        if self.peeked.len() == 0 {
            let count = self.reader.read_some(buffer)?;
            self.pos = self.pos.saturating_add(count);
            return Ok(count);
        }
        if buffer.is_empty() {
            return Ok(0);
        }
        buffer[0] = self.peeked.take_one();
        self.pos = self.pos.saturating_add(1);
        Ok(1)
    }

    fn failures(&self) -> u64 {
        self.reader.failures()
    }
}

impl<R: Source> PeekableReader<R> {
    /// A source that gives what `reader` does, of which nothing is looked at yet.
    pub fn new(reader: R) -> Self
        ensures { result ≡ record {
          seen = [];
          further = R.left reader;
          pos = 0;
          faults = R.failed reader;
          kind = R.last_fault reader;
          through = R.through reader;
        } }
    {
        PeekableReader {
            reader,
            peeked: PeekedContent::new(),
            pos: 0,
        }
    }

    /// How many octets were taken so far, held at the greatest `usize`.
    pub fn pos(&self) -> usize
        ensures { result ≡ self.now.pos }
    {
        self.pos
    }

    /// The next octet, which stays there: `TruncatedData` at the end, `Other` where the source fails.
    pub fn peek_one(&mut self) -> Result<u8, Asn1DerError>
        ensures { MatchResult result
            (λ octet. Looked 1 (octet ∷ []) self.old self.new)
            (λ fault. ((fault ≡ Asn1DerError.TruncatedData) × Looked 1 [] self.old self.new) ⊎ NotLooked self.old self.new fault) }
    {
        self.look(1)?;
        match self.peeked.first() {
            Some(octet) => Ok(octet),
            None => Err(Asn1DerError::TruncatedData),
        }
    }

    /// The next ten octets, fewer at the end alone, which stay there: `Other` where the source fails.
    pub fn peek_buffer(&mut self) -> Result<PeekedContent, Asn1DerError>
        ensures { MatchResult result
            (λ content. Looked 10 content self.old self.new)
            (λ fault. NotLooked self.old self.new fault) }
    {
        self.look(PEEKED_BUFFER_SIZE)?;
        Ok(self.peeked.copy())
    }

    // Looks at `count` octets, at fewer where the source ends.
    fn look(&mut self, count: usize) -> Result<(), Asn1DerError>
        requires { count ≤ 10 }
        ensures { MatchResult result
            (λ _. Looked count (take count self.new.seen) self.old self.new)
            (λ fault. NotLooked self.old self.new fault) }
    {
        while self.peeked.len() < count {
            if !self.look_on()? {
                break;
            }
        }
        Ok(())
    }

    // Looks at one octet more, and returns whether there was one.
    fn look_on(&mut self) -> Result<bool, Asn1DerError>
        requires { length self.old.seen < 10 }
        ensures { MatchResult result
            (λ more. LookedOn more self.old self.new)
            (λ fault. NotLooked self.old self.new fault) }
    {
        let mut octet = [0u8; 1];
        match self.reader.read_some(&mut octet) {
            Ok(0) => Ok(false),
            Ok(_) => {
                self.peeked.push(octet[0]);
                Ok(true)
            }
            Err(kind) => Err(Asn1DerError::Other(kind)),
        }
    }
}
