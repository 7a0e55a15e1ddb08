//! Reading from a source as far as it gives bytes.
ghost use Rattle.std.specs.Prelude.{◌≡◌, ℕ, ◌<◌, ◌≤◌, List, length, take, None, IfOk, IfSome, MatchResult};
ghost use Rattle.std.specs.Io.KnownBytes.{Consumes, IsAtEnd};
ghost use Rattle.byte_streams.specs.Stops.{IsStop};

use crate::Source;
use std::alloc::{AllocError, Global};
use std::io::ErrorKind;

/// What [`read_front`] read.
#[derive(Clone, Copy, Debug)]
pub struct Front {
    /// The count of bytes that were read.
    pub count: usize,
    /// The fault of the device, where it failed before all was read.
    pub fault: Option<ErrorKind>,
}

/// Fills `buffer` from `reader` up to its end or its first fault.
pub fn read_front<R: Source>(reader: &mut R, buffer: &mut [u8]) -> Front
    ensures bound { result.count ≤ length buffer.new }
    ensures bytes { Consumes (R.left reader.old) (R.left reader.new) (take result.count buffer.new) }
    ensures end { result.fault ≡ None → result.count < length buffer.new → IsAtEnd (R.left reader.new) }
    ensures fault { IsStop (R.failed reader.old) (R.failed reader.new) (R.last_fault reader.new) result.fault }
    ensures short { IfSome result.fault (λ _. result.count < length buffer.new) }
    ensures same { R.through reader.new ≡ R.through reader.old }
{
    let mut at = 0;
    while at < buffer.len() {
        match reader.read_some(&mut buffer[at..]) {
            Ok(0) => break,
            Ok(count) => at += count,
            Err(kind) => {
                return Front {
                    count: at,
                    fault: Some(kind),
                };
            }
        }
    }
    Front {
        count: at,
        fault: None,
    }
}

/// The bytes that a source gave up to its end or its first fault.
#[derive(Debug, Drop)]
pub struct Came {
    /// The bytes that came.
    pub bytes: Vec<u8>,
    /// The fault of the device, where it failed before its end.
    pub fault: Option<ErrorKind>,
}

/// Reads all that `reader` gives before it stops, at its end or at its first fault. Room is made only for what was read.
pub fn read_to_stop<R: Source>(alloc: Global, reader: &mut R) -> Result<Came, AllocError>
    ensures bytes { IfOk result (λ came. Consumes (R.left reader.old) (R.left reader.new) came.bytes.items) }
    ensures end { IfOk result (λ came. came.fault ≡ None → IsAtEnd (R.left reader.new)) }
    ensures fault { MatchResult result
        (λ came. IsStop (R.failed reader.old) (R.failed reader.new) (R.last_fault reader.new) came.fault)
        (λ _. R.failed reader.new ≡ R.failed reader.old) }
    ensures same { R.through reader.new ≡ R.through reader.old }
{
    let mut bytes = Vec::new(alloc);
    let mut buffer = [0; 256];
    for _ in 0..u64::MAX {
        match reader.read_some(&mut buffer) {
            Ok(0) => return Ok(Came { bytes, fault: None }),
            Ok(count) => bytes.extend_from_slice(&buffer[..count])?,
            Err(kind) => {
                return Ok(Came {
                    bytes,
                    fault: Some(kind),
                });
            }
        }
    }
    // So many reads gave a byte each, which no vector holds.
    Err(AllocError)
}
