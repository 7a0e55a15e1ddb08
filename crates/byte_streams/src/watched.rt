//! A reader or a writer of std that counts its failed calls.
ghost use Rattle.std.specs.Prelude.{◌≡◌, ◌≢◌, ◌↔◌, false, None, IsTrue, IfErr};
ghost use Rattle.std.specs.Io.{ReadsAtMost, WritesAtMost};
ghost use Rattle.std.specs.Io.KnownBytes.{ReadConsumes, WriteAppends};

use crate::sink::{Sink, SinkFault};
use crate::source::Source;
use std::io::{ErrorKind, Read, Write};

/// A reader or a writer of std, as a [`Source`] or a [`Sink`] that counts its failed calls.
#[derive(Debug, Drop)]
pub struct Watched<D> {
    device: D,
    failures: u64,
    // Why the last call that failed did so: none where it took nothing.
    last_fault: Option<ErrorKind>,
}

impl<D> Watched<D> {
    ghost use Rattle.std.specs.Prelude.{Some};
    ghost use Rattle.byte_streams.specs.Counting.{one_more};
    ghost use Rattle.byte_streams.specs.Watched.{watched_device, watched_failures, watched_fault};

    /// Watches `device`, of which no call has failed yet.
    pub fn new(device: D) -> Watched<D>
        ensures device { watched_device result ≡ device }
        ensures count { watched_failures result ≡ 0 }
        ensures kind { watched_fault result ≡ None }
    {
        Watched {
            device,
            failures: 0,
            last_fault: None,
        }
    }

    /// The device.
    pub fn get_ref(&self) -> &D
        ensures { result.now ≡ watched_device self.now }
    {
        &self.device
    }

    /// The device, no longer watched.
    pub fn into_inner(self) -> D
        ensures { result ≡ watched_device self }
    {
        let Watched {
            device,
            failures: _,
            last_fault: _,
        } = self;
        device
    }

    // Notes a call that failed with this kind of fault.
    fn note(&mut self, kind: ErrorKind)
        ensures { self.new ≡ record self.old { failures = one_more self.old.failures; last_fault = Some kind } }
    {
        self.failures = self.failures.saturating_add(1);
        self.last_fault = Some(kind);
    }
}

impl<D: Read> Source for Watched<D> {
    ghost use Rattle.byte_streams.specs.Watched.{watched_device, watched_failures, watched_fault};

    ghost left = { λ w. D.remaining (watched_device w) };

    ghost failed = { watched_failures };

    ghost last_fault = { watched_fault };

    fn read_some(&mut self, buffer: &mut [u8]) -> Result<usize, ErrorKind> {
        match read_retrying(&mut self.device, buffer) {
            Ok(count) => Ok(count),
            Err(kind) => {
                self.note(kind);
                Err(kind)
            }
        }
    }

    fn failures(&self) -> u64 {
        self.failures
    }
}

impl<D: Write> Sink for Watched<D> {
    ghost use Rattle.byte_streams.specs.Watched.{watched_device, watched_failures, watched_fault};

    ghost written = { λ w. D.contents (watched_device w) };

    ghost failed = { watched_failures };

    ghost last_fault = { watched_fault };

    ghost grows = { false };

    fn write_some(&mut self, bytes: &[u8]) -> Result<usize, SinkFault> {
        match write_retrying(&mut self.device, bytes) {
            Ok(count) => {
                if count == 0 && !bytes.is_empty() {
                    self.failures = self.failures.saturating_add(1);
                    self.last_fault = None;
                }
                Ok(count)
            }
            Err(kind) => {
                self.note(kind);
                Err(SinkFault::Failed(kind))
            }
        }
    }

    fn failures(&self) -> u64 {
        self.failures
    }
}

// One read, tried again where a signal interrupts it, as std's `read_exact` does. After 2^64 - 1 tries it answers std's kind, `TimedOut`.
fn read_retrying<D: Read>(device: &mut D, buffer: &mut [u8]) -> Result<usize, ErrorKind>
    ensures bound { ReadsAtMost result buffer.new }
    ensures bytes { ReadConsumes (D.remaining device.old) (D.remaining device.new) result buffer.new }
    ensures retried { IfErr result (λ kind. kind ≢ ErrorKind.Interrupted) }
{
    for _ in 0..u64::MAX {
        match device.read(buffer) {
            Ok(count) => return Ok(count),
            Err(fault) => {
                let kind = fault.kind();
                if !is_interrupted(kind) {
                    return Err(kind);
                }
            }
        }
    }
    Err(ErrorKind::TimedOut)
}

// One write, tried again where a signal interrupts it, as std's `write_all` does. After 2^64 - 1 tries it answers std's kind, `TimedOut`.
fn write_retrying<D: Write>(device: &mut D, bytes: &[u8]) -> Result<usize, ErrorKind>
    ensures bound { WritesAtMost result bytes.now }
    ensures bytes { WriteAppends (D.contents device.old) (D.contents device.new) result bytes.now }
    ensures retried { IfErr result (λ kind. kind ≢ ErrorKind.Interrupted) }
{
    for _ in 0..u64::MAX {
        match device.write(bytes) {
            Ok(count) => return Ok(count),
            Err(fault) => {
                let kind = fault.kind();
                if !is_interrupted(kind) {
                    return Err(kind);
                }
            }
        }
    }
    Err(ErrorKind::TimedOut)
}

fn is_interrupted(kind: ErrorKind) -> bool
    ensures { IsTrue result ↔ (kind ≡ ErrorKind.Interrupted) }
{
    kind == ErrorKind::Interrupted
}
