//! The service at the other end of standard input and output.

use byte_streams::{WholeFault, read_full, write_whole};
use krb_commands::{Stop, failed};
use krb_frames::{FRAME_LIMIT, ServeFault, read_frame, write_frame};
use krb_programs::Streams;

/// The frame begins or ends a context.
pub(crate) const NOOP: u8 = 1;

/// The token is one of a context's establishment.
pub(crate) const CONTEXT: u8 = 2;

/// The token is a message.
pub(crate) const DATA: u8 = 4;

/// The token is a message's MIC.
pub(crate) const MIC: u8 = 8;

/// The establishment of a context follows.
pub(crate) const CONTEXT_NEXT: u8 = 16;

/// The message is wrapped.
pub(crate) const WRAPPED: u8 = 32;

/// The message is encrypted.
pub(crate) const ENCRYPTED: u8 = 64;

/// The message is to be answered by its MIC.
pub(crate) const SEND_MIC: u8 = 128;

/// A service of the sample protocol. A frame is an octet of flags, and behind it a token after its length in four octets, the highest first.
#[derive(Drop)]
pub(crate) struct Peer<'a> {
    rt: &'a HostRuntime,
    streams: Streams,
}

impl<'a> Peer<'a> {
    /// The service at standard input and output.
    pub(crate) fn open(rt: &'a HostRuntime) -> Result<Peer<'a>, Stop> {
        let streams = Streams::open(rt)?;
        Ok(Peer { rt, streams })
    }

    /// Sends a frame, in one write where that takes all.
    pub(crate) fn send(&mut self, flags: u8, token: &[u8]) -> Result<(), Stop> {
        let alloc = self.rt.alloc();
        if FRAME_LIMIT < token.len() {
            return Err(failed(alloc, "a token has more than 65536 octets"));
        }
        let mut octets = vec![in alloc; flags]?;
        if write_frame(alloc, &mut octets, token).is_err() {
            return Err(Stop::Memory);
        }
        match write_whole(&mut self.streams.writer, &octets) {
            Ok(()) => Ok(()),
            Err(WholeFault::Memory) => Err(Stop::Memory),
            Err(_) => Err(failed(
                alloc,
                "standard output can't be written: expected a service of the sample protocol",
            )),
        }
    }

    /// The token of the next frame, which has to have this flag.
    pub(crate) fn receive(&mut self, flag: u8, expected: &str) -> Result<Vec<u8>, Stop> {
        let flags = self.flags(expected)?;
        let token = self.token()?;
        if flags & flag == 0 {
            return Err(failed(
                self.rt.alloc(),
                format_args!("standard input: a frame with the flags {flags}: expected {expected}"),
            ));
        }
        Ok(token)
    }

    // The flags of the next frame.
    fn flags(&mut self, expected: &str) -> Result<u8, Stop> {
        let alloc = self.rt.alloc();
        let mut flags = [0];
        match read_full(&mut self.streams.reader, &mut flags) {
            Ok(1) => Ok(flags[0]),
            Ok(_) => Err(failed(
                alloc,
                format_args!("standard input: ended: expected {expected}"),
            )),
            Err(_) => Err(failed(alloc, "standard input can't be read")),
        }
    }

    // The token behind the flags.
    fn token(&mut self) -> Result<Vec<u8>, Stop> {
        let alloc = self.rt.alloc();
        match read_frame(alloc, &mut self.streams.reader) {
            Ok(Some(token)) => Ok(token),
            Err(ServeFault::Memory) => Err(Stop::Memory),
            Err(ServeFault::FrameTooLong) => Err(failed(
                alloc,
                "standard input: a length over 65536: expected a token",
            )),
            Ok(None) | Err(ServeFault::Truncated) => Err(failed(
                alloc,
                "standard input: ended within a frame",
            )),
            Err(_) => Err(failed(alloc, "standard input can't be read")),
        }
    }
}
