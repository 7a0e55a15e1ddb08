//! Bytes moved whole, however the devices cut them.

use byte_streams::{Sink, SinkFault, Source, Space, Watched, WholeFault, read_full, write_whole};
use std::io::{self, ErrorKind, Read, Write};
use test_support::{Drip, Trickle};

// Reads three bytes at most: what is answered, and whether these bytes were read.
fn reads(drip: &mut Drip<'_>, outcome: Result<usize, ErrorKind>, wanted: &[u8]) -> bool {
    let mut buffer = [0; 3];
    read_full(&mut &mut *drip, &mut buffer) == outcome && buffer.starts_with(wanted)
}

// No byte is lost to a failure.
#[test]
fn reads_in_any_cutting(rt: HostRuntime) {
    let mut drip = Drip::new(b"hello", 4);
    assert!(rt; reads(&mut drip, Ok(3), b"hel"));
    assert!(rt; reads(&mut drip, Err(ErrorKind::BrokenPipe), b"l"));
    assert!(rt; reads(&mut drip, Ok(1), b"o"));
    assert!(rt; reads(&mut drip, Ok(0), b""));
    assert!(rt; Source::failures(&drip) == 1);
}

// What is answered and counted where there is room for so many bytes, which are then taken.
fn writes(mut trickle: Trickle, room: usize) -> Option<(Result<(), WholeFault>, u64)> {
    let outcome = write_whole(&mut trickle, b"hello");
    let failures = Sink::failures(&trickle);
    if Some(trickle.taken.as_slice()) == b"hello".get(..room.min(5)) {
        Some((outcome, failures))
    } else {
        None
    }
}

#[test]
fn writes_in_any_cutting(rt: HostRuntime) {
    for (room, is_broken, outcome, failures) in [
        (9, false, Ok(()), 0),
        (5, true, Ok(()), 0),
        (3, false, Err(WholeFault::Full), 1),
        (3, true, Err(WholeFault::Failed(ErrorKind::BrokenPipe)), 1),
    ] {
        let made = writes(Trickle::new(rt.alloc(), room, is_broken), room);
        assert!(rt; made == Some((outcome, failures)), "with room for {room}");
    }
}

#[test]
fn vectors_take_all_at_once(rt: HostRuntime) {
    let mut bytes = Vec::new(rt.alloc());
    assert!(rt; write_whole(&mut &mut bytes, b"hello") == Ok(()));
    assert!(rt; bytes.write_some(b" you") == Ok(4));
    assert!(rt; bytes.as_slice() == b"hello you".as_slice());
    assert!(rt; Sink::failures(&bytes) == 0);
}

#[test]
fn watched_reader(rt: HostRuntime) {
    let mut buffer = [0; 3];
    let mut reader = Watched::new(b"hello".as_slice());
    assert!(rt; read_full(&mut reader, &mut buffer) == Ok(3));
    assert!(rt; Source::failures(&reader) == 0);
    assert!(rt; *reader.get_ref() == b"lo".as_slice());
    assert!(rt; reader.into_inner() == b"lo".as_slice());
}

// A slice of std's takes nothing more once it is full.
#[test]
fn watched_writer(rt: HostRuntime) {
    let mut buffer = [0; 3];
    let mut full = Watched::new(buffer.as_mut_slice());
    assert!(rt; write_whole(&mut full, b"hello") == Err(WholeFault::Full));
    assert!(rt; Sink::failures(&full) == 1);
    assert!(rt; buffer.as_slice() == b"hel".as_slice());
}

// A reader and writer of std of which every call fails.
#[derive(Drop)]
struct Broken;

impl Read for Broken {
    fn read(&mut self, _buf: &mut [u8]) -> io::Result<usize> {
        Err(ErrorKind::TimedOut.into())
    }
}

impl Write for Broken {
    fn write(&mut self, _buf: &[u8]) -> io::Result<usize> {
        Err(ErrorKind::BrokenPipe.into())
    }

    fn flush(&mut self) -> io::Result<()> {
        Ok(())
    }
}

#[test]
fn watched_failures_count(rt: HostRuntime) {
    let mut broken = Watched::new(Broken);
    assert!(rt; broken.read_some(&mut [0; 3]) == Err(ErrorKind::TimedOut));
    assert!(rt; broken.write_some(b"") == Err(SinkFault::Failed(ErrorKind::BrokenPipe)));
    assert!(rt; Sink::failures(&broken) == 2);
}

// A reader and writer of std whose next call a signal interrupts. Each later call moves a byte.
#[derive(Drop)]
struct Interrupted {
    is_next: bool,
}

impl Interrupted {
    fn call(&mut self) -> io::Result<()> {
        if self.is_next {
            self.is_next = false;
            return Err(ErrorKind::Interrupted.into());
        }
        Ok(())
    }
}

impl Read for Interrupted {
    fn read(&mut self, buf: &mut [u8]) -> io::Result<usize> {
        self.call()?;
        Ok(buf.len().min(1))
    }
}

impl Write for Interrupted {
    fn write(&mut self, buf: &[u8]) -> io::Result<usize> {
        self.call()?;
        Ok(buf.len().min(1))
    }

    fn flush(&mut self) -> io::Result<()> {
        Ok(())
    }
}

#[test]
fn an_interrupted_call_is_tried_again(rt: HostRuntime) {
    let mut device = Watched::new(Interrupted { is_next: true });
    assert!(rt; read_full(&mut device, &mut [0; 3]) == Ok(3));
    assert!(rt; Source::failures(&device) == 0);
    let mut device = Watched::new(Interrupted { is_next: true });
    assert!(rt; write_whole(&mut device, b"abc") == Ok(()));
    assert!(rt; Sink::failures(&device) == 0);
}

#[test]
fn a_slice_takes_what_fits(rt: HostRuntime) {
    let mut bytes = [0; 4];
    let mut space = Space::new(&mut bytes);
    assert!(rt; write_whole(&mut space, b"abc") == Ok(()));
    assert!(rt; write_whole(&mut space, b"de") == Err(WholeFault::Full));
    assert!(rt; Sink::failures(&space) == 1);
    assert!(rt; bytes.as_slice() == b"abcd".as_slice());
}
