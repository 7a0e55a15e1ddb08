//! Octets that are looked at, a SEQUENCE that is written value after value, and raw elements by their bytes.
use crate::elements::raw_of;
use byte_streams::{Sink, Source, Watched};
use picky_asn1_der::misc::{PeekableReader, PeekedContent, ReadExt, Sequence, SequenceWriter};
use picky_asn1_der::{Asn1DerError, Asn1RawDer, Serializer};
use std::alloc::Global;
use std::cmp::Ordering;
use std::hash::{DefaultHasher, Hash, Hasher};
use std::io;
use std::io::Read;

// Gives a byte a read.
#[derive(Drop)]
struct Trickle<'a>(&'a [u8]);

impl Read for Trickle<'_> {
    fn read(&mut self, buffer: &mut [u8]) -> io::Result<usize> {
        match self.0 {
            [first, rest @ ..] if !buffer.is_empty() => {
                buffer[0] = *first;
                self.0 = rest;
                Ok(1)
            }
            _ => Ok(0),
        }
    }
}

// Whether these octets are looked at, and are the content's own.
fn are_next<R: Source>(reader: &mut PeekableReader<R>, octets: &[u8]) -> bool {
    match reader.peek_buffer() {
        Ok(content) => are_held(content, octets),
        Err(_) => false,
    }
}

// Whether a content has these octets until it is taken.
fn are_held(mut content: PeekedContent, octets: &[u8]) -> bool {
    content.len() == octets.len()
        && content.buffer().get(..octets.len()) == Some(octets)
        && content.take().len() == octets.len()
        && content.len() == 0
}

fn are_given<R: Source>(reader: &mut PeekableReader<R>, octets: &[u8]) -> bool {
    for octet in octets {
        if reader.read_one() != Ok(*octet) {
            return false;
        }
    }
    true
}

const OCTETS: [u8; 12] = [2, 1, 7, 5, 0, 4, 2, 8, 9, 5, 0, 6];

// What is looked at is given once, in its order, however the source cuts.
#[test]
fn peeked(rt: HostRuntime) {
    let mut reader = PeekableReader::new(Watched::new(Trickle(&OCTETS)));
    let rows = [
        reader.peek_one() == Ok(2),
        are_next(&mut reader, &OCTETS[..10]) && reader.pos() == 0,
        are_given(&mut reader, &OCTETS) && reader.pos() == 12,
        are_next(&mut reader, &[]),
        reader.peek_one() == Err(Asn1DerError::TruncatedData),
        reader.failures() == 0,
    ];
    assert!(rt; rows == [true; 6], "{rows:?}");
}

// The INTEGER 8 is more than is left of the content.
fn are_written<W: Sink>(content: &mut SequenceWriter, to: &mut Serializer<W>) -> bool {
    content.serialize_element(&7u32, to) == Ok(3)
        && content.serialize_element(&8u32, to) == Err(Asn1DerError::InvalidSink)
        && content.serialize_element(&(), to) == Ok(2)
}

fn is_sequence_written<W: Sink>(to: &mut Serializer<W>) -> bool {
    match Sequence::serialize_lazy(to, 0x30, 5) {
        Ok(mut content) => are_written(&mut content, to) && content.end() == Ok(()),
        Err(_) => false,
    }
}

// The SEQUENCE of the INTEGER 7 and of NULL.
#[test]
fn written_in_turn(rt: HostRuntime) {
    let mut bytes = Vec::new(rt.alloc());
    assert!(rt; is_sequence_written(&mut Serializer::new_to_byte_buf(&mut bytes)));
    assert!(rt; bytes.as_slice() == [0x30, 5, 2, 1, 7, 5, 0].as_slice());
}

fn hash_of(element: &Asn1RawDer) -> u64 {
    let mut state = DefaultHasher::new();
    element.hash(&mut state);
    state.finish()
}

fn are_alike(element: &Asn1RawDer, other: &Asn1RawDer) -> bool {
    element == other && hash_of(element) == hash_of(other)
}

fn are_by_bytes(alloc: Global) -> Option<bool> {
    let null = raw_of(alloc, &[5, 0]).ok()?;
    let again = raw_of(alloc, &[5, 0]).ok()?;
    let octets = raw_of(alloc, &[4, 1, 9]).ok()?;
    Some(are_alike(&null, &again) && null.cmp(&octets) == Ordering::Greater)
}

#[test]
fn raw_by_bytes(rt: HostRuntime) {
    assert!(rt; are_by_bytes(rt.alloc()) == Some(true));
}

fn is_copied(alloc: Global) -> Option<bool> {
    let octets = raw_of(alloc, &[4, 1, 0xAB]).ok()?;
    let copy = octets.clone().ok()?;
    Some(are_alike(&octets, &copy) && is_printed(alloc, &copy, "0x0401AB"))
}

fn is_printed(alloc: Global, element: &Asn1RawDer, text: &str) -> bool {
    match format!(in alloc; "{element:?}") {
        Ok(printed) => printed.as_str() == text,
        Err(_) => false,
    }
}

#[test]
fn raw_copied(rt: HostRuntime) {
    assert!(rt; is_copied(rt.alloc()) == Some(true));
}
