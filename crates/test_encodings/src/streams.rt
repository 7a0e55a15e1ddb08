//! Readers and writers: what follows a value, limits, and devices that cut and fail.
use crate::sample::{LONG_SAMPLE, SHORT_SAMPLE, Sample, sample_of};
use crate::spelling::{fault_of, front_fault_of};
use byte_streams::{Sink, Source};
use picky_asn1_der::{
    Asn1DerError, Deserialize, Deserializer, RawElement, Serialize, Serializer, from_bytes,
    from_reader, from_reader_with_max_len, to_byte_buf, to_writer,
};
use std::alloc::Global;
use std::io::ErrorKind;
use test_support::{Drip, Trickle};

fn drip_of(alloc: Global, bytes: &[u8], count: usize) -> Deserializer<Drip<'_>> {
    Deserializer::new_from_reader(alloc, Drip::new(bytes, count), 10_240)
}

fn are_appended(written: &mut Vec<u8>) -> bool {
    to_byte_buf(&5u32, written) == Ok(3)
        && written.as_slice() == [1, 2, 1, 5].as_slice()
        && to_writer(&sample_of(None), written) == Ok(12)
        && written.get(4..) == Some(SHORT_SAMPLE.as_slice())
}

fn are_written(alloc: Global) -> Option<bool> {
    let mut written = vec![in alloc; 1].ok()?;
    Some(are_appended(&mut written))
}

// What is written follows what was there.
#[test]
fn writers(rt: HostRuntime) {
    assert!(rt; are_written(rt.alloc()) == Some(true));
}

fn is_next(alloc: Global, bytes: &mut &[u8], number: u32, rest: &[u8]) -> bool {
    from_reader(alloc, bytes) == Ok(number) && *bytes == rest
}

// A reader is left behind the value, whose last field may be missing.
#[test]
fn readers(rt: HostRuntime) {
    let mut bytes: &[u8] = &[2, 1, 5, 2, 1, 7, 0xFF];
    assert!(rt; is_next(rt.alloc(), &mut bytes, 5, &[2, 1, 7, 0xFF]));
    assert!(rt; is_next(rt.alloc(), &mut bytes, 7, &[0xFF]));
}

// An OCTET STRING of so many zeros.
fn zeros(alloc: Global, count: u16) -> Option<Vec<u8>> {
    let mut bytes = Vec::from_slice(alloc, &[4, 0x82]).ok()?;
    bytes.extend_from_slice(&count.to_be_bytes()).ok()?;
    bytes.resize(4 + count as usize, 0).ok()?;
    Some(bytes)
}

fn fits(alloc: Global, count: u16, limit: usize) -> Option<bool> {
    let bytes = zeros(alloc, count)?;
    let mut reader = bytes.as_slice();
    Some(from_reader_with_max_len::<RawElement, _>(alloc, &mut reader, limit).is_ok())
}

// An OCTET STRING of 300 bytes takes 304 (X.690, section 8.1.3.5), and one of 10,236 the 10,240 that a reader takes at most.
#[test]
fn limits(rt: HostRuntime) {
    let alloc = rt.alloc();
    assert!(rt; fits(alloc, 300, 303) == Some(false));
    assert!(rt; fits(alloc, 300, 304) == Some(true));
    assert!(rt; fits(alloc, 10_236, 10_240) == Some(true));
    assert!(rt; fits(alloc, 10_237, 10_240) == Some(false));
}

// Why a number isn't read from a reader of these octets, of which at most `limit` are taken.
fn number_fault(alloc: Global, bytes: &[u8], limit: usize) -> Option<Asn1DerError> {
    let mut reader = bytes;
    from_reader_with_max_len::<u32, _>(alloc, &mut reader, limit).err()
}

// What is left ends inside an element, at its end or at the limit, or no element and then no number begins it.
#[test]
fn ends(rt: HostRuntime) {
    let rows: &[(&[u8], usize, Asn1DerError)] = &[
        (&[], 9, Asn1DerError::TruncatedData),
        (&[2], 9, Asn1DerError::TruncatedData),
        (&[4, 1], 9, Asn1DerError::TruncatedData),
        (&[2, 0x82, 1], 9, Asn1DerError::TruncatedData),
        (&[2, 1, 5], 0, Asn1DerError::TruncatedData),
        (&[2, 1, 5], 1, Asn1DerError::TruncatedData),
        (&[2, 1, 5], 2, Asn1DerError::TruncatedData),
        (&[2, 0x80, 5], 9, Asn1DerError::InvalidData),
        (&[2, 0x82, 0], 9, Asn1DerError::InvalidData),
        (&[2, 0x82, 0, 1, 5], 3, Asn1DerError::InvalidData),
        (&[4, 1, 5], 9, Asn1DerError::InvalidData),
        (&[2, 5, 1, 0, 0, 0, 0], 9, Asn1DerError::UnsupportedValue),
    ];
    for (bytes, limit, fault) in rows {
        let told = number_fault(rt.alloc(), bytes, *limit);
        assert!(rt; told == Some(*fault), "at {bytes:?}");
    }
}

fn is_dripped(alloc: Global, count: usize, sample: &Sample) -> bool {
    match Sample::deserialize(&mut drip_of(alloc, &LONG_SAMPLE, count)) {
        Ok(read) => read == *sample,
        Err(_) => false,
    }
}

#[test]
fn a_byte_at_a_time(rt: HostRuntime) {
    let sample = sample_of(Some(128.into()));
    assert!(rt; is_dripped(rt.alloc(), LONG_SAMPLE.len(), &sample));
}

// What two readings give, one behind the other, from a reader that fails behind so many bytes.
fn two_faults(alloc: Global, count: usize) -> [Option<Asn1DerError>; 2] {
    let mut from = drip_of(alloc, &LONG_SAMPLE, count);
    let first = Sample::deserialize(&mut from).err();
    [first, Sample::deserialize(&mut from).err()]
}

#[test]
fn failing_reader(rt: HostRuntime) {
    let broken = Some(Asn1DerError::Other(ErrorKind::BrokenPipe));
    for count in 0..LONG_SAMPLE.len() {
        let faults = two_faults(rt.alloc(), count);
        assert!(rt;
            faults == [broken, Some(Asn1DerError::InvalidData)],
            "at {count}"
        );
    }
}

// What two writings give, one behind the other, to a writer that fails behind so many bytes.
fn two_write_faults(alloc: Global, sample: &Sample, count: usize) -> [Option<Asn1DerError>; 2] {
    let mut to = Serializer::new_to_writer(Trickle::new(alloc, count, true));
    let first = sample.serialize(&mut to).err();
    [first, sample.serialize(&mut to).err()]
}

#[test]
fn failing_writer(rt: HostRuntime) {
    let sample = sample_of(Some(128.into()));
    let broken = Some(Asn1DerError::Other(ErrorKind::BrokenPipe));
    for count in 0..LONG_SAMPLE.len() {
        let faults = two_write_faults(rt.alloc(), &sample, count);
        assert!(rt;
            faults == [broken, Some(Asn1DerError::InvalidSink)],
            "at {count}"
        );
    }
}

// The fault of one reading from a reader that fails behind so many bytes, and how often it failed.
fn read_fault(alloc: Global, count: usize) -> (Option<Asn1DerError>, u64) {
    let mut reader = Drip::new(&LONG_SAMPLE, count);
    let fault = from_reader::<Sample, _>(alloc, &mut reader).err();
    (fault, Source::failures(&reader))
}

// The fault of one writing to a sink that fails after so many bytes, and how often it failed. What was written is expected to be a
// front of the value's bytes.
fn write_fault(
    alloc: Global,
    sample: &Sample,
    count: usize,
) -> Option<(Option<Asn1DerError>, u64)> {
    let mut writer = Trickle::new(alloc, count, true);
    let fault = to_writer(sample, &mut writer).err();
    if Some(writer.taken.as_slice()) == LONG_SAMPLE.get(..count) {
        Some((fault, Sink::failures(&writer)))
    } else {
        None
    }
}

#[test]
fn failing_devices(rt: HostRuntime) {
    let sample = sample_of(Some(128.into()));
    let broken = Some(Asn1DerError::Other(ErrorKind::BrokenPipe));
    for count in 0..LONG_SAMPLE.len() {
        assert!(rt; read_fault(rt.alloc(), count) == (broken, 1), "at {count}");
        assert!(rt;
            write_fault(rt.alloc(), &sample, count) == Some((broken, 1)),
            "at {count}"
        );
    }
    assert!(rt; read_fault(rt.alloc(), 18) == (None, 0));
    assert!(rt; write_fault(rt.alloc(), &sample, 18) == Some((None, 0)));
}

#[test]
fn what_follows(rt: HostRuntime) {
    let bytes = [2, 1, 5, 2, 1, 7];
    let mut from = Deserializer::new_from_bytes(rt.alloc(), &bytes);
    let rows = [
        from_bytes(rt.alloc(), &bytes) == Ok(5u32),
        fault_of::<u32>(rt.alloc(), &bytes) == Some(Asn1DerError::InvalidData),
        u32::deserialize(&mut from) == Ok(5),
        u32::deserialize(&mut from) == Ok(7),
        u32::deserialize(&mut from) == Err(Asn1DerError::TruncatedData),
        u32::deserialize(&mut from) == Err(Asn1DerError::InvalidData),
    ];
    assert!(rt; rows == [true; 6], "{rows:?}");
}

#[test]
fn truncated_input(rt: HostRuntime) {
    for size in 0..LONG_SAMPLE.len() {
        let fault = front_fault_of::<Sample>(rt.alloc(), &LONG_SAMPLE[..size]);
        assert!(rt; fault == Some(Asn1DerError::TruncatedData), "at {size}");
    }
}
