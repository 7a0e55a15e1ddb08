//! Readers and writers that fail behind each byte.

use crate::layouts::negoex::VERIFY;
use byte_streams::{Sink, Source};
use gss_contexts::{GssApiMessageError, LsapTokenInfoIntegrity, MicToken, WrapToken};
use microsoft_messages::{Pac, PacError, PacInfoBuffer};
use negoex_messages::{MessageHeader, NegoexDataType, NegoexMessage, Verify};
use std::alloc::Global;
use std::io::ErrorKind;
use test_support::{Drip, Trickle};

const MIC: &[u8] = b"\x04\x04\x05\xff\xff\xff\xff\xff\x00\x00\x00\x00\x00\x00\x01\x02sum";

// A token's fault of the device, as its kind; its other faults as `InvalidData`.
fn kind_of(fault: &GssApiMessageError) -> ErrorKind {
    match fault {
        GssApiMessageError::IoError(kind) => *kind,
        _ => ErrorKind::InvalidData,
    }
}

fn mic_fault<R: Source>(alloc: Global, reader: &mut R) -> Option<ErrorKind> {
    match MicToken::decode(alloc, reader) {
        Ok(_) => None,
        Err(fault) => Some(kind_of(&fault)),
    }
}

fn wrap_fault<R: Source>(alloc: Global, reader: &mut R) -> Option<ErrorKind> {
    match WrapToken::decode(alloc, reader) {
        Ok(_) => None,
        Err(fault) => Some(kind_of(&fault)),
    }
}

// A token is read to the end of its reader, so a failure behind the last byte is one too. What is wrong in the bytes that
// came is answered before it: here the id, once both its bytes came.
#[test]
fn tokens(rt: HostRuntime) {
    let broken = Some(ErrorKind::BrokenPipe);
    for count in 0..20 {
        assert!(rt;
            mic_fault(rt.alloc(), &mut Drip::new(MIC, count)) == broken,
            "behind {count}"
        );
        let wanted = if count < 2 {
            broken
        } else {
            Some(ErrorKind::InvalidData)
        };
        assert!(rt;
            wrap_fault(rt.alloc(), &mut Drip::new(MIC, count)) == wanted,
            "behind {count}"
        );
    }
}

const RECORD: &[u8] = b"\x01\x00\x00\x00\x00\x20\x00\x00machine-machine-machine-machine-";

fn record_fault(count: usize) -> Option<ErrorKind> {
    match LsapTokenInfoIntegrity::decode(&mut Drip::new(RECORD, count)) {
        Ok(_) => None,
        Err(error) => Some(error.kind),
    }
}

// A record is read, and no byte more.
#[test]
fn records(rt: HostRuntime) {
    for count in 0..40 {
        assert!(rt;
            record_fault(count) == Some(ErrorKind::BrokenPipe),
            "behind {count}"
        );
    }
    assert!(rt; record_fault(40).is_none());
}

const PAC: &[u8] =
    b"\x01\x00\x00\x00\x00\x00\x00\x00\x0a\x00\x00\x00\x08\x00\x00\x00\x18\x00\x00\x00\x00\x00\x00\x00\x01\x02\x03\x04\x05\x06\x07\x08";

fn pac_kind(fault: &PacError) -> ErrorKind {
    match fault {
        PacError::IoError(kind) => *kind,
        _ => ErrorKind::InvalidData,
    }
}

fn pac_fault(alloc: Global, bytes: &[u8], count: usize) -> Option<ErrorKind> {
    match Pac::deserialize(alloc, &mut Drip::new(bytes, count)) {
        Ok(_) => None,
        Err(fault) => Some(pac_kind(&fault)),
    }
}

fn row_fault(bytes: &[u8], count: usize) -> Option<ErrorKind> {
    match PacInfoBuffer::deserialize(&mut Drip::new(bytes, count)) {
        Ok(_) => None,
        Err(fault) => Some(pac_kind(&fault)),
    }
}

// The first 12 octets of a PAC of version 1; the only version is 0.
const VERSION_1: &[u8] = b"\x01\x00\x00\x00\x01\x00\x00\x00\x0a\x00\x00\x00";

// The first 12 octets of a PAC whose buffer has type 3, which MS-PAC does not define.
const TYPE_3: &[u8] = b"\x01\x00\x00\x00\x00\x00\x00\x00\x03\x00\x00\x00";

// What is wrong in the bytes that came is answered before the device's fault.
#[test]
fn wrong_pacs(rt: HostRuntime) {
    for (bytes, size) in &[(VERSION_1, 8), (TYPE_3, 12)] {
        for count in 0..13 {
            let wanted = if count < *size {
                ErrorKind::BrokenPipe
            } else {
                ErrorKind::InvalidData
            };
            assert!(rt;
                pac_fault(rt.alloc(), bytes, count) == Some(wanted),
                "behind {count}"
            );
        }
    }
}

// A PAC is read to the end of its reader, and a row of its table is not. A type that is none is answered once it came.
#[test]
fn pacs(rt: HostRuntime) {
    let broken = Some(ErrorKind::BrokenPipe);
    for count in 0..33 {
        assert!(rt;
            pac_fault(rt.alloc(), PAC, count) == broken,
            "behind {count}"
        );
    }
    for count in 0..16 {
        assert!(rt; row_fault(&PAC[8..24], count) == broken, "behind {count}");
        let wanted = if count < 4 {
            broken
        } else {
            Some(ErrorKind::InvalidData)
        };
        assert!(rt; row_fault(&[3; 16], count) == wanted, "behind {count}");
    }
    assert!(rt; pac_fault(rt.alloc(), PAC, 33).is_none());
    assert!(rt; row_fault(&PAC[8..24], 16).is_none());
}

// A signature that is wrong from its last byte on.
const HEADER: &[u8] = b"\
    NEGOEXTZ\x06\x00\x00\x00\x07\x00\x00\x00P\x00\x00\x00\x5c\x00\x00\x00Z\x07);\x91\xf33\xaf\
    \xa1\xb4\xa2\x12$\x9d|\xb4";

fn header_fault(alloc: Global, count: usize) -> Option<ErrorKind> {
    match MessageHeader::decode(alloc, &mut Drip::new(HEADER, count), HEADER) {
        Ok(_) => None,
        Err(error) => Some(error.kind),
    }
}

#[test]
fn headers(rt: HostRuntime) {
    for count in 0..41 {
        let wanted = if count < 8 {
            ErrorKind::BrokenPipe
        } else {
            ErrorKind::InvalidData
        };
        assert!(rt;
            header_fault(rt.alloc(), count) == Some(wanted),
            "behind {count}"
        );
    }
}

// How a token is written to a device that fails behind so many bytes: with no fault, or with the device's.
fn mic_written(alloc: Global, to: &mut Trickle) -> Option<Result<(), ErrorKind>> {
    match MicToken::decode(alloc, &mut &*MIC).ok()?.encode(to) {
        Ok(()) => Some(Ok(())),
        Err(fault) => Some(Err(kind_of(&fault))),
    }
}

const WRAP: &[u8] = b"\x05\x04\x06\xff\x00\x1c\x00\x03\x00\x00\x00\x00\x00\x00\x01\x02data";

fn wrap_written(alloc: Global, to: &mut Trickle) -> Option<Result<(), ErrorKind>> {
    match WrapToken::decode(alloc, &mut &*WRAP).ok()?.encode(to) {
        Ok(()) => Some(Ok(())),
        Err(fault) => Some(Err(kind_of(&fault))),
    }
}

fn record_written(to: &mut Trickle) -> Option<Result<(), ErrorKind>> {
    let record = LsapTokenInfoIntegrity::decode(&mut &*RECORD).ok()?;
    match record.encode(to) {
        Ok(()) => Some(Ok(())),
        Err(error) => Some(Err(error.kind)),
    }
}

fn pac_written(alloc: Global, to: &mut Trickle) -> Option<Result<(), ErrorKind>> {
    match Pac::deserialize(alloc, &mut &*PAC)
        .ok()?
        .serialize(alloc, to)
    {
        Ok(()) => Some(Ok(())),
        Err(fault) => Some(Err(pac_kind(&fault))),
    }
}

fn row_written(to: &mut Trickle) -> Option<Result<(), ErrorKind>> {
    let row = PacInfoBuffer::deserialize(&mut &PAC[8..24]).ok()?;
    match row.serialize(to) {
        Ok(()) => Some(Ok(())),
        Err(fault) => Some(Err(pac_kind(&fault))),
    }
}

fn message_written(alloc: Global, to: &mut Trickle) -> Option<Result<(), ErrorKind>> {
    match Verify::decode(alloc, VERIFY).ok()?.encode(alloc, to) {
        Ok(()) => Some(Ok(())),
        Err(error) => Some(Err(error.kind)),
    }
}

// What is written.
#[derive(Clone, Copy, Debug)]
enum Form {
    Mic,
    Wrap,
    Record,
    Pac,
    Row,
    Message,
}

fn written(alloc: Global, form: Form, to: &mut Trickle) -> Option<Result<(), ErrorKind>> {
    match form {
        Form::Mic => mic_written(alloc, to),
        Form::Wrap => wrap_written(alloc, to),
        Form::Record => record_written(to),
        Form::Pac => pac_written(alloc, to),
        Form::Row => row_written(to),
        Form::Message => message_written(alloc, to),
    }
}

// Whether a writing to a device that fails behind so many bytes ends by its one failure, and writes a front of the whole; or all,
// where the whole has no more bytes.
fn is_front(alloc: Global, form: Form, whole: &[u8], count: usize) -> bool {
    let mut to = Trickle::new(alloc, count, true);
    let ended = written(alloc, form, &mut to);
    let (end, failures) = if count < whole.len() {
        (Err(ErrorKind::BrokenPipe), 1)
    } else {
        (Ok(()), 0)
    };
    ended == Some(end)
        && Sink::failures(&to) == failures
        && Some(to.taken.as_slice()) == whole.get(..count)
}

#[test]
fn writers(rt: HostRuntime) {
    for (form, whole) in &[
        (Form::Mic, MIC),
        (Form::Wrap, WRAP),
        (Form::Record, RECORD),
        (Form::Pac, PAC),
        (Form::Row, &PAC[8..24]),
        (Form::Message, VERIFY),
    ] {
        for count in 0..=whole.len() {
            assert!(rt;
                is_front(rt.alloc(), *form, whole, count),
                "{form:?} behind {count}"
            );
        }
    }
}
