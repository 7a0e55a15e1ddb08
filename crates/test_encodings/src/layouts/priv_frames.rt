//! Frames of an exchange that changes a password, by RFC 3244, section 2.

use asn1_der::Asn1DerError;
use microsoft_messages::{KrbPrivFrame, KrbPrivFrameError};
use picky_asn1_der::Asn1RawDer;
use std::alloc::Global;
use std::io::ErrorKind;
use test_support::{Drip, Trickle};

// 19 bytes in all, of which the AP message, an application tag 14 around nothing, has 2.
const FRAME: &[u8] = b"\x00\x13\x00\x01\x00\x02\x6e\x00\x75\x09priv-body";

type Frame = KrbPrivFrame<Asn1RawDer, Asn1RawDer>;

fn raw(alloc: Global, bytes: &[u8]) -> Result<Asn1RawDer, Asn1DerError> {
    let Ok(held) = Vec::from_slice(alloc, bytes) else {
        return Err(Asn1DerError::Memory);
    };
    Asn1RawDer::new(held)
}

fn is_read(alloc: Global, bytes: &[u8], rest: &[u8]) -> bool {
    let mut left = bytes;
    match Frame::deserialize(alloc, &mut left) {
        Ok(frame) => {
            frame.ap_message.as_bytes() == &FRAME[6..8]
                && frame.krb_priv.as_bytes() == &FRAME[8..]
                && left == rest
        }
        Err(_) => false,
    }
}

// The lengths aren't judged, and what follows is left.
#[test]
fn read(rt: HostRuntime) {
    assert!(rt; is_read(rt.alloc(), FRAME, b""));
    assert!(rt;
        is_read(
            rt.alloc(),
            b"\xff\xff\x00\x01\x00\x00\x6e\x00\x75\x09priv-bodymore",
            b"more",
        )
    );
}

fn fault_of(alloc: Global, bytes: &[u8]) -> Option<ErrorKind> {
    let mut left = bytes;
    match Frame::deserialize(alloc, &mut left) {
        Ok(_) => None,
        Err(error) => Some(error.kind),
    }
}

#[test]
fn refused(rt: HostRuntime) {
    let cases: &[(&[u8], ErrorKind)] = &[
        (b"", ErrorKind::UnexpectedEof),
        (b"\x00\x13\x00", ErrorKind::UnexpectedEof),
        (b"\x00\x13\x00\x02", ErrorKind::InvalidData),
        (b"\x00\x13\x00\x01\x00", ErrorKind::UnexpectedEof),
        (&FRAME[..6], ErrorKind::InvalidData),
        (&FRAME[..18], ErrorKind::InvalidData),
    ];
    for (bytes, fault) in cases {
        assert!(rt; fault_of(rt.alloc(), bytes) == Some(*fault), "at {bytes:?}");
    }
}

fn broken_fault(alloc: Global, bytes: &[u8], count: usize) -> Option<ErrorKind> {
    match Frame::deserialize(alloc, &mut Drip::new(bytes, count)) {
        Ok(_) => None,
        Err(error) => Some(error.kind),
    }
}

#[test]
fn failing_reader(rt: HostRuntime) {
    for count in 0..19 {
        let fault = broken_fault(rt.alloc(), FRAME, count);
        assert!(rt; fault == Some(ErrorKind::BrokenPipe), "behind {count}");
    }
    assert!(rt; broken_fault(rt.alloc(), FRAME, 19).is_none());
}

// Another version is answered once it came.
#[test]
fn failing_behind_another_version(rt: HostRuntime) {
    for count in 0..7 {
        let wanted = if count < 4 {
            ErrorKind::BrokenPipe
        } else {
            ErrorKind::InvalidData
        };
        let fault = broken_fault(rt.alloc(), b"\x00\x13\x00\x02\x00\x02\x6e", count);
        assert!(rt; fault == Some(wanted), "behind {count}");
    }
}

// The frame of these two elements.
fn written(
    alloc: Global,
    ap_message: &[u8],
    krb_priv: &[u8],
) -> Result<Vec<u8>, KrbPrivFrameError> {
    let (Ok(ap_message), Ok(krb_priv)) = (raw(alloc, ap_message), raw(alloc, krb_priv)) else {
        return Err(KrbPrivFrameError {
            kind: ErrorKind::InvalidData,
        });
    };
    let mut bytes = Vec::new(alloc);
    let frame = KrbPrivFrame {
        ap_message,
        krb_priv,
    };
    frame.serialize(alloc, &mut bytes)?;
    Ok(bytes)
}

fn is_written(alloc: Global) -> bool {
    match written(alloc, &FRAME[6..8], &FRAME[8..]) {
        Ok(bytes) => bytes.as_slice() == FRAME,
        Err(_) => false,
    }
}

// How a frame is written to a device that fails behind so many bytes.
fn broken_write(alloc: Global, to: &mut Trickle) -> Option<Result<(), ErrorKind>> {
    match Frame::deserialize(alloc, &mut &*FRAME)
        .ok()?
        .serialize(alloc, to)
    {
        Ok(()) => Some(Ok(())),
        Err(error) => Some(Err(error.kind)),
    }
}

fn is_front(alloc: Global, count: usize) -> bool {
    let mut to = Trickle::new(alloc, count, true);
    let end = if count < 19 {
        Err(ErrorKind::BrokenPipe)
    } else {
        Ok(())
    };
    broken_write(alloc, &mut to) == Some(end) && Some(to.taken.as_slice()) == FRAME.get(..count)
}

#[test]
fn failing_writer(rt: HostRuntime) {
    for count in 0..20 {
        assert!(rt; is_front(rt.alloc(), count), "behind {count}");
    }
}

// How many bytes a frame has whose KRB-PRIV's content is of so many zeros.
fn size_of(alloc: Global, count: u16) -> Option<Result<usize, ErrorKind>> {
    let mut bytes = Vec::from_slice(alloc, &[0x75, 0x82]).ok()?;
    bytes.extend_from_slice(&count.to_be_bytes()).ok()?;
    bytes.resize(4 + count as usize, 0).ok()?;
    match written(alloc, &FRAME[6..8], &bytes) {
        Ok(frame) => Some(Ok(frame.len())),
        Err(error) => Some(Err(error.kind)),
    }
}

// 6 bytes, 2, and 4 in front of the content: 65,535 are the most that there can be.
#[test]
fn lengths(rt: HostRuntime) {
    assert!(rt; is_written(rt.alloc()));
    assert!(rt; size_of(rt.alloc(), 65_523) == Some(Ok(65_535)));
    assert!(rt; size_of(rt.alloc(), 65_524) == Some(Err(ErrorKind::InvalidInput)));
}
