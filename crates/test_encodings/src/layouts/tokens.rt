//! Tokens: headers, whole tokens and refusals, by the tables of RFC 4121, section 4.2.6.

use picky_krb::from_bytes;
use picky_krb::gss_api::{KrbMessage, MicToken, WrapToken};
use picky_krb::messages::IAKerbHeader;
use std::alloc::Global;

const MIC: &[u8] = b"\x04\x04\x05\xff\xff\xff\xff\xff\x00\x00\x00\x00\x00\x00\x01\x02sum";

const WRAP: &[u8] = b"\x05\x04\x06\xff\x00\x1c\x00\x03\x00\x00\x00\x00\x00\x00\x01\x02data";

#[test]
fn headers(rt: HostRuntime) {
    let mic = MicToken::with_initiator_flags(rt.alloc()).with_seq_number(1);
    assert!(rt; mic.header() == [4, 4, 4, 255, 255, 255, 255, 255, 0, 0, 0, 0, 0, 0, 0, 1]);
    let wrap = WrapToken::with_seq_number(rt.alloc(), 2);
    assert!(rt; wrap.header() == [5, 4, 6, 255, 0, 0, 0, 0, 0, 0, 0, 0, 0, 0, 0, 2]);
    assert!(rt; WrapToken::header_len() == 16);
}

fn is_mic_copied(alloc: Global, token: &MicToken) -> bool {
    let mut written = Vec::new(alloc);
    match token.clone() {
        Ok(copy) => copy.encode(&mut written).is_ok() && written.as_slice() == MIC,
        Err(_) => false,
    }
}

fn is_mic(alloc: Global) -> bool {
    match MicToken::decode(alloc, &mut &*MIC) {
        Ok(token) => {
            (token.flags, token.seq_num) == (5, 258)
                && token.checksum.as_slice() == b"sum".as_slice()
                && is_mic_copied(alloc, &token)
        }
        Err(_) => false,
    }
}

#[test]
fn mic_token(rt: HostRuntime) {
    assert!(rt; is_mic(rt.alloc()));
}

fn is_wrap_copied(alloc: Global, token: &WrapToken) -> bool {
    let mut written = Vec::new(alloc);
    match token.clone() {
        Ok(copy) => copy.encode(&mut written).is_ok() && written.as_slice() == WRAP,
        Err(_) => false,
    }
}

fn is_wrap(alloc: Global) -> bool {
    match WrapToken::decode(alloc, &mut &*WRAP) {
        Ok(token) => {
            (token.flags, token.ec, token.rrc, token.seq_num) == (6, 28, 3, 258)
                && token.checksum.as_slice() == b"data".as_slice()
                && is_wrap_copied(alloc, &token)
        }
        Err(_) => false,
    }
}

#[test]
fn wrap_token(rt: HostRuntime) {
    assert!(rt; is_wrap(rt.alloc()));
}

fn mic_refusal(alloc: Global, bytes: &[u8]) -> u8 {
    let mut left = bytes;
    match MicToken::decode(alloc, &mut left) {
        Ok(_) => 0,
        Err(fault) => fault.number(),
    }
}

fn wrap_refusal(alloc: Global, bytes: &[u8]) -> u8 {
    let mut left = bytes;
    match WrapToken::decode(alloc, &mut left) {
        Ok(_) => 0,
        Err(fault) => fault.number(),
    }
}

// The first of a wrong id (1), a wrong filler (4, 5) and too few bytes (3); 0 where none is wrong.
#[test]
fn refusals(rt: HostRuntime) {
    let cases: &[(&[u8], u8, u8)] = &[
        (b"", 3, 3),
        (b"\x07", 3, 3),
        (b"\x05\x04", 1, 3),
        (b"\x04\x04", 3, 1),
        (b"\x04\x04\x00\xff\xff\xff\xff\x00", 4, 1),
        (b"\x05\x04\x00\x00", 1, 5),
        (&MIC[..15], 3, 1),
        (&WRAP[..15], 1, 3),
        (&MIC[..16], 0, 1),
        (&WRAP[..16], 1, 0),
    ];
    for (bytes, mic, wrap) in cases {
        let told = (
            mic_refusal(rt.alloc(), bytes),
            wrap_refusal(rt.alloc(), bytes),
        );
        assert!(rt; told == (*mic, *wrap), "at {bytes:?}");
    }
}

// The number of the fault that a first token is refused with (RFC 4121, section 4.1), or 0.
fn first_refusal(alloc: Global, bytes: &[u8]) -> u8 {
    match KrbMessage::<u8>::decode_application_krb_message(alloc, bytes) {
        Ok(_) => 0,
        Err(fault) => fault.number(),
    }
}

// The first token has the id 01 00 and the INTEGER 7 as its message. A content that ends before the token id is an I/O error (3).
// Another tag, and a content that ends elsewhere, are no DER (6).
#[test]
fn first_tokens(rt: HostRuntime) {
    let cases: &[(&[u8], u8)] = &[
        (
            b"\x60\x10\x06\x09\x2A\x86\x48\x86\xF7\x12\x01\x02\x02\x01\x00\x02\x01\x07",
            0,
        ),
        (
            b"\x61\x10\x06\x09\x2A\x86\x48\x86\xF7\x12\x01\x02\x02\x01\x00\x02\x01\x07",
            6,
        ),
        (
            b"\x30\x10\x06\x09\x2A\x86\x48\x86\xF7\x12\x01\x02\x02\x01\x00\x02\x01\x07",
            6,
        ),
        (b"\x60\x00", 6),
        (b"\x60\x0A\x06\x09\x2A\x86\x48\x86\xF7\x12\x01\x02", 6),
        (b"\x60\x0B\x06\x09\x2A\x86\x48\x86\xF7\x12\x01\x02\x02", 3),
        (
            b"\x60\x0C\x06\x09\x2A\x86\x48\x86\xF7\x12\x01\x02\x02\x01",
            3,
        ),
        (
            b"\x60\x0D\x06\x09\x2A\x86\x48\x86\xF7\x12\x01\x02\x02\x01\x00",
            6,
        ),
        (
            b"\x60\x0F\x06\x09\x2A\x86\x48\x86\xF7\x12\x01\x02\x02\x01\x00\x02\x01",
            6,
        ),
    ];
    for (bytes, number) in cases {
        assert!(rt; first_refusal(rt.alloc(), bytes) == *number, "at {bytes:?}");
    }
}

fn is_header(alloc: Global, bytes: &[u8]) -> bool {
    from_bytes::<IAKerbHeader>(alloc, bytes).is_ok()
}

// What follows the fields of a header is ignored; what follows its SEQUENCE is refused.
#[test]
fn headers_of_iakerb(rt: HostRuntime) {
    let cases: &[(&[u8], bool)] = &[
        (b"\x30\x05\xA1\x03\x0C\x01R", true),
        (b"\x30\x09\xA1\x03\x0C\x01R\xA5\x02\x05\x00", true),
        (b"\x30\x05\xA1\x03\x0C\x01R\x00", false),
        (b"\x31\x05\xA1\x03\x0C\x01R", false),
    ];
    for (bytes, is_read) in cases {
        assert!(rt; is_header(rt.alloc(), bytes) == *is_read, "at {bytes:?}");
    }
}
