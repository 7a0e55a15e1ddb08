//! Object identifiers, strings and UTC times. The bytes are those of X.690, RFC 8017, and of `openssl asn1parse -genstr`.
use crate::spelling::{fault_of, is_made, is_own_copy, is_spelled, is_written};
use picky_asn1::LeafFault;
use picky_asn1::date::{GeneralizedTime, UTCTime};
use picky_asn1::oid::ObjectIdentifier;
use picky_asn1::wrapper::{
    Asn1SequenceOf, Asn1SetOf, BmpStringAsn1, GeneralizedTimeAsn1, IA5StringAsn1, IntegerAsn1,
    ObjectIdentifierAsn1, PrintableStringAsn1, UTCTimeAsn1, Utf8StringAsn1,
};
use picky_asn1_der::from_exact_bytes;
use std::alloc::Global;

fn is_text(oid: &ObjectIdentifier, text: &str) -> bool {
    match oid.to_text() {
        Ok(told) => told.as_str() == text,
        Err(_) => false,
    }
}

fn is_text_spelled(alloc: Global, text: &str, bytes: &[u8]) -> bool {
    match ObjectIdentifier::from_text(alloc, text) {
        Ok(oid) => is_text(&oid, text) && is_written(alloc, &ObjectIdentifierAsn1(oid), bytes),
        Err(_) => false,
    }
}

fn is_text_read(alloc: Global, text: &str, bytes: &[u8]) -> bool {
    match from_exact_bytes::<ObjectIdentifierAsn1>(alloc, bytes) {
        Ok(read) => is_text(&read.0, text),
        Err(_) => false,
    }
}

// rsaEncryption (RFC 8017, appendix C), and the example of X.690, section 8.19.5.
#[test]
fn object_identifiers(rt: HostRuntime) {
    let cases: &[(&str, &[u8])] = &[
        (
            "1.2.840.113549.1.1.1",
            b"\x06\x09\x2A\x86\x48\x86\xF7\x0D\x01\x01\x01",
        ),
        ("2.100.3", b"\x06\x03\x81\x34\x03"),
    ];
    for (text, bytes) in cases {
        assert!(rt; is_text_spelled(rt.alloc(), text, bytes), "writing {text}");
        assert!(rt; is_text_read(rt.alloc(), text, bytes), "reading {text}");
    }
}

fn is_no_text(alloc: Global, text: &str) -> bool {
    matches!(
        ObjectIdentifier::from_text(alloc, text),
        Err(LeafFault::Oid)
    )
}

fn is_no_oid(alloc: Global, bytes: &[u8]) -> bool {
    fault_of::<ObjectIdentifierAsn1>(alloc, bytes).is_some()
}

// The second arc below 0 and 1 is at most 39 (X.660, section A.2.2), and an arc has no leading zero octet (X.690,
// section 8.19.2).
#[test]
fn no_object_identifiers(rt: HostRuntime) {
    for text in &["", "1", "1.40", "3.1", "1.2.", "1.02", "1.+2"] {
        assert!(rt; is_no_text(rt.alloc(), text), "at {text}");
    }
    let alloc = rt.alloc();
    assert!(rt; is_no_oid(alloc, &[6, 0]));
    assert!(rt; is_no_oid(alloc, &[6, 1, 0x81]));
    assert!(rt; is_no_oid(alloc, &[6, 2, 0x80, 1]));
}

fn is_utf8(alloc: Global, content: &[u8], text: &str, bytes: &[u8]) -> bool {
    match Utf8StringAsn1::new(alloc, content) {
        Ok(made) => made.as_str() == text && is_spelled(alloc, &made, bytes),
        Err(_) => false,
    }
}

#[test]
fn texts(rt: HostRuntime) {
    let alloc = rt.alloc();
    assert!(rt; is_utf8(alloc, b"\xC3\xA9", "\u{e9}", b"\x0C\x02\xC3\xA9"));
    assert!(rt; is_made(alloc, PrintableStringAsn1::new(alloc, b"US"), b"\x13\x02US"));
    assert!(rt; is_made(alloc, IA5StringAsn1::new(alloc, b"a@b"), b"\x16\x03a@b"));
    assert!(rt; is_made(alloc, BmpStringAsn1::new(alloc, b"\0A"), b"\x1E\x02\0A"));
}

// An at sign is not printable, C3 alone is no UTF-8, and half a character no BMPString.
#[test]
fn no_texts(rt: HostRuntime) {
    let alloc = rt.alloc();
    assert!(rt; PrintableStringAsn1::new(alloc, b"a@b").is_err());
    assert!(rt; Utf8StringAsn1::new(alloc, &[0xC3]).is_err());
    assert!(rt; IA5StringAsn1::new(alloc, &[0x80]).is_err());
    assert!(rt; BmpStringAsn1::new(alloc, &[0]).is_err());
}

fn is_utc_text(text: &[u8], year: u16) -> bool {
    match UTCTime::from_text(text) {
        Some(time) => time.year() == year && time.to_text().as_slice() == text,
        None => false,
    }
}

fn is_utc_written(alloc: Global, bytes: &[u8]) -> bool {
    match UTCTime::new(2026, 11, 23, 1, 2, 3) {
        Ok(time) => is_written(alloc, &UTCTimeAsn1(time), bytes),
        Err(_) => false,
    }
}

// 50 is 1950, and 49 is 2049 (RFC 5280, section 4.1.2.5.1).
#[test]
fn utc_times(rt: HostRuntime) {
    assert!(rt; is_utc_text(b"500101000000Z", 1950));
    assert!(rt; is_utc_text(b"491231235959Z", 2049));
    assert!(rt; is_utc_written(rt.alloc(), b"\x17\x0D261123010203Z"));
    assert!(rt; UTCTime::new(2050, 1, 1, 0, 0, 0).is_err());
}

fn is_time_written(alloc: Global, bytes: &[u8]) -> bool {
    match GeneralizedTime::new(2000, 2, 29, 23, 59, 58) {
        Ok(time) => is_written(alloc, &GeneralizedTimeAsn1(time), bytes),
        Err(_) => false,
    }
}

#[test]
fn generalized_times(rt: HostRuntime) {
    assert!(rt; is_time_written(rt.alloc(), b"\x18\x0F20000229235958Z"));
}

fn number_of(alloc: Global, bytes: &[u8]) -> Option<i64> {
    match from_exact_bytes::<IntegerAsn1>(alloc, bytes) {
        Ok(read) => read.to_i64(),
        Err(_) => None,
    }
}

#[test]
fn integers(rt: HostRuntime) {
    assert!(rt; number_of(rt.alloc(), &[2, 2, 0, 0x80]) == Some(128));
    assert!(rt; fault_of::<IntegerAsn1>(rt.alloc(), &[2, 2, 0, 0x7F]).is_some());
}

fn is_set(alloc: Global, bytes: &[u8], numbers: &[u32]) -> bool {
    match from_exact_bytes::<Asn1SetOf<u32>>(alloc, bytes) {
        Ok(read) => {
            read.as_slice() == numbers && is_written(alloc, &read, bytes) && is_own_copy(&read)
        }
        Err(_) => false,
    }
}

fn is_empty_list(alloc: Global, bytes: &[u8]) -> bool {
    match from_exact_bytes::<Asn1SequenceOf<u32>>(alloc, bytes) {
        Ok(read) => read.as_slice().is_empty(),
        Err(_) => false,
    }
}

// The order is kept as given.
#[test]
fn lists(rt: HostRuntime) {
    assert!(rt; is_set(rt.alloc(), &[0x31, 6, 2, 1, 7, 2, 1, 5], &[7, 5]));
    assert!(rt; is_empty_list(rt.alloc(), &[0x30, 0]));
}
