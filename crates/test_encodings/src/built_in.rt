//! Rust's own types. The bytes are what `openssl asn1parse -genstr` writes.
use crate::spelling::{fault_of, is_read, is_spelled, is_written};
use picky_asn1_der::{Asn1DerError, ByteBuf, Rule, from_exact_bytes};
use std::alloc::Global;

#[test]
fn truth_and_nothing(rt: HostRuntime) {
    let alloc = rt.alloc();
    assert!(rt; is_spelled(alloc, &true, &[1, 1, 0xFF]));
    assert!(rt; is_read(alloc, &false, &[1, 1, 0]));
    assert!(rt; fault_of::<bool>(alloc, &[1, 1, 1]) == Some(Asn1DerError::Message(Rule::Boolean)));
    assert!(rt; is_spelled(alloc, &(), &[5, 0]));
}

const GREATEST: &[u8] = b"\x02\x09\0\xFF\xFF\xFF\xFF\xFF\xFF\xFF\xFF";

#[test]
fn numbers(rt: HostRuntime) {
    let alloc = rt.alloc();
    let rows = [
        is_written(alloc, &128u8, &[2, 2, 0, 0x80]),
        is_read(alloc, &256u16, &[2, 2, 1, 0]),
        fault_of::<u8>(alloc, &[2, 2, 1, 0]) == Some(Asn1DerError::UnsupportedValue),
        is_spelled(alloc, &u64::MAX, GREATEST),
        is_read(alloc, &u128::from(u64::MAX), GREATEST),
    ];
    assert!(rt; rows == [true; 5], "{rows:?}");
}

fn are_octets_written(alloc: Global, octets: &[u8], bytes: &[u8]) -> bool {
    match Vec::from_slice(alloc, octets) {
        Ok(octets) => is_written(alloc, &ByteBuf::from(octets), bytes),
        Err(_) => false,
    }
}

fn are_octets_read(alloc: Global, octets: &[u8], bytes: &[u8]) -> bool {
    match from_exact_bytes::<ByteBuf>(alloc, bytes) {
        Ok(read) => read.as_bytes() == octets,
        Err(_) => false,
    }
}

#[test]
fn characters_and_octets(rt: HostRuntime) {
    let alloc = rt.alloc();
    assert!(rt; is_spelled(alloc, &'\u{e9}', &[0x0C, 2, 0xC3, 0xA9]));
    assert!(rt; are_octets_written(alloc, &[7, 8], &[4, 2, 7, 8]));
    assert!(rt; are_octets_read(alloc, &[7, 8], &[4, 2, 7, 8]));
}

#[test]
fn several(rt: HostRuntime) {
    let alloc = rt.alloc();
    assert!(rt; is_spelled(alloc, &(7u32, true), &[0x30, 6, 2, 1, 7, 1, 1, 0xFF]));
    assert!(rt; is_spelled(alloc, &(7u32,), &[0x30, 3, 2, 1, 7]));
    assert!(rt; is_spelled(alloc, &[7u8, 8], &[0x30, 6, 2, 1, 7, 2, 1, 8]));
    assert!(rt; is_written(alloc, &None::<u32>, &[]));
}
