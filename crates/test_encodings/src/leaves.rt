//! Lengths, integers, bit strings, strings and times: the examples of X.690, and worked values.

use crate::spelling::is_own_copy;
use asn1_der::{LengthOctets, following, length_of};
use picky_asn1::LeafFault;
use picky_asn1::date::GeneralizedTime;
use picky_asn1::wrapper::{
    BitStringAsn1, GeneralStringAsn1, GeneralizedTimeAsn1, IntegerAsn1, OctetStringAsn1,
};
use std::alloc::Global;

fn is_length(length: usize, octets: &[u8]) -> bool {
    LengthOctets::of(length).as_bytes() == octets && length_of(octets) == Some(length)
}

// X.690, sections 8.1.3.4 and 8.1.3.5.
#[test]
fn lengths(rt: HostRuntime) {
    assert!(rt; is_length(38, &[0x26]) && is_length(201, &[0x81, 0xC9]));
    assert!(rt; [following(0x26), following(0x81)] == [Some(0), Some(1)]);
}

// One octet would do for 38, and 80 begins the indefinite form (X.690, sections 8.1.3.6 and 10.1).
#[test]
fn other_lengths(rt: HostRuntime) {
    assert!(rt; length_of(&[0x81, 0x26]).is_none());
    assert!(rt; following(0x80).is_none());
}

// The integer of these octets, none where they are those of none or memory is wanting.
fn read(alloc: Global, octets: &[u8]) -> Option<IntegerAsn1> {
    IntegerAsn1::from_content(alloc, octets).ok()?
}

fn is_integer(alloc: Global, octets: &[u8], value: Option<i64>) -> Option<bool> {
    let read = read(alloc, octets)?;
    let made = IntegerAsn1::new(alloc, octets).ok()?;
    Some(read.to_i64() == value && made == read)
}

// The last one has more than 64 bits with its sign.
#[test]
fn integers(rt: HostRuntime) {
    let cases: &[(&[u8], Option<i64>)] = &[
        (&[0x00, 0x80], Some(128)),
        (&[0xFF], Some(-1)),
        (&[0x80, 0, 0, 0, 0, 0, 0, 0], Some(i64::MIN)),
        (b"\0\xFF\xFF\xFF\xFF\xFF\xFF\xFF\xFF", None),
    ];
    for (octets, value) in cases {
        assert!(rt;
            is_integer(rt.alloc(), octets, *value) == Some(true),
            "at {octets:?}"
        );
    }
}

fn is_no_integer(alloc: Global, octets: &[u8]) -> bool {
    match IntegerAsn1::from_content(alloc, octets) {
        Ok(read) => read.is_none(),
        Err(_) => false,
    }
}

// More octets than the number needs, or none (X.690, sections 8.3.1 and 8.3.2).
#[test]
fn no_integers(rt: HostRuntime) {
    let cases: &[&[u8]] = &[&[0x00, 0x7F], &[0xFF, 0x80], &[]];
    for octets in cases {
        assert!(rt; is_no_integer(rt.alloc(), octets), "at {octets:?}");
    }
}

fn is_signed<E: Drop>(made: Result<IntegerAsn1, E>, octets: &[u8]) -> bool {
    match made {
        Ok(integer) => integer.as_signed_bytes_be() == octets && is_own_copy(&integer),
        Err(_) => false,
    }
}

#[test]
fn made_integers(rt: HostRuntime) {
    let alloc = rt.alloc();
    assert!(rt;
        is_signed(
            IntegerAsn1::from_bytes_be_signed(alloc, &[0x00, 0x00, 0x80]),
            &[0x00, 0x80],
        )
    );
    assert!(rt;
        is_signed(
            IntegerAsn1::from_bytes_be_unsigned(alloc, &[0x80]),
            &[0x00, 0x80],
        )
    );
    assert!(rt; is_signed(IntegerAsn1::from_u64(alloc, 128), &[0x00, 0x80]));
    assert!(rt; is_signed(IntegerAsn1::default(alloc), &[0]));
}

// The flags 9 and 10 of 32.
fn two_flags(alloc: Global) -> Option<BitStringAsn1> {
    BitStringAsn1::new(alloc, &[0x00, 0x60, 0x00, 0x00], 0).ok()
}

fn are_bits(flags: &BitStringAsn1) -> bool {
    flags.len() == 32 && flags.bit(9) && flags.bit(10) && !flags.bit(8) && !flags.bit(32)
}

fn is_set(flags: &mut BitStringAsn1) -> bool {
    flags.set(1, true)
        && !flags.set(32, true)
        && flags.as_bytes() == [0x40, 0x60, 0x00, 0x00].as_slice()
}

fn are_flags(alloc: Global) -> Option<bool> {
    let mut flags = two_flags(alloc)?;
    Some(are_bits(&flags) && is_set(&mut flags) && is_own_copy(&flags))
}

// RFC 4120, section 5.2.8: bit 0 is the highest of the first octet.
#[test]
fn flags(rt: HostRuntime) {
    assert!(rt; are_flags(rt.alloc()) == Some(true));
}

fn are_three_bits(alloc: Global) -> Option<bool> {
    let read = BitStringAsn1::from_content(alloc, &[5, 0xA0]).ok()??;
    Some(read.len() == 3 && read.unused() == 5 && !read.is_empty())
}

#[test]
fn unused_bits(rt: HostRuntime) {
    assert!(rt; are_three_bits(rt.alloc()) == Some(true));
}

fn is_name(alloc: Global, bytes: &[u8]) -> Option<bool> {
    let name = GeneralStringAsn1::new(alloc, bytes).ok()?;
    Some(name.as_bytes() == bytes && is_own_copy(&name))
}

fn is_read(alloc: Global, content: &[u8]) -> Option<bool> {
    let read = GeneralStringAsn1::from_content(alloc, content).ok()??;
    Some(read.as_bytes() == content)
}

#[test]
fn strings(rt: HostRuntime) {
    assert!(rt; is_name(rt.alloc(), b"krbtgt") == Some(true));
    assert!(rt; is_read(rt.alloc(), b"krbtgt") == Some(true));
}

fn are_octets(alloc: Global, bytes: &[u8]) -> Option<bool> {
    let octets = OctetStringAsn1::new(alloc, bytes).ok()?;
    let is_copied = is_own_copy(&octets);
    let given: Vec<u8> = octets.into();
    Some(is_copied && OctetStringAsn1::from(given).as_bytes() == bytes)
}

#[test]
fn octets(rt: HostRuntime) {
    assert!(rt; are_octets(rt.alloc(), &[1, 255]) == Some(true));
}

fn is_date(time: GeneralizedTime) -> bool {
    time.year() == 2000 && time.month() == 2 && time.day() == 29
}

fn is_clock(time: GeneralizedTime) -> bool {
    time.hour() == 23 && time.minute() == 59 && time.second() == 58
}

fn is_told(time: GeneralizedTime, text: &[u8; 15], seconds: u64) -> bool {
    time.to_text() == *text
        && time.seconds() == seconds
        && GeneralizedTimeAsn1::from(time).0 == time
}

// A leap day of the calendar, and its seconds since the year 0.
#[test]
fn leap_day(rt: HostRuntime) {
    let text = b"20000229235958Z";
    let time = GeneralizedTime::from_seconds(63_119_087_998);
    assert!(rt; is_date(time) && is_clock(time));
    assert!(rt; is_told(time, text, 63_119_087_998));
    assert!(rt; GeneralizedTime::from_text(text) == Some(time));
    assert!(rt; GeneralizedTime::new(2000, 2, 29, 23, 59, 58) == Ok(time));
}

#[test]
fn no_times(rt: HostRuntime) {
    let refused = GeneralizedTime::new(2001, 2, 29, 0, 0, 0);
    assert!(rt; refused == Err(LeafFault::Time));
    let day = GeneralizedTime::from_text(b"20000230000000Z");
    assert!(rt; day.is_none() && GeneralizedTime::from_text(b"2000022923595:Z").is_none());
}
