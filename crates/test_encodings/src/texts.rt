//! Values as text: times in the form of RFC 3339, whole numbers, strings, and names as RFC 1964 writes them.

use krb_messages::data_types::{KerberosStringAsn1, PrincipalName};
use picky_asn1::LeafFault;
use picky_asn1::date::{GeneralizedTime, UTCTime};
use picky_asn1::wrapper::{Asn1SequenceOf, IA5StringAsn1, IntegerAsn1};
use picky_asn1_der::ExplicitContextTag;
use std::alloc::Global;
use std::fmt;

fn is_shown<T: fmt::Display>(alloc: Global, value: &T, text: &str) -> bool {
    match value.to_string(alloc) {
        Ok(shown) => shown.as_str() == text,
        Err(_) => false,
    }
}

// Whether a value was made, and is shown as this text.
fn is_told<T: fmt::Display + Drop>(alloc: Global, made: Result<T, LeafFault>, text: &str) -> bool {
    match made {
        Ok(value) => is_shown(alloc, &value, text),
        Err(_) => false,
    }
}

#[test]
fn times(rt: HostRuntime) {
    let time = GeneralizedTime::new(2000, 2, 29, 23, 59, 58);
    assert!(rt; is_told(rt.alloc(), time, "2000-02-29 23:59:58Z"));
    let time = UTCTime::new(1950, 1, 2, 3, 4, 5);
    assert!(rt; is_told(rt.alloc(), time, "1950-01-02 03:04:05Z"));
}

fn is_integer(alloc: Global, octets: &[u8], text: &str, unsigned: &[u8]) -> bool {
    match IntegerAsn1::new(alloc, octets) {
        Ok(integer) => is_shown(alloc, &integer, text)
            && integer.as_unsigned_bytes_be() == unsigned,
        Err(_) => false,
    }
}

// The last one needs more than 64 bits with its sign.
#[test]
fn integers(rt: HostRuntime) {
    let cases: &[(&[u8], &str, &[u8])] = &[
        (&[0], "0", &[0]),
        (&[0x00, 0x80], "128", &[0x80]),
        (&[0xFF, 0x7F], "-129", &[0xFF, 0x7F]),
        (
            b"\x80\0\0\0\0\0\0\0",
            "-9223372036854775808",
            b"\x80\0\0\0\0\0\0\0",
        ),
        (
            b"\0\xD3\0\0\0\0\0\0\x1F",
            "0x00D30000000000001F",
            b"\xD3\0\0\0\0\0\0\x1F",
        ),
    ];
    for (octets, text, unsigned) in cases {
        assert!(rt; is_integer(rt.alloc(), octets, text, unsigned), "at {text}");
    }
}

fn is_ia5(alloc: Global, text: &str) -> bool {
    match IA5StringAsn1::new(alloc, text.as_bytes()) {
        Ok(string) => string.as_str() == text && is_shown(alloc, &string, text),
        Err(_) => false,
    }
}

fn is_general(alloc: Global, text: &str) -> bool {
    match KerberosStringAsn1::new(alloc, text.as_bytes()) {
        Ok(string) => string.as_str() == text && is_shown(alloc, &string, text),
        Err(_) => false,
    }
}

#[test]
fn strings(rt: HostRuntime) {
    assert!(rt; is_ia5(rt.alloc(), "a@b"));
    assert!(rt; is_general(rt.alloc(), "EXAMPLE.COM"));
}

fn name_of(alloc: Global, components: &[&[u8]]) -> Result<PrincipalName, LeafFault> {
    let components = components_of(alloc, components)?;
    let name_type = IntegerAsn1::from_u64(alloc, 2)?;
    Ok(PrincipalName {
        name_type: ExplicitContextTag(name_type),
        name_string: ExplicitContextTag(components),
    })
}

fn components_of(
    alloc: Global,
    octets: &[&[u8]],
) -> Result<Asn1SequenceOf<KerberosStringAsn1>, LeafFault> {
    let mut components = Vec::new(alloc);
    for component in octets {
        let component = KerberosStringAsn1::new(alloc, component)?;
        if components.push(component).is_err() {
            return Err(LeafFault::Memory);
        }
    }
    Ok(Asn1SequenceOf::from(components))
}

fn is_placed(alloc: Global) -> Option<bool> {
    let realm = KerberosStringAsn1::new(alloc, b"EXAMPLE.COM").ok()?;
    let name = name_of(alloc, &[b"host", b"www.example.com"]).ok()?;
    Some(is_shown(
        alloc,
        &name.with_realm(&realm),
        "host/www.example.com@EXAMPLE.COM",
    ))
}

// RFC 1964, section 2.1.3: a backslash in front of the separators and of itself, and letters for control characters.
#[test]
fn names(rt: HostRuntime) {
    let plain = name_of(rt.alloc(), &[b"host", b"www.example.com"]);
    assert!(rt; is_told(rt.alloc(), plain, "host/www.example.com"));
    assert!(rt; is_placed(rt.alloc()) == Some(true));
    let marked = name_of(rt.alloc(), &[b"a/b@c\\", b"\0\x08\t\n"]);
    assert!(rt; is_told(rt.alloc(), marked, "a\\/b\\@c\\\\/\\0\\b\\t\\n"));
}
