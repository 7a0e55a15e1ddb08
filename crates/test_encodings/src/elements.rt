//! Elements in place and as bytes, and identifier octets.
use crate::spelling::is_written;
use picky_asn1_der::{Asn1DerError, Asn1RawDer, Tag, TagClass, from_exact_bytes, split_element};
use std::alloc::Global;

fn is_split(bytes: &[u8], whole: &[u8], content: &[u8], behind: &[u8]) -> bool {
    match split_element(bytes) {
        Ok((element, rest)) => {
            element.whole() == whole
                && element.content() == content
                && rest == behind
                && element.tag() == Tag::SEQUENCE
        }
        Err(_) => false,
    }
}

fn split_fault(bytes: &[u8]) -> Option<Asn1DerError> {
    split_element(bytes).err()
}

#[test]
fn split(rt: HostRuntime) {
    let bytes = &[0x30, 3, 2, 1, 7, 5, 0];
    assert!(rt; is_split(bytes, &[0x30, 3, 2, 1, 7], &[2, 1, 7], &[5, 0]));
}

// A length in more octets than it needs (X.690, section 10.1), a tag of several octets, and fronts of elements.
#[test]
fn not_split(rt: HostRuntime) {
    let rows: &[(&[u8], Asn1DerError)] = &[
        (&[0x30, 0x81, 3, 2, 1, 7], Asn1DerError::InvalidData),
        (&[0x1F, 0x21, 0], Asn1DerError::InvalidData),
        (&[0x30, 0x80, 0, 0], Asn1DerError::InvalidData),
        (&[0x30, 3, 2, 1], Asn1DerError::TruncatedData),
        (&[], Asn1DerError::TruncatedData),
    ];
    for (bytes, fault) in rows {
        assert!(rt; split_fault(bytes) == Some(*fault), "at {bytes:?}");
    }
}

const RAW: &[u8] = &[0xA0, 3, 2, 1, 7];

pub(crate) fn raw_of(alloc: Global, bytes: &[u8]) -> Result<Asn1RawDer, Asn1DerError> {
    match Vec::from_slice(alloc, bytes) {
        Ok(bytes) => Asn1RawDer::new(bytes),
        Err(_) => Err(Asn1DerError::Memory),
    }
}

fn is_raw_written(alloc: Global) -> bool {
    match raw_of(alloc, RAW) {
        Ok(element) => is_written(alloc, &element, RAW),
        Err(_) => false,
    }
}

fn is_raw_read(alloc: Global) -> bool {
    match from_exact_bytes::<Asn1RawDer>(alloc, RAW) {
        Ok(element) => element.as_bytes() == RAW,
        Err(_) => false,
    }
}

#[test]
fn raw(rt: HostRuntime) {
    assert!(rt; is_raw_written(rt.alloc()));
    assert!(rt; is_raw_read(rt.alloc()));
    let longer = raw_of(rt.alloc(), &[5, 0, 5]).err();
    assert!(rt; longer == Some(Asn1DerError::InvalidData));
}

#[test]
fn tags(rt: HostRuntime) {
    let tag = Tag::from(0xA3);
    assert!(rt; tag.class() == TagClass::ContextSpecific && tag.is_constructed());
    assert!(rt; tag.number() == 3 && u8::from(Tag::OID) == 6);
}
