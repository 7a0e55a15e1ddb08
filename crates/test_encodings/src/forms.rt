//! The forms of types. The bytes are those of the standards' examples, and what `openssl asn1parse -genconf` writes.
use crate::sample::{LONG_SAMPLE, SHORT_SAMPLE, Sample, sample_of};
use crate::spelling::{front_fault_of, is_spelled, is_written};
use asn1_der::octets::INTEGER;
use picky_asn1_der::{
    Alternatives, ApplicationTag, Asn1DerError, BitStringContainer, Choice, Deserializer, Elements,
    ExplicitContextTag0, ExplicitContextTag1, ExplicitContextTag3, ImplicitContextTag1,
    ImplicitContextTag2, Last, OctetStringContainer, RawElement, Retagged, Serializer,
    from_exact_bytes,
};
use std::alloc::Global;

#[test]
fn integers(rt: HostRuntime) {
    let cases: &[(u32, &[u8])] = &[
        (0, &[2, 1, 0]),
        (127, &[2, 1, 0x7F]),
        (128, &[2, 2, 0, 0x80]),
        (256, &[2, 2, 1, 0]),
        (u32::MAX, &[2, 5, 0, 0xFF, 0xFF, 0xFF, 0xFF]),
    ];
    for (number, bytes) in cases {
        assert!(rt; is_spelled(rt.alloc(), number, bytes), "at {number}");
    }
}

#[test]
fn refused_integers(rt: HostRuntime) {
    let cases: &[(&[u8], Asn1DerError)] = &[
        (&[2, 0], Asn1DerError::InvalidData),
        (&[2, 1, 0x80], Asn1DerError::UnsupportedValue),
        (&[2, 2, 0, 0x7F], Asn1DerError::InvalidData),
        (&[2, 5, 1, 0, 0, 0, 0], Asn1DerError::UnsupportedValue),
        (&[4, 1, 5], Asn1DerError::InvalidData),
    ];
    for (bytes, fault) in cases {
        let refused = front_fault_of::<u32>(rt.alloc(), bytes);
        assert!(rt; refused == Some(*fault), "at {bytes:?}");
    }
}

#[test]
fn tagged_values(rt: HostRuntime) {
    let context = ExplicitContextTag3::from(5u32);
    assert!(rt; is_spelled(rt.alloc(), &context, &[0xA3, 3, 2, 1, 5]));
    let application: ApplicationTag<ExplicitContextTag1<u32>, 10> = ApplicationTag(5.into());
    assert!(rt; is_spelled(rt.alloc(), &application, &[0x6A, 5, 0xA1, 3, 2, 1, 5]));
}

// The short sample's bytes with another identifier octet.
fn sample_behind(first: u8) -> [u8; 12] {
    let mut bytes = SHORT_SAMPLE;
    bytes[0] = first;
    bytes
}

// A SEQUENCE stays constructed under an implicit tag, and an OCTET STRING primitive (X.690, section 8.14.3). A SET of fields
// has the octet 49 (X.690, section 8.11).
#[test]
fn other_octets(rt: HostRuntime) {
    let constructed = ImplicitContextTag1::from(sample_of(None));
    assert!(rt; is_spelled(rt.alloc(), &constructed, &sample_behind(0xA1)));
    let set: Retagged<49, Sample> = Retagged(sample_of(None));
    assert!(rt; is_spelled(rt.alloc(), &set, &sample_behind(49)));
}

#[test]
fn octet_strings(rt: HostRuntime) {
    let octets = OctetStringContainer(5u32);
    assert!(rt; is_spelled(rt.alloc(), &octets, &[4, 3, 2, 1, 5]));
    let primitive = ImplicitContextTag2::from(OctetStringContainer(5u32));
    assert!(rt; is_spelled(rt.alloc(), &primitive, &[0x82, 3, 2, 1, 5]));
}

// The zero octet counts in each length around it (X.690, section 8.6.2).
#[test]
fn bit_strings(rt: HostRuntime) {
    let bits = ExplicitContextTag0::from(BitStringContainer(5u32));
    assert!(rt; is_spelled(rt.alloc(), &bits, &[0xA0, 6, 3, 4, 0, 2, 1, 5]));
}

fn is_element_written(alloc: Global, bytes: &[u8]) -> Option<bool> {
    let content = vec![in alloc; 7].ok()?;
    let element = RawElement::new(2, content)?;
    let wrapped = ExplicitContextTag0::from(element);
    Some(is_written(alloc, &wrapped, bytes))
}

fn is_element_read(alloc: Global, bytes: &[u8]) -> bool {
    match from_exact_bytes::<ExplicitContextTag0<RawElement>>(alloc, bytes) {
        Ok(read) => read.0.first() == INTEGER && read.0.content() == [7].as_slice(),
        Err(_) => false,
    }
}

// An element of any type, below a tag.
#[test]
fn raw_elements(rt: HostRuntime) {
    assert!(rt; is_element_written(rt.alloc(), &[0xA0, 3, 2, 1, 7]) == Some(true));
    assert!(rt; is_element_read(rt.alloc(), &[0xA0, 3, 2, 1, 7]));
}

// What a choice of a number, a tagged number and a SEQUENCE reads.
fn chosen(alloc: Global, bytes: &[u8]) -> Option<u32> {
    let mut from = Deserializer::new_from_bytes(alloc, bytes);
    match Choice::<u32, Choice<ExplicitContextTag0<u32>, Last<Sample>>>::read_one(&mut from) {
        Ok(Choice::This(number)) => Some(number),
        Ok(Choice::Other(Choice::This(tagged))) => Some(tagged.0),
        Ok(Choice::Other(Choice::Other(Last(sample)))) => Some(sample.count.0),
        Err(_) => None,
    }
}

#[test]
fn choices(rt: HostRuntime) {
    let cases: &[(&[u8], Option<u32>)] = &[
        (&[2, 1, 7], Some(7)),
        (&[0xA0, 3, 2, 1, 8], Some(8)),
        (&SHORT_SAMPLE, Some(1)),
        (&[4, 1, 7], None),
        (&[], None),
    ];
    for (bytes, number) in cases {
        assert!(rt; chosen(rt.alloc(), bytes) == *number, "at {bytes:?}");
    }
}

#[test]
fn optional_fields(rt: HostRuntime) {
    assert!(rt; is_spelled(rt.alloc(), &sample_of(None), &SHORT_SAMPLE));
    assert!(rt; is_spelled(rt.alloc(), &sample_of(Some(128.into())), &LONG_SAMPLE));
}

fn push_spellings(bytes: &mut Vec<u8>, count: usize, spelling: &[u8]) -> Option<()> {
    for _ in 0..count {
        bytes.extend_from_slice(spelling).ok()?;
    }
    Some(())
}

// The number 5 so often, and 128 so often, behind this header.
fn bytes_of(alloc: Global, fives: usize, others: usize, header: &[u8]) -> Option<Vec<u8>> {
    let mut bytes = Vec::from_slice(alloc, header).ok()?;
    push_spellings(&mut bytes, fives, &[2, 1, 5])?;
    push_spellings(&mut bytes, others, &[2, 2, 0, 0x80])?;
    Some(bytes)
}

fn numbers_of(alloc: Global, fives: usize, others: usize) -> Option<Vec<u32>> {
    let mut numbers = vec![in alloc; 5; fives].ok()?;
    numbers.resize(fives.saturating_add(others), 128).ok()?;
    Some(numbers)
}

fn is_list_written(alloc: Global, numbers: &[u32], bytes: &[u8]) -> bool {
    let mut output = Vec::new(alloc);
    let mut to = Serializer::new_to_writer(&mut output);
    to.list(0x30, &numbers) == Ok(bytes.len()) && output.as_slice() == bytes
}

fn is_list_read(alloc: Global, numbers: &[u32], bytes: &[u8]) -> bool {
    let mut from = Deserializer::new_from_bytes(alloc, bytes);
    match from.list::<Elements<u32>>(0x30) {
        Ok(read) => read.into_vec().as_slice() == numbers,
        Err(_) => false,
    }
}

fn is_list(alloc: Global, fives: usize, others: usize, header: &[u8]) -> Option<bool> {
    let bytes = bytes_of(alloc, fives, others, header)?;
    let numbers = numbers_of(alloc, fives, others)?;
    Some(is_list_written(alloc, &numbers, &bytes) && is_list_read(alloc, &numbers, &bytes))
}

// The lengths 38 and 201 are those of X.690, sections 8.1.3.4 and 8.1.3.5.
#[test]
fn lists(rt: HostRuntime) {
    assert!(rt; is_list(rt.alloc(), 10, 2, &[0x30, 38]) == Some(true));
    assert!(rt; is_list(rt.alloc(), 67, 0, &[0x30, 0x81, 0xC9]) == Some(true));
}

// More length octets than the length needs (X.690, section 10.1), and an indefinite length.
#[test]
fn refused_lengths(rt: HostRuntime) {
    let cases: &[&[u8]] = &[
        &[2, 0x81, 1, 5],
        &[2, 0x82, 0, 1, 5],
        &[0xA3, 0x81, 3, 2, 1, 5],
        &[0xA3, 0x80, 2, 1, 5, 0, 0],
    ];
    let invalid = Some(Asn1DerError::InvalidData);
    for bytes in cases {
        let number = front_fault_of::<u32>(rt.alloc(), bytes);
        assert!(rt; number == invalid, "at {bytes:?}");
        let tagged = front_fault_of::<ExplicitContextTag3<u32>>(rt.alloc(), bytes);
        assert!(rt; tagged == invalid, "at {bytes:?}");
    }
}
