//! Texts and lists in Rust's own types. The bytes are what `openssl asn1parse -genconf` writes.
use crate::person::{Person, SHORT_PERSON, WHOLE_PERSON, person_of};
use crate::spelling::{fault_of, is_spelled, is_written};
use picky_asn1_der::{
    Asn1DerError, Deserialize, ExplicitContextTag3, ImplicitContextTag2, ImplicitContextTag3, Rule,
};
use std::alloc::{AllocError, Global};

// The list of 5 and 300. A SEQUENCE stays constructed under an implicit tag (X.690, section 8.14.3).
fn is_list(alloc: Global) -> Option<bool> {
    let numbers = Vec::from_slice(alloc, &[5u16, 300]).ok()?;
    let is_plain = is_spelled(alloc, &numbers, &[0x30, 7, 2, 1, 5, 2, 2, 1, 0x2C]);
    let tagged = ImplicitContextTag2::from(numbers);
    let is_implicit = is_spelled(alloc, &tagged, &[0xA2, 7, 2, 1, 5, 2, 2, 1, 0x2C]);
    let tagged = ExplicitContextTag3::from(tagged.0);
    let is_explicit = is_spelled(alloc, &tagged, &[0xA3, 9, 0x30, 7, 2, 1, 5, 2, 2, 1, 0x2C]);
    Some(is_plain && is_implicit && is_explicit)
}

#[test]
fn lists(rt: HostRuntime) {
    assert!(rt; is_list(rt.alloc()) == Some(true));
    assert!(rt; is_spelled(rt.alloc(), &Vec::<u16>::new(rt.alloc()), &[0x30, 0]));
}

// A number of 2^16, and a list that ends within an element.
#[test]
fn refused_lists(rt: HostRuntime) {
    let fault = fault_of::<Vec<u16>>(rt.alloc(), &[0x30, 5, 2, 3, 1, 0, 0]);
    assert!(rt; fault == Some(Asn1DerError::UnsupportedValue));
    let fault = fault_of::<Vec<u16>>(rt.alloc(), &[0x30, 4, 2, 1, 5, 2]);
    assert!(rt; fault == Some(Asn1DerError::InvalidData));
}

// Texts that are borrowed are written alone.
fn is_list_of_texts(alloc: Global) -> Option<bool> {
    let texts = Vec::from_slice(alloc, &["Bo", "Cy"]).ok()?;
    let is_plain = is_written(alloc, &texts, b"\x30\x08\x0C\x02Bo\x0C\x02Cy");
    let tagged = ImplicitContextTag2::from(texts);
    Some(is_plain && is_written(alloc, &tagged, b"\xA2\x08\x0C\x02Bo\x0C\x02Cy"))
}

#[test]
fn lists_of_borrowed_texts(rt: HostRuntime) {
    assert!(rt; is_list_of_texts(rt.alloc()) == Some(true));
}

fn is_text(alloc: Global, text: &str, bytes: &[u8]) -> bool {
    is_made_spelled(alloc, String::from_str(alloc, text), bytes) && is_written(alloc, &text, bytes)
}

// Whether a value was made, is written as these bytes, and read from them.
fn is_made_spelled<T: Deserialize + PartialEq + Drop>(
    alloc: Global,
    made: Result<T, AllocError>,
    bytes: &[u8],
) -> bool {
    match made {
        Ok(value) => is_spelled(alloc, &value, bytes),
        Err(_) => false,
    }
}

// The text of U+00E9 and `a`, below tags.
fn is_tagged(alloc: Global) -> Option<bool> {
    let text = String::from_str(alloc, "\u{e9}a").ok()?;
    let tagged = ImplicitContextTag3::from(text);
    let is_implicit = is_spelled(alloc, &tagged, &[0x83, 3, 0xC3, 0xA9, b'a']);
    let tagged = ExplicitContextTag3::from(tagged.0);
    Some(is_implicit && is_spelled(alloc, &tagged, &[0xA3, 5, 0x0C, 3, 0xC3, 0xA9, b'a']))
}

#[test]
fn texts(rt: HostRuntime) {
    let alloc = rt.alloc();
    let fault = fault_of::<String>(alloc, &[0x0C, 1, 0xC3]);
    assert!(rt; is_text(alloc, "\u{e9}a", &[0x0C, 3, 0xC3, 0xA9, b'a']));
    assert!(rt; is_text(alloc, "", &[0x0C, 0]));
    assert!(rt; is_tagged(alloc) == Some(true));
    assert!(rt; fault == Some(Asn1DerError::Message(Rule::Characters)));
}

fn names_of(alloc: Global) -> Result<Vec<String>, AllocError> {
    let mut names = Vec::new(alloc);
    for name in &["Bo", "Cy"] {
        names.push(String::from_str(alloc, name)?)?;
    }
    Ok(names)
}

fn three_lists(alloc: Global) -> Result<[Vec<String>; 3], AllocError> {
    let first = names_of(alloc)?;
    Ok([first, Vec::new(alloc), names_of(alloc)?])
}

// Lists of texts, and an array of such lists.
#[test]
fn lists_of_texts(rt: HostRuntime) {
    let alloc = rt.alloc();
    let bytes = b"\x30\x08\x0C\x02Bo\x0C\x02Cy";
    assert!(rt; is_made_spelled(alloc, names_of(alloc), bytes));
    let bytes = b"\x30\x16\x30\x08\x0C\x02Bo\x0C\x02Cy\x30\0\x30\x08\x0C\x02Bo\x0C\x02Cy";
    assert!(rt; is_made_spelled(alloc, three_lists(alloc), bytes));
    let fault = fault_of::<[Vec<String>; 2]>(alloc, bytes);
    assert!(rt; fault == Some(Asn1DerError::InvalidData));
}

fn whole_person(alloc: Global) -> Result<Person, AllocError> {
    person_of(alloc, Some(names_of(alloc)?))
}

#[test]
fn structs(rt: HostRuntime) {
    let alloc = rt.alloc();
    assert!(rt; is_made_spelled(alloc, person_of(alloc, None), &SHORT_PERSON));
    assert!(rt; is_made_spelled(alloc, whole_person(alloc), &WHOLE_PERSON));
}
