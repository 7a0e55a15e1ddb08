//! Diffie-Hellman values.

use crate::agreements::group_named;
use crate::signed::key_rows::KeyRow;
use picky_asn1::wrapper::BitStringAsn1;
use picky_asn1_der::Asn1RawDer;
use public_key_cryptography::{Group, WeakGroup};
use rsa_keys::{DhFault, DhPublicValue, RsaKeys};
use std::alloc::Global;
use x509_keys::{KeyFunctions, Theirs};

fn name_of(fault: DhFault) -> &'static str {
    match fault {
        DhFault::Unreadable => "Unreadable",
        DhFault::UnknownGroup => "UnknownGroup",
        DhFault::GroupTooWeak => "GroupTooWeak",
        DhFault::OutOfRange => "OutOfRange",
        DhFault::Memory => "Memory",
    }
}

/// Whether a value or its fault is the named one.
fn is_named(read: Result<DhPublicValue, DhFault>, name: &str, number: &[u8]) -> bool {
    match read {
        Ok(value) => group_named(name) == Some(value.group()) && value.octets() == number,
        Err(fault) => name_of(fault) == name,
    }
}

/// An element, and the number of its public value.
pub(crate) fn is_read(alloc: Global, row: &KeyRow<'_>) -> Option<bool> {
    let [element, number] = row.columns.as_slice() else {
        return None;
    };
    let weak = if row.second == "taken" {
        WeakGroup::Taken
    } else {
        WeakGroup::Refused
    };
    match Asn1RawDer::new(element.clone().ok()?) {
        Ok(element) => {
            let read = DhPublicValue::read(alloc, &element, weak);
            Some(is_named(read, row.first, number))
        }
        Err(_) => Some(row.first == "Unreadable"),
    }
}

/// The group of some bits. Where the first word names a fault, the second one is the group.
fn group_of_bits(row: &KeyRow<'_>) -> Option<Group> {
    group_named(if row.second.is_empty() {
        row.first
    } else {
        row.second
    })
}

/// The octets of some bits, how many bits are unused, and the number.
pub(crate) fn are_bits(alloc: Global, row: &KeyRow<'_>) -> Option<bool> {
    let (Some(group), [octets, unused, number]) = (group_of_bits(row), row.columns.as_slice())
    else {
        return None;
    };
    let [unused] = unused.as_slice() else {
        return None;
    };
    match BitStringAsn1::new(alloc, octets, *unused) {
        Ok(bits) => {
            let read = DhPublicValue::read_bits(alloc, group, &bits);
            Some(is_named(read, row.first, number))
        }
        Err(_) => None,
    }
}

/// A secret number, and the element of its public value, if there is one.
pub(crate) fn is_element(alloc: Global, row: &KeyRow<'_>) -> Option<bool> {
    let (Some(group), [secret, element]) = (group_named(row.first), row.columns.as_slice()) else {
        return None;
    };
    match DhPublicValue::of_secret(alloc, group, secret) {
        Ok(value) => {
            let made = value.to_element(alloc);
            drop(value);
            Some(made.ok()?.as_bytes() == element.as_slice())
        }
        Err(fault) => Some(fault == DhFault::OutOfRange && element.is_empty()),
    }
}

/// A peer's element, the own secret number, and the shared secret, if there is one.
pub(crate) fn is_agreed(alloc: Global, row: &KeyRow<'_>) -> Option<bool> {
    let (Some(group), [element, words, shared]) = (group_named(row.first), row.columns.as_slice())
    else {
        return None;
    };
    if words.len() != 64 {
        return None;
    }
    let element = Asn1RawDer::new(element.clone().ok()?).ok()?;
    let agreed = RsaKeys::new(group, None).agree(alloc, Theirs::Whole(&element), words);
    drop(element);
    match agreed {
        Ok(Some(secret)) => Some(secret.as_slice() == shared.as_slice()),
        Ok(None) => Some(shared.is_empty()),
        Err(_) => None,
    }
}
