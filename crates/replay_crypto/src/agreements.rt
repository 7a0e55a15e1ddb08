//! Diffie-Hellman agreements.

use crate::row::Vector;
use public_key_cryptography::{Exchange, Group, GroupRefusal, WeakGroup};
use std::alloc::Global;

pub(crate) fn group_named(name: &str) -> Option<Group> {
    match name {
        "2" => Some(Group::Modp1024),
        "14" => Some(Group::Modp2048),
        "16" => Some(Group::Modp4096),
        _ => None,
    }
}

/// The prime of a group, or of none.
pub(crate) fn is_group(row: &Vector<'_>) -> bool {
    let [prime] = row.columns.as_slice() else {
        return false;
    };
    let weak = if row.second == "taken" {
        WeakGroup::Taken
    } else {
        WeakGroup::Refused
    };
    match Group::of_prime(prime, weak) {
        Ok(group) => group_named(row.first) == Some(group) && group.prime() == prime.as_slice(),
        Err(GroupRefusal::GroupTooWeak) => row.first == "GroupTooWeak",
        Err(GroupRefusal::UnknownGroup) => row.first == "UnknownGroup",
    }
}

/// Secret and public value.
pub(crate) fn is_public(alloc: Global, row: &Vector<'_>) -> bool {
    let (Some(group), [secret, value]) = (group_named(row.first), row.columns.as_slice()) else {
        return false;
    };
    match group.public_value(alloc, secret) {
        Ok(made) => made.as_slice() == value.as_slice(),
        Err(_) => false,
    }
}

/// Value, secret and shared secret, which is empty if the value is refused.
pub(crate) fn is_shared(alloc: Global, row: &Vector<'_>) -> bool {
    let (Some(group), [value, secret, shared]) = (group_named(row.first), row.columns.as_slice())
    else {
        return false;
    };
    match group.shared_secret(alloc, &Exchange { value, secret }) {
        Ok(Some(made)) => made.as_slice() == shared.as_slice(),
        Ok(None) => shared.is_empty(),
        Err(_) => false,
    }
}
