//! Groups, public values and nonces, by the names of their types.
use crate::{first_of, told_as};
use pkinit_messages::{
    DhDomainParameters, DhNonce, DhReqInfo, DhReqKeyInfo, KdcDhKeyInfo, ValidationParams,
};
use std::alloc::Global;
use test_support::{Answer, Recorded};

/// Whether a value of such a type is read and written as expected; none for any other type.
pub fn agrees(alloc: Global, recorded: &Recorded<'_>) -> Option<Answer> {
    first_of(&[
        told_as::<DhDomainParameters>(alloc, recorded, "DhDomainParameters"),
        told_as::<DhNonce>(alloc, recorded, "DhNonce"),
        told_as::<DhReqInfo>(alloc, recorded, "DhReqInfo"),
        told_as::<DhReqKeyInfo>(alloc, recorded, "DhReqKeyInfo"),
        told_as::<KdcDhKeyInfo>(alloc, recorded, "KdcDhKeyInfo"),
        told_as::<ValidationParams>(alloc, recorded, "ValidationParams"),
    ])
}
