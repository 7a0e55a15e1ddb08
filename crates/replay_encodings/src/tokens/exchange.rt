//! What a client and a KDC send each other, by the names of the types.
use crate::{first_of, told_as};
use pkinit_messages::{
    DhRepInfo, ExternalPrincipalIdentifier, PaPkAsRep, PaPkAsReq, PkAuthenticator,
};
use std::alloc::Global;
use test_support::{Answer, Recorded};

/// Whether a value of such a type is read and written as expected; none for any other type.
pub fn agrees(alloc: Global, recorded: &Recorded<'_>) -> Option<Answer> {
    first_of(&[
        told_as::<DhRepInfo>(alloc, recorded, "DhRepInfo"),
        told_as::<ExternalPrincipalIdentifier>(alloc, recorded, "ExternalPrincipalIdentifier"),
        told_as::<PaPkAsRep>(alloc, recorded, "PaPkAsRep"),
        told_as::<PaPkAsReq>(alloc, recorded, "PaPkAsReq"),
        told_as::<PkAuthenticator>(alloc, recorded, "PkAuthenticator"),
    ])
}
