//! Names, addresses and plain values, by the names of their types.
use crate::{first_of, told_as};
use picky_krb::data_types::{
    ApOptions, HostAddress, HostAddresses, KerberosFlags, KerberosStringAsn1, KerberosTime,
    Microseconds, PrincipalName, Realm,
};
use std::alloc::Global;
use test_support::{Answer, Recorded};

/// Whether such a value is read and written as expected; none for any other type.
pub fn agrees(alloc: Global, recorded: &Recorded<'_>) -> Option<Answer> {
    first_of(&[
        told_as::<ApOptions>(alloc, recorded, "ApOptions"),
        told_as::<HostAddress>(alloc, recorded, "HostAddress"),
        told_as::<HostAddresses>(alloc, recorded, "HostAddresses"),
        told_as::<KerberosFlags>(alloc, recorded, "KerberosFlags"),
        told_as::<KerberosStringAsn1>(alloc, recorded, "KerberosStringAsn1"),
        told_as::<KerberosTime>(alloc, recorded, "KerberosTime"),
        told_as::<Microseconds>(alloc, recorded, "Microseconds"),
        told_as::<PrincipalName>(alloc, recorded, "PrincipalName"),
        told_as::<Realm>(alloc, recorded, "Realm"),
    ])
}
