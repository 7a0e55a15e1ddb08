//! Private messages and new passwords, by the names of their types.
use crate::{first_of, told_as};
use picky_krb::data_types::{ChangePasswdData, EncKrbPrivPart, EncKrbPrivPartInner};
use picky_krb::messages::{ApMessage, KrbPriv, KrbPrivInner};
use std::alloc::Global;
use test_support::{Answer, Recorded};

/// Whether such a message is read and written as expected; none for any other type.
pub fn agrees(alloc: Global, recorded: &Recorded<'_>) -> Option<Answer> {
    first_of(&[
        told_as::<ApMessage>(alloc, recorded, "ApMessage"),
        told_as::<ChangePasswdData>(alloc, recorded, "ChangePasswdData"),
        told_as::<EncKrbPrivPart>(alloc, recorded, "EncKrbPrivPart"),
        told_as::<EncKrbPrivPartInner>(alloc, recorded, "EncKrbPrivPartInner"),
        told_as::<KrbPriv>(alloc, recorded, "KrbPriv"),
        told_as::<KrbPrivInner>(alloc, recorded, "KrbPrivInner"),
    ])
}
