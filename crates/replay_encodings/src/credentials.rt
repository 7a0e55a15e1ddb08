//! Messages that hand credentials on, and what Windows sends beside messages, by the names of their types.
use crate::{first_of, told_as};
use picky_krb::data_types::{
    EncKrbCredPart, EncKrbCredPartInner, KerbAdRestrictionEntry, KerbErrorData, KerbPaPacRequest,
    KrbCredInfo, PaPacOptions,
};
use picky_krb::messages::{KdcProxyMessage, KrbCred, KrbCredInner};
use std::alloc::Global;
use test_support::{Answer, Recorded};

/// Whether such a message is read and written as expected; none for any other type.
pub fn agrees(alloc: Global, recorded: &Recorded<'_>) -> Option<Answer> {
    first_of(&[
        told_as::<EncKrbCredPart>(alloc, recorded, "EncKrbCredPart"),
        told_as::<EncKrbCredPartInner>(alloc, recorded, "EncKrbCredPartInner"),
        told_as::<KdcProxyMessage>(alloc, recorded, "KdcProxyMessage"),
        told_as::<KerbAdRestrictionEntry>(alloc, recorded, "KerbAdRestrictionEntry"),
        told_as::<KerbErrorData>(alloc, recorded, "KerbErrorData"),
        told_as::<KerbPaPacRequest>(alloc, recorded, "KerbPaPacRequest"),
        told_as::<KrbCred>(alloc, recorded, "KrbCred"),
        told_as::<KrbCredInfo>(alloc, recorded, "KrbCredInfo"),
        told_as::<KrbCredInner>(alloc, recorded, "KrbCredInner"),
        told_as::<PaPacOptions>(alloc, recorded, "PaPacOptions"),
    ])
}
