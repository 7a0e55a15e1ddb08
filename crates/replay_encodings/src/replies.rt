//! Replies and errors, by the names of their types.
use crate::{first_of, told_as};
use picky_krb::messages::{
    ApRep, ApRepInner, AsRep, EncAsRepPart, EncKdcRepPart, EncTgsRepPart, KdcRep, KrbError,
    KrbErrorInner, TgsRep, TgtRep,
};
use std::alloc::Global;
use test_support::{Answer, Recorded};

/// Whether such a reply is read and written as expected; none for any other type.
pub fn agrees(alloc: Global, recorded: &Recorded<'_>) -> Option<Answer> {
    first_of(&[
        told_as::<ApRep>(alloc, recorded, "ApRep"),
        told_as::<ApRepInner>(alloc, recorded, "ApRepInner"),
        told_as::<AsRep>(alloc, recorded, "AsRep"),
        told_as::<EncAsRepPart>(alloc, recorded, "EncAsRepPart"),
        told_as::<EncKdcRepPart>(alloc, recorded, "EncKdcRepPart"),
        told_as::<EncTgsRepPart>(alloc, recorded, "EncTgsRepPart"),
        told_as::<KdcRep>(alloc, recorded, "KdcRep"),
        told_as::<KrbError>(alloc, recorded, "KrbError"),
        told_as::<KrbErrorInner>(alloc, recorded, "KrbErrorInner"),
        told_as::<TgsRep>(alloc, recorded, "TgsRep"),
        told_as::<TgtRep>(alloc, recorded, "TgtRep"),
    ])
}
