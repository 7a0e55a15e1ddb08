//! Requests, by the names of their types.
use crate::{first_of, told_as};
use picky_krb::messages::{ApReq, ApReqInner, AsReq, KdcReq, KdcReqBody, TgsReq, TgtReq};
use std::alloc::Global;
use test_support::{Answer, Recorded};

/// Whether such a request is read and written as expected; none for any other type.
pub fn agrees(alloc: Global, recorded: &Recorded<'_>) -> Option<Answer> {
    first_of(&[
        told_as::<ApReq>(alloc, recorded, "ApReq"),
        told_as::<ApReqInner>(alloc, recorded, "ApReqInner"),
        told_as::<AsReq>(alloc, recorded, "AsReq"),
        told_as::<KdcReq>(alloc, recorded, "KdcReq"),
        told_as::<KdcReqBody>(alloc, recorded, "KdcReqBody"),
        told_as::<TgsReq>(alloc, recorded, "TgsReq"),
        told_as::<TgtReq>(alloc, recorded, "TgtReq"),
    ])
}
