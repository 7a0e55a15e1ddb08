//! Messages of PKU2U, by the names of their types.
use crate::tokens::copies::copied_as;
use crate::{first_of, told_as};
use pkinit_messages::{
    KrbFinished, Pku2uNegoBody, Pku2uNegoRep, Pku2uNegoReq, Pku2uNegoReqMetadata,
};
use std::alloc::Global;
use test_support::{Answer, Recorded};

/// Whether a message of such a type is read and written as expected; none for any other type.
pub fn agrees(alloc: Global, recorded: &Recorded<'_>) -> Option<Answer> {
    first_of(&[
        copied_as::<KrbFinished>(alloc, recorded, "KrbFinished"),
        copied_as::<Pku2uNegoBody>(alloc, recorded, "Pku2uNegoBody"),
        told_as::<Pku2uNegoRep>(alloc, recorded, "Pku2uNegoRep"),
        copied_as::<Pku2uNegoReq>(alloc, recorded, "Pku2uNegoReq"),
        told_as::<Pku2uNegoReqMetadata>(alloc, recorded, "Pku2uNegoReqMetadata"),
    ])
}
