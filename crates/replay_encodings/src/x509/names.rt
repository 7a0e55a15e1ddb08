//! Spellings of names, times and versions, by the names of their types.
use crate::first_of;
use crate::x509::line::Recorded;
use crate::x509::told::{Answer, spelled_as};
use picky_asn1_x509::{GeneralNames, Name, Validity, Version};
use std::alloc::Global;

/// Whether a spelling of such a type is read, counted and rewritten as expected; none for any other type.
pub fn agrees(alloc: Global, recorded: &Recorded<'_>) -> Option<Answer> {
    first_of(&[
        spelled_as::<GeneralNames>(alloc, recorded, "GeneralNames"),
        spelled_as::<Name>(alloc, recorded, "Name"),
        spelled_as::<Validity>(alloc, recorded, "Validity"),
        spelled_as::<Version>(alloc, recorded, "Version"),
    ])
}
