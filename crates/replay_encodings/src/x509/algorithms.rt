//! Spellings of identifiers of algorithms, by the names of their types.
use crate::first_of;
use crate::x509::line::Recorded;
use crate::x509::told::{Answer, spelled_as};
use picky_asn1_x509::{AlgorithmIdentifier, DigestInfo, RawAlgorithmIdentifier};
use std::alloc::Global;

/// Whether a spelling of such a type is read, counted and rewritten as expected; none for any other type.
pub fn agrees(alloc: Global, recorded: &Recorded<'_>) -> Option<Answer> {
    first_of(&[
        spelled_as::<AlgorithmIdentifier>(alloc, recorded, "AlgorithmIdentifier"),
        spelled_as::<DigestInfo>(alloc, recorded, "DigestInfo"),
        spelled_as::<RawAlgorithmIdentifier>(alloc, recorded, "RawAlgorithmIdentifier"),
    ])
}
