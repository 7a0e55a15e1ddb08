//! The fields of a record.
ghost use Rattle.std.specs.Prelude.{◌≡◌};
ghost use Rattle.equality_and_copies.specs.Copied.{both, end};

use crate::copies::Copies;
use picky_asn1_der::RecordFields;

/// Fields of which copies are the fields.
pub trait RowCopies: RecordFields {
    ghost are_fields: { (fields copies : Self) → Self.are_copies fields copies → copies ≡ fields };
}

impl RowCopies for () {
    ghost are_fields = { end };
}

impl<A: Copies, B: RowCopies> RowCopies for (A, B) {
    ghost are_fields = { both A.is_copy B.are_fields };
}
