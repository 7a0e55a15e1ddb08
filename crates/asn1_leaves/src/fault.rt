ghost use Rattle.std.specs.Prelude.{◌≡◌};
ghost use Rattle.asn1_leaves.specs.declared.fault.LeafFault.TheVariants.{Memory};

use std::alloc::AllocError;
use thiserror::Error;

/// Why a leaf cannot be made.
#[derive(Clone, Copy, Debug, PartialEq, Eq, Hash, Error)]
pub enum LeafFault {
    /// The content is no minimal two's complement, or is empty.
    #[error("not an integer")]
    Integer = 1,
    /// The object identifier is none.
    #[error("not an object identifier")]
    Oid = 2,
    /// There are more than 7 unused bits, or one of them is set.
    #[error("wrong unused bits")]
    Bits = 3,
    /// The string type does not have that character.
    #[error("a character outside the string's set")]
    Character = 4,
    /// The calendar does not have that time.
    #[error("not a time of the calendar")]
    Time = 5,
    /// There is no memory left.
    #[error("out of memory")]
    Memory = 6,
}

impl From<AllocError> for LeafFault {
    ghost from_gives = { λ _ e. e ≡ Memory };

    fn from(_error: AllocError) -> LeafFault {
        LeafFault::Memory
    }
}
