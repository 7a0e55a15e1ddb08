//! Groups of a domain (MS-PAC, section 2.2.2).
ghost use Rattle.std.specs.Prelude.{◌≡◌};
ghost use Rattle.krb_pac.specs.Groups.{group_at};

use crate::error::Found;
use crate::ndr::{NdrItem, u32_at};
use std::alloc::Global;

/// GROUP_MEMBERSHIP: a group of a domain.
#[derive(Clone, Copy, Debug, PartialEq, Eq)]
pub struct GroupMembership {
    /// The last part of the group's SID.
    pub relative_id: u32,
    /// How the client is of the group.
    pub attributes: u32,
}

// Reads the group at `place`.
#[tactic(auto, unfolding(crate::specs::Groups::group_at))]
fn group_at(bytes: &[u8], place: usize) -> Found<GroupMembership>
    ensures { result ≡ group_at place bytes.now }
{
    let (relative_id, behind) = u32_at(bytes, place)?;
    let (attributes, end) = u32_at(bytes, behind)?;
    Ok((
        GroupMembership {
            relative_id,
            attributes,
        },
        end,
    ))
}

impl NdrItem for GroupMembership {
    ghost reading = { group_at };

    fn read(_alloc: Global, bytes: &[u8], place: usize) -> Found<GroupMembership> {
        group_at(bytes, place)
    }
}
