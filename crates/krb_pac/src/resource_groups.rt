//! Groups of the domain of the service (MS-PAC, section 2.5).
ghost use Rattle.std.specs.Prelude.{◌+◌, ◌≤◌, length};
ghost use Rattle.krb_pac.specs.Reading.{Gives};
ghost use Rattle.krb_pac.specs.LogonInfo.{resources_at};

use crate::error::PacFault;
use crate::groups::GroupMembership;
use crate::ndr::{ended_at, listed_at};
use crate::sid::{Sid, optional_sid_at};
use std::alloc::Global;
use std::marker::Model;

/// Groups of the domain of the service. A contract sees their list.
#[derive(Debug, Drop)]
pub struct ResourceGroups {
    /// ResourceGroupDomainSid: the SID of the domain.
    pub domain_sid: Option<Sid>,
    /// ResourceGroupIds: the groups of that domain.
    pub groups: Vec<GroupMembership>,
}

impl Model for ResourceGroups {
    ghost use Rattle.krb_pac.specs.LogonInfo.{Resources};

    ghost Value = { Resources };

    ghost view = { λ r. record { domain_sid = r.domain_sid; groups = r.groups.items } };
}

/// Reads the SID and the groups at `place`, with which the octets end. `fixed` is the place of the fixed part.
#[tactic(auto, unfolding(crate::specs::LogonInfo::resources_at))]
pub(crate) fn resources_at(
    alloc: Global,
    bytes: &[u8],
    fixed: usize,
    place: usize,
) -> Result<ResourceGroups, PacFault>
    requires { fixed + 216 ≤ length bytes.now }
    ensures { Gives (λ groups. groups) result (resources_at fixed place bytes.now) }
{
    let (domain_sid, at_groups) = optional_sid_at(alloc, bytes, fixed + 204, place)?;
    let (groups, end) = listed_at(alloc, bytes, fixed + 208, at_groups)?;
    ended_at(bytes, end)?;
    Ok(ResourceGroups { domain_sid, groups })
}
