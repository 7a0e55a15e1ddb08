//! KERB_VALIDATION_INFO (MS-PAC, section 2.5), by NDR. Its fixed part has 216 octets; what its pointers refer to follows in their order.
ghost use Rattle.std.specs.Prelude.{◌≡◌, ◌+◌, ◌≤◌, length, IfOk};
ghost use Rattle.krb_pac.specs.Reading.{Gives};
ghost use Rattle.krb_pac.specs.LogonInfo.{fixed_place, info_at, logon_info};

use crate::error::PacFault;
use crate::extra_sids::{ExtraSid, extra_sids_at};
use crate::groups::GroupMembership;
use crate::logon_domain::{LogonDomain, domain_at};
use crate::logon_names::{LogonNames, names_at};
use crate::logon_numbers::{LogonNumbers, LogonTimes, numbers_at, times_at};
use crate::ndr::{listed_at, pointer_at, value_place};
use crate::resource_groups::{ResourceGroups, resources_at};
use std::alloc::Global;
use std::marker::Model;

/// The octets of the fixed part.
const FIXED_SIZE: usize = 216;

/// What a domain controller states of a user.
#[derive(Debug, Drop)]
pub struct LogonInfo {
    /// Moments.
    pub times: LogonTimes,
    /// Texts.
    pub names: LogonNames,
    /// Numbers.
    pub numbers: LogonNumbers,
    /// GroupIds: the groups of the user's domain.
    pub groups: Vec<GroupMembership>,
    /// The user's domain.
    pub domain: LogonDomain,
    /// ExtraSids: SIDs of further groups, with their attributes.
    pub extra_sids: Vec<ExtraSid>,
    /// Groups of the service's domain.
    pub resources: ResourceGroups,
}

impl Model for LogonInfo {
    ghost use Rattle.krb_pac.specs.LogonInfo.{Logon};

    ghost Value = { Logon };

    ghost view = { λ l. record {
      times = l.times;
      names = l.names;
      numbers = l.numbers;
      groups = l.groups.items;
      domain = l.domain;
      extra_sids = l.extra_sids.items;
      resources = l.resources;
    } };
}

// Returns the place of the fixed part, behind the headers and the pointer to it. All of it is there.
#[tactic(auto, unfolding(crate::specs::LogonInfo::fixed_place))]
fn fixed_place(bytes: &[u8]) -> Result<usize, PacFault>
    ensures exact { result ≡ fixed_place bytes.now }
    ensures inside { IfOk result (λ fixed. fixed + 216 ≤ length bytes.now) }
{
    let place = value_place(bytes)?;
    let (is_set, fixed) = pointer_at(bytes, place)?;
    if !is_set {
        return Err(PacFault::Null);
    }
    if bytes.len().saturating_sub(fixed) < FIXED_SIZE {
        return Err(PacFault::Short);
    }
    Ok(fixed)
}

// Reads what the fixed part at `fixed` has, and what its pointers refer to.
#[tactic(auto, unfolding(crate::specs::LogonInfo::info_at))]
fn info_at(alloc: Global, bytes: &[u8], fixed: usize) -> Result<LogonInfo, PacFault>
    requires { fixed + 216 ≤ length bytes.now }
    ensures { Gives (λ info. info) result (info_at fixed bytes.now) }
{
    let (names, at_groups) = names_at(alloc, bytes, fixed, fixed + FIXED_SIZE)?;
    let (groups, at_domain) = listed_at(alloc, bytes, fixed + 108, at_groups)?;
    let (domain, at_sids) = domain_at(alloc, bytes, fixed, at_domain)?;
    let (extra_sids, at_resources) = extra_sids_at(alloc, bytes, fixed + 196, at_sids)?;
    let resources = resources_at(alloc, bytes, fixed, at_resources)?;
    Ok(LogonInfo {
        times: times_at(bytes, fixed),
        names,
        numbers: numbers_at(bytes, fixed),
        groups,
        domain,
        extra_sids,
        resources,
    })
}

impl LogonInfo {
    /// Reads the buffer's content. Octets of Reserved1, Reserved3, SubAuthStatus and the interactive logons have any value.
    #[tactic(auto, unfolding(crate::specs::LogonInfo::logon_info))]
    pub fn read(alloc: Global, bytes: &[u8]) -> Result<LogonInfo, PacFault>
        ensures { Gives (λ info. info) result (logon_info bytes.now) }
    {
        let fixed = fixed_place(bytes)?;
        info_at(alloc, bytes, fixed)
    }
}
