//! The user and the groups that the PAC of a ticket states (MS-PAC, section 2.5).

use krb_commands::printable_of;
use krb_crypto::Key;
use krb_messages::data_types::{AuthorizationDataInner, PrincipalName};
use krb_pac::{
    GroupMembership, LogonInfo, PacFault, ResourceGroups, Sid, VerifiedPac, verified_elements,
};
use picky_asn1::date::GeneralizedTime;
use std::alloc::{AllocError, Global};

/// What an admitted ticket has of its client.
#[derive(Clone, Copy)]
pub(crate) struct Ticket<'a> {
    /// The client.
    pub(crate) client: &'a PrincipalName,
    /// The authtime.
    pub(crate) authtime: GeneralizedTime,
    /// The authorization data.
    pub(crate) elements: &'a [AuthorizationDataInner],
}

/// Says on standard error the user and the groups of a ticket's PAC, which one of the service's keys has to verify. Without a PAC it says
/// nothing. A PAC that isn't verified or read is named with its refusal: the login stands, and nothing of the PAC is said.
pub(crate) fn say_user(rt: &HostRuntime, keys: &[Key], ticket: &Ticket<'_>) {
    let said = match logon_of(rt.alloc(), keys, ticket) {
        Ok(Some(info)) => say_logon(rt, &info),
        Ok(None) | Err(PacFault::NoPac) => Ok(()),
        Err(fault) => Err(fault),
    };
    if let Err(fault) = said {
        let _ = eprintln!(rt; "PAC refused: {fault:?}: {fault}");
    }
}

// The logon information of the ticket's PAC, once the PAC is verified.
fn logon_of(
    alloc: Global,
    keys: &[Key],
    ticket: &Ticket<'_>,
) -> Result<Option<LogonInfo>, PacFault> {
    let pac = verified_by(alloc, keys, ticket)?;
    pac.logon_info(alloc)
}

// The ticket's PAC, if one of the keys verifies it. The refusal is that of the last key.
fn verified_by(alloc: Global, keys: &[Key], ticket: &Ticket<'_>) -> Result<VerifiedPac, PacFault> {
    let mut fault = PacFault::NoPac;
    for key in keys {
        match verified_elements(alloc, ticket.elements, key, ticket.client, ticket.authtime) {
            Ok(pac) => return Ok(pac),
            Err(refusal) => fault = refusal,
        }
    }
    Err(fault)
}

// Says the user and the groups.
fn say_logon(rt: &HostRuntime, info: &LogonInfo) -> Result<(), PacFault> {
    say_account(rt, info)?;
    say_groups(rt, &info.domain.sid, info.groups.as_slice())?;
    for extra in &info.extra_sids {
        say_group(rt, &extra.sid, extra.attributes);
    }
    say_resources(rt, &info.resources)?;
    Ok(())
}

// Says the user's SID and name.
fn say_account(rt: &HostRuntime, info: &LogonInfo) -> Result<(), AllocError> {
    let sid = user_sid(info)?;
    let name = String::from_utf16_lossy(rt.alloc(), info.names.effective_name.as_slice())?;
    let name = printable_of(rt.alloc(), &name)?;
    let _ = eprintln!(rt; "user {sid} {name}");
    Ok(())
}

// The user's SID. Where UserId is 0 it is the first of ExtraSids (MS-PAC, section 2.5).
fn user_sid(info: &LogonInfo) -> Result<Sid, AllocError> {
    match info.extra_sids.as_slice().first() {
        Some(first) if info.numbers.user_id == 0 => first.sid.clone(),
        _ => info.domain.sid.with_rid(info.numbers.user_id),
    }
}

// Says groups of a domain.
fn say_groups(
    rt: &HostRuntime,
    domain: &Sid,
    groups: &[GroupMembership],
) -> Result<(), AllocError> {
    for group in groups {
        let sid = domain.with_rid(group.relative_id)?;
        say_group(rt, &sid, group.attributes);
    }
    Ok(())
}

// Says the groups of the service's domain.
fn say_resources(rt: &HostRuntime, resources: &ResourceGroups) -> Result<(), AllocError> {
    match &resources.domain_sid {
        Some(domain) => say_groups(rt, domain, resources.groups.as_slice()),
        None => Ok(()),
    }
}

// Says a group's SID, and how the user is of the group.
fn say_group(rt: &HostRuntime, sid: &Sid, attributes: u32) {
    let _ = eprintln!(rt; "group {sid} {attributes}");
}
