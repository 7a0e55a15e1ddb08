//! Buffers of PACs, and PACs in authorization data. `data/pac.py`, `data/verified_pac.py` and `data/samba_pac.py` write the rows.
mod verified;

use krb_pac::{
    ExtraSid, GroupMembership, LogonDomain, LogonInfo, LogonNames, LogonNumbers, LogonTimes,
    PacAttributes, PacFault, PacRequestor, ResourceGroups, UpnDnsInfo,
};
use std::alloc::Global;
use std::fmt::Display;
use test_support::rows::replay;
use test_support::{Row, Rows, Told};

#[derive(Clone, Copy)]
struct Buffers;

/// Replays the rows on buffers, and on PACs.
pub fn replay_pacs(rt: &HostRuntime) -> anyhow::Result<()> {
    for file in &["pac.txt", "samba_logon.txt"] {
        replay(rt, &mut Buffers, file)?;
    }
    verified::replay_verified(rt)
}

impl Rows for Buffers {
    const COLUMNS: &'static str = " | ";

    const NAME: &'static str = "buffers";

    fn agrees(&mut self, rt: &HostRuntime, row: &mut Row<'_>) -> anyhow::Result<bool> {
        let kind = row.word();
        let octets = row.octets(rt.alloc());
        row.want_rest();
        let mut told = Told::new(rt.alloc());
        tell(&mut told, rt.alloc(), kind, &octets);
        Ok(told.text()? == row.wanted())
    }
}

/// Writes what a buffer of this kind states, or why it is refused.
fn tell(told: &mut Told, alloc: Global, kind: &str, octets: &[u8]) {
    match kind {
        "logon" => tell_logon(told, alloc, octets),
        "upn" => tell_upn(told, alloc, octets),
        "requestor" => tell_requestor(told, alloc, octets),
        "attributes" => tell_attributes(told, octets),
        _ => told.put("no kind"),
    }
}

fn refused(told: &mut Told, fault: PacFault) {
    told.put("refused ");
    told.debug(&fault);
}

fn tell_logon(told: &mut Told, alloc: Global, octets: &[u8]) {
    match LogonInfo::read(alloc, octets) {
        Ok(info) => tell_info(told, &info),
        Err(fault) => refused(told, fault),
    }
}

fn tell_info(told: &mut Told, info: &LogonInfo) {
    tell_times(told, info.times);
    tell_names(told, &info.names);
    tell_numbers(told, info.numbers);
    told.put(" ");
    tell_groups(told, info.groups.as_slice());
    tell_domain(told, &info.domain);
    tell_sids(told, info.extra_sids.as_slice());
    tell_resources(told, &info.resources);
}

fn tell_times(told: &mut Told, times: LogonTimes) {
    let all = [
        times.logoff,
        times.kick_off,
        times.password_last_set,
        times.password_can_change,
        times.password_must_change,
    ];
    told.show(&times.logon);
    for time in &all {
        told.put(",");
        told.show(time);
    }
}

/// Writes characters in hexadecimal.
fn tell_text(told: &mut Told, text: &[u16]) {
    if text.is_empty() {
        told.put(".");
    }
    for unit in text {
        told.octets(&unit.to_be_bytes());
    }
}

fn tell_names(told: &mut Told, names: &LogonNames) {
    told.put(" ");
    tell_text(told, names.effective_name.as_slice());
    told.put(",");
    tell_text(told, names.full_name.as_slice());
    told.put(",");
    tell_text(told, names.logon_script.as_slice());
    told.put(",");
    tell_text(told, names.profile_path.as_slice());
    told.put(",");
    tell_text(told, names.home_directory.as_slice());
    told.put(",");
    tell_text(told, names.home_directory_drive.as_slice());
}

fn tell_pair<A: Display, B: Display>(told: &mut Told, first: &A, separator: &str, second: &B) {
    told.show(first);
    told.put(separator);
    told.show(second);
}

fn tell_numbers(told: &mut Told, numbers: LogonNumbers) {
    told.put(" ");
    tell_pair(told, &numbers.logon_count, ",", &numbers.bad_password_count);
    told.put(" ");
    tell_pair(told, &numbers.user_id, ",", &numbers.primary_group_id);
    told.put(" ");
    told.show(&numbers.user_flags);
    told.put(" ");
    told.octets(&numbers.user_session_key);
    told.put(" ");
    told.show(&numbers.user_account_control);
}

fn tell_groups(told: &mut Told, groups: &[GroupMembership]) {
    if groups.is_empty() {
        told.put(".");
    }
    let mut separator = "";
    for group in groups {
        told.put(separator);
        tell_pair(told, &group.relative_id, ":", &group.attributes);
        separator = ",";
    }
}

fn tell_domain(told: &mut Told, domain: &LogonDomain) {
    told.put(" ");
    tell_text(told, domain.server.as_slice());
    told.put(" ");
    tell_text(told, domain.name.as_slice());
    told.put(" ");
    told.show(&domain.sid);
    told.put(" ");
}

fn tell_sids(told: &mut Told, sids: &[ExtraSid]) {
    if sids.is_empty() {
        told.put(".");
    }
    let mut separator = "";
    for extra in sids {
        told.put(separator);
        tell_pair(told, &extra.sid, ":", &extra.attributes);
        separator = ",";
    }
}

fn tell_resources(told: &mut Told, resources: &ResourceGroups) {
    told.put(" ");
    match &resources.domain_sid {
        Some(sid) => told.show(sid),
        None => told.put("."),
    }
    told.put(" ");
    tell_groups(told, resources.groups.as_slice());
}

fn tell_upn(told: &mut Told, alloc: Global, octets: &[u8]) {
    match UpnDnsInfo::read(alloc, octets) {
        Ok(info) => tell_upn_names(told, &info),
        Err(fault) => refused(told, fault),
    }
}

fn tell_upn_names(told: &mut Told, info: &UpnDnsInfo) {
    tell_text(told, info.upn.as_slice());
    told.put(" ");
    tell_text(told, info.dns_domain_name.as_slice());
    told.put(" ");
    told.show(&info.flags);
    if let Some(account) = &info.account {
        told.put(" ");
        tell_text(told, account.sam_name.as_slice());
        told.put(" ");
        told.show(&account.sid);
    }
}

fn tell_requestor(told: &mut Told, alloc: Global, octets: &[u8]) {
    match PacRequestor::read(alloc, octets) {
        Ok(requestor) => told.show(&requestor.sid),
        Err(fault) => refused(told, fault),
    }
}

fn tell_flags(told: &mut Told, attributes: PacAttributes) {
    tell_pair(told, &attributes.flags_length, " ", &attributes.flags);
}

fn tell_attributes(told: &mut Told, octets: &[u8]) {
    match PacAttributes::read(octets) {
        Ok(attributes) => tell_flags(told, attributes),
        Err(fault) => refused(told, fault),
    }
}
