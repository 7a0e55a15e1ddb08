//! PACs in authorization data, verified under a service's key. `data/verified_pac.py` and `data/samba_pac.py` write the rows.
use super::{refused, tell_flags, tell_upn_names};
use anyhow::Context;
use krb_crypto::{CipherSuite, Key};
use krb_messages::data_types::{AuthorizationData, KerberosStringAsn1, PrincipalName};
use krb_pac::{PacAttributes, PacFault, PacRequestor, UpnDnsInfo, VerifiedPac, verified_elements};
use picky_asn1::date::GeneralizedTime;
use picky_asn1::wrapper::{Asn1SequenceOf, IntegerAsn1};
use picky_asn1_der::{ExplicitContextTag, read_whole};
use std::alloc::Global;
use test_support::rows::replay;
use test_support::{Row, Rows, Told};

#[derive(Clone, Copy)]
struct Pacs;

/// Replays the rows on PACs.
pub(crate) fn replay_verified(rt: &HostRuntime) -> anyhow::Result<()> {
    for file in &["verified_pac.txt", "samba_pac.txt"] {
        replay(rt, &mut Pacs, file)?;
    }
    Ok(())
}

impl Rows for Pacs {
    const COLUMNS: &'static str = " | ";

    const NAME: &'static str = "PACs";

    fn agrees(&mut self, rt: &HostRuntime, row: &mut Row<'_>) -> anyhow::Result<bool> {
        let ticket = ticket_of(rt.alloc(), row)?;
        row.want_rest();
        let mut told = Told::new(rt.alloc());
        tell_verified(&mut told, rt.alloc(), verified_of(rt.alloc(), &ticket));
        drop(ticket);
        Ok(told.text()? == row.wanted())
    }
}

/// What a row has of a ticket, and the key of its service.
#[derive(Drop)]
struct Ticket {
    key: Key,
    client: PrincipalName,
    authtime: GeneralizedTime,
    data: AuthorizationData,
}

fn ticket_of(alloc: Global, row: &mut Row<'_>) -> anyhow::Result<Ticket> {
    let suite: usize = row.number();
    let key = row.octets(alloc);
    let name = row.name(alloc);
    let authtime = row.word();
    let octets = row.octets(alloc);
    let authtime = GeneralizedTime::from_text(authtime.as_bytes()).context("no time")?;
    let key = key_of(suite, key.as_slice())?;
    let client = name_of(alloc, name.as_slice())?;
    let data = elements_of(alloc, octets.as_slice())?;
    Ok(Ticket {
        key,
        client,
        authtime,
        data,
    })
}

fn key_of(suite: usize, octets: &[u8]) -> anyhow::Result<Key> {
    let suite = CipherSuite::try_from(suite).ok().context("no suite")?;
    Key::new(suite, octets).ok().context("no key")
}

fn name_of(alloc: Global, name: &[Vec<u8>]) -> anyhow::Result<PrincipalName> {
    let mut components = Vec::new(alloc);
    for component in name {
        let component = KerberosStringAsn1::new(alloc, component.as_slice())?;
        components.push(component)?;
    }
    let name_type = IntegerAsn1::from_u64(alloc, 1)?;
    Ok(PrincipalName {
        name_type: ExplicitContextTag(name_type),
        name_string: ExplicitContextTag(Asn1SequenceOf::from(components)),
    })
}

fn elements_of(alloc: Global, octets: &[u8]) -> anyhow::Result<AuthorizationData> {
    let read: Option<AuthorizationData> = read_whole(alloc, octets)?;
    read.context("no authorization data")
}

fn verified_of(alloc: Global, ticket: &Ticket) -> Result<VerifiedPac, PacFault> {
    verified_elements(
        alloc,
        ticket.data.as_slice(),
        &ticket.key,
        &ticket.client,
        ticket.authtime,
    )
}

fn tell_verified(told: &mut Told, alloc: Global, verified: Result<VerifiedPac, PacFault>) {
    match verified {
        Ok(pac) => tell_pac(told, alloc, &pac),
        Err(fault) => refused(told, fault),
    }
}

fn tell_pac(told: &mut Told, alloc: Global, pac: &VerifiedPac) {
    tell_requestor(told, pac.requestor(alloc));
    told.put("; ");
    tell_attributes(told, pac.attributes(alloc));
    told.put("; ");
    tell_upn(told, pac.upn_dns_info(alloc));
}

fn tell_requestor(told: &mut Told, requestor: Result<Option<PacRequestor>, PacFault>) {
    match requestor {
        Ok(Some(requestor)) => told.show(&requestor.sid),
        Ok(None) => told.put("."),
        Err(fault) => refused(told, fault),
    }
}

fn tell_attributes(told: &mut Told, attributes: Result<Option<PacAttributes>, PacFault>) {
    match attributes {
        Ok(Some(attributes)) => tell_flags(told, attributes),
        Ok(None) => told.put("."),
        Err(fault) => refused(told, fault),
    }
}

fn tell_upn(told: &mut Told, names: Result<Option<UpnDnsInfo>, PacFault>) {
    match names {
        Ok(Some(names)) => tell_upn_names(told, &names),
        Ok(None) => told.put("."),
        Err(fault) => refused(told, fault),
    }
}
