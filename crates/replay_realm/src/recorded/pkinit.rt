//! AS requests by certificate to realms that differ in anchor and own certificate.

use crate::keys::{RowKeys, keys_of, requester_of};
use crate::recorded::parties::{Party, anchor_of, party_of};
use crate::recorded::replies::{WORDS, realm_with, tell_reply};
use crate::recorded::rows::Rows;
use crate::words::{given, moment_of, octets_of};
use anyhow::bail;
use krb_realm::{Anchor, Moment, Realm, Settings};
use picky_asn1_der::both;
use std::alloc::Global;
use std::fs;
use test_support::{Row, Told};

/// Realms by name. Columns of a row are divided by tabs.
#[derive(Drop)]
pub(crate) struct PkinitRealms {
    realms: Vec<PkinitRealm>,
}

#[derive(Drop)]
struct PkinitRealm {
    name: String,
    realm: Realm,
    party: Party,
}

impl Rows for PkinitRealms {
    const COLUMNS: &'static str = "\t";

    const NAME: &'static str = "requests";

    const WRONG: &'static str = "differing replies";

    fn tell(&self, rt: &HostRuntime, row: &mut Row<'_>, told: &mut Told) -> anyhow::Result<()> {
        let _label = row.word();
        let realm = realm_named(&self.realms, row.word())?;
        let keys = row.word();
        let moment = moment_of(row.word())?;
        let request = row.octets(rt.alloc());
        row.want();
        let _rule = row.word();
        tell_reply_to(rt.alloc(), realm, keys, moment, &request, told)
    }
}

fn realm_named<'a>(realms: &'a [PkinitRealm], name: &str) -> anyhow::Result<&'a PkinitRealm> {
    for realm in realms {
        if realm.name.as_str() == name {
            return Ok(realm);
        }
    }
    bail!("no realm {name}")
}

/// Writes what the realm answers, in hexadecimal or as the name of its refusal.
fn tell_reply_to(
    alloc: Global,
    realm: &PkinitRealm,
    keys: &str,
    moment: Moment,
    request: &[u8],
    told: &mut Told,
) -> anyhow::Result<()> {
    let keys = keys_of(alloc, keys)?;
    let holder = requester_of(alloc, request);
    let outcome = tell_reply_by(alloc, realm, moment, request, &keys, holder.as_ref(), told);
    drop(keys);
    drop(holder);
    outcome
}

/// Writes what the realm answers. Its key functions know the keys of the anchor and of the holder of the request's certificate.
fn tell_reply_by<'a>(
    alloc: Global,
    realm: &'a PkinitRealm,
    moment: Moment,
    request: &[u8],
    keys: &'a RowKeys,
    holder: Option<&'a Anchor>,
    told: &mut Told,
) -> anyhow::Result<()> {
    let known = realm.party.known(alloc, keys, holder)?;
    let functions = realm.party.functions(keys, &known);
    let reply = realm
        .realm
        .answer(alloc, request, moment, &WORDS.bytes(), &functions);
    tell_reply(told, reply);
    Ok(())
}

/// The realms of a file. A line has a realm's name, the certificate of its anchor, and its own certificate. `-` represents none.
pub(crate) fn realms_of(rt: &HostRuntime, file: &str) -> anyhow::Result<PkinitRealms> {
    let text = fs::read_to_string(rt, file)?;
    let mut realms = Vec::new(rt.alloc());
    for line in text.lines() {
        if !line.starts_with('#') {
            realms.push(realm_of_line(rt.alloc(), line)?)?;
        }
    }
    Ok(PkinitRealms { realms })
}

/// A realm without an own certificate grants to no client by certificate, and has four accounts alone.
fn realm_of_line(alloc: Global, line: &str) -> anyhow::Result<PkinitRealm> {
    let mut row = Row::new(line, "\t");
    let (name, anchor, own) = (row.word(), row.word(), row.word());
    row.ended()?;
    let held = both(name_of(alloc, name), party_of(alloc, anchor, own));
    let count = if own == "-" { 4 } else { 7 };
    let ((name, party), realm) = both(held, made_realm(alloc, anchor, own, count))?;
    Ok(PkinitRealm { name, realm, party })
}

/// A name as text.
pub(crate) fn name_of(alloc: Global, name: &str) -> anyhow::Result<String> {
    Ok(String::from_str(alloc, name)?)
}

/// The realm R with these certificates and so many accounts beside its own service.
pub(crate) fn made_realm(
    alloc: Global,
    anchor: &str,
    own: &str,
    count: usize,
) -> anyhow::Result<Realm> {
    let settings = settings_of(alloc, (300, 36_000), anchor, own)?;
    realm_with(alloc, settings, count)
}

/// Settings of this skew and lifetime, with these certificates.
pub(crate) fn settings_of(
    alloc: Global,
    (skew, lifetime): (u64, u64),
    anchor: &str,
    own: &str,
) -> anyhow::Result<Settings> {
    let (own, anchor) = both(octets_of(alloc, own), anchor_of(alloc, anchor))?;
    let settings = Settings::new(alloc, skew, lifetime, anchor, given(&own))?;
    Ok(settings)
}
