//! Clients by certificate: what they ask, and what they take.

use crate::keys::{RowKeys, keys_of, replier_of};
use crate::recorded::parties::{Party, party_of};
use crate::recorded::pkinit::name_of;
use crate::recorded::rows::Rows;
use crate::stage::{Conditions, Random};
use crate::told::name_text;
use crate::words::{holder_of, moment_of, octets_of, second_of, suite_of};
use anyhow::bail;
use krb_realm::{Anchor, AsAsked, AskRefusal, CipherSuite, Client, Credential, TakeRefusal};
use picky_asn1_der::{both, to_vec};
use std::alloc::Global;
use std::fs;
use test_support::{Row, Told, components_of};

/// Clients by name. The columns of a row are divided by tabs.
#[derive(Drop)]
pub(crate) struct PkinitClients {
    clients: Vec<PkinitClient>,
}

#[derive(Drop)]
struct PkinitClient {
    name: String,
    client: Client,
    party: Party,
    /// What it remembers of its request to its realm's ticket-granting service.
    asked: AsAsked,
}

impl Rows for PkinitClients {
    const COLUMNS: &'static str = "\t";

    const NAME: &'static str = "steps";

    const WRONG: &'static str = "differing outcomes";

    fn tell(&self, rt: &HostRuntime, row: &mut Row<'_>, told: &mut Told) -> anyhow::Result<()> {
        let step = row.word();
        let _label = row.word();
        row.want();
        match step {
            "as_request" => tell_request(rt.alloc(), &self.clients, row, told),
            "by_certificate" => tell_made(rt.alloc(), row, told),
            "take_as_reply" => tell_taken(rt.alloc(), &self.clients, row, told),
            _ => bail!("no step {step}"),
        }
    }
}

fn client_named<'a>(clients: &'a [PkinitClient], name: &str) -> anyhow::Result<&'a PkinitClient> {
    for client in clients {
        if client.name.as_str() == name {
            return Ok(client);
        }
    }
    bail!("no client {name}")
}

/// Writes a client's request for a ticket for a service: client, service, till, moment, random bytes and keys.
fn tell_request(
    alloc: Global,
    clients: &[PkinitClient],
    row: &mut Row<'_>,
    told: &mut Told,
) -> anyhow::Result<()> {
    let client = client_named(clients, row.word())?;
    let service = row.word();
    let asking = asking_of(row)?;
    let (maker, party) = (&client.client, &client.party);
    match ask(alloc, maker, party, service, asking, row.word())? {
        Ok((request, asked)) => {
            drop(asked);
            told.octets(&request);
        }
        Err(refusal) => told.debug(&refusal),
    }
    Ok(())
}

fn asking_of(row: &mut Row<'_>) -> anyhow::Result<Conditions> {
    Ok(Conditions {
        till: second_of(row.word())?,
        moment: moment_of(row.word())?,
        random: Random {
            first: row.number::<u8>(),
            step: row.number::<u8>(),
        },
    })
}

fn ask(
    alloc: Global,
    client: &Client,
    party: &Party,
    service: &str,
    asking: Conditions,
    keys: &str,
) -> anyhow::Result<Result<(Vec<u8>, AsAsked), AskRefusal>> {
    let keys = keys_of(alloc, keys)?;
    let service = components_of(alloc, service)?;
    let functions = party.functions(&keys, &[]);
    let random = asking.random.bytes();
    Ok(client.as_request(
        alloc,
        &service,
        asking.till,
        asking.moment,
        &random,
        &functions,
    ))
}

/// Writes whether a client is made of these words: suite, realm, name, and the certificates of its own and of its anchor. The name's
/// components are in hexadecimal and divided by commas.
fn tell_made(alloc: Global, row: &mut Row<'_>, told: &mut Told) -> anyhow::Result<()> {
    let suite = suite_of(row);
    let realm = row.octets(alloc);
    let name = row.word();
    let own = row.octets(alloc);
    let (name, anchor) = both(digits_name(alloc, name), holder_of(alloc, row.word()))?;
    match Client::by_certificate(alloc, &realm, &name, suite, &own, anchor) {
        Ok(client) => {
            drop(client);
            told.put("Ok");
        }
        Err(refusal) => told.debug(&refusal),
    }
    Ok(())
}

/// The components of a name in hexadecimal, which are divided by commas. `none` represents no component.
fn digits_name(alloc: Global, column: &str) -> anyhow::Result<Vec<Vec<u8>>> {
    let mut name = Vec::new(alloc);
    if column == "none" {
        return Ok(name);
    }
    for component in column.split(',') {
        name.push(hex::decode(alloc, component)?)?;
    }
    Ok(name)
}

/// Writes what a client takes of a reply: client, keys and reply.
fn tell_taken(
    alloc: Global,
    clients: &[PkinitClient],
    row: &mut Row<'_>,
    told: &mut Told,
) -> anyhow::Result<()> {
    let client = client_named(clients, row.word())?;
    let keys = keys_of(alloc, row.word())?;
    let reply = row.octets(alloc);
    let holder = replier_of(alloc, &reply);
    let outcome = tell_taken_by(alloc, client, &reply, &keys, holder.as_ref(), told);
    drop(holder);
    outcome
}

/// Writes what a client takes of a reply. The client's key functions know the keys of the anchor and of the holder of the reply's
/// certificate.
fn tell_taken_by<'a>(
    alloc: Global,
    client: &'a PkinitClient,
    reply: &[u8],
    keys: &'a RowKeys,
    holder: Option<&'a Anchor>,
    told: &mut Told,
) -> anyhow::Result<()> {
    let known = client.party.known(alloc, keys, holder)?;
    let functions = client.party.functions(keys, &known);
    let taken = client
        .client
        .take_as_reply(alloc, &client.asked, reply, &functions);
    tell_credential(alloc, told, taken)
}

/// Writes what a reply grants, or the name of the refusal: the key, its suite, the realm, the service, and the ticket.
fn tell_credential(
    alloc: Global,
    told: &mut Told,
    taken: Result<Credential, TakeRefusal>,
) -> anyhow::Result<()> {
    match taken {
        Ok(credential) => {
            tell_granted(told, &credential);
            let ticket = to_vec(alloc, credential.ticket());
            drop(credential);
            told.octets(&ticket?);
        }
        Err(refusal) => told.debug(&refusal),
    }
    Ok(())
}

fn tell_granted(told: &mut Told, credential: &Credential) {
    told.put("Ok ");
    told.octets(credential.key().as_bytes());
    told.put(" ");
    told.show(&usize::from(credential.suite()));
    told.put(" ");
    told.utf8(credential.realm().as_bytes());
    told.put(" ");
    name_text(told, credential.service());
    told.put(" ");
}

/// The clients of a file. A line has a client's name, its realm, its components, its suite, and the certificates of its anchor and
/// its own.
pub(crate) fn clients_of(rt: &HostRuntime, file: &str) -> anyhow::Result<PkinitClients> {
    let text = fs::read_to_string(rt, file)?;
    let mut clients = Vec::new(rt.alloc());
    for line in text.lines() {
        if !line.starts_with('#') {
            clients.push(client_of(rt.alloc(), line)?)?;
        }
    }
    Ok(PkinitClients { clients })
}

fn client_of(alloc: Global, line: &str) -> anyhow::Result<PkinitClient> {
    let mut row = Row::new(line, "\t");
    let (called, realm, name) = (row.word(), row.word(), row.word());
    let suite = suite_of(&mut row);
    let (anchor, own) = (row.word(), row.word());
    row.ended()?;
    let client = made_client(alloc, (realm, name), suite, anchor, own);
    let (client, party) = both(client, party_of(alloc, anchor, own))?;
    let asked = first_asked(alloc, &client, &party, realm);
    let called = name_of(alloc, called);
    let ((name, asked), (client, party)) = both(both(called, asked), Ok((client, party)))?;
    Ok(PkinitClient {
        name,
        client,
        party,
        asked,
    })
}

pub(crate) fn made_client(
    alloc: Global,
    (realm, name): (&str, &str),
    suite: CipherSuite,
    anchor: &str,
    own: &str,
) -> anyhow::Result<Client> {
    let (own, anchor) = both(octets_of(alloc, own), holder_of(alloc, anchor))?;
    let name = components_of(alloc, name)?;
    let client = Client::by_certificate(alloc, realm.as_bytes(), &name, suite, &own, anchor);
    drop(name);
    drop(own);
    Ok(client?)
}

/// What a client remembers of its request for its realm's ticket-granting service.
fn first_asked(
    alloc: Global,
    client: &Client,
    party: &Party,
    realm: &str,
) -> anyhow::Result<AsAsked> {
    let service = format!(in alloc; "krbtgt/{realm}")?;
    let (request, asked) = ask(alloc, client, party, &service, first_asking()?, "test")??;
    drop(request);
    Ok(asked)
}

/// What that request is made by.
fn first_asking() -> anyhow::Result<Conditions> {
    Ok(Conditions {
        till: second_of("20000102000000Z")?,
        moment: moment_of("7")?,
        random: Random { first: 0, step: 1 },
    })
}
