//! Replies by certificate to a client with algorithm agility. `data/agile_replies.py` writes the rows.

use crate::row::columns_of;
use anyhow::{Context, bail};
use krb_client::{AsAsked, Client, Means, TakeRefusal};
use krb_crypto::{CipherSuite, Key};
use krb_messages::messages::AsRep;
use krb_messages::random_bytes::AGREEMENT_SIZE;
use krb_time::Moment;
use picky_asn1_der::read_whole;
use pkinit_clients::ByCertificate;
use pkinit_clients::agility::AgileCertificate;
use pkinit_validation::Anchor;
use public_key_cryptography::Group;
use rsa_keys::RsaKeys;
use std::alloc::Global;
use test_support::rows::replay;
use test_support::{Row, Rows};

/// Where the agreement's random octets begin among those of a request.
const AGREEMENT_AT: usize = 32;

#[derive(Clone, Copy)]
struct AgileReplies;

/// Replays the file of replies.
pub(crate) fn replay_agile_replies(rt: &HostRuntime) -> anyhow::Result<()> {
    replay(rt, &mut AgileReplies, "agile_replies.txt")
}

impl Rows for AgileReplies {
    const COLUMNS: &'static str = " | ";

    const NAME: &'static str = "lines";

    fn agrees(&mut self, rt: &HostRuntime, row: &mut Row<'_>) -> anyhow::Result<bool> {
        let _label = row.word();
        let head = row.word();
        let columns = row.word();
        let wanted = row.word();
        let columns = columns_of(rt.alloc(), columns)?;
        let taken = is_taken(rt.alloc(), head, columns.as_slice(), wanted);
        drop(columns);
        taken
    }
}

/// Whether the client makes this key of the reply: realm, client, anchor, random octets, request and reply.
fn is_taken(alloc: Global, head: &str, columns: &[Vec<u8>], wanted: &str) -> anyhow::Result<bool> {
    let [realm, client, anchor, words, request, reply] = columns else {
        bail!("other columns");
    };
    let (suite, nonce, moment) = head_of(head)?;
    let name = [Vec::from_slice(alloc, client)?];
    let client = Client::new(alloc, realm, &name, suite)?;
    let asked = asked_of(alloc, nonce, moment, words)?;
    let anchor = Anchor::from_certificate(alloc, anchor)?;
    let keys = RsaKeys::new(Group::Modp2048, None);
    let means = AgileCertificate {
        own: ByCertificate {
            certificate: &[],
            anchor: &anchor,
            keys: &keys,
        },
        as_req: request.as_slice(),
    };
    let key = key_of(alloc, &means, &client, &asked, reply)?;
    is_wanted(alloc, &key, wanted)
}

fn head_of(head: &str) -> anyhow::Result<(CipherSuite, u32, Moment)> {
    let Some((suite, rest)) = head.split_once(' ') else {
        bail!("no suite");
    };
    let Some((nonce, moment)) = rest.split_once(' ') else {
        bail!("no nonce and moment");
    };
    let suite: usize = suite.parse()?;
    let Ok(suite) = CipherSuite::try_from(suite) else {
        bail!("no suite of this number");
    };
    let moment = Moment::new(moment.parse()?).context("a moment past the year 9999")?;
    Ok((suite, nonce.parse()?, moment))
}

/// What the client remembers of its request, of which the agreement had these random octets.
fn asked_of(alloc: Global, nonce: u32, moment: Moment, words: &[u8]) -> anyhow::Result<AsAsked> {
    if words.len() != AGREEMENT_SIZE {
        bail!("other random octets");
    }
    let mut all = [0u8; 96];
    all[AGREEMENT_AT..].copy_from_slice(words);
    Ok(AsAsked::new(Vec::new(alloc), nonce, moment, &all))
}

/// The key that the means make of the reply.
fn key_of(
    alloc: Global,
    means: &AgileCertificate<'_, RsaKeys>,
    client: &Client,
    asked: &AsAsked,
    reply: &[u8],
) -> anyhow::Result<Result<Key, TakeRefusal>> {
    let reply: Option<AsRep> = read_whole(alloc, reply)?;
    let Some(reply) = reply else {
        bail!("no reply");
    };
    let key = means.reply_key(alloc, client, asked, &reply.0);
    drop(reply);
    Ok(key)
}

fn is_wanted(alloc: Global, key: &Result<Key, TakeRefusal>, wanted: &str) -> anyhow::Result<bool> {
    match key {
        Ok(key) => {
            let text = hex::encode(alloc, key.as_bytes())?;
            Ok(text.as_str() == wanted)
        }
        Err(TakeRefusal::NotTrusted) => Ok(wanted == "untrusted"),
        Err(_) => Ok(false),
    }
}
