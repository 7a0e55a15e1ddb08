//! Steps of a client and a realm that have certificates under one anchor. Signatures are digests, and each agreement has the
//! same secret.

use crate::keys::{RowKeys, keys_of};
use crate::login::{honest, login};
use crate::short_keys::{ShortKeys, Taker, taker_of};
use crate::stage::Stage;
use crate::take::keep_client;
use crate::words::{holder_of, suite_of};
use crate::{ask, realms, take};
use anyhow::{Context, bail};
use krb_realm::{Anchor, Client};
use picky_asn1_der::both;
use std::alloc::Global;
use test_support::{KnownKey, Row, Told};
use x509_codec::to_vec;

/// What the key functions of client and realm go by.
#[derive(Drop)]
pub(crate) struct Certified {
    /// The holders of the certificates of the anchor, the client and the realm.
    holders: Vec<Anchor>,
    /// How both sign and agree.
    keys: RowKeys,
    /// The client's function that runs out of memory, and the realm's.
    client_short: Option<Taker>,
    realm_short: Option<Taker>,
}

/// The key functions of both.
#[derive(Clone, Copy)]
pub(crate) struct BothKeys<'a> {
    pub(crate) client: ShortKeys<'a>,
    pub(crate) realm: ShortKeys<'a>,
}

pub(crate) fn tell_step(
    stage: &mut Stage,
    alloc: Global,
    step: &str,
    words: &mut Row<'_>,
    told: &mut Told,
) -> anyhow::Result<()> {
    match step {
        "certificates" => certificates(stage, alloc, words),
        "short_of_memory" => short_of_memory(stage, words),
        "client_by_certificate" => client(stage, alloc, words, told),
        _ => tell_certified(stage, alloc, step, words, told),
    }
}

/// A step by the key functions.
fn tell_certified(
    stage: &mut Stage,
    alloc: Global,
    step: &str,
    words: &mut Row<'_>,
    told: &mut Told,
) -> anyhow::Result<()> {
    let Some(certified) = stage.certified.take() else {
        bail!("no such step, or no certificates");
    };
    let outcome = tell_by_keys(stage, alloc, &certified, step, words, told);
    drop(stage.certified.replace(certified));
    outcome
}

fn tell_by_keys(
    stage: &mut Stage,
    alloc: Global,
    certified: &Certified,
    step: &str,
    words: &mut Row<'_>,
    told: &mut Told,
) -> anyhow::Result<()> {
    let known = known_of(alloc, &certified.holders)?;
    let keys = both_keys(certified, &known)?;
    match step {
        "ask_by_certificate" => ask::as_request(stage, alloc, words, &keys.client, told),
        "answer_by_certificate" => realms::answer(stage, alloc, &keys.realm, told),
        "take_by_certificate" => take::as_reply(stage, alloc, &keys.client, told),
        "honest_by_certificate" => honest(stage, alloc, words, Some(&keys), told),
        "login_by_certificate" => login(stage, alloc, words, Some(&keys), told),
        _ => bail!("no such step"),
    }
}

/// The holders' keys, with their encodings.
fn known_of(alloc: Global, holders: &[Anchor]) -> anyhow::Result<Vec<KnownKey<'_>>> {
    let mut known = Vec::new(alloc);
    for holder in holders {
        let key = holder.key();
        let der = to_vec(alloc, key)?;
        known.push(KnownKey { key, der })?;
    }
    Ok(known)
}

/// Both know all three keys.
fn both_keys<'a>(
    certified: &'a Certified,
    known: &'a [KnownKey<'a>],
) -> anyhow::Result<BothKeys<'a>> {
    let [_, client, realm] = known else {
        bail!("other than three certificates");
    };
    let client = certified.keys.functions(&client.der, known);
    let realm = certified.keys.functions(&realm.der, known);
    Ok(BothKeys {
        client: ShortKeys {
            keys: client,
            short: certified.client_short,
        },
        realm: ShortKeys {
            keys: realm,
            short: certified.realm_short,
        },
    })
}

/// Takes the certificates of the anchor, the client and the realm.
fn certificates(stage: &mut Stage, alloc: Global, words: &mut Row<'_>) -> anyhow::Result<()> {
    let (holders, keys) = both(holders_of(alloc, words), keys_of(alloc, "test"))?;
    drop(
        stage.certified.replace(Certified {
            holders,
            keys,
            client_short: None,
            realm_short: None,
        }),
    );
    Ok(())
}

fn holders_of(alloc: Global, words: &mut Row<'_>) -> anyhow::Result<Vec<Anchor>> {
    let mut holders = Vec::new(alloc);
    for _ in 0..3u8 {
        holders.push(holder_of(alloc, words.word())?)?;
    }
    Ok(holders)
}

/// Has a key function of the client and one of the realm run out of memory.
fn short_of_memory(stage: &mut Stage, words: &mut Row<'_>) -> anyhow::Result<()> {
    let certified = stage.certified.as_mut().context("no certificates")?;
    certified.client_short = taker_of(words);
    certified.realm_short = taker_of(words);
    Ok(())
}

/// Makes a client of this realm, name and suite, and with the certificates of its anchor and its own.
fn client(
    stage: &mut Stage,
    alloc: Global,
    words: &mut Row<'_>,
    told: &mut Told,
) -> anyhow::Result<()> {
    let realm = words.text().as_bytes();
    let name = words.name(alloc);
    let suite = suite_of(words);
    let anchor = holder_of(alloc, words.word())?;
    let own = words.octets(alloc);
    let made = Client::by_certificate(alloc, realm, &name, suite, &own, anchor);
    keep_client(stage, made, told);
    Ok(())
}
