//! Requests by certificate at realms with a policy and without. `data/policies.py` writes the rows.

use crate::row::columns_of;
use anyhow::{Context, bail};
use krb_kdc_exchanges::{Agreed, Pkinit, PkinitCall};
use krb_messages::Refusal;
use krb_messages::messages::KdcReqBody;
use krb_time::Moment;
use picky_asn1::wrapper::GeneralStringAsn1;
use picky_asn1_der::read_whole;
use pkinit_messages::agility::Kdf;
use pkinit_validation::policies::{GeneralPolicy, PolicyPkinit};
use pkinit_validation::{Anchor, RealmPkinit};
use public_key_cryptography::Group;
use rsa_keys::{OwnKey, RsaKeys};
use std::alloc::Global;
use test_support::rows::replay;
use test_support::{Row, Rows};
use x509_keys::RsaPrivateKey;

/// Five minutes in microseconds.
const SKEW: u64 = 300_000_000;

/// The random bytes.
const WORDS: [u8; 128] = [
    0x00, 0x01, 0x02, 0x03, 0x04, 0x05, 0x06, 0x07, 0x08, 0x09, 0x0A, 0x0B, 0x0C, 0x0D, 0x0E, 0x0F,
    0x10, 0x11, 0x12, 0x13, 0x14, 0x15, 0x16, 0x17, 0x18, 0x19, 0x1A, 0x1B, 0x1C, 0x1D, 0x1E, 0x1F,
    0x20, 0x21, 0x22, 0x23, 0x24, 0x25, 0x26, 0x27, 0x28, 0x29, 0x2A, 0x2B, 0x2C, 0x2D, 0x2E, 0x2F,
    0x30, 0x31, 0x32, 0x33, 0x34, 0x35, 0x36, 0x37, 0x38, 0x39, 0x3A, 0x3B, 0x3C, 0x3D, 0x3E, 0x3F,
    0x40, 0x41, 0x42, 0x43, 0x44, 0x45, 0x46, 0x47, 0x48, 0x49, 0x4A, 0x4B, 0x4C, 0x4D, 0x4E, 0x4F,
    0x50, 0x51, 0x52, 0x53, 0x54, 0x55, 0x56, 0x57, 0x58, 0x59, 0x5A, 0x5B, 0x5C, 0x5D, 0x5E, 0x5F,
    0x60, 0x61, 0x62, 0x63, 0x64, 0x65, 0x66, 0x67, 0x68, 0x69, 0x6A, 0x6B, 0x6C, 0x6D, 0x6E, 0x6F,
    0x70, 0x71, 0x72, 0x73, 0x74, 0x75, 0x76, 0x77, 0x78, 0x79, 0x7A, 0x7B, 0x7C, 0x7D, 0x7E, 0x7F,
];

#[derive(Clone, Copy)]
struct Policies;

/// Replays the file of requests.
pub(crate) fn replay_policies(rt: &HostRuntime) -> anyhow::Result<()> {
    replay(rt, &mut Policies, "policies.txt")
}

impl Rows for Policies {
    const COLUMNS: &'static str = " | ";

    const NAME: &'static str = "lines";

    fn agrees(&mut self, rt: &HostRuntime, row: &mut Row<'_>) -> anyhow::Result<bool> {
        let _label = row.word();
        let head = row.word();
        let columns = row.word();
        let wanted = row.word();
        let Some((policy, moment)) = head.split_once(' ') else {
            bail!("no policy and moment");
        };
        let policy = policy_of(policy)?;
        let moment = Moment::new(moment.parse()?).context("a moment past the year 9999")?;
        let columns = columns_of(rt.alloc(), columns)?;
        let judged = is_judged(rt.alloc(), policy, moment, columns.as_slice(), wanted);
        drop(columns);
        judged
    }
}

fn policy_of(word: &str) -> anyhow::Result<Option<GeneralPolicy>> {
    match word {
        "none" => Ok(None),
        "general" => Ok(Some(GeneralPolicy { takes_sha1: false })),
        "sha1" => Ok(Some(GeneralPolicy { takes_sha1: true })),
        _ => bail!("no policy {word}"),
    }
}

/// Whether the request is judged as the row says: realm, client, anchor, own certificate and key, body and padata.
fn is_judged(
    alloc: Global,
    policy: Option<GeneralPolicy>,
    moment: Moment,
    columns: &[Vec<u8>],
    wanted: &str,
) -> anyhow::Result<bool> {
    let [realm, client, anchor, own, key, body, padata] = columns else {
        bail!("other columns");
    };
    let keys = RsaKeys::new(Group::Modp2048, Some(own_key(alloc, key)?));
    let anchor = anchor_of(alloc, anchor)?;
    let certificate = if own.is_empty() {
        None
    } else {
        Some(own.as_slice())
    };
    let pkinit = PolicyPkinit {
        own: RealmPkinit {
            anchor: anchor.as_ref(),
            certificate,
            keys: &keys,
        },
        policy,
    };
    let judged = judged_by(alloc, &pkinit, moment, (realm, client), body, padata);
    drop(pkinit);
    drop(anchor);
    drop(keys);
    is_wanted(alloc, &judged?, wanted)
}

/// The anchor, if there is one.
fn anchor_of(alloc: Global, certificate: &[u8]) -> anyhow::Result<Option<Anchor>> {
    if certificate.is_empty() {
        return Ok(None);
    }
    Ok(Some(Anchor::from_certificate(alloc, certificate)?))
}

/// What the realm makes of it.
fn judged_by(
    alloc: Global,
    pkinit: &PolicyPkinit<'_, RsaKeys>,
    moment: Moment,
    (realm, client): (&[u8], &[u8]),
    body: &[u8],
    padata: &[u8],
) -> anyhow::Result<Result<Agreed, Refusal>> {
    let realm = GeneralStringAsn1::new(alloc, realm)?;
    let client = [GeneralStringAsn1::new(alloc, client)?];
    let body: Option<KdcReqBody> = read_whole(alloc, body)?;
    let Some(body) = body else {
        bail!("no body");
    };
    let call = PkinitCall {
        realm: &realm,
        skew: SKEW,
        client: client.as_slice(),
        body: &body,
        moment,
        words: &WORDS,
    };
    let judged = pkinit.judge(alloc, &call, padata);
    drop(body);
    Ok(judged)
}

fn own_key(alloc: Global, octets: &[u8]) -> anyhow::Result<OwnKey> {
    let private: Option<RsaPrivateKey> = read_whole(alloc, octets)?;
    let Some(private) = private else {
        bail!("no key");
    };
    let own = OwnKey::of_private(alloc, &private);
    drop(private);
    match own? {
        Ok(own) => Ok(own),
        Err(refusal) => bail!("{refusal}"),
    }
}

/// Whether this is the code that the row wants, or the number of the key derivation function with the reply.
fn is_wanted(
    alloc: Global,
    judged: &Result<Agreed, Refusal>,
    wanted: &str,
) -> anyhow::Result<bool> {
    match (judged, wanted.split_once(' ')) {
        (Ok(agreed), Some((kdf, reply))) => {
            let expected = hex::decode(alloc, reply)?;
            Ok(number_of(agreed.kdf) == kdf && expected.as_slice() == agreed.reply.as_slice())
        }
        (Err(Refusal::Krb(code)), None) => Ok(wanted.parse::<u32>().ok() == Some(*code)),
        _ => Ok(false),
    }
}

fn number_of(kdf: Option<Kdf>) -> &'static str {
    match kdf {
        None => "0",
        Some(Kdf::Sha1) => "1",
        Some(Kdf::Sha256) => "2",
        Some(Kdf::Sha512) => "3",
    }
}
