//! Requests to a realm, and its replies.

use crate::recorded::rows::Rows;
use crate::stage::Random;
use crate::words::start;
use decision_tables::if_passed;
use krb_realm::{AnswerRefusal, CipherSuite, NoKeys, Realm, Settings};
use std::alloc::Global;
use test_support::{Row, Told, components_of};

/// The random bytes of each reply: 0 to 127.
pub(crate) const WORDS: Random = Random { first: 0, step: 1 };

impl Rows for Realm {
    const NAME: &'static str = "requests";

    const WRONG: &'static str = "differing replies";

    fn tell(&self, rt: &HostRuntime, row: &mut Row<'_>, told: &mut Told) -> anyhow::Result<()> {
        let _label = row.word();
        let request = row.octets(rt.alloc());
        row.want();
        let _rule = row.word();
        let reply = self.answer(rt.alloc(), &request, start()?, &WORDS.bytes(), &NoKeys);
        tell_reply(told, reply);
        Ok(())
    }
}

/// Writes a reply in hexadecimal, or the name of its refusal.
pub(crate) fn tell_reply(told: &mut Told, reply: Result<Vec<u8>, AnswerRefusal>) {
    match reply {
        Ok(reply) => told.octets(&reply),
        Err(refusal) => told.debug(&refusal),
    }
}

/// What an account's key is made of.
#[derive(Clone, Copy)]
pub(crate) enum Secret {
    /// The password `pw`.
    Password,
    /// 32 octets of this value.
    Key(u8),
}

/// The realm R with these settings and so many accounts beside its own service: the first of `a`, `h`, `b`, `d`, `e`, `f` and
/// `a/b`.
pub(crate) fn realm_with(alloc: Global, settings: Settings, count: usize) -> anyhow::Result<Realm> {
    let suite = CipherSuite::Aes256CtsHmacSha196;
    let mut realm = Realm::new(alloc, b"R", suite, &[0; 32], settings)?;
    let added = add_accounts(alloc, &mut realm, count);
    if_passed(realm, added)
}

fn add_accounts(alloc: Global, realm: &mut Realm, count: usize) -> anyhow::Result<()> {
    let accounts: &[(&str, CipherSuite, Secret)] = &[
        ("a", CipherSuite::Aes256CtsHmacSha196, Secret::Password),
        ("h", CipherSuite::Aes256CtsHmacSha196, Secret::Key(1)),
        ("b", CipherSuite::Aes128CtsHmacSha196, Secret::Password),
        ("d", CipherSuite::Des3CbcSha1Kd, Secret::Password),
        ("e", CipherSuite::Aes128CtsHmacSha256128, Secret::Password),
        ("f", CipherSuite::Aes256CtsHmacSha384192, Secret::Password),
        ("a/b", CipherSuite::Aes256CtsHmacSha196, Secret::Key(2)),
    ];
    for (name, suite, secret) in accounts.iter().take(count) {
        add_account(alloc, realm, name, *suite, *secret)?;
    }
    Ok(())
}

pub(crate) fn add_account(
    alloc: Global,
    realm: &mut Realm,
    name: &str,
    suite: CipherSuite,
    secret: Secret,
) -> anyhow::Result<()> {
    let name = components_of(alloc, name)?;
    let added = match secret {
        Secret::Password => realm.add_account_by_password(alloc, &name, suite, b"pw"),
        Secret::Key(octet) => realm.add_account_by_key(alloc, &name, suite, &[octet; 32]),
    };
    Ok(added?)
}
