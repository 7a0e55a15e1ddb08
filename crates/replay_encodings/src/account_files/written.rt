//! Files that are written.

use super::words::{name_of, octets_of, text_of};
use anyhow::{Context, bail};
use cdb::WriteFault;
use krb_crypto::{CipherSuite, Key};
use krb_realm_accounts::{Account, Settings};
use krb_realm_files::{NamedAccount, RealmParameters, write_accounts};
use picky_asn1::wrapper::OctetStringAsn1;
use std::alloc::Global;
use test_support::Row;

/// Returns the account that a row adds: its name, its suite's number, its kvno, its key and its salt.
pub(crate) fn named_account(alloc: Global, row: &mut Row<'_>) -> anyhow::Result<NamedAccount> {
    let name = row.word();
    let account = account_of(alloc, row)?;
    let name = name_of(alloc, name)?;
    Ok(NamedAccount { name, account })
}

/// Reads an account after its name.
fn account_of(alloc: Global, row: &mut Row<'_>) -> anyhow::Result<Account> {
    let suite = row.number::<usize>();
    let kvno = row.number::<u32>();
    let key = row.octets(alloc);
    let salt = some_octets(alloc, row.word())?;
    let key = key_of(suite, &key)?;
    if kvno == 0 {
        bail!("an account of kvno 0");
    }
    Ok(Account::new(key, kvno, salt))
}

fn key_of(suite: usize, key: &[u8]) -> anyhow::Result<Key> {
    let suite = CipherSuite::try_from(suite).ok().context("no suite")?;
    Key::new(suite, key).ok().context("a key of another length")
}

fn some_octets(alloc: Global, word: &str) -> anyhow::Result<Option<OctetStringAsn1>> {
    if word == "none" {
        return Ok(None);
    }
    let octets = octets_of(alloc, word)?;
    Ok(Some(OctetStringAsn1::from(octets)))
}

/// Reads a realm: its name, its clock skew, its greatest lifetime, and what its logins by certificate are answered by.
fn realm_of_row(alloc: Global, row: &mut Row<'_>) -> anyhow::Result<RealmParameters> {
    let name = text_of(alloc, row.word())?;
    let (skew, lifetime) = (row.number::<u64>(), row.number::<u64>());
    let settings = Settings::new(skew, lifetime).ok().context("no settings")?;
    let pkinit = some_octets(alloc, row.word())?;
    Ok(RealmParameters {
        name,
        settings,
        pkinit,
    })
}

/// Returns whether the file of a row's realm and of these accounts is this one, octet by octet, or is refused by the row's word.
pub(crate) fn is_written(
    alloc: Global,
    accounts: &[NamedAccount],
    bytes: &[u8],
    row: &mut Row<'_>,
) -> anyhow::Result<bool> {
    let outcome = row.word();
    let realm = realm_of_row(alloc, row)?;
    let written = write_accounts(alloc, &realm, accounts);
    Ok(is_outcome(written, bytes, outcome))
}

fn is_outcome(written: Result<Vec<u8>, WriteFault>, bytes: &[u8], outcome: &str) -> bool {
    match written {
        Ok(written) => outcome == "equal" && written.as_slice() == bytes,
        Err(WriteFault::Large) => outcome == "large",
        Err(WriteFault::Unsound) => outcome == "unsound",
        Err(WriteFault::Memory) => outcome == "memory",
    }
}
