//! Look-ups in files of a realm, whole and damaged, by reads of the file and in memory, and replies from them. The files that this project
//! writes are compared with the independent writer's, octet by octet. `data/account_files.py` says what the rows are.

mod words;
mod written;

use crate::copies::Copies;
use anyhow::bail;
use cdb::FileAt;
use krb_realm_files::{AccountFile, NamedAccount};
use std::alloc::Global;
use std::fs;
use std::fs::File;
use test_support::rows::replay;
use test_support::{Row, Rows};
use words::{account_words, name_of, realm_words, reply_words};
use written::{is_written, named_account};

/// A file that is open, and the accounts of which one is written.
#[derive(Drop)]
struct Opened {
    file: AccountFile<FileAt<File>>,
    copies: Copies,
    accounts: Vec<NamedAccount>,
}

/// Replays the rows on files of a realm.
pub(crate) fn replay_account_files(rt: &HostRuntime) -> anyhow::Result<()> {
    let mut opened = open(rt, "alone.cdb")?;
    let replayed = replay(rt, &mut opened, "account_files.txt");
    drop(opened);
    replayed
}

impl Rows for Opened {
    fn agrees(&mut self, rt: &HostRuntime, row: &mut Row<'_>) -> anyhow::Result<bool> {
        let alloc = rt.alloc();
        match row.word() {
            "open" => replace(rt, self, row),
            "account" => put_account(alloc, self, row),
            "cut" => self.copies.cut(row),
            "set" => self.copies.set(alloc, row),
            "realm" => is_realm(alloc, self, row),
            "get" => is_got(alloc, self, row),
            "reply" => is_replied(alloc, self, row),
            "written" => is_written(alloc, &self.accounts, &self.copies.whole, row),
            "failing" => is_failing(rt, row),
            _ => bail!("a row with another first word"),
        }
    }
}

/// Returns a file that is open, with no accounts.
fn open(rt: &HostRuntime, name: &str) -> anyhow::Result<Opened> {
    let file = file_at(rt, name)?;
    let copies = Copies::new(fs::read(rt, name)?)?;
    Ok(Opened {
        file,
        copies,
        accounts: Vec::new(rt.alloc()),
    })
}

fn file_at(rt: &HostRuntime, name: &str) -> anyhow::Result<AccountFile<FileAt<File>>> {
    let file = File::open(rt, name)?;
    Ok(AccountFile {
        file: FileAt { file },
    })
}

/// Opens another file in place of the one that is open.
fn replace(rt: &HostRuntime, opened: &mut Opened, row: &mut Row<'_>) -> anyhow::Result<bool> {
    let fresh = open(rt, row.word())?;
    drop(std::mem::replace(opened, fresh));
    Ok(true)
}

/// Adds an account.
fn put_account(alloc: Global, opened: &mut Opened, row: &mut Row<'_>) -> anyhow::Result<bool> {
    let account = named_account(alloc, row)?;
    opened.accounts.push(account)?;
    Ok(true)
}

/// Returns the copy in memory as a file of accounts.
fn in_memory(opened: &Opened) -> AccountFile<&[u8]> {
    AccountFile {
        file: opened.copies.bytes.as_slice(),
    }
}

/// Returns whether the realm is read so, in memory and by reads of the file. A damaged copy is in memory alone.
fn is_realm(alloc: Global, opened: &Opened, row: &mut Row<'_>) -> anyhow::Result<bool> {
    let expected = row.rest();
    let read = realm_words(alloc, &in_memory(opened))?;
    if opened.copies.is_damaged || read.as_str() != expected {
        return Ok(read.as_str() == expected);
    }
    let read = realm_words(alloc, &opened.file)?;
    Ok(read.as_str() == expected)
}

/// Returns whether the account of a name is read so, in memory and by reads of the file.
fn is_got(alloc: Global, opened: &Opened, row: &mut Row<'_>) -> anyhow::Result<bool> {
    let name = name_of(alloc, row.word())?;
    let expected = row.rest();
    let read = account_words(alloc, &in_memory(opened), &name)?;
    if opened.copies.is_damaged || read.as_str() != expected {
        return Ok(read.as_str() == expected);
    }
    let read = account_words(alloc, &opened.file, &name)?;
    Ok(read.as_str() == expected)
}

/// Returns whether the realm replies so to a request, in memory and by reads of the file.
fn is_replied(alloc: Global, opened: &Opened, row: &mut Row<'_>) -> anyhow::Result<bool> {
    let request = row.octets(alloc);
    let expected = row.rest();
    let reply = reply_words(alloc, &in_memory(opened), &request)?;
    if opened.copies.is_damaged || reply.as_str() != expected {
        return Ok(reply.as_str() == expected);
    }
    let reply = reply_words(alloc, &opened.file, &request)?;
    Ok(reply.as_str() == expected)
}

/// Returns whether look-ups in what can't be read are refused as `Failed`.
fn is_failing(rt: &HostRuntime, row: &mut Row<'_>) -> anyhow::Result<bool> {
    let alloc = rt.alloc();
    let file = file_at(rt, row.word())?;
    let name = name_of(alloc, row.word())?;
    let realm = realm_words(alloc, &file)?;
    let account = account_words(alloc, &file, &name)?;
    Ok(realm.as_str() == "failed" && account.as_str() == "failed")
}
