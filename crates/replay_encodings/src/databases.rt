//! Look-ups in databases of an independent writer, whole and damaged, by reads of the file and in memory. The files that this project writes
//! are compared with the independent writer's, octet by octet. `data/databases.py` says what the rows are.

mod outcome;

use crate::copies::Copies;
use anyhow::bail;
use cdb::{FileAt, Record};
use outcome::{ROOM, is_judged, is_looked_up, is_written};
use std::alloc::Global;
use std::fs;
use std::fs::File;
use test_support::rows::replay;
use test_support::{Row, Rows};

/// A file that is open, and the records that it is compared with.
#[derive(Drop)]
struct Opened {
    file: FileAt<File>,
    copies: Copies,
    records: Vec<Record>,
}

/// Replays the rows on databases.
pub(crate) fn replay_databases(rt: &HostRuntime) -> anyhow::Result<()> {
    let mut opened = open(rt, "empty.cdb")?;
    let replayed = replay(rt, &mut opened, "databases.txt");
    drop(opened);
    replayed
}

impl Rows for Opened {
    fn agrees(&mut self, rt: &HostRuntime, row: &mut Row<'_>) -> anyhow::Result<bool> {
        let alloc = rt.alloc();
        match row.word() {
            "open" => replace(rt, self, row),
            "record" => put_record(alloc, self, row),
            "cut" => self.copies.cut(row),
            "set" => self.copies.set(alloc, row),
            "get" => Ok(is_got(alloc, self, ROOM, row)),
            "room" => {
                let room = row.number::<usize>();
                Ok(is_got(alloc, self, room, row))
            }
            "judged" => Ok(is_judged_so(self, row.word())),
            "written" => Ok(is_written(alloc, &self.records, &self.copies.whole, row.word())),
            "failing" => is_failing(rt, row),
            _ => bail!("a row with another first word"),
        }
    }
}

/// Returns a file that is open, with no records.
fn open(rt: &HostRuntime, name: &str) -> anyhow::Result<Opened> {
    let file = file_at(rt, name)?;
    let copies = Copies::new(fs::read(rt, name)?)?;
    Ok(Opened {
        file,
        copies,
        records: Vec::new(rt.alloc()),
    })
}

fn file_at(rt: &HostRuntime, name: &str) -> anyhow::Result<FileAt<File>> {
    let file = File::open(rt, name)?;
    Ok(FileAt { file })
}

/// Opens another file in place of the one that is open.
fn replace(rt: &HostRuntime, opened: &mut Opened, row: &mut Row<'_>) -> anyhow::Result<bool> {
    let fresh = open(rt, row.word())?;
    drop(std::mem::replace(opened, fresh));
    Ok(true)
}

/// Adds a record.
fn put_record(alloc: Global, opened: &mut Opened, row: &mut Row<'_>) -> anyhow::Result<bool> {
    let key = row.octets(alloc);
    let content = row.octets(alloc);
    opened.records.push(Record { key, content })?;
    Ok(true)
}

/// Returns whether a look-up has this outcome, in memory and by reads of the file. A damaged copy is in memory alone.
fn is_got(alloc: Global, opened: &Opened, room: usize, row: &mut Row<'_>) -> bool {
    let key = row.octets(alloc);
    let outcome = row.word();
    let content = row.further_octets(alloc);
    let bytes = opened.copies.bytes.as_slice();
    is_looked_up(&bytes, &key, room, outcome, &content)
        && (opened.copies.is_damaged || is_looked_up(&opened.file, &key, room, outcome, &content))
}

/// Returns whether the file is judged so, in memory and by reads of the file.
fn is_judged_so(opened: &Opened, outcome: &str) -> bool {
    let bytes = opened.copies.bytes.as_slice();
    is_judged(&bytes, &opened.records, outcome)
        && (opened.copies.is_damaged || is_judged(&opened.file, &opened.records, outcome))
}

/// Returns whether a look-up in what can't be read is refused as `Failed`.
fn is_failing(rt: &HostRuntime, row: &mut Row<'_>) -> anyhow::Result<bool> {
    let file = file_at(rt, row.word())?;
    let key = row.octets(rt.alloc());
    Ok(is_looked_up(&file, &key, ROOM, "failed", &[]))
}
