//! Requests to the realm of a file that is opened anew for each message, whole, damaged and missing. Each reply is compared with that of
//! an independent implementation, and each entry of the log with what an independent reader says of request and reply.
//! `data/file_realms.py`, `data/company_realms.py`, `data/account_realms.py` and `data/pkinit_realms.py` say what the rows are.

mod replies;

use anyhow::bail;
use replies::{answer_of, text_of};
use test_support::rows::replay;
use test_support::{Row, Rows};

/// The path of the realm's file.
#[derive(Drop)]
struct RealmPath {
    path: String,
}

/// Replays the rows on realms in files.
pub(crate) fn replay_file_realms(rt: &HostRuntime) -> anyhow::Result<()> {
    let mut realm = RealmPath {
        path: String::new(rt.alloc()),
    };
    replay(rt, &mut realm, "file_realms.txt")?;
    replay(rt, &mut realm, "company_realms.txt")?;
    replay(rt, &mut realm, "account_realms.txt")?;
    replay(rt, &mut realm, "pkinit_realms.txt")
}

impl Rows for RealmPath {
    const COLUMNS: &'static str = " | ";

    fn agrees(&mut self, rt: &HostRuntime, row: &mut Row<'_>) -> anyhow::Result<bool> {
        let word = row.word();
        if let Some(path) = word.strip_prefix("open ") {
            self.path = String::from_str(rt.alloc(), path)?;
            return Ok(true);
        }
        if word != "ask" {
            bail!("a row with another first word");
        }
        is_answered(rt, &self.path, row)
    }
}

/// Returns whether the realm of the file with this path replies to a request as the row says, and the log says so too.
fn is_answered(rt: &HostRuntime, path: &str, row: &mut Row<'_>) -> anyhow::Result<bool> {
    let _label = row.word();
    let message = row.octets(rt.alloc());
    let (reply, entry) = (row.word(), row.word());
    let noted = answer_of(rt, path, &message)?;
    let logged = noted.entry?.to_string(rt.alloc())?;
    let text = text_of(rt.alloc(), &noted.answered)?;
    Ok(text.as_str() == reply && logged.as_str() == entry)
}
