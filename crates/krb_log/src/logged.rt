//! A responder that logs.

use crate::entry::Entry;
use crate::line::Line;
use crate::noted::noted_answer;
use crate::stamp::Stamp;
use krb_frames::{AnswerRefusal, Responder};
use krb_realm_files::{FaultReporter, FileRealm, Opens};
use krb_time::Moment;
use std::alloc::Global;
use std::time::Clock;

/// A responder with the replies of a file's realm. It writes a line for each message on standard error, before it returns the reply: a frame
/// loop writes the reply's frame after that. The line is that of the entry that [`noted_answer`] returns.
///
/// The line's time is the moment at which the message is answered. If there is no memory for a line, one of fixed text is written in its
/// place. If standard error takes nothing, the message is answered all the same.
#[derive(Clone, Copy)]
pub struct Logged<'a, O: Opens, T: FaultReporter, R: Eprint + Clock> {
    /// What opens the file.
    pub accounts: &'a O,
    /// What reports why a file can't be used.
    pub faults: &'a T,
    /// What has standard error and the clock.
    pub rt: &'a R,
}

impl<'a, O: Opens, T: FaultReporter, R: Eprint + Clock> Responder for Logged<'a, O, T, R> {
    ghost use Rattle.krb_kdc.specs.Begins.{BeginsRequest};
    ghost use Rattle.krb_realm_files.specs.Replies.{MayLack, RepliesFrom};

    ghost replies = { λ own. RepliesFrom (O.opens own.accounts.now) O.File.content };

    ghost may_want_memory = { λ _ message. BeginsRequest message };

    ghost may_lack_accounts = { λ own. MayLack (O.opens own.accounts.now) (O.fails own.accounts.now) O.File.content O.File.fails };

    fn answer(
        &self,
        alloc: Global,
        message: &[u8],
        moment: Moment,
        words: &[u8],
    ) -> Result<Vec<u8>, AnswerRefusal> {
        let realm = FileRealm {
            accounts: self.accounts,
            faults: self.faults,
        };
        let noted = noted_answer(alloc, &realm, self.rt, message, moment, words);
        let stamp = Stamp::of(moment);
        match &noted.entry {
            Ok(entry) => log(self.rt, stamp, noted.micros, entry),
            // Where standard error takes nothing, the message is answered all the same.
            Err(_) => {
                let _ = eprintln!(self.rt; "{stamp} no memory for this line");
            }
        }
        noted.answered
    }
}

// Writes the line of an entry.
fn log<R: Eprint>(rt: &R, stamp: Stamp, micros: Option<u64>, entry: &Entry) {
    let line = Line {
        stamp,
        entry,
        micros,
    };
    // Where standard error takes nothing, the message is answered all the same.
    let _ = eprintln!(rt; "{line}");
}
