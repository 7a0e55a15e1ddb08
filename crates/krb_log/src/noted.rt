//! Answers with the entries of their lines.
ghost use Rattle.std.specs.Prelude.{◌≡◌, None, Some, IfErr, IfOk, MatchResult};
ghost use Rattle.krb_kdc.specs.Begins.{BeginsRequest};
ghost use Rattle.krb_messages.specs.RandomBytes.{AreEnoughForReply};
ghost use Rattle.krb_realm_files.specs.Replies.{MayLack, RepliesFrom};
ghost use Rattle.krb_log.specs.Entries.{IsEntry};

use crate::entry::Entry;
use crate::watch::{Watch, micros_since};
use krb_frames::AnswerRefusal;
use krb_realm_files::{FaultReporter, FileRealm, Opens};
use krb_time::Moment;
use std::alloc::{AllocError, Global};
use std::time::Clock;

/// What a message was answered, with the entry of its line.
#[derive(Drop)]
pub struct Noted {
    /// The reply, or why there is none.
    pub answered: Result<Vec<u8>, AnswerRefusal>,
    /// The entry of the line, unless there is no memory for it.
    pub entry: Result<Entry, AllocError>,
    /// How many microseconds the answer took. None if the clock can't be read.
    pub micros: Option<u64>,
}

/// Returns what the realm of a file answers a message, and the entry of its line. The entry is made of what was seen of the request and of
/// the reply, before the reply is returned. What a message without a reply asks for is read from the message.
pub fn noted_answer<O: Opens, T: FaultReporter, C: Clock>(
    alloc: Global,
    realm: &FileRealm<'_, O, T>,
    clock: &C,
    message: &[u8],
    moment: Moment,
    words: &[u8],
) -> Noted
    requires { AreEnoughForReply words.now }
    ensures reply { MatchResult result.answered (λ reply. RepliesFrom (O.opens realm.now.accounts.now) O.File.content message.now moment words.now (Some reply.items))
        (λ refusal. refusal ≡ AnswerRefusal.Unreadable → RepliesFrom (O.opens realm.now.accounts.now) O.File.content message.now moment words.now None) }
    ensures memory { IfErr result.answered (λ refusal. refusal ≡ AnswerRefusal.Memory → BeginsRequest message.now) }
    ensures accounts { IfErr result.answered (λ refusal. refusal ≡ AnswerRefusal.Accounts
        → MayLack (O.opens realm.now.accounts.now) (O.fails realm.now.accounts.now) O.File.content O.File.fails message.now) }

    // The entry is of this message and this reply, with the accounts of the file that the reply is from.
    ensures entry { IfOk result.entry (IsEntry (O.opens realm.now.accounts.now) O.File.content message.now result.answered) }
{
    let mut watch = Watch::new(clock);
    let answered = realm.answer_observed(alloc, &mut watch, message, moment, words);
    let start = watch.start;
    match answered {
        Ok(reply) => Noted {
            answered: Ok(reply),
            micros: watch.micros,
            entry: watch.entry,
        },
        Err(refusal) => {
            drop(watch);
            let micros = micros_since(clock, start);
            Noted {
                answered: Err(refusal),
                entry: Entry::of_refusal(alloc, message, refusal),
                micros,
            }
        }
    }
}
