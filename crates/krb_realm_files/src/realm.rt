//! The responder over a file that is opened for each message.
ghost use Rattle.std.specs.Prelude.{◌≡◌};
ghost use Rattle.krb_kdc.specs.Answers.{refusal_of};

use crate::answer::answer_from;
use crate::opens::Opens;
use crate::realm_fault::{FaultReporter, FileFault};
use crate::{AccountFile, realm_of};
use krb_frames::{AnswerRefusal, Responder};
use krb_kdc::{LookupRefusal, Observer, Unobserved, begins_request, refusal_of};
use krb_time::Moment;
use std::alloc::Global;

/// The realm of a file, as the responder of a frame loop. The file is opened anew for each request: its realm, its settings and its
/// accounts count for that one, and so do its certificate, key and anchor. For bytes that begin no request nothing is opened.
#[derive(Clone, Copy)]
pub struct FileRealm<'a, O: Opens, T: FaultReporter> {
    /// What opens the file.
    pub accounts: &'a O,
    /// What reports why a file can't be used.
    pub faults: &'a T,
}

impl<'a, O: Opens, T: FaultReporter> FileRealm<'a, O, T> {
    ghost use Rattle.std.specs.Prelude.{None, Some, IfErr, IfOk, MatchResult};
    ghost use Rattle.krb_kdc.specs.Begins.{BeginsRequest};
    ghost use Rattle.krb_messages.specs.RandomBytes.{AreEnoughForReply};
    ghost use Rattle.krb_realm_files.specs.Replies.{IsToldFrom, MayLack, RepliesFrom};

    /// Replies to a message as a responder does. An observer sees each request that has a reply.
    pub fn answer_observed<V: Observer>(
        &self,
        alloc: Global,
        observer: &mut V,
        message: &[u8],
        moment: Moment,
        words: &[u8],
    ) -> Result<Vec<u8>, AnswerRefusal>
        requires { AreEnoughForReply words.now }
        ensures reply { MatchResult result (λ reply. RepliesFrom (O.opens self.now.accounts.now) O.File.content message.now moment words.now (Some reply.items))
            (λ refusal. refusal ≡ AnswerRefusal.Unreadable → RepliesFrom (O.opens self.now.accounts.now) O.File.content message.now moment words.now None) }
        ensures memory { IfErr result (λ refusal. refusal ≡ AnswerRefusal.Memory → BeginsRequest message.now) }
        ensures accounts { IfErr result (λ refusal. refusal ≡ AnswerRefusal.Accounts
            → MayLack (O.opens self.now.accounts.now) (O.fails self.now.accounts.now) O.File.content O.File.fails message.now) }
        ensures told { IfOk result (λ reply. (file : O.File) × O.opens self.now.accounts.now file
            × IsToldFrom V.sees (O.File.content file) message.now observer.old observer.new reply.items) }
    {
        if !begins_request(message) {
            return Err(AnswerRefusal::Unreadable);
        }
        let file = match self.accounts.open() {
            Ok(file) => file,
            Err(kind) => {
                self.faults.report(FileFault::Unopened(kind));
                return Err(AnswerRefusal::Accounts);
            }
        };
        let accounts = AccountFile { file };
        let answered = answer_from(alloc, &accounts, observer, message, moment, words);
        drop(accounts);
        match answered {
            Ok(reply) => Ok(reply),
            Err(refusal) => Err(reported(self.faults, refusal)),
        }
    }
}

impl<'a, O: Opens, T: FaultReporter> Responder for FileRealm<'a, O, T> {
    ghost use Rattle.krb_realm_files.specs.Replies.{MayLack, RepliesFrom};
    ghost use Rattle.krb_kdc.specs.Begins.{BeginsRequest};

    ghost replies = { λ own. RepliesFrom (O.opens own.accounts.now) O.File.content };

    ghost may_want_memory = { λ _ message. BeginsRequest message };

    ghost may_lack_accounts = { λ own. MayLack (O.opens own.accounts.now) (O.fails own.accounts.now) O.File.content O.File.fails };

    fn answer(
        &self,
        alloc: Global,
        message: &[u8],
        moment: Moment,
        words: &[u8],
    ) -> Result<Vec<u8>, AnswerRefusal> {
        self.answer_observed(alloc, &mut Unobserved, message, moment, words)
    }
}

// Reports why the file can't be used, if there is no reply for that, and returns the refusal of the responder.
fn reported<T: FaultReporter>(faults: &T, refusal: LookupRefusal) -> AnswerRefusal
    ensures { result ≡ refusal_of refusal }
{
    if let LookupRefusal::Fault(fault) = refusal {
        if let Some(fault) = FileFault::of(fault) {
            faults.report(fault);
        }
    }
    refusal_of(refusal)
}

/// Opens the file, and reads the realm's record in it. It fails by why the file can't be used, or by nothing where memory ran out.
pub fn find_realm<O: Opens>(alloc: Global, accounts: &O) -> Result<(), Option<FileFault>> {
    let file = match accounts.open() {
        Ok(file) => file,
        Err(kind) => return Err(Some(FileFault::Unopened(kind))),
    };
    match realm_of(alloc, &file) {
        Ok(_) => Ok(()),
        Err(fault) => Err(FileFault::of(fault)),
    }
}
