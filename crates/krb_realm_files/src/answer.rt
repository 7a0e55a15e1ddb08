//! Answers from one opened file.
ghost use Rattle.std.specs.Prelude.{◌≡◌, ◌⊎◌, ℕ, List, Some, IfErr, IfOk};
ghost use Rattle.krb_messages.specs.RandomBytes.{AreEnoughForReply};
ghost use Rattle.krb_realm_accounts.specs.Accounts.{Look};
ghost use Rattle.krb_kdc.specs.Answers.{IsAnswerBy, MayRefuse};
ghost use Rattle.krb_kdc.specs.Failing.{FailsFor};
ghost use Rattle.krb_kdc.specs.Seen.{IsTold};
ghost use Rattle.krb_kdc.specs.Sources.{AsksByCertificate};
ghost use Rattle.krb_realm_files.specs.Files.{FailsAccount, Holds};
ghost use Rattle.krb_realm_files.specs.Lacks.{FailsMeans, FailsReply};
ghost use Rattle.krb_realm_files.specs.Replies.{FileReplies, IsRealmReply, IsToldFrom, ReplyByRealm};

use crate::realm_source::RealmSource;
use crate::{AccountFile, RealmParameters, realm_of};
use cdb::ReadAt;
use krb_kdc::{LookupCall, LookupRefusal, Observer, answer_observed, begins_request};
use krb_time::Moment;
use std::alloc::Global;

/// Returns the reply of a file's realm to a message (RFC 4120, sections 3.1 and 3.3; RFC 4556, section 3.2): of the realm of the file's name
/// and settings, with all accounts of the file, and with what its logins by certificate are answered by. The realm's record and each
/// account are read in this one file. Certificate, key and anchor are read only for a request by certificate. `words`: random bytes, of
/// which the first 128 are used.
///
/// It refuses as `Unreadable` only if the message is no request. If the bytes begin none, nothing of the file is read. It refuses as
/// `Failed` only if a read failed, and as `Damaged` only if the octets are damaged for this message: at the realm's record, at an account
/// that it involves, or, if it asks by certificate, at what such a login is answered by. It refuses as `Memory` if memory runs out. Then
/// there is no reply, and no KRB-ERROR takes its place.
///
/// The observer sees each request that has a reply.
pub fn answer_from<F: ReadAt, V: Observer>(
    alloc: Global,
    accounts: &AccountFile<F>,
    observer: &mut V,
    message: &[u8],
    moment: Moment,
    words: &[u8],
) -> Result<Vec<u8>, LookupRefusal>
    requires { AreEnoughForReply words.now }
    ensures answer { (bytes : List ℕ) → F.content accounts.now.file ≡ Some bytes
        → IfOk result (λ reply. FileReplies bytes message.now moment words.now reply.items) }

    // Whatever the file has, the reply is one of some realm with some accounts.
    ensures some { IfOk result (λ reply. IsRealmReply message.now moment words.now reply.items) }
    ensures refusal { IfErr result (MayRefuse (FailsReply (F.content accounts.now.file) (F.fails accounts.now.file) message.now) message.now) }
    ensures told { IfOk result (λ reply. IsToldFrom V.sees (F.content accounts.now.file) message.now observer.old observer.new reply.items) }
{
    if !begins_request(message) {
        return Err(LookupRefusal::Unreadable);
    }
    let realm = realm_of(alloc, &accounts.file)?;
    let answered = answer_for(alloc, accounts, &realm, observer, message, moment, words);
    drop(realm);
    answered
}

// Returns the reply of this realm, with the accounts of a file.
fn answer_for<F: ReadAt, V: Observer>(
    alloc: Global,
    accounts: &AccountFile<F>,
    realm: &RealmParameters,
    observer: &mut V,
    message: &[u8],
    moment: Moment,
    words: &[u8],
) -> Result<Vec<u8>, LookupRefusal>
    requires { AreEnoughForReply words.now }
    ensures answer { (all : Look) → Holds (F.content accounts.now.file) all
        → IsAnswerBy (ReplyByRealm realm.now all message.now moment words.now) result }
    ensures some { IfOk result (λ reply. (all : Look) × ReplyByRealm realm.now all message.now moment words.now (Some reply.items)) }
    ensures refusal { IfErr result (MayRefuse
        (λ fault. FailsFor (Holds (F.content accounts.now.file)) (FailsAccount (F.content accounts.now.file) (F.fails accounts.now.file)) realm.now.name message.now fault
        ⊎ (AsksByCertificate message.now × FailsMeans realm.now.pkinit fault))
        message.now) }
    ensures told { IfOk result (λ reply. IsTold V.sees (Holds (F.content accounts.now.file)) realm.now.name message.now observer.old observer.new reply.items) }
{
    let call = LookupCall {
        realm: &realm.name,
        settings: realm.settings,
        moment,
        words,
    };
    let source = RealmSource { realm };
    answer_observed(alloc, accounts, &call, &source, observer, message)
}
