//! A whole call: the frame, the AP-REQ and the change.
ghost use Rattle.std.specs.Prelude.{◌≡◌, ◌≤◌, List, OnOk, max};
ghost use Rattle.krb_messages.specs.RandomBytes.{AreEnoughForApReply};
ghost use Rattle.krb_service.specs.Pair.{PairRecord};
ghost use Rattle.krb_service.specs.Seen.{IsWindow};
ghost use Rattle.krb_password_changes.specs.Answers.{IsAdmitting, IsAnswered};

use crate::judge::{Granted, Rules};
use crate::messages::{Version, read_frame};
use crate::refusal::ChangeRefusal;
use crate::setting::change_password;
use krb_account_texts::Line;
use krb_service::{Admission, KeytabService, ReplyFields};
use krb_time::Moment;
use std::alloc::Global;

/// A request whose AP-REQ was admitted.
#[derive(Drop)]
pub struct Admitted<'a> {
    /// The version of the message.
    pub version: Version,
    /// The client, with its keys and its ticket's flags.
    pub admission: Admission,
    /// The octets of the KRB-PRIV.
    pub krb_priv: &'a [u8],
}

/// The answer to a request whose AP-REQ was admitted.
#[derive(Drop)]
pub struct Answer {
    /// The client, with its keys and its ticket's flags.
    pub admission: Admission,
    /// What was granted, or why nothing was.
    pub outcome: Result<Granted, ChangeRefusal>,
}

/// Reads a message as a frame, and admits its AP-REQ once. There is an AP-REP whether the AP-REQ asks for one or not (RFC 3244, section 2).
/// `words`: random octets, of which the first 16 count.
pub fn admit_request<'a>(
    alloc: Global,
    service: &mut KeytabService,
    moment: Moment,
    message: &'a [u8],
    words: &[u8],
) -> Result<Admitted<'a>, ChangeRefusal>
    requires { AreEnoughForApReply words.now }
    ensures greatest { OnOk result (service.new.seen.greatest ≡ max service.old.seen.greatest moment) }
    ensures later { service.old.seen.greatest ≤ service.new.seen.greatest }
    ensures skew { service.new.seen.skew ≡ service.old.seen.skew }
    ensures rest { service.new ≡ record service.old { seen = service.new.seen } }
    ensures admits { (admitted : List PairRecord) → IsWindow service.old.seen admitted
        → IsAdmitting (record { service = service.old; admitted = admitted; moment = max service.old.seen.greatest moment; words = words.now })
        message.now result service.new.seen }
{
    let frame = read_frame(message)?;
    let admission = service.admit_replying(
        alloc,
        frame.ap_message,
        moment,
        ReplyFields::TimeAlone,
        words,
    )?;
    Ok(Admitted {
        version: frame.version,
        admission,
        krb_priv: frame.krb_priv,
    })
}

/// Answers a message: admits its AP-REQ once, and changes the password that its KRB-PRIV asks to change. A request that isn't granted
/// changes no line. `words`: random octets, of which the first 16 count.
pub fn answer_request(
    alloc: Global,
    service: &mut KeytabService,
    lines: &mut Vec<Line>,
    rules: &Rules,
    moment: Moment,
    message: &[u8],
    words: &[u8],
) -> Result<Answer, ChangeRefusal>
    requires { AreEnoughForApReply words.now }
    ensures greatest { OnOk result (service.new.seen.greatest ≡ max service.old.seen.greatest moment) }
    ensures later { service.old.seen.greatest ≤ service.new.seen.greatest }
    ensures skew { service.new.seen.skew ≡ service.old.seen.skew }
    ensures rest { service.new ≡ record service.old { seen = service.new.seen } }
    ensures answers { (admitted : List PairRecord) → IsWindow service.old.seen admitted
        → IsAnswered (record { service = service.old; admitted = admitted; moment = max service.old.seen.greatest moment; words = words.now })
        rules.now message.now lines.old.items result lines.new.items service.new.seen }
{
    let found = admit_request(alloc, service, moment, message, words)?;
    let outcome = change_password(
        alloc,
        lines,
        rules,
        found.version,
        &found.admission,
        found.krb_priv,
    );
    let Admitted { admission, .. } = found;
    Ok(Answer { admission, outcome })
}
