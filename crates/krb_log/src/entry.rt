//! An entry of the log.
ghost use Rattle.std.specs.Prelude.{◌≡◌, IfOk};
ghost use Rattle.krb_log.specs.Entries.{IsEntryOf, IsRefusalEntry};
ghost use Rattle.krb_log.specs.EntryText.{asked_client, asked_service, by_text, exchange_text, means_text, refusal_text, shown_or_dash};

use crate::answer::Answer;
use crate::asked::{Asked, Means};
use crate::reason::Reason;
use crate::seen_reason::seen_reason;
use krb_constants::error_names::error_name;
use krb_frames::AnswerRefusal;
use krb_kdc::Seen;
use krb_kdc_exchanges::GrantedTicket;
use std::alloc::{AllocError, Global};
use std::fmt;

/// What a message asked for, what it was answered, and why it was refused.
#[derive(Debug, Drop)]
pub struct Entry {
    /// What it asked for.
    pub asked: Asked,
    /// What it was answered.
    pub answer: Answer,
    /// The reason of a refusal whose error code leaves that open.
    pub reason: Option<Reason>,
}

impl Entry {
    /// Returns the entry of what was seen of a request and of its reply. It fails only if memory runs out.
    pub fn of_seen(alloc: Global, seen: &Seen<'_>) -> Result<Entry, AllocError>
        ensures { IfOk result (IsEntryOf seen.now) }
    {
        let reason = seen_reason(alloc, seen)?;
        let asked = Asked::of_seen(alloc, &seen.request)?;
        Ok(Entry {
            asked,
            answer: Answer::of_outcome(seen.outcome),
            reason,
        })
    }

    /// Returns the entry of a message without a reply, which is read for it. It fails only if memory runs out.
    pub fn of_refusal(
        alloc: Global,
        message: &[u8],
        refusal: AnswerRefusal,
    ) -> Result<Entry, AllocError>
        ensures { IfOk result (IsRefusalEntry message.now refusal) }
    {
        let asked = Asked::of(alloc, message)?;
        Ok(Entry {
            asked,
            answer: Answer::Refused(refusal),
            reason: None,
        })
    }
}

/// The exchange, the client, the service, the answer, how the client authenticates itself, and the reason if there is one.
impl fmt::Display for Entry {
    ghost use Rattle.std.specs.Prelude.{Some};
    ghost use Rattle.krb_log.specs.EntryText.{entry_text};

    ghost output = { λ entry. Some (entry_text entry) };

    fn fmt<W: fmt::Write>(&self, f: &mut fmt::Formatter<W>) -> fmt::Result {
        let exchange = exchange_of(&self.asked);
        let client = asked_client(&self.asked);
        let service = asked_service(&self.asked);
        let answer = &self.answer;
        let means = MeansPart {
            by: by_text(&self.asked),
            reason: self.reason,
        };
        write!(f, "{exchange} {client} {service} {answer} {means}")
    }
}

/// The encryption types of a ticket and of the reply's part, the name of an error, or why there is no reply.
impl fmt::Display for Answer {
    ghost use Rattle.std.specs.Prelude.{Some};
    ghost use Rattle.krb_log.specs.EntryText.{answer_text};

    ghost output = { λ answer. Some (answer_text answer) };

    fn fmt<W: fmt::Write>(&self, f: &mut fmt::Formatter<W>) -> fmt::Result {
        match self {
            Answer::Ticket(ticket) => {
                let ticket = TicketPart(*ticket);
                write!(f, "{ticket}")
            }
            Answer::Error(code) => {
                let code = CodeName(*code);
                write!(f, "error={code}")
            }
            Answer::Refused(refusal) => f.write_str(refusal_text(*refusal)),
        }
    }
}

// A ticket that was granted, which prints as the encryption types of the ticket and of the reply's part.
#[derive(Clone, Copy)]
struct TicketPart(GrantedTicket);

impl fmt::Display for TicketPart {
    ghost use Rattle.std.specs.Prelude.{Some};
    ghost use Rattle.krb_log.specs.EntryText.{granted_text};

    ghost output = { λ part. Some (granted_text part.0) };

    fn fmt<W: fmt::Write>(&self, f: &mut fmt::Formatter<W>) -> fmt::Result {
        let ticket = u32::from(&self.0.suite);
        let reply = u32::from(&self.0.reply_suite);
        write!(f, "ticket={ticket} reply={reply}")
    }
}

// An error code, which prints as its name, or as the number where it has none.
#[derive(Clone, Copy)]
struct CodeName(u32);

impl fmt::Display for CodeName {
    ghost use Rattle.std.specs.Prelude.{Some};
    ghost use Rattle.krb_log.specs.EntryText.{code_text};

    ghost output = { λ code. Some (code_text code.0) };

    fn fmt<W: fmt::Write>(&self, f: &mut fmt::Formatter<W>) -> fmt::Result {
        let code = self.0;
        match error_name(code) {
            Some(name) => f.write_str(name),
            None => write!(f, "{code}"),
        }
    }
}

// How the client authenticates itself, and the reason of a refusal.
#[derive(Clone, Copy)]
struct MeansPart {
    by: &'static str,
    reason: Option<Reason>,
}

impl fmt::Display for MeansPart {
    ghost use Rattle.std.specs.Prelude.{Some};
    ghost use Rattle.krb_log.specs.EntryText.{means_part};

    ghost output = { λ part. Some (means_part part.by.now part.reason) };

    fn fmt<W: fmt::Write>(&self, f: &mut fmt::Formatter<W>) -> fmt::Result {
        let by = self.by;
        let reason = ReasonPart(self.reason);
        write!(f, "by={by}{reason}")
    }
}

// The reason of a refusal, if there is one, which prints between quotation marks.
#[derive(Clone, Copy)]
struct ReasonPart(Option<Reason>);

impl fmt::Display for ReasonPart {
    ghost use Rattle.std.specs.Prelude.{Some};
    ghost use Rattle.krb_log.specs.EntryText.{reason_part};

    ghost output = { λ part. Some (reason_part part.0) };

    fn fmt<W: fmt::Write>(&self, f: &mut fmt::Formatter<W>) -> fmt::Result {
        match self.0 {
            Some(reason) => write!(f, " reason=\"{reason}\""),
            None => Ok(()),
        }
    }
}

// Returns the name of the exchange, or `-`.
fn exchange_of(asked: &Asked) -> &'static str
    ensures { result.now ≡ exchange_text asked.now }
{
    match asked {
        Asked::As(_) => "AS",
        Asked::Tgs(_) => "TGS",
        Asked::Nothing => "-",
    }
}

// Returns the client, or `-`.
fn asked_client(asked: &Asked) -> &str
    ensures { result.now ≡ asked_client asked.now }
{
    match asked {
        Asked::As(names) | Asked::Tgs(names) => shown(&names.client),
        Asked::Nothing => "-",
    }
}

// Returns the service, or `-`.
fn asked_service(asked: &Asked) -> &str
    ensures { result.now ≡ asked_service asked.now }
{
    match asked {
        Asked::As(names) | Asked::Tgs(names) => shown(&names.service),
        Asked::Nothing => "-",
    }
}

// Returns how the client authenticates itself, or `-`.
fn by_text(asked: &Asked) -> &'static str
    ensures { result.now ≡ by_text asked.now }
{
    match asked {
        Asked::As(names) => means_text(names.means),
        Asked::Tgs(_) => "ticket",
        Asked::Nothing => "-",
    }
}

fn means_text(means: Means) -> &'static str
    ensures { result.now ≡ means_text means }
{
    match means {
        Means::Pkinit => "pkinit",
        Means::Password => "password",
        Means::Nothing => "none",
    }
}

// Returns the text of a name, or `-`.
fn shown(name: &Option<String>) -> &str
    ensures { result.now ≡ shown_or_dash name.now }
{
    match name {
        Some(name) => name.as_str(),
        None => "-",
    }
}

// Returns the words for a refusal.
fn refusal_text(refusal: AnswerRefusal) -> &'static str
    ensures { result.now ≡ refusal_text refusal }
{
    match refusal {
        AnswerRefusal::Unreadable => "no-request",
        AnswerRefusal::Memory => "no-memory",
        AnswerRefusal::Accounts => "no-accounts",
    }
}
