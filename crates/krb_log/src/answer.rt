//! What a message was answered.
use krb_frames::AnswerRefusal;
use krb_kdc_exchanges::GrantedTicket;

/// What a message was answered.
#[derive(Clone, Copy, Debug, Drop)]
pub enum Answer {
    /// A ticket was granted.
    Ticket(GrantedTicket),
    /// It was a KRB-ERROR with this code.
    Error(u32),
    /// There was no reply, for this reason.
    Refused(AnswerRefusal),
}

impl Answer {
    ghost use Rattle.std.specs.Prelude.{◌≡◌};
    ghost use Rattle.krb_log.specs.Answers.{answer_of};

    /// Returns what a reply of this outcome answers.
    pub(crate) fn of_outcome(outcome: Result<GrantedTicket, u32>) -> Answer
        ensures { result ≡ answer_of outcome }
    {
        match outcome {
            Ok(ticket) => Answer::Ticket(ticket),
            Err(code) => Answer::Error(code),
        }
    }
}
