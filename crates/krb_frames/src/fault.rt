//! The refusals of a responder, and the faults that stop serving.
ghost use Rattle.std.specs.Prelude.{◌≡◌};
ghost use Rattle.krb_frames.specs.declared.fault.AnswerRefusal.TheVariants as answer_refusal;

use std::alloc::AllocError;
use thiserror::Error;

/// A responder's refusal to reply.
#[derive(Clone, Copy, Debug, PartialEq, Eq, Error)]
pub enum AnswerRefusal {
    /// The message is no request.
    #[error("the message is no request")]
    Unreadable = 1,
    /// Memory ran out.
    #[error("out of memory")]
    Memory = 2,
    /// The accounts can't be read: their file is damaged or gone, say. A responder whose accounts are in memory never refuses so.
    #[error("the accounts can't be read")]
    Accounts = 3,
}

impl AnswerRefusal {
    ghost use Rattle.krb_frames.specs.Numbers.{refusal_number};

    /// The refusal's number.
    pub fn number(self) -> u8
        ensures { result ≡ refusal_number self }
    {
        self as u8
    }
}

impl From<AllocError> for AnswerRefusal {
    ghost from_gives = { λ _ refusal. refusal ≡ answer_refusal.Memory };

    fn from(_failed: AllocError) -> AnswerRefusal {
        AnswerRefusal::Memory
    }
}

/// A fault by which serving stopped before the end of the stream. It prints as its name.
#[derive(Clone, Copy, Debug, PartialEq, Eq, Error)]
pub enum ServeFault {
    /// The stream ended within a frame.
    #[error("Truncated")]
    Truncated = 1,
    /// A frame announces a message of more than 65,536 bytes.
    #[error("FrameTooLong")]
    FrameTooLong = 2,
    /// A message is no request.
    #[error("NoRequest")]
    NoRequest = 3,
    /// The reader of the stream, or of the random bytes, failed.
    #[error("Read")]
    Read = 4,
    /// The writer failed, or took nothing.
    #[error("Write")]
    Write = 5,
    /// Fewer than 128 random bytes were left for a message.
    #[error("NoWords")]
    NoWords = 6,
    /// No moment was left for a message.
    #[error("NoMoment")]
    NoMoment = 7,
    /// A reply has more than 65,536 bytes.
    #[error("ReplyTooLong")]
    ReplyTooLong = 8,
    /// Memory ran out.
    #[error("Memory")]
    Memory = 9,
    /// The responder can't read its accounts ([`AnswerRefusal::Accounts`]). The message got no reply.
    #[error("Accounts")]
    Accounts = 10,
}

impl ServeFault {
    ghost use Rattle.krb_frames.specs.Numbers.{fault_number};

    /// The fault's number.
    pub fn number(self) -> u8
        ensures { result ≡ fault_number self }
    {
        self as u8
    }
}
