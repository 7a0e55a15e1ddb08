//! A responder: it replies to messages.
ghost use Rattle.std.specs.Prelude.{◌≡◌, ℕ, List, Option, None, Some, IfErr, MatchResult, length};
ghost use Rattle.krb_frames.specs.Frames.{words_needed};

use crate::AnswerRefusal;
use krb_time::Moment;
use std::alloc::Global;

/// A responder replies to messages, each at a moment and with 128 random bytes.
pub trait Responder {
    ghost use Rattle.krb_frames.specs.declared.fault.AnswerRefusal.{AnswerRefusal};

    // Whether a message may have this reply at a moment with these random bytes. It is none where the bytes are no request.
    ghost replies: { Self → List ℕ → ℕ → List ℕ → Option (List ℕ) → Type 0 };

    // Whether answering a message may need memory. Any other is answered however little memory there is.
    ghost may_want_memory: { Self → List ℕ → Type 0 };

    // Whether accounts that answering a message needs may be unreadable. Of accounts in memory they never are.
    ghost may_lack_accounts: { Self → List ℕ → Type 0 };

    /// Replies to `message`. The refusal `Unreadable` alone says that it is no request. The refusal `Accounts` says that accounts
    /// which that needs can't be read.
    fn answer(
        &self,
        alloc: Global,
        message: &[u8],
        moment: Moment,
        words: &[u8],
    ) -> Result<Vec<u8>, AnswerRefusal>
        requires { length words.now ≡ words_needed }
        ensures reply { MatchResult result (λ reply. replies self.now message.now moment words.now (Some reply.items))
            (λ refusal. refusal ≡ AnswerRefusal.Unreadable → replies self.now message.now moment words.now None) }
        ensures memory { IfErr result (λ refusal. refusal ≡ AnswerRefusal.Memory → may_want_memory self.now message.now) }
        ensures accounts { IfErr result (λ refusal. refusal ≡ AnswerRefusal.Accounts → may_lack_accounts self.now message.now) };
}

/// A responder that has at most one reply to a message at a moment and with the same random bytes. Its law is `one_reply`, which says
/// this of `replies`.
///
/// A responder over accounts in a file, whose bytes no contract knows, is a [`Responder`] without this law.
pub trait SoleResponder: Responder {
    // A message has at most one reply.
    ghost one_reply: { (responder : Self) (message : List ℕ) (moment : ℕ) (words : List ℕ) (a b : Option (List ℕ))
        → Self.replies responder message moment words a → Self.replies responder message moment words b → a ≡ b };
}
