//! A responder by which serving goes on after a message that is no request.
ghost use Rattle.krb_frames.specs.Tolerance.{Tolerates, one_tolerated};

use crate::{AnswerRefusal, Responder, SoleResponder};
use krb_time::Moment;
use std::alloc::Global;

/// A responder with the replies of another one, and with the empty reply to a message that is no request.
///
/// With it, [`serve`](crate::serve) writes a frame of length 0 for such a message, and goes on with the next frame. It never stops with
/// `NoRequest` (law [`goes_on`](crate::goes_on)). It is for a program behind a listener, where a hostile message may not end the
/// process. The other faults stop it as before.
///
/// Whoever reads an empty reply knows that the message is no request, if no reply of the responder within is empty. A KDC's reply never
/// is (RFC 4120, sections 5.4.2 and 5.9.1).
#[derive(Clone, Copy)]
pub struct Tolerant<'a, A: Responder> {
    /// The responder within.
    pub responder: &'a A,
}

impl<'a, A: Responder> Responder for Tolerant<'a, A> {
    ghost replies = { λ own. Tolerates (A.replies own.responder.now) };

    ghost may_want_memory = { λ own. A.may_want_memory own.responder.now };

    ghost may_lack_accounts = { λ own. A.may_lack_accounts own.responder.now };

    fn answer(
        &self,
        alloc: Global,
        message: &[u8],
        moment: Moment,
        words: &[u8],
    ) -> Result<Vec<u8>, AnswerRefusal> {
        match self.responder.answer(alloc, message, moment, words) {
            Ok(reply) => Ok(reply),
            Err(AnswerRefusal::Unreadable) => Ok(Vec::new(alloc)),
            Err(AnswerRefusal::Memory) => Err(AnswerRefusal::Memory),
            Err(AnswerRefusal::Accounts) => Err(AnswerRefusal::Accounts),
        }
    }
}

impl<'a, A: SoleResponder> SoleResponder for Tolerant<'a, A> {
    ghost one_reply = { λ own message moment words.
        one_tolerated (A.replies own.responder.now) message moment words (A.one_reply own.responder.now message moment words) };
}
