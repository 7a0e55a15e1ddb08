//! How a client authenticates itself.
ghost use Rattle.std.specs.Prelude.{IfErr, IfOk};
ghost use Rattle.krb_messages.specs.RandomBytes.{AreEnoughForRequest};
ghost use Rattle.krb_client.specs.Refusals.{IsTaken};

use crate::asked::AsAsked;
use crate::client::Client;
use crate::refusal::{AskRefusal, TakeRefusal};
use krb_crypto::Key;
use krb_messages::data_types::PaData;
use krb_messages::messages::{KdcRep, KdcReqBody};
use krb_time::Moment;
use std::alloc::Global;

/// How a client authenticates itself in an AS exchange (RFC 4120, section 3.1.1; RFC 4556, section 3.1). Contracts see the padata
/// of its requests, and the keys of their replies.
pub trait Means {
    ghost use Rattle.krb_client.specs.Means.{IsUnshown, MeansRecord};

    ghost means: { Self → MeansRecord };

    /// The padata of a request with this body, at the moment. Of the random bytes the first are a confounder, and those from 32
    /// to 95 the agreement's.
    ///
    /// It is refused where key functions answer none (`NoKeyFunction`).
    fn padata(
        &self,
        alloc: Global,
        body: &KdcReqBody,
        moment: Moment,
        words: &[u8],
    ) -> Result<PaData, AskRefusal>
        requires { AreEnoughForRequest words.now }
        ensures shown { IfOk result ((means self.now).asks body.now moment words.now) }
        ensures refusal { IfErr result (IsUnshown (means self.now) body.now moment words.now) };

    /// The key that the reply to what this client asked is encrypted under, or why the client doesn't take the reply.
    fn reply_key(
        &self,
        alloc: Global,
        client: &Client,
        asked: &AsAsked,
        reply: &KdcRep,
    ) -> Result<Key, TakeRefusal>
        ensures { IsTaken ((means self.now).reply_key client.now asked.now reply.now) result };
}
