//! Taking the reply to an AS request.
ghost use Rattle.krb_client.specs.AsReply.{takes_as_reply, takes_reply, takes_sealed};
ghost use Rattle.krb_client.specs.Refusals.{IsTaken};

use crate::asked::AsAsked;
use crate::client::Client;
use crate::credential::Credential;
use crate::means::Means;
use crate::read::{open_as_part, open_tgs_part, read_as_reply, read_error_code};
use crate::refusal::TakeRefusal;
use crate::taking::is_of_type;
use krb_constants::key_usages;
use krb_constants::types::AS_REP_MSG_TYPE;
use krb_crypto::Key;
use krb_messages::messages::KdcRep;
use std::alloc::Global;

impl Client {
    /// What the reply to a request grants (RFC 4120, section 3.1.5). The reply is taken if it is encrypted under the key that
    /// the client's means have for it, and answers that request. It must have the request's nonce, client and service, and a
    /// key of a known suite.
    ///
    /// `Refused` carries an error's code, whatever the error's version and type. The other refusals are in the order in which
    /// they are checked.
    pub fn take_as_reply<M: Means>(
        &self,
        alloc: Global,
        means: &M,
        asked: &AsAsked,
        reply: &[u8],
    ) -> Result<Credential, TakeRefusal>
        ensures { IsTaken (takes_as_reply self.now (M.means means.now) asked.now reply.now) result }
    {
        if let Some(code) = read_error_code(alloc, reply)? {
            return Err(TakeRefusal::Refused(code));
        }
        let Some(reply) = read_as_reply(alloc, reply)? else {
            return Err(TakeRefusal::Unreadable);
        };
        let taken = self.take_reply(alloc, means, asked, &reply);
        drop(reply);
        taken
    }

    // Takes an AS-REP that was read: judges its type, and takes the rest under the key that the means have for it.
    fn take_reply<M: Means>(
        &self,
        alloc: Global,
        means: &M,
        asked: &AsAsked,
        reply: &KdcRep,
    ) -> Result<Credential, TakeRefusal>
        ensures { IsTaken (takes_reply self.now (M.means means.now) asked.now reply.now) result }
    {
        if !is_of_type(AS_REP_MSG_TYPE, &reply.pvno.0, &reply.msg_type.0) {
            return Err(TakeRefusal::Unreadable);
        }
        match means.reply_key(alloc, self, asked, reply) {
            Ok(key) => self.take_sealed(alloc, &key, asked, reply),
            Err(refusal) => Err(refusal),
        }
    }

    // Takes an AS-REP under its reply key: decrypts its enc-part, and judges the part.
    fn take_sealed(
        &self,
        alloc: Global,
        key: &Key,
        asked: &AsAsked,
        reply: &KdcRep,
    ) -> Result<Credential, TakeRefusal>
        ensures { IsTaken (takes_sealed self.now key.now asked.now reply.now) result }
    {
        let sealed = &reply.enc_part.0;
        if let Some(part) = open_as_part(alloc, key, sealed)? {
            let taken = self.take_part(asked.service(), asked.nonce(), reply, &part);
            drop(part);
            return taken;
        }
        let usage = key_usages::AS_REP_ENC;
        let Some(part) = open_tgs_part(alloc, key, usage, sealed)? else {
            return Err(TakeRefusal::NotSealed);
        };
        let taken = self.take_part(asked.service(), asked.nonce(), reply, &part);
        drop(part);
        taken
    }
}
