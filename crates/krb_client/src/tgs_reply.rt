//! Taking the reply to a TGS request.
ghost use Rattle.krb_client.specs.Refusals.{IsTaken};
ghost use Rattle.krb_client.specs.TgsReply.{takes_further, takes_tgs_reply};

use crate::asked::TgsAsked;
use crate::client::Client;
use crate::credential::Credential;
use crate::read::{open_tgs_part, read_error_code, read_tgs_reply};
use crate::refusal::TakeRefusal;
use crate::taking::is_of_type;
use krb_constants::key_usages;
use krb_constants::types::TGS_REP_MSG_TYPE;
use krb_messages::messages::KdcRep;
use std::alloc::Global;

impl Client {
    /// What the reply to a request for a service ticket grants (RFC 4120, section 3.3.4). The reply is taken if it is encrypted
    /// under the session key and answers that request. It must have the request's nonce, client and service, and a key of a known
    /// suite.
    ///
    /// `Refused` carries an error's code, whatever the error's version and type. The other refusals are in the order in which
    /// they are checked.
    pub fn take_tgs_reply(
        &self,
        alloc: Global,
        asked: &TgsAsked,
        reply: &[u8],
    ) -> Result<Credential, TakeRefusal>
        ensures { IsTaken (takes_tgs_reply self.now asked.now reply.now) result }
    {
        if let Some(code) = read_error_code(alloc, reply)? {
            return Err(TakeRefusal::Refused(code));
        }
        let Some(reply) = read_tgs_reply(alloc, reply)? else {
            return Err(TakeRefusal::Unreadable);
        };
        let taken = self.take_further(alloc, asked, &reply);
        drop(reply);
        taken
    }

    // Takes a TGS-REP that was read: judges its type, decrypts its enc-part under the session key, and judges the part.
    fn take_further(
        &self,
        alloc: Global,
        asked: &TgsAsked,
        reply: &KdcRep,
    ) -> Result<Credential, TakeRefusal>
        ensures { IsTaken (takes_further self.now asked.now reply.now) result }
    {
        if !is_of_type(TGS_REP_MSG_TYPE, &reply.pvno.0, &reply.msg_type.0) {
            return Err(TakeRefusal::Unreadable);
        }
        let usage = key_usages::TGS_REP_ENC_SESSION_KEY;
        let sealed = &reply.enc_part.0;
        let Some(part) = open_tgs_part(alloc, asked.key(), usage, sealed)? else {
            return Err(TakeRefusal::NotSealed);
        };
        let taken = self.take_part(asked.service(), asked.nonce(), reply, &part);
        drop(part);
        taken
    }
}
