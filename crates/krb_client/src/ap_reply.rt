//! Taking a service's reply.
ghost use Rattle.std.specs.Prelude.{◌≡◌};
ghost use Rattle.krb_client.specs.ApReply.{takes_answer, takes_ap_reply, takes_time, tells};
ghost use Rattle.krb_client.specs.Refusals.{IsTaken};

use crate::asked::ApAsked;
use crate::client::Client;
use crate::read::{open_ap_part, read_ap_reply, read_error_code};
use crate::refusal::TakeRefusal;
use crate::taking::is_of_type;
use krb_constants::types::AP_REP_MSG_TYPE;
use krb_messages::data_types::EncApRepPartInner;
use krb_messages::is_number;
use krb_messages::messages::ApRepInner;
use krb_time::Moment;
use std::alloc::Global;

impl Client {
    /// Takes a service's reply (RFC 4120, section 3.2.5). It shows that the service could open the ticket: it is encrypted
    /// under the session key and has the authenticator's time.
    ///
    /// `Refused` carries an error's code, whatever the error's version and type. The other refusals are in the order in which
    /// they are checked.
    pub fn take_ap_reply(
        &self,
        alloc: Global,
        asked: &ApAsked,
        reply: &[u8],
    ) -> Result<(), TakeRefusal>
        ensures { IsTaken (takes_ap_reply asked.now reply.now) result }
    {
        if let Some(code) = read_error_code(alloc, reply)? {
            return Err(TakeRefusal::Refused(code));
        }
        let Some(reply) = read_ap_reply(alloc, reply)? else {
            return Err(TakeRefusal::Unreadable);
        };
        let taken = take_answer(alloc, asked, &reply);
        drop(reply);
        taken
    }
}

// Takes an AP-REP that was read: judges its type, decrypts its enc-part under the session key, and judges the part.
fn take_answer(alloc: Global, asked: &ApAsked, reply: &ApRepInner) -> Result<(), TakeRefusal>
    ensures { IsTaken (takes_answer asked.now reply.now) result }
{
    if !is_of_type(AP_REP_MSG_TYPE, &reply.pvno.0, &reply.msg_type.0) {
        return Err(TakeRefusal::Unreadable);
    }
    let Some(part) = open_ap_part(alloc, asked, &reply.enc_part.0)? else {
        return Err(TakeRefusal::NotSealed);
    };
    let taken = take_time(asked, &part);
    drop(part);
    taken
}

// Judges the part of an AP-REP: it has to have the authenticator's time.
fn take_time(asked: &ApAsked, part: &EncApRepPartInner) -> Result<(), TakeRefusal>
    ensures { IsTaken (takes_time asked.now part.now) result }
{
    if !tells(asked.time(), part) {
        return Err(TakeRefusal::NotAsked);
    }
    Ok(())
}

/// Whether the part has the second of the moment, and its microseconds (RFC 4120, section 3.2.5).
pub fn tells(moment: Moment, part: &EncApRepPartInner) -> bool
    ensures { result ≡ tells moment part.now }
{
    part.ctime.0.0.seconds() == moment.second().seconds()
        && is_number(&part.cusec.0, moment.microsecond())
}
