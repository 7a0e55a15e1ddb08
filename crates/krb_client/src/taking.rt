//! Taking replies: the rules that their kinds have in common.
ghost use Rattle.std.specs.Prelude.{◌≡◌};
ghost use Rattle.krb_tickets.specs.Answers.{is_answer};
ghost use Rattle.krb_client.specs.Refusals.{IsTaken};
ghost use Rattle.krb_client.specs.Taking.{is_of_type, takes_part};

use crate::client::Client;
use crate::credential::Credential;
use crate::refusal::TakeRefusal;
use krb_constants::types::KERBEROS_VERSION;
use krb_messages::is_number;
use krb_messages::messages::{EncKdcRepPart, KdcRep};
use krb_tickets::{is_answer, key_of};
use picky_asn1::wrapper::{GeneralStringAsn1, IntegerAsn1};

/// Whether a message says that it is of version 5, and of this type.
pub fn is_of_type(number: u8, version: &IntegerAsn1, kind: &IntegerAsn1) -> bool
    ensures { result ≡ is_of_type number version.now kind.now }
{
    is_number(version, KERBEROS_VERSION) && is_number(kind, u32::from(number))
}

impl Client {
    /// What the reply of a KDC and its opened part grant, where they answer what was asked for this service, with the nonce.
    pub(crate) fn take_part(
        &self,
        service: &[GeneralStringAsn1],
        nonce: u32,
        reply: &KdcRep,
        part: &EncKdcRepPart,
    ) -> Result<Credential, TakeRefusal>
        ensures { IsTaken (takes_part self.now service.now nonce reply.now part.now) result }
    {
        if !self.is_answer(service, nonce, reply, part) {
            return Err(TakeRefusal::NotAsked);
        }
        let Some(key) = key_of(&part.key.0) else {
            return Err(TakeRefusal::NotAsked);
        };
        let credential = Credential::of_reply(reply, part, key)?;
        Ok(credential)
    }

    // Whether the reply and its opened part answer the client.
    fn is_answer(
        &self,
        service: &[GeneralStringAsn1],
        nonce: u32,
        reply: &KdcRep,
        part: &EncKdcRepPart,
    ) -> bool
        ensures { result ≡ is_answer self.now.realm self.now.components service.now nonce reply.now part.now }
    {
        is_answer(self.realm(), self.components(), service, nonce, reply, part)
    }
}
