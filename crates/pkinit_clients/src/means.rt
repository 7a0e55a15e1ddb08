//! The means of a client by its certificate.
ghost use Rattle.std.specs.Prelude.{◌≡◌, ◌⊎◌, IfErr, IfOk};
ghost use Rattle.std.specs.Option.{option_copied};
ghost use Rattle.krb_messages.specs.RandomBytes.{AreEnoughForRequest};
ghost use Rattle.krb_client.specs.Refusals.{IsTaken};
ghost use Rattle.krb_tickets.specs.MethodData.{pa_data_of};
ghost use Rattle.pkinit_clients.specs.Faults.{IsTakenAs, as_secret};
ghost use Rattle.pkinit_clients.specs.Means.{IsNoPkinitPadata, IsPkinitPadata, key_in, pk_as_rep_in, pkinit_asked, reply_key};
ghost use Rattle.pkinit_clients.specs.Replies.{secret_of};

use crate::asked::PkinitAsked;
use crate::fault::ReplyFault;
use crate::reply::secret_of;
use crate::request::pk_as_req;
use krb_client::{AsAsked, AskRefusal, Client, Means, TakeRefusal, agreement_part};
use krb_constants::padata_types::{PA_PK_AS_REP, PA_PK_AS_REQ};
use krb_crypto::Key;
use krb_crypto::diffie_hellman::agreed_key;
use krb_messages::data_types::PaData;
use krb_messages::first_of;
use krb_messages::messages::{KdcRep, KdcReqBody};
use krb_tickets::pa_data;
use krb_time::Moment;
use picky_asn1::wrapper::OctetStringAsn1;
use pkinit_validation::Anchor;
use std::alloc::{AllocError, Global};
use x509_keys::KeyFunctions;

/// The means of a client that authenticates by certificate (RFC 4556, section 3.1): the padata is PA-PK-AS-REQ, and the reply is
/// encrypted under the key that both agree on.
#[derive(Clone, Copy)]
pub struct ByCertificate<'a, K: KeyFunctions> {
    /// The client's certificate.
    pub certificate: &'a [u8],
    /// The authority that the client trusts to issue the realm's certificate.
    pub anchor: &'a Anchor,
    /// The client's key functions.
    pub keys: &'a K,
}

impl<'a, K: KeyFunctions> Means for ByCertificate<'a, K> {
    ghost use Rattle.pkinit_clients.specs.Means.{by_certificate};

    ghost means = { λ own. by_certificate own.certificate.now own.anchor.now (K.functions own.keys.now) };

    fn padata(
        &self,
        alloc: Global,
        body: &KdcReqBody,
        moment: Moment,
        words: &[u8],
    ) -> Result<PaData, AskRefusal> {
        pkinit_padata(alloc, self.keys, self.certificate, body, moment, words)
    }

    fn reply_key(
        &self,
        alloc: Global,
        client: &Client,
        asked: &AsAsked,
        reply: &KdcRep,
    ) -> Result<Key, TakeRefusal> {
        reply_key(alloc, self, client, asked, reply)
    }
}

// The padata PA-PK-AS-REQ. The client has none if its key functions have no public value or no signature.
fn pkinit_padata<K: KeyFunctions>(
    alloc: Global,
    keys: &K,
    certificate: &[u8],
    body: &KdcReqBody,
    moment: Moment,
    words: &[u8],
) -> Result<PaData, AskRefusal>
    requires { AreEnoughForRequest words.now }
    ensures shown { IfOk result (IsPkinitPadata (K.functions keys.now) certificate.now body.now moment words.now) }
    ensures refusal { IfErr result (λ refusal. (refusal ≡ AskRefusal.Memory)
        ⊎ ((refusal ≡ AskRefusal.NoKeyFunction) × IsNoPkinitPadata (K.functions keys.now) certificate.now body.now moment words.now)) }
{
    let agreement = agreement_part(words);
    let made = pk_as_req(alloc, keys, certificate, body, moment, agreement)?;
    let Some(value) = made else {
        return Err(AskRefusal::NoKeyFunction);
    };
    let padata = pa_data(alloc, PA_PK_AS_REQ, value)?;
    Ok(padata)
}

// The reply key, which is made of the secret that the reply's PA-PK-AS-REP gives.
fn reply_key<K: KeyFunctions>(
    alloc: Global,
    own: &ByCertificate<'_, K>,
    client: &Client,
    asked: &AsAsked,
    reply: &KdcRep,
) -> Result<Key, TakeRefusal>
    ensures { IsTaken (reply_key (K.functions own.now.keys.now) own.now.anchor.now client.now asked.now reply.now) result }
{
    let Some(padata) = pk_as_rep_in(reply) else {
        return Err(TakeRefusal::NotTrusted);
    };
    match secret_in(alloc, own, client, asked, padata.as_bytes()) {
        Ok(secret) => {
            let key = agreed_key(alloc, client.suite(), secret)?;
            Ok(key)
        }
        Err(ReplyFault::NotTrusted) => Err(TakeRefusal::NotTrusted),
        Err(ReplyFault::Memory) => Err(TakeRefusal::Memory),
    }
}

/// The padata-value of the reply's first PA-PK-AS-REP.
pub(crate) fn pk_as_rep_in(reply: &KdcRep) -> Option<&OctetStringAsn1>
    ensures { option_copied result ≡ pk_as_rep_in reply.now }
{
    match &reply.padata.0 {
        Some(tagged) => first_of(tagged.0.as_slice(), PA_PK_AS_REP),
        None => first_of(&[], PA_PK_AS_REP),
    }
}

// The secret that this padata-value gives.
fn secret_in<K: KeyFunctions>(
    alloc: Global,
    own: &ByCertificate<'_, K>,
    client: &Client,
    asked: &AsAsked,
    padata: &[u8],
) -> Result<Vec<u8>, ReplyFault>
    ensures { IsTakenAs (secret_of (K.functions own.now.keys.now) (pkinit_asked own.now.anchor.now client.now asked.now) padata.now).gives (as_secret result) }
{
    let held = PkinitAsked {
        realm: client.realm(),
        anchor: own.anchor,
        moment: asked.moment(),
        nonce: asked.nonce(),
        words: asked.agreement(),
    };
    secret_of(alloc, own.keys, &held, padata)
}
