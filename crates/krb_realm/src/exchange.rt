//! AS exchanges by certificate, judged by what client and realm make of each other's messages.
ghost use Rattle.std.specs.Prelude.{◌≡◌, ◌↔◌, ◌⊎◌, IfErr, IfOk, IsTrue, Ok, length};
ghost use Rattle.krb_time.specs.Skew.{IsWithinDay};
ghost use Rattle.krb_messages.specs.RandomBytes.{AreEnoughForRequest};
ghost use Rattle.krb_kdc_exchanges.specs.Call.{call_of, pkinit_call};
ghost use Rattle.krb_kdc_exchanges.specs.PkinitCalls as calls;
ghost use Rattle.krb_client.specs.Asked.{agreement_part};
ghost use Rattle.pkinit_clients.specs.Asked.{asked_of};
ghost use Rattle.pkinit_clients.specs.Means.{IsPkinitPadata};
ghost use Rattle.pkinit_clients.specs.Replies.{secret_of};
ghost use Rattle.pkinit_clients.specs.Requests.{IsPkAsReqOf};
ghost use Rattle.krb_realm.specs.Exchange.{HasPublicKey, HaveOneSecret, IsAgreedBy, IsExchangeMet, IsHonestExchange};
ghost use Rattle.krb_realm.specs.ExchangeMeans.{asked_at};
ghost use Rattle.pkinit_validation.specs.PublicKeys.{IsPublicKey};
ghost use Rattle.pkinit_validation.specs.declared.public_key.AgreementPublicKey.{AgreementPublicKey};
ghost use Rattle.pkinit_validation.specs.Trust.{trust_of};

use krb_client::{AsAsked, AskRefusal, Client, Means, TakeRefusal, agreement_part};
use krb_crypto::Key;
use krb_kdc_exchanges::{Agreed, Call, Pkinit, PkinitCall};
use krb_messages::Refusal;
use krb_messages::data_types::PaData;
use krb_messages::messages::{KdcRep, KdcReqBody};
use krb_time::Moment;
use picky_asn1_der::Asn1RawDer;
use pkinit_clients::{ByCertificate, PkinitAsked, ReplyFault, secret_of};
use pkinit_validation::{RealmPkinit, public_key_of};
use std::alloc::{AllocError, Global};
use x509_keys::KeyFunctions;

/// A client's means by its certificate, which have padata only where the exchange with the realm is honest: the realm grants it, and
/// the client takes the same secret from the reply.
#[derive(Clone, Copy)]
pub(crate) struct Exchange<'a, C: KeyFunctions, R: KeyFunctions> {
    pub client: &'a Client,
    pub own: &'a ByCertificate<'a, C>,
    pub realm: &'a Call<'a>,
    pub pkinit: &'a RealmPkinit<'a, R>,
    /// The nonce of the request.
    pub nonce: u32,
}

impl<'a, C: KeyFunctions, R: KeyFunctions> Means for Exchange<'a, C, R> {
    ghost use Rattle.krb_kdc_exchanges.specs.Call.{call_of};
    ghost use Rattle.pkinit_validation.specs.Trust.{trust_of};
    ghost use Rattle.krb_realm.specs.ExchangeMeans.{exchange_means};

    ghost means = { λ x. exchange_means x.client.now x.own.now.certificate.now x.own.now.anchor.now (C.functions x.own.now.keys.now)
        (call_of x.realm.now) (trust_of x.pkinit.now.anchor x.pkinit.now.certificate) (R.functions x.pkinit.now.keys.now) x.nonce };

    fn padata(
        &self,
        alloc: Global,
        body: &KdcReqBody,
        moment: Moment,
        words: &[u8],
    ) -> Result<PaData, AskRefusal> {
        match self.own.padata(alloc, body, moment, words) {
            Ok(padata) => padata_if_honest(alloc, self, body, moment, words, padata),
            Err(refusal) => Err(refusal),
        }
    }

    fn reply_key(
        &self,
        alloc: Global,
        client: &Client,
        asked: &AsAsked,
        reply: &KdcRep,
    ) -> Result<Key, TakeRefusal> {
        self.own.reply_key(alloc, client, asked, reply)
    }
}

// The padata, if the exchange is honest.
fn padata_if_honest<C: KeyFunctions, R: KeyFunctions>(
    alloc: Global,
    exchange: &Exchange<'_, C, R>,
    body: &KdcReqBody,
    moment: Moment,
    words: &[u8],
    padata: PaData,
) -> Result<PaData, AskRefusal>
    requires { AreEnoughForRequest words.now }
    ensures same { IfOk result (λ made. made ≡ padata) }
    ensures shown { IfOk result (λ made.
        IsPkinitPadata (C.functions exchange.now.own.now.keys.now) exchange.now.own.now.certificate.now body.now moment words.now padata
        → IsHonestExchange (C.functions exchange.now.own.now.keys.now) exchange.now.own.now.certificate.now
        (trust_of exchange.now.pkinit.now.anchor exchange.now.pkinit.now.certificate) (R.functions exchange.now.pkinit.now.keys.now)
        (pkinit_call (call_of exchange.now.realm.now) exchange.now.client.now.components body.now)
        (asked_at exchange.now.client.now exchange.now.own.now.anchor.now exchange.now.nonce moment words.now)) }
    ensures refusal { IfErr result (λ refusal. (refusal ≡ AskRefusal.Memory) ⊎ ((refusal ≡ AskRefusal.NoKeyFunction)
        × (IsPkinitPadata (C.functions exchange.now.own.now.keys.now) exchange.now.own.now.certificate.now body.now moment words.now padata
        → IsExchangeMet (C.functions exchange.now.own.now.keys.now) exchange.now.own.now.certificate.now
        (trust_of exchange.now.pkinit.now.anchor exchange.now.pkinit.now.certificate) (R.functions exchange.now.pkinit.now.keys.now)
        (pkinit_call (call_of exchange.now.realm.now) exchange.now.client.now.components body.now)
        (asked_at exchange.now.client.now exchange.now.own.now.anchor.now exchange.now.nonce moment words.now) → ⊥))) }
{
    let Ok(honest) = is_honest_by(
        alloc,
        exchange,
        body,
        moment,
        words,
        padata.padata_data.0.as_bytes(),
    ) else {
        drop(padata);
        return Err(AskRefusal::Memory);
    };
    if !honest {
        drop(padata);
        return Err(AskRefusal::NoKeyFunction);
    }
    Ok(padata)
}

// Whether the exchange is honest, of which these are the data of PA-PK-AS-REQ.
fn is_honest_by<C: KeyFunctions, R: KeyFunctions>(
    alloc: Global,
    exchange: &Exchange<'_, C, R>,
    body: &KdcReqBody,
    moment: Moment,
    words: &[u8],
    padata: &[u8],
) -> Result<bool, AllocError>
    requires { AreEnoughForRequest words.now }
    ensures honest { IfOk result (λ is. IsTrue is
        → IsPkAsReqOf (C.functions exchange.now.own.now.keys.now) exchange.now.own.now.certificate.now body.now moment (agreement_part words.now) padata.now
        → IsHonestExchange (C.functions exchange.now.own.now.keys.now) exchange.now.own.now.certificate.now
        (trust_of exchange.now.pkinit.now.anchor exchange.now.pkinit.now.certificate) (R.functions exchange.now.pkinit.now.keys.now)
        (pkinit_call (call_of exchange.now.realm.now) exchange.now.client.now.components body.now)
        (asked_at exchange.now.client.now exchange.now.own.now.anchor.now exchange.now.nonce moment words.now)) }
    ensures met { IfOk result (λ is.
        IsPkAsReqOf (C.functions exchange.now.own.now.keys.now) exchange.now.own.now.certificate.now body.now moment (agreement_part words.now) padata.now
        → IsExchangeMet (C.functions exchange.now.own.now.keys.now) exchange.now.own.now.certificate.now
        (trust_of exchange.now.pkinit.now.anchor exchange.now.pkinit.now.certificate) (R.functions exchange.now.pkinit.now.keys.now)
        (pkinit_call (call_of exchange.now.realm.now) exchange.now.client.now.components body.now)
        (asked_at exchange.now.client.now exchange.now.own.now.anchor.now exchange.now.nonce moment words.now) → IsTrue is) }
{
    let agreement = agreement_part(words);
    let asked = PkinitAsked {
        realm: exchange.client.realm(),
        anchor: exchange.own.anchor,
        moment,
        nonce: exchange.nonce,
        words: agreement,
    };
    let call = PkinitCall {
        realm: exchange.realm.realm,
        skew: exchange.realm.skew(),
        client: exchange.client.components(),
        body,
        moment: exchange.realm.moment,
        words: exchange.realm.words,
    };
    is_agreed_by(
        alloc,
        exchange.own.keys,
        exchange.pkinit,
        &call,
        &asked,
        padata,
    )
}

// Whether both come to one secret, by these padata and by the client's public key.
fn is_agreed_by<C: KeyFunctions, R: KeyFunctions>(
    alloc: Global,
    keys: &C,
    pkinit: &RealmPkinit<'_, R>,
    call: &PkinitCall<'_>,
    asked: &PkinitAsked<'_>,
    padata: &[u8],
) -> Result<bool, AllocError>
    requires near { IsWithinDay call.now.skew }
    requires sized { length asked.now.words.now ≡ 64 }
    ensures { IfOk result (λ is. IsTrue is ↔ IsAgreedBy (C.functions keys.now) (trust_of pkinit.now.anchor pkinit.now.certificate) (R.functions pkinit.now.keys.now)
        (calls.call_of call.now) (asked_of asked.now) padata.now) }
{
    let has_key = has_public_key(alloc, keys, asked.words)?;
    if !has_key {
        return Ok(false);
    }
    has_one_secret(alloc, keys, pkinit, call, asked, padata)
}

// Whether the realm grants a request with these padata, and the client takes the same secret from the reply.
fn has_one_secret<C: KeyFunctions, R: KeyFunctions>(
    alloc: Global,
    keys: &C,
    pkinit: &RealmPkinit<'_, R>,
    call: &PkinitCall<'_>,
    asked: &PkinitAsked<'_>,
    padata: &[u8],
) -> Result<bool, AllocError>
    requires near { IsWithinDay call.now.skew }
    requires sized { length asked.now.words.now ≡ 64 }
    ensures { IfOk result (λ is. IsTrue is ↔ HaveOneSecret (C.functions keys.now) (trust_of pkinit.now.anchor pkinit.now.certificate) (R.functions pkinit.now.keys.now)
        (calls.call_of call.now) (asked_of asked.now) padata.now) }
{
    if call.words.len() < 128 {
        return Ok(false);
    }
    match pkinit.judge(alloc, call, padata) {
        Ok(agreed) => {
            let taken = takes_secret(alloc, keys, asked, &agreed);
            drop(agreed);
            taken
        }
        Err(Refusal::Krb(_)) => Ok(false),
        Err(Refusal::Memory) => Err(AllocError),
    }
}

// Whether the client takes the realm's secret from the reply.
fn takes_secret<K: KeyFunctions>(
    alloc: Global,
    keys: &K,
    asked: &PkinitAsked<'_>,
    agreed: &Agreed,
) -> Result<bool, AllocError>
    requires { length asked.now.words.now ≡ 64 }
    ensures { IfOk result (λ is. IsTrue is ↔ (secret_of (K.functions keys.now) (asked_of asked.now) agreed.now.reply.items).gives (Ok agreed.now.secret.items)) }
{
    match secret_of(alloc, keys, asked, agreed.reply.as_slice()) {
        Ok(secret) => Ok(is_same(secret.as_slice(), agreed.secret.as_slice())),
        Err(ReplyFault::NotTrusted) => Ok(false),
        Err(ReplyFault::Memory) => Err(AllocError),
    }
}

// Whether two secrets are the same.
fn is_same(secret: &[u8], other: &[u8]) -> bool
    ensures { IsTrue result ↔ (secret.now ≡ other.now) }
{
    secret == other
}

// Whether the party has a public key of its agreement by these random bytes.
fn has_public_key<K: KeyFunctions>(
    alloc: Global,
    keys: &K,
    words: &[u8],
) -> Result<bool, AllocError>
    requires { length words.now ≡ 64 }
    ensures { IfOk result (λ is. IsTrue is ↔ HasPublicKey (K.functions keys.now) words.now) }
{
    let made = keys.public_value(alloc, words)?;
    match made {
        Some(element) => is_public_key(alloc, &element),
        None => Ok(false),
    }
}

// Whether the element is a public key's encoding.
fn is_public_key(alloc: Global, element: &Asn1RawDer) -> Result<bool, AllocError>
    ensures { IfOk result (λ is. IsTrue is ↔ ((key : AgreementPublicKey) × IsPublicKey element.now key)) }
{
    let found = public_key_of(alloc, element)?;
    match found {
        Some(_) => Ok(true),
        None => Ok(false),
    }
}
