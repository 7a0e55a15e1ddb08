//! Whether a login by certificate is honest: the premise of its law, judged by what the parties hold.
ghost use Rattle.std.specs.Prelude.{◌≡◌, ◌≢◌, ◌↔◌, false, IfOk, IsTrue};
ghost use Rattle.krb_messages.specs.RandomBytes.{AreEnoughForReply, AreEnoughForRequest};
ghost use Rattle.krb_logins.specs.Input.{held_by, login_of, realm_of};
ghost use Rattle.krb_realm.specs.Exchange.{IsExchangeMet, IsHonestExchange};
ghost use Rattle.krb_realm.specs.HonestByCertificate.{IsHonestByCertificate, pkinit_asked_of_login, pkinit_call_of_login};
ghost use Rattle.pkinit_validation.specs.Trust.{trust_of};

use crate::exchange::Exchange;
use krb_client::{AskRefusal, Client, TicketRequest, nonce_of};
use krb_kdc_exchanges::Call;
use krb_logins::{LoginInput, granting_service, is_honest};
use krb_service::Service;
use pkinit_clients::ByCertificate;
use pkinit_validation::RealmPkinit;
use std::alloc::{AllocError, Global};
use x509_keys::KeyFunctions;

/// Whether a login by certificate is honest: of this client with its certificate, at the realm that is called so, and at this service.
/// The moments and the random bytes are the input's. What the service holds counts as what it admitted. Fails only if memory runs out.
pub fn is_certified_login_honest<C: KeyFunctions, R: KeyFunctions>(
    alloc: Global,
    client: &Client,
    own: &ByCertificate<'_, C>,
    realm: &Call<'_>,
    pkinit: &RealmPkinit<'_, R>,
    service: &Service,
    input: &LoginInput<'_>,
) -> Result<bool, AllocError>
    requires asked { AreEnoughForRequest input.now.words_as.now }
    requires replied { AreEnoughForReply input.now.realm_words_as.now }
    ensures { IfOk result (λ is. IsTrue is ↔ IsHonestByCertificate client.now own.now.certificate.now own.now.anchor.now (C.functions own.now.keys.now) (realm_of realm.now)
        (trust_of pkinit.now.anchor pkinit.now.certificate) (R.functions pkinit.now.keys.now) service.now (held_by service.now) (login_of input.now)) }
{
    let honest = is_honest(alloc, client, realm, service, input)?;
    if !honest {
        return Ok(false);
    }
    has_honest_exchange(alloc, client, own, realm, pkinit, input)
}

// Whether the AS exchange is honest: by means that have padata only then, the client has a request.
fn has_honest_exchange<C: KeyFunctions, R: KeyFunctions>(
    alloc: Global,
    client: &Client,
    own: &ByCertificate<'_, C>,
    realm: &Call<'_>,
    pkinit: &RealmPkinit<'_, R>,
    input: &LoginInput<'_>,
) -> Result<bool, AllocError>
    requires { AreEnoughForRequest input.now.words_as.now }
    ensures honest { IfOk result (λ is. IsTrue is → IsHonestExchange (C.functions own.now.keys.now) own.now.certificate.now
        (trust_of pkinit.now.anchor pkinit.now.certificate) (R.functions pkinit.now.keys.now)
        (pkinit_call_of_login client.now (realm_of realm.now) (login_of input.now)) (pkinit_asked_of_login own.now.anchor.now client.now (login_of input.now))) }
    ensures met { IfOk result (λ is. IsExchangeMet (C.functions own.now.keys.now) own.now.certificate.now
        (trust_of pkinit.now.anchor pkinit.now.certificate) (R.functions pkinit.now.keys.now)
        (pkinit_call_of_login client.now (realm_of realm.now) (login_of input.now)) (pkinit_asked_of_login own.now.anchor.now client.now (login_of input.now)) → IsTrue is) }
{
    client.is_well_formed();
    let granting = granting_service(alloc, client.realm())?;
    let request = TicketRequest {
        service: &granting,
        till: input.till,
        moment: input.moments.client_as,
        words: input.words_as,
    };
    let called = Call {
        moment: input.moments.realm_as,
        words: input.realm_words_as,
        ..*realm
    };
    let exchange = Exchange {
        client,
        own,
        realm: &called,
        pkinit,
        nonce: nonce_of(input.words_as),
    };
    match client.as_request(alloc, &exchange, &request) {
        Ok(_) => Ok(true),
        Err(refusal) => false_unless_memory(refusal),
    }
}

// False where a client refused to ask, unless memory ran out.
fn false_unless_memory(refusal: AskRefusal) -> Result<bool, AllocError>
    ensures { IfOk result (λ is. (refusal ≢ AskRefusal.Memory) × (is ≡ false)) }
{
    match refusal {
        AskRefusal::Memory => Err(AllocError),
        AskRefusal::BadName | AskRefusal::BadCertificate | AskRefusal::NoKeyFunction => Ok(false),
    }
}
