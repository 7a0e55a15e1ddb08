//! The AP exchange of a login.
ghost use Rattle.std.specs.Prelude.{◌≡◌, List, IfOk};
ghost use Rattle.krb_messages.specs.RandomBytes.{AreEnoughForApReply, AreEnoughForRequest};
ghost use Rattle.krb_logins.specs.Input.{login_of};
ghost use Rattle.krb_logins.specs.Honest.{AreEnough};
ghost use Rattle.krb_logins.specs.LoginRun.{ApExchange};
ghost use Rattle.krb_logins.specs.Steps.{reply_bytes};
ghost use Rattle.krb_service.specs.Pair.{PairRecord};
ghost use Rattle.krb_service.specs.Seen.{IsWindow};
ghost use Rattle.krb_tickets.specs.Sealing.{encryption_key};
ghost use Rattle.krb_logins.specs.ApExchanges.{Admit, ApAsk, Keyed, Remembers, Show, remembered};

use crate::{LoginInput, LoginRefusal};
use krb_client::{ApAsked, Client, Credential, ServiceRequest, TakeRefusal};
use krb_messages::data_types::EncryptionKey;
use krb_service::{Admission, Service};
use krb_tickets::encryption_key;
use picky_asn1::wrapper::OctetStringAsn1;
use std::alloc::{AllocError, Global};

/// Runs the AP exchange (RFC 4120, section 3.2): the client shows its ticket, the service admits it once, and the client takes the AP reply.
///
/// The result is the client's session key and the service's admission. The refusal is that of the first step that refuses.
pub fn ap_exchange(
    alloc: Global,
    client: &Client,
    service: &mut Service,
    credential: &Credential,
    input: &LoginInput<'_>,
) -> Result<(EncryptionKey, Admission), LoginRefusal>
    requires { AreEnough (login_of input.now) }
    ensures run { (admitted : List PairRecord) → IsWindow service.old.seen admitted
        → Remembers service.new.seen (ApExchange client.now service.old (login_of input.now) credential.now (remembered service.old admitted) result) }
    ensures rest { service.new ≡ record service.old { seen = service.new.seen } }
    ensures skew { service.new.seen.skew ≡ service.old.seen.skew }
{
    let (request, asked) = ask_ap(alloc, client, credential, input)?;
    let admission = admit(alloc, service, &request, input)?;
    keyed(alloc, client, &asked, admission)
}

// The client makes its AP request, with mutual-required and without a subkey.
#[tactic(auto, unfolding(crate::specs::ApExchanges::ApAsk, crate::specs::Steps::IsApAsked))]
fn ask_ap(
    alloc: Global,
    client: &Client,
    credential: &Credential,
    input: &LoginInput<'_>,
) -> Result<(Vec<u8>, ApAsked), LoginRefusal>
    requires { AreEnoughForRequest input.now.words_ap.now }
    ensures { ApAsk client.now (login_of input.now) credential.now result }
{
    let request = ServiceRequest {
        mutual_required: true,
        with_subkey: false,
        moment: input.moments.client_ap,
        words: input.words_ap,
    };
    client
        .ap_request(alloc, credential, &request)
        .map_err(LoginRefusal::Asked)
}

// The service admits the client by its AP request.
fn admit(
    alloc: Global,
    service: &mut Service,
    message: &[u8],
    input: &LoginInput<'_>,
) -> Result<Admission, LoginRefusal>
    requires { AreEnoughForApReply input.now.service_words.now }
    ensures admits { (admitted : List PairRecord) → IsWindow service.old.seen admitted
        → Admit service.old (login_of input.now) message.now (remembered service.old admitted) result service.new.seen }
    ensures rest { service.new ≡ record service.old { seen = service.new.seen } }
    ensures skew { service.new.seen.skew ≡ service.old.seen.skew }
{
    let moment = input.moments.service_ap;
    service
        .admit(alloc, message, moment, input.service_words)
        .map_err(LoginRefusal::Admitted)
}

// Joins the client's session key with the service's admission, which it takes by value, since the key may fail.
fn keyed(
    alloc: Global,
    client: &Client,
    asked: &ApAsked,
    admission: Admission,
) -> Result<(EncryptionKey, Admission), LoginRefusal>
    ensures { Keyed asked.now admission result }
{
    let key = show(alloc, client, asked, &admission)?;
    Ok((key, admission))
}

// The client takes the AP reply, and makes its session key.
fn show(
    alloc: Global,
    client: &Client,
    asked: &ApAsked,
    admission: &Admission,
) -> Result<EncryptionKey, LoginRefusal>
    ensures { Show asked.now admission.now result }
{
    if let Err(refusal) = client.take_ap_reply(alloc, asked, reply_of(admission)) {
        return Err(LoginRefusal::Taken(refusal));
    }
    let Ok(key) = session_key(alloc, asked) else {
        return Err(LoginRefusal::Taken(TakeRefusal::Memory));
    };
    Ok(key)
}

// Gives the bytes of the AP reply. Where there is no reply they are empty.
fn reply_of(admission: &Admission) -> &[u8]
    ensures { result.now ≡ reply_bytes admission.now.reply }
{
    match &admission.reply {
        Some(reply) => reply,
        None => &[],
    }
}

// Makes the session key as an EncryptionKey, with the number of its suite.
fn session_key(alloc: Global, asked: &ApAsked) -> Result<EncryptionKey, AllocError>
    ensures { IfOk result (λ key. key ≡ encryption_key asked.now.suite asked.now.key) }
{
    let key = OctetStringAsn1::new(alloc, asked.key().as_bytes())?;
    encryption_key(alloc, asked.suite(), &key)
}
