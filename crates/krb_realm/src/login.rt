//! Whole logins.
ghost use Rattle.std.specs.Prelude.{◌≡◌, List, Result};
ghost use Rattle.krb_messages.specs.RandomBytes.{AreEnoughForReply, AreEnoughForRequest};
ghost use Rattle.picky_asn1.specs.Bytes.{Bytes};
ghost use Rattle.krb_logins.specs.Input.{login_of};
ghost use Rattle.krb_logins.specs.Honest.{AreEnough, IsHonestByPassword, IsOneKey};
ghost use Rattle.krb_logins.specs.LoginRun.{AsExchange, Exchanges, Login, LoginRun, TgsExchange};
ghost use Rattle.krb_logins.specs.Parties.{RememberedRecord, call_at};
ghost use Rattle.krb_service.specs.Pair.{PairRecord};
ghost use Rattle.krb_service.specs.Seen.{IsWindow};
ghost use Rattle.krb_logins.specs.ApExchanges.{Remembers, remembered};
ghost use Rattle.krb_realm.specs.Logins.{Answer, AsAsk, AsTake, TgsAsk, TgsTake, realm_record, realm_rows};
ghost use Rattle.krb_realm.specs.Clients.{ByCertificate, ByKey, means_of};
ghost use Rattle.x509_keys.specs.KeyFunctions.{no_functions};
ghost use Rattle.krb_crypto.specs.Keys.{KeyRecord};
ghost use Rattle.krb_realm.specs.HonestByCertificate.{IsHonestByCertificate};
ghost use Rattle.pkinit_validation.specs.Anchors.{AnchorRecord};

use crate::certified_laws::one_key_by_certificate;
use crate::client::Client;
use krb_client::{AsAsked, AskRefusal, Credential, Means, TgsAsked, TicketRequest};
use krb_logins::laws::one_key_by_password;
use krb_logins::{LoginInput, LoginRefusal, ap_exchange, granting_service};
use krb_memory_realms::Realm;
use krb_messages::data_types::EncryptionKey;
use krb_service::{Admission, Service};
use krb_time::Moment;
use std::alloc::Global;
use x509_keys::{KeyFunctions, NoKeys};

/// Logs a client in at a service by its password (RFC 4120, sections 3.1, 3.3, 3.2). The realm has no key functions.
///
/// The client asks the realm for a TGT, and with the TGT for a service ticket. The service admits the client by its AP request. Each
/// step takes the bytes of the one before it, and the first refusal ends the login. The result is the client's session key and the
/// service's admission. If the login is honest, both have the same key, and the admission names the client.
pub fn login_by_password(
    alloc: Global,
    client: &Client,
    realm: &Realm,
    service: &mut Service,
    input: &LoginInput<'_>,
) -> Result<(EncryptionKey, Admission), LoginRefusal>
    requires { AreEnough (login_of input.now) }
    ensures run { (admitted : List PairRecord) → IsWindow service.old.seen admitted
        → Remembers service.new.seen (LoginRun client.now.client (means_of client.now no_functions) (realm_record realm.now) (realm_rows realm.now no_functions)
        service.old (login_of input.now) (remembered service.old admitted) result) }
    ensures rest { service.new ≡ record service.old { seen = service.new.seen } }
    ensures skew { service.new.seen.skew ≡ service.old.seen.skew }

    // An honest login by a key that client and realm share ends with one key on both sides.
    ensures honest { (key : KeyRecord) (admitted : List PairRecord) → client.now.by ≡ ByKey key → IsWindow service.old.seen admitted
        → IsHonestByPassword client.now.client key.bytes (realm_record realm.now) service.old (remembered service.old admitted) (login_of input.now)
        → IsOneKey client.now.client result }
{
    keyed_ends_with_one_key(client, realm, service, input);
    let means = client.means(&NoKeys);
    login(
        alloc,
        client.asking(),
        &means,
        realm,
        service,
        input,
        &NoKeys,
    )
}

/// Logs a client in at a service by its certificate (RFC 4556, section 3; RFC 4120, sections 3.1, 3.3, 3.2). Client and realm have key
/// functions of their own: they sign for each other, and agree on the reply key of the AS reply. Else it is as
/// [`login_by_password`].
///
/// If the login is honest by certificate, client and service have the same session key, and the admission names the client. It is
/// honest if each party accepts the other's certificate, verifies what its holder signs in this login, and both agree on one secret.
pub fn login_by_certificate<C: KeyFunctions, R: KeyFunctions>(
    alloc: Global,
    client: &Client,
    realm: &Realm,
    service: &mut Service,
    input: &LoginInput<'_>,
    client_keys: &C,
    realm_keys: &R,
) -> Result<(EncryptionKey, Admission), LoginRefusal>
    requires { AreEnough (login_of input.now) }
    ensures run { (admitted : List PairRecord) → IsWindow service.old.seen admitted
        → Remembers service.new.seen (LoginRun client.now.client (means_of client.now (C.functions client_keys.now)) (realm_record realm.now) (realm_rows realm.now (R.functions realm_keys.now))
        service.old (login_of input.now) (remembered service.old admitted) result) }
    ensures rest { service.new ≡ record service.old { seen = service.new.seen } }
    ensures skew { service.new.seen.skew ≡ service.old.seen.skew }

    // An honest login by the client's certificate ends with one key on both sides.
    ensures honest { (certificate : Bytes) (anchor : AnchorRecord) (admitted : List PairRecord) → client.now.by ≡ ByCertificate certificate anchor → IsWindow service.old.seen admitted
        → IsHonestByCertificate client.now.client certificate anchor (C.functions client_keys.now) (realm_record realm.now) realm.now.trust (R.functions realm_keys.now)
        service.old (remembered service.old admitted) (login_of input.now)
        → IsOneKey client.now.client result }
{
    certified_ends_with_one_key(client, realm, service, input, client_keys, realm_keys);
    let means = client.means(client_keys);
    login(
        alloc,
        client.asking(),
        &means,
        realm,
        service,
        input,
        realm_keys,
    )
}

// Logs a client in by any means of authentication.
fn login<M: Means, R: KeyFunctions>(
    alloc: Global,
    client: &krb_client::Client,
    means: &M,
    realm: &Realm,
    service: &mut Service,
    input: &LoginInput<'_>,
    keys: &R,
) -> Result<(EncryptionKey, Admission), LoginRefusal>
    requires { AreEnough (login_of input.now) }
    ensures run { (admitted : List PairRecord) → IsWindow service.old.seen admitted
        → Remembers service.new.seen (LoginRun client.now (M.means means.now) (realm_record realm.now) (realm_rows realm.now (R.functions keys.now))
        service.old (login_of input.now) (remembered service.old admitted) result) }
    ensures rest { service.new ≡ record service.old { seen = service.new.seen } }
    ensures skew { service.new.seen.skew ≡ service.old.seen.skew }
{
    let credential = exchange(alloc, client, means, realm, input, keys)?;
    ap_exchange(alloc, client, service, &credential, input)
}

// Every honest login by a key that client and realm share ends with one session key. It does nothing when it runs.
fn keyed_ends_with_one_key(
    client: &Client,
    realm: &Realm,
    service: &Service,
    input: &LoginInput<'_>,
)
    requires { AreEnough (login_of input.now) }
    ensures { (key : KeyRecord) (before : RememberedRecord) (result : Result Login LoginRefusal) (after : RememberedRecord)
        → client.now.by ≡ ByKey key
        → IsHonestByPassword client.now.client key.bytes (realm_record realm.now) service.now before (login_of input.now)
        → LoginRun client.now.client (means_of client.now no_functions) (realm_record realm.now) (realm_rows realm.now no_functions) service.now (login_of input.now) before result after
        → IsOneKey client.now.client result }
{
    client.is_well_formed();
    realm.is_granting();
    realm.are_keyed();
    realm.are_free();
    service.is_well_formed();
    one_key_by_password(&realm.pkinit(&NoKeys));
}

// Every honest login by the client's certificate ends with one session key. It does nothing when it runs.
fn certified_ends_with_one_key<C: KeyFunctions, R: KeyFunctions>(
    client: &Client,
    realm: &Realm,
    service: &Service,
    input: &LoginInput<'_>,
    client_keys: &C,
    realm_keys: &R,
)
    requires { AreEnough (login_of input.now) }
    ensures { (certificate : Bytes) (anchor : AnchorRecord) (before : RememberedRecord) (result : Result Login LoginRefusal) (after : RememberedRecord)
        → client.now.by ≡ ByCertificate certificate anchor
        → IsHonestByCertificate client.now.client certificate anchor (C.functions client_keys.now) (realm_record realm.now) realm.now.trust (R.functions realm_keys.now)
        service.now before (login_of input.now)
        → LoginRun client.now.client (means_of client.now (C.functions client_keys.now)) (realm_record realm.now) (realm_rows realm.now (R.functions realm_keys.now))
        service.now (login_of input.now) before result after
        → IsOneKey client.now.client result }
{
    client.is_well_formed();
    realm.is_granting();
    realm.are_keyed();
    realm.are_free();
    service.is_well_formed();
    one_key_by_certificate();
}

// Runs both exchanges with the realm, which end with a service ticket.
fn exchange<M: Means, R: KeyFunctions>(
    alloc: Global,
    client: &krb_client::Client,
    means: &M,
    realm: &Realm,
    input: &LoginInput<'_>,
    keys: &R,
) -> Result<Credential, LoginRefusal>
    requires { AreEnough (login_of input.now) }
    ensures { Exchanges client.now (M.means means.now) (realm_record realm.now) (realm_rows realm.now (R.functions keys.now)) (login_of input.now) result }
{
    let granting = as_exchange(alloc, client, means, realm, input, keys)?;
    tgs_exchange(alloc, client, realm, &granting, input, keys)
}

// Runs the AS exchange, which ends with a TGT.
fn as_exchange<M: Means, R: KeyFunctions>(
    alloc: Global,
    client: &krb_client::Client,
    means: &M,
    realm: &Realm,
    input: &LoginInput<'_>,
    keys: &R,
) -> Result<Credential, LoginRefusal>
    requires { AreEnough (login_of input.now) }
    ensures { AsExchange client.now (M.means means.now) (realm_record realm.now) (realm_rows realm.now (R.functions keys.now)) (login_of input.now) result }
{
    let (request, asked) = ask_as(alloc, client, means, input)?;
    let reply = answer(
        alloc,
        realm,
        &request,
        input.moments.realm_as,
        input.realm_words_as,
        keys,
    )?;
    take_as(alloc, client, means, &asked, &reply)
}

// Runs the TGS exchange, which ends with a service ticket.
fn tgs_exchange<R: KeyFunctions>(
    alloc: Global,
    client: &krb_client::Client,
    realm: &Realm,
    granting: &Credential,
    input: &LoginInput<'_>,
    keys: &R,
) -> Result<Credential, LoginRefusal>
    requires { AreEnough (login_of input.now) }
    ensures { TgsExchange client.now (realm_record realm.now) (realm_rows realm.now (R.functions keys.now)) (login_of input.now) granting.now result }
{
    let (request, asked) = ask_tgs(alloc, client, granting, input)?;
    let reply = answer(
        alloc,
        realm,
        &request,
        input.moments.realm_tgs,
        input.realm_words_tgs,
        keys,
    )?;
    take_tgs(alloc, client, &asked, &reply)
}

// The client makes its AS request for a TGT.
#[tactic(auto, unfolding(crate::specs::Logins::AsAsk, krb_logins::specs::Steps::IsAsAsked))]
fn ask_as<M: Means>(
    alloc: Global,
    client: &krb_client::Client,
    means: &M,
    input: &LoginInput<'_>,
) -> Result<(Vec<u8>, AsAsked), LoginRefusal>
    requires { AreEnoughForRequest input.now.words_as.now }
    ensures { AsAsk client.now (M.means means.now) (login_of input.now) result }
{
    client.is_well_formed();
    let Ok(service) = granting_service(alloc, client.realm()) else {
        return Err(LoginRefusal::Asked(AskRefusal::Memory));
    };
    let request = TicketRequest {
        service: &service,
        till: input.till,
        moment: input.moments.client_as,
        words: input.words_as,
    };
    client
        .as_request(alloc, means, &request)
        .map_err(LoginRefusal::Asked)
}

// The client asks for a service ticket with its TGT.
#[tactic(auto, unfolding(crate::specs::Logins::TgsAsk, krb_logins::specs::Steps::IsTgsAsked))]
fn ask_tgs(
    alloc: Global,
    client: &krb_client::Client,
    granting: &Credential,
    input: &LoginInput<'_>,
) -> Result<(Vec<u8>, TgsAsked), LoginRefusal>
    requires { AreEnoughForRequest input.now.words_tgs.now }
    ensures { TgsAsk client.now (login_of input.now) granting.now result }
{
    let request = TicketRequest {
        service: input.service,
        till: input.till,
        moment: input.moments.client_tgs,
        words: input.words_tgs,
    };
    client
        .tgs_request(alloc, granting, &request)
        .map_err(LoginRefusal::Asked)
}

// The realm answers an AS or TGS request.
#[tactic(auto, unfolding(crate::specs::Logins::Answer, krb_logins::specs::Steps::IsKdcAnswered))]
fn answer<R: KeyFunctions>(
    alloc: Global,
    realm: &Realm,
    message: &[u8],
    moment: Moment,
    words: &[u8],
    keys: &R,
) -> Result<Vec<u8>, LoginRefusal>
    requires { AreEnoughForReply words.now }
    ensures { Answer (call_at (realm_record realm.now) moment words.now) (realm_rows realm.now (R.functions keys.now)) message.now result }
{
    realm
        .answer(alloc, message, moment, words, keys)
        .map_err(LoginRefusal::Answered)
}

// The client takes the AS reply.
#[tactic(auto, unfolding(crate::specs::Logins::AsTake))]
fn take_as<M: Means>(
    alloc: Global,
    client: &krb_client::Client,
    means: &M,
    asked: &AsAsked,
    reply: &[u8],
) -> Result<Credential, LoginRefusal>
    ensures { AsTake client.now (M.means means.now) asked.now reply.now result }
{
    client
        .take_as_reply(alloc, means, asked, reply)
        .map_err(LoginRefusal::Taken)
}

// The client takes the TGS reply.
#[tactic(auto, unfolding(crate::specs::Logins::TgsTake))]
fn take_tgs(
    alloc: Global,
    client: &krb_client::Client,
    asked: &TgsAsked,
    reply: &[u8],
) -> Result<Credential, LoginRefusal>
    ensures { TgsTake client.now asked.now reply.now result }
{
    client
        .take_tgs_reply(alloc, asked, reply)
        .map_err(LoginRefusal::Taken)
}
