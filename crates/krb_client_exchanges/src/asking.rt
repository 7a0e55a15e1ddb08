//! The first request, which has no padata.
ghost use Rattle.std.specs.Prelude.{◌≡◌, ◌↔◌, ◌⊎◌, false, Err, IfErr, IfOk};
ghost use Rattle.krb_messages.specs.RandomBytes.{AreEnoughForRequest};
ghost use Rattle.krb_realm_accounts.specs.Names.{are_components, parts};
ghost use Rattle.krb_client.specs.AsRequest.{as_asked, as_body_with};
ghost use Rattle.krb_client.specs.Messages.{as_request_bytes};
ghost use Rattle.krb_client_exchanges.specs.FirstRequests.{bare_request, first_request_bytes, first_request_bytes_with};

use krb_client::{AsAsked, AskRefusal, Client, TicketOptions, TicketRequest, nonce_of};
use krb_constants::types::{AS_REQ_MSG_TYPE, KERBEROS_VERSION};
use krb_crypto::CipherSuite;
use krb_messages::messages::{KdcReq, KdcReqBody};
use krb_realm_accounts::{are_components, components_of};
use picky_asn1::wrapper::{GeneralStringAsn1, IntegerAsn1};
use picky_asn1_der::{ExplicitContextTag, Optional, both, tagged_encoding};
use std::alloc::{AllocError, Global};

/// The client's request for a ticket, without padata, and what the client has to remember for the reply (RFC 4120, section 3.1.1). Its
/// etypes are those of the suites, in their order: the client's own suite doesn't count. Of no suite the list is empty, and a KDC refuses it.
///
/// Of its random octets 16 to 19 are the nonce. A service's name that isn't of 1 to 16 components of 1 to 255 characters below 128 is
/// refused.
pub fn first_request(
    alloc: Global,
    client: &Client,
    suites: &[CipherSuite],
    request: &TicketRequest<'_>,
) -> Result<(Vec<u8>, AsAsked), AskRefusal>
    requires { AreEnoughForRequest request.now.words.now }
    ensures asks { IfOk result (λ r. r.0.items ≡ first_request_bytes client.now suites.now (parts request.now.service.now) request.now.till request.now.words.now) }
    ensures asked { IfOk result (λ r. r.1 ≡ as_asked (parts request.now.service.now) request.now.moment request.now.words.now) }
    ensures bad_name { (result ≡ Err AskRefusal.BadName) ↔ (are_components (parts request.now.service.now) ≡ false) }
    ensures refusal { IfErr result (λ e. (e ≡ AskRefusal.Memory) ⊎ (e ≡ AskRefusal.BadName)) }
{
    first_request_with(alloc, client, suites, TicketOptions::plain(), request)
}

/// The request of `first_request` with options (RFC 4120, section 5.4.1). A KDC refuses an AS request to renew.
pub fn first_request_with(
    alloc: Global,
    client: &Client,
    suites: &[CipherSuite],
    options: TicketOptions,
    request: &TicketRequest<'_>,
) -> Result<(Vec<u8>, AsAsked), AskRefusal>
    requires { AreEnoughForRequest request.now.words.now }
    ensures asks { IfOk result (λ r. r.0.items ≡ first_request_bytes_with client.now suites.now options (parts request.now.service.now) request.now.till request.now.words.now) }
    ensures asked { IfOk result (λ r. r.1 ≡ as_asked (parts request.now.service.now) request.now.moment request.now.words.now) }
    ensures bad_name { (result ≡ Err AskRefusal.BadName) ↔ (are_components (parts request.now.service.now) ≡ false) }
    ensures refusal { IfErr result (λ e. (e ≡ AskRefusal.Memory) ⊎ (e ≡ AskRefusal.BadName)) }
{
    if !are_components(request.service) {
        return Err(AskRefusal::BadName);
    }
    // It is a name, so memory is the only refusal.
    let Ok(service) = components_of(alloc, request.service) else {
        return Err(AskRefusal::Memory);
    };
    let body = first_body(alloc, client, suites, options, &service, request)?;
    let bytes = request_bytes(alloc, body)?;
    let nonce = nonce_of(request.words);
    let asked = AsAsked::new(service, nonce, request.moment, request.words);
    Ok((bytes, asked))
}

// The body of the request for this service, whose name is one.
fn first_body(
    alloc: Global,
    client: &Client,
    suites: &[CipherSuite],
    options: TicketOptions,
    service: &[GeneralStringAsn1],
    request: &TicketRequest<'_>,
) -> Result<KdcReqBody, AllocError>
    requires { AreEnoughForRequest request.now.words.now }
    ensures { IfOk result (λ body. body ≡ as_body_with client.now suites.now options service.now request.now.till request.now.words.now) }
{
    let nonce = nonce_of(request.words);
    client.request_body_with(alloc, true, suites, options, service, request.till, nonce)
}

// The encoding of an AS request with this body.
fn request_bytes(alloc: Global, body: KdcReqBody) -> Result<Vec<u8>, AllocError>
    ensures { IfOk result (λ bytes. bytes.items ≡ as_request_bytes (bare_request body)) }
{
    let request = bare_request(alloc, body)?;
    let bytes = encoded(alloc, request)?;
    Ok(bytes)
}

// The AS request with this body, and without padata.
fn bare_request(alloc: Global, body: KdcReqBody) -> Result<KdcReq, AllocError>
    ensures { IfOk result (λ request. request ≡ bare_request body) }
{
    let version = IntegerAsn1::from_u64(alloc, u64::from(KERBEROS_VERSION));
    let kind = IntegerAsn1::from_u64(alloc, u64::from(AS_REQ_MSG_TYPE));
    let ((version, kind), body) = both(both(version, kind), Ok(body))?;
    Ok(KdcReq {
        pvno: ExplicitContextTag(version),
        msg_type: ExplicitContextTag(kind),
        padata: Optional(None),
        req_body: ExplicitContextTag(body),
    })
}

// The encoding of the request.
#[tactic(auto, unfolding(krb_client::specs::Messages::as_request_bytes))]
fn encoded(alloc: Global, request: KdcReq) -> Result<Vec<u8>, AllocError>
    ensures { IfOk result (λ bytes. bytes.items ≡ as_request_bytes request) }
{
    let bytes = tagged_encoding::<KdcReq, AS_REQ_MSG_TYPE>(alloc, request)?;
    Ok(bytes)
}
