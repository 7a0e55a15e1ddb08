//! Asking for a first ticket.
ghost use Rattle.std.specs.Prelude.{◌≡◌, ◌↔◌, ℕ, List, false, Err, IfErr, IfOk};
ghost use Rattle.krb_messages.specs.RandomBytes.{AreEnoughForRequest};
ghost use Rattle.krb_realm_accounts.specs.Names.{are_components, parts};
ghost use Rattle.krb_client.specs.AsRequest.{AsksAs, AsksAsOfSuites, AsksAsWith, IsUnasked, IsUnaskedOfSuites, IsUnaskedWith, as_asked, as_body_with, as_request_of};
ghost use Rattle.krb_client.specs.Means.{IsUnshown};
ghost use Rattle.krb_client.specs.Messages.{as_request_bytes};

use crate::asked::AsAsked;
use crate::client::Client;
use crate::kdc_request::{kdc_request_of, nonce_of};
use crate::means::Means;
use crate::options::TicketOptions;
use crate::refusal::AskRefusal;
use crate::ticket_request::TicketRequest;
use krb_constants::types::AS_REQ_MSG_TYPE;
use krb_crypto::CipherSuite;
use krb_messages::data_types::PaData;
use krb_messages::messages::{KdcReq, KdcReqBody};
use krb_realm_accounts::{are_components, components_of};
use picky_asn1::wrapper::GeneralStringAsn1;
use picky_asn1_der::tagged_encoding;
use std::alloc::{AllocError, Global};

impl Client {
    /// The request for a ticket, with the padata of the client's means, and what the client has to remember for the reply (RFC 4120,
    /// section 3.1.1). Its only etype is that of the client's suite.
    ///
    /// Of its random octets the first are the means' confounder, 16 to 19 the nonce, and 32 to 95 the agreement's. A service's name that
    /// isn't of 1 to 16 components of 1 to 255 characters below 128 is refused, and after it what the means refuse.
    pub fn as_request<M: Means>(
        &self,
        alloc: Global,
        means: &M,
        request: &TicketRequest<'_>,
    ) -> Result<(Vec<u8>, AsAsked), AskRefusal>
        requires { AreEnoughForRequest request.now.words.now }
        ensures asks { IfOk result (λ r.
            AsksAs self.now (M.means means.now) (parts request.now.service.now) request.now.till request.now.moment request.now.words.now r.0.items) }
        ensures only { IfOk result (λ r. (other : List ℕ)
            → AsksAs self.now (M.means means.now) (parts request.now.service.now) request.now.till request.now.moment request.now.words.now other → other ≡ r.0.items) }
        ensures asked { IfOk result (λ r. r.1 ≡ as_asked (parts request.now.service.now) request.now.moment request.now.words.now) }
        ensures bad_name { (result ≡ Err AskRefusal.BadName) ↔ (are_components (parts request.now.service.now) ≡ false) }
        ensures refusal { IfErr result (IsUnasked self.now (M.means means.now) (parts request.now.service.now) request.now.till request.now.moment request.now.words.now) }
    {
        self.as_request_of_suites(alloc, means, &[self.suite()], request)
    }

    /// The request of `as_request`, but with the etypes of these suites, in their order: the client's own suite doesn't count. The KDC
    /// chooses one of them. The client that takes the reply has to have the suite of its enc-part (RFC 4120, section 3.1.3).
    pub fn as_request_of_suites<M: Means>(
        &self,
        alloc: Global,
        means: &M,
        suites: &[CipherSuite],
        request: &TicketRequest<'_>,
    ) -> Result<(Vec<u8>, AsAsked), AskRefusal>
        requires { AreEnoughForRequest request.now.words.now }
        ensures asks { IfOk result (λ r.
            AsksAsOfSuites self.now suites.now (M.means means.now) (parts request.now.service.now) request.now.till request.now.moment request.now.words.now r.0.items) }
        ensures only { IfOk result (λ r. (other : List ℕ)
            → AsksAsOfSuites self.now suites.now (M.means means.now) (parts request.now.service.now) request.now.till request.now.moment request.now.words.now other → other ≡ r.0.items) }
        ensures asked { IfOk result (λ r. r.1 ≡ as_asked (parts request.now.service.now) request.now.moment request.now.words.now) }
        ensures bad_name { (result ≡ Err AskRefusal.BadName) ↔ (are_components (parts request.now.service.now) ≡ false) }
        ensures refusal { IfErr result (IsUnaskedOfSuites self.now suites.now (M.means means.now) (parts request.now.service.now) request.now.till request.now.moment request.now.words.now) }
    {
        self.as_request_with(alloc, means, suites, TicketOptions::plain(), request)
    }

    /// The request of `as_request_of_suites` with options (RFC 4120, section 5.4.1). A KDC refuses an AS request to renew.
    pub fn as_request_with<M: Means>(
        &self,
        alloc: Global,
        means: &M,
        suites: &[CipherSuite],
        options: TicketOptions,
        request: &TicketRequest<'_>,
    ) -> Result<(Vec<u8>, AsAsked), AskRefusal>
        requires { AreEnoughForRequest request.now.words.now }
        ensures asks { IfOk result (λ r.
            AsksAsWith self.now suites.now options (M.means means.now) (parts request.now.service.now) request.now.till request.now.moment request.now.words.now r.0.items) }
        ensures only { IfOk result (λ r. (other : List ℕ)
            → AsksAsWith self.now suites.now options (M.means means.now) (parts request.now.service.now) request.now.till request.now.moment request.now.words.now other → other ≡ r.0.items) }
        ensures asked { IfOk result (λ r. r.1 ≡ as_asked (parts request.now.service.now) request.now.moment request.now.words.now) }
        ensures bad_name { (result ≡ Err AskRefusal.BadName) ↔ (are_components (parts request.now.service.now) ≡ false) }
        ensures refusal { IfErr result (IsUnaskedWith self.now suites.now options (M.means means.now) (parts request.now.service.now) request.now.till request.now.moment request.now.words.now) }
    {
        if !are_components(request.service) {
            return Err(AskRefusal::BadName);
        }
        // It is a name, so memory is the only refusal.
        let Ok(service) = components_of(alloc, request.service) else {
            return Err(AskRefusal::Memory);
        };
        let bytes = self.as_bytes(alloc, means, suites, options, &service, request)?;
        let nonce = nonce_of(request.words);
        let asked = AsAsked::new(service, nonce, request.moment, request.words);
        Ok((bytes, asked))
    }

    // The encoding of the request for this service, whose name is one.
    fn as_bytes<M: Means>(
        &self,
        alloc: Global,
        means: &M,
        suites: &[CipherSuite],
        options: TicketOptions,
        service: &[GeneralStringAsn1],
        request: &TicketRequest<'_>,
    ) -> Result<Vec<u8>, AskRefusal>
        requires { AreEnoughForRequest request.now.words.now }
        ensures asks { IfOk result (λ bytes.
            AsksAsWith self.now suites.now options (M.means means.now) service.now request.now.till request.now.moment request.now.words.now bytes.items) }
        ensures refusal { IfErr result (IsUnshown (M.means means.now) (as_body_with self.now suites.now options service.now request.now.till request.now.words.now) request.now.moment request.now.words.now) }
    {
        let nonce = nonce_of(request.words);
        let body = self.request_body_with(
            alloc,
            true,
            suites,
            options,
            service,
            request.till,
            nonce,
        )?;
        match means.padata(alloc, &body, request.moment, request.words) {
            Ok(padata) => {
                let bytes = as_request_bytes(alloc, padata, body)?;
                Ok(bytes)
            }
            Err(refusal) => {
                drop(body);
                Err(refusal)
            }
        }
    }
}

// The encoding of the request with its padata.
fn as_request_bytes(alloc: Global, padata: PaData, body: KdcReqBody) -> Result<Vec<u8>, AllocError>
    ensures { IfOk result (λ bytes. bytes.items ≡ as_request_bytes (as_request_of padata body)) }
{
    let request = kdc_request_of(alloc, AS_REQ_MSG_TYPE, padata, body)?;
    let bytes = encoded(alloc, request)?;
    Ok(bytes)
}

// The encoding of the request.
#[tactic(auto, unfolding(crate::specs::Messages::as_request_bytes))]
fn encoded(alloc: Global, request: KdcReq) -> Result<Vec<u8>, AllocError>
    ensures { IfOk result (λ bytes. bytes.items ≡ as_request_bytes request) }
{
    let bytes = tagged_encoding::<KdcReq, AS_REQ_MSG_TYPE>(alloc, request)?;
    Ok(bytes)
}
