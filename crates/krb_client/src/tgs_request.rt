//! Asking for a service ticket.
ghost use Rattle.std.specs.Prelude.{◌≡◌, ◌↔◌, ◌⊎◌, ℕ, List, length, false, Err, IfErr, IfOk};
ghost use Rattle.krb_messages.specs.RandomBytes.{AreEnoughForRequest};
ghost use Rattle.krb_realm_accounts.specs.Names.{are_components, parts};
ghost use Rattle.krb_client.specs.Messages.{tgs_request_bytes};
ghost use Rattle.krb_messages.specs.Bodies.{body_bytes};
ghost use Rattle.krb_client.specs.Requests.{nonce_of};
ghost use Rattle.krb_crypto.specs.Suites.{cipher_confounder_size};
ghost use Rattle.krb_client.specs.TgsRequest.{AsksTgs, AsksTgsOfSuites, AsksTgsWith, Authenticates, checksum_over, further_body_with, further_request_with, tgs_asked};

use crate::asked::TgsAsked;
use crate::authenticator::ap_request;
use crate::client::Client;
use crate::credential::Credential;
use crate::kdc_request::{kdc_request_of, nonce_of};
use crate::options::TicketOptions;
use crate::refusal::AskRefusal;
use crate::ticket_request::TicketRequest;
use krb_constants::key_usages;
use krb_constants::padata_types::PA_TGS_REQ;
use krb_constants::types::TGS_REQ_MSG_TYPE;
use krb_crypto::{Cipher, CipherSuite};
use krb_messages::data_types::Checksum;
use krb_messages::messages::{KdcReq, KdcReqBody};
use krb_messages::random_bytes::AUTHENTICATOR_CONFOUNDER;
use krb_realm_accounts::{are_components, components_of};
use krb_tickets::{confounder_at, pa_data};
use krb_time::Moment;
use picky_asn1::date::GeneralizedTime;
use picky_asn1::wrapper::{GeneralStringAsn1, IntegerAsn1, OctetStringAsn1};
use picky_asn1_der::{ExplicitContextTag, both, encoding_of, tagged_encoding};
use std::alloc::{AllocError, Global};

impl Client {
    /// The request for a ticket by what the realm granted for itself, and what the client has to remember for the reply (RFC 4120,
    /// section 3.3.1). Its only etype is that of the client's suite.
    ///
    /// Of its random octets the first are the confounder, and 16 to 19 the nonce. A service's name that isn't of 1 to 16 components of 1 to
    /// 255 characters below 128 is refused.
    pub fn tgs_request(
        &self,
        alloc: Global,
        credential: &Credential,
        request: &TicketRequest<'_>,
    ) -> Result<(Vec<u8>, TgsAsked), AskRefusal>
        requires { AreEnoughForRequest request.now.words.now }
        ensures asks { IfOk result (λ r.
            AsksTgs self.now credential.now (parts request.now.service.now) request.now.till request.now.moment request.now.words.now r.0.items) }
        ensures only { IfOk result (λ r. (other : List ℕ)
            → AsksTgs self.now credential.now (parts request.now.service.now) request.now.till request.now.moment request.now.words.now other → other ≡ r.0.items) }
        ensures asked { IfOk result (λ r. r.1 ≡ tgs_asked credential.now (parts request.now.service.now) request.now.words.now) }
        ensures bad_name { (result ≡ Err AskRefusal.BadName) ↔ (are_components (parts request.now.service.now) ≡ false) }
        ensures refusal { IfErr result (λ e. (e ≡ AskRefusal.Memory) ⊎ (e ≡ AskRefusal.BadName)) }
    {
        self.tgs_request_of_suites(alloc, credential, &[self.suite()], request)
    }

    /// The request of `tgs_request`, but with the etypes of these suites, in their order: the client's own suite doesn't count. The KDC
    /// chooses one of them for the session key (RFC 4120, section 3.3.3).
    pub fn tgs_request_of_suites(
        &self,
        alloc: Global,
        credential: &Credential,
        suites: &[CipherSuite],
        request: &TicketRequest<'_>,
    ) -> Result<(Vec<u8>, TgsAsked), AskRefusal>
        requires { AreEnoughForRequest request.now.words.now }
        ensures asks { IfOk result (λ r.
            AsksTgsOfSuites self.now suites.now credential.now (parts request.now.service.now) request.now.till request.now.moment request.now.words.now r.0.items) }
        ensures only { IfOk result (λ r. (other : List ℕ)
            → AsksTgsOfSuites self.now suites.now credential.now (parts request.now.service.now) request.now.till request.now.moment request.now.words.now other → other ≡ r.0.items) }
        ensures asked { IfOk result (λ r. r.1 ≡ tgs_asked credential.now (parts request.now.service.now) request.now.words.now) }
        ensures bad_name { (result ≡ Err AskRefusal.BadName) ↔ (are_components (parts request.now.service.now) ≡ false) }
        ensures refusal { IfErr result (λ e. (e ≡ AskRefusal.Memory) ⊎ (e ≡ AskRefusal.BadName)) }
    {
        self.tgs_request_with(alloc, credential, suites, TicketOptions::plain(), request)
    }

    /// The request of `tgs_request_of_suites` with options (RFC 4120, section 5.4.1). A renewal is for the service of the presented ticket.
    pub fn tgs_request_with(
        &self,
        alloc: Global,
        credential: &Credential,
        suites: &[CipherSuite],
        options: TicketOptions,
        request: &TicketRequest<'_>,
    ) -> Result<(Vec<u8>, TgsAsked), AskRefusal>
        requires { AreEnoughForRequest request.now.words.now }
        ensures asks { IfOk result (λ r.
            AsksTgsWith self.now suites.now options credential.now (parts request.now.service.now) request.now.till request.now.moment request.now.words.now r.0.items) }
        ensures only { IfOk result (λ r. (other : List ℕ)
            → AsksTgsWith self.now suites.now options credential.now (parts request.now.service.now) request.now.till request.now.moment request.now.words.now other → other ≡ r.0.items) }
        ensures asked { IfOk result (λ r. r.1 ≡ tgs_asked credential.now (parts request.now.service.now) request.now.words.now) }
        ensures bad_name { (result ≡ Err AskRefusal.BadName) ↔ (are_components (parts request.now.service.now) ≡ false) }
        ensures refusal { IfErr result (λ e. (e ≡ AskRefusal.Memory) ⊎ (e ≡ AskRefusal.BadName)) }
    {
        if !are_components(request.service) {
            return Err(AskRefusal::BadName);
        }
        // It is a name, so memory is the only refusal.
        let Ok(service) = components_of(alloc, request.service) else {
            return Err(AskRefusal::Memory);
        };
        let bytes = self.tgs_bytes(alloc, credential, suites, options, &service, request)?;
        let nonce = nonce_of(request.words);
        let asked = TgsAsked::new(service, nonce, credential.key().copied());
        Ok((bytes, asked))
    }

    // The encoding of the request for this service, whose name is one.
    fn tgs_bytes(
        &self,
        alloc: Global,
        credential: &Credential,
        suites: &[CipherSuite],
        options: TicketOptions,
        service: &[GeneralStringAsn1],
        asking: &TicketRequest<'_>,
    ) -> Result<Vec<u8>, AllocError>
        requires { AreEnoughForRequest asking.now.words.now }
        ensures { IfOk result (λ bytes.
            AsksTgsWith self.now suites.now options credential.now service.now asking.now.till asking.now.moment asking.now.words.now bytes.items) }
    {
        let nonce = nonce_of(asking.words);
        let body = self.tgs_body_bytes(alloc, suites, options, service, asking.till, nonce)?;
        let confounder = confounder_at(credential.suite(), asking.words, AUTHENTICATOR_CONFOUNDER);
        let request = self.authenticated(alloc, credential, asking.moment, confounder, &body)?;
        let message = self.further_request(
            alloc,
            suites,
            options,
            service,
            asking.till,
            nonce,
            request,
        )?;
        let bytes = tgs_request_bytes(alloc, message)?;
        Ok(bytes)
    }

    // The encoding of the request's body, over which the authenticator has a checksum.
    fn tgs_body_bytes(
        &self,
        alloc: Global,
        suites: &[CipherSuite],
        options: TicketOptions,
        service: &[GeneralStringAsn1],
        till: GeneralizedTime,
        nonce: u32,
    ) -> Result<Vec<u8>, AllocError>
        ensures { IfOk result (λ bytes. bytes.items ≡ body_bytes (further_body_with self.now suites.now options service.now till nonce)) }
    {
        let body = self.request_body_with(alloc, false, suites, options, service, till, nonce)?;
        let bytes = body_bytes(alloc, body)?;
        Ok(bytes)
    }

    // The AP request by which a text is sent.
    fn authenticated(
        &self,
        alloc: Global,
        credential: &Credential,
        moment: Moment,
        confounder: &[u8],
        text: &[u8],
    ) -> Result<Vec<u8>, AllocError>
        requires { length confounder.now ≡ cipher_confounder_size credential.now.suite }
        ensures { IfOk result (λ request.
            Authenticates self.now credential.now moment confounder.now text.now request.items) }
    {
        let checksum = checksum_over(alloc, credential, text)?;
        let authenticator = self.authenticator(alloc, moment, Some(checksum), None)?;
        let request = ap_request(
            alloc,
            credential,
            key_usages::TGS_REQ_PA_DATA_AP_REQ_AUTHENTICATOR,
            false,
            authenticator,
            confounder,
        )?;
        Ok(request)
    }

    // The request with its AP request.
    fn further_request(
        &self,
        alloc: Global,
        suites: &[CipherSuite],
        options: TicketOptions,
        service: &[GeneralStringAsn1],
        till: GeneralizedTime,
        nonce: u32,
        request: Vec<u8>,
    ) -> Result<KdcReq, AllocError>
        ensures { IfOk result (λ made. made ≡ further_request_with self.now suites.now options service.now till nonce request.items) }
    {
        let pa_data = pa_data(alloc, PA_TGS_REQ, request);
        let body = self.request_body_with(alloc, false, suites, options, service, till, nonce);
        let (pa_data, body) = both(pa_data, body)?;
        kdc_request_of(alloc, TGS_REQ_MSG_TYPE, pa_data, body)
    }
}

// The checksum of the session's suite over a text. Fails only if memory runs out.
fn checksum_over(
    alloc: Global,
    credential: &Credential,
    text: &[u8],
) -> Result<Checksum, AllocError>
    ensures { IfOk result (λ sum. sum ≡ checksum_over credential.now text.now) }
{
    let suite = Cipher::checksum_type(&credential.suite());
    let number = IntegerAsn1::from_u64(alloc, u64::from(u8::from(suite)))?;
    let sum = credential.key().checksum(
        alloc,
        key_usages::TGS_REQ_PA_DATA_AP_REQ_AUTHENTICATOR_CKSUM,
        text,
    )?;
    Ok(Checksum {
        cksumtype: ExplicitContextTag(number),
        checksum: ExplicitContextTag(OctetStringAsn1::from(sum)),
    })
}

// The encoding of the request's body.
#[tactic(auto, unfolding(krb_messages::specs::Bodies::body_bytes))]
fn body_bytes(alloc: Global, body: KdcReqBody) -> Result<Vec<u8>, AllocError>
    ensures { IfOk result (λ bytes. bytes.items ≡ body_bytes body) }
{
    let bytes = encoding_of(alloc, body)?;
    Ok(bytes)
}

// The encoding of the request.
#[tactic(auto, unfolding(crate::specs::Messages::tgs_request_bytes))]
fn tgs_request_bytes(alloc: Global, request: KdcReq) -> Result<Vec<u8>, AllocError>
    ensures { IfOk result (λ bytes. bytes.items ≡ tgs_request_bytes request) }
{
    let bytes = tagged_encoding::<KdcReq, TGS_REQ_MSG_TYPE>(alloc, request)?;
    Ok(bytes)
}
