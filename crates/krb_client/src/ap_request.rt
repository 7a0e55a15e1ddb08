//! Asking a service.
ghost use Rattle.std.specs.Prelude.{◌≡◌, ℕ, List, IfErr, IfOk};
ghost use Rattle.std.specs.Option.{option_map};
ghost use Rattle.krb_messages.specs.RandomBytes.{AreEnoughForRequest};
ghost use Rattle.krb_client.specs.ApRequest.{AsksAp, ap_asked, chosen_subkey};
ghost use Rattle.krb_tickets.specs.Sealing.{encryption_key};

use crate::asked::ApAsked;
use crate::authenticator::ap_request;
use crate::client::Client;
use crate::credential::Credential;
use crate::refusal::AskRefusal;
use krb_constants::key_usages;
use krb_crypto::CipherSuite;
use krb_messages::data_types::EncryptionKey;
use krb_messages::random_bytes::{AUTHENTICATOR_CONFOUNDER, SUBKEY_SEED};
use krb_tickets::{confounder_at, encryption_key, key_at};
use krb_time::Moment;
use picky_asn1::wrapper::OctetStringAsn1;
use std::alloc::{AllocError, Global};

/// What a request to a service is made of: what the client chooses, when it asks, and random octets (RFC 4120, section 3.2.2).
#[derive(Clone, Copy)]
pub struct ServiceRequest<'a> {
    /// Whether the service is asked for a reply: the option mutual-required (RFC 4120, section 5.5.1).
    pub mutual_required: bool,
    /// Whether the client chooses a subkey for what follows.
    pub with_subkey: bool,
    /// The moment of the request, by the client's clock. It is the authenticator's time.
    pub moment: Moment,
    /// Random octets, 96 or more, which no other request has.
    pub words: &'a [u8],
}

impl Client {
    /// The request to a service by what a realm granted, and what the client has to remember for the reply (RFC 4120, section 3.2.2).
    ///
    /// Of its random octets the first are the confounder, and 32 to 63 the subkey's seed. Fails only if memory runs out.
    pub fn ap_request(
        &self,
        alloc: Global,
        credential: &Credential,
        request: &ServiceRequest<'_>,
    ) -> Result<(Vec<u8>, ApAsked), AskRefusal>
        requires { AreEnoughForRequest request.now.words.now }
        ensures asks { IfOk result (λ r.
            AsksAp self.now credential.now request.now.mutual_required request.now.with_subkey request.now.moment request.now.words.now r.0.items) }
        ensures only { IfOk result (λ r. (other : List ℕ)
            → AsksAp self.now credential.now request.now.mutual_required request.now.with_subkey request.now.moment request.now.words.now other → other ≡ r.0.items) }
        ensures asked { IfOk result (λ r. r.1 ≡ ap_asked credential.now request.now.with_subkey request.now.moment request.now.words.now) }
        ensures refusal { IfErr result (λ e. e ≡ AskRefusal.Memory) }
    {
        let suite = credential.suite();
        let subkey = subkey_of(alloc, request.with_subkey, suite, request.words)?;
        let presented = presented_subkey(alloc, suite, &subkey)?;
        let authenticator = self.authenticator(alloc, request.moment, None, presented)?;
        let confounder = confounder_at(suite, request.words, AUTHENTICATOR_CONFOUNDER);
        let bytes = ap_request(
            alloc,
            credential,
            key_usages::AP_REQ_AUTHENTICATOR,
            request.mutual_required,
            authenticator,
            confounder,
        )?;
        let key = credential.key().copied();
        Ok((bytes, ApAsked::new(key, request.moment, subkey)))
    }
}

// The subkey, where one is chosen: the key of the suite of its seed among the random bytes.
fn subkey_of(
    alloc: Global,
    with_subkey: bool,
    suite: CipherSuite,
    words: &[u8],
) -> Result<Option<OctetStringAsn1>, AllocError>
    requires { AreEnoughForRequest words.now }
    ensures { IfOk result (λ subkey. subkey ≡ chosen_subkey with_subkey suite words.now) }
{
    if !with_subkey {
        return Ok(None);
    }
    let subkey = key_at(alloc, suite, words, SUBKEY_SEED)?;
    Ok(Some(subkey))
}

// The subkey with the number of its suite, where there is one.
fn presented_subkey(
    alloc: Global,
    suite: CipherSuite,
    key: &Option<OctetStringAsn1>,
) -> Result<Option<EncryptionKey>, AllocError>
    ensures { IfOk result (λ made. made ≡ option_map (encryption_key suite) key.now) }
{
    let Some(key) = key else {
        return Ok(None);
    };
    let made = encryption_key(alloc, suite, key)?;
    Ok(Some(made))
}
