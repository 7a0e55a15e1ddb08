//! Clients.
ghost use Rattle.std.specs.Prelude.{◌≡◌, ◌↔◌, ◌⊎◌, ℕ, List, true, false, Ok, Err, IfErr, IfOk, MatchResult};
ghost use Rattle.krb_messages.specs.RandomBytes.{AreEnoughForRequest};
ghost use Rattle.krb_realm_accounts.specs.Names.{AreComponents, IsRealmName, are_components, parts};
ghost use Rattle.krb_client.specs.Client.{client_named};
ghost use Rattle.krb_client.specs.Refusals.{IsMemoryAside, IsTaken};
ghost use Rattle.krb_memory_realms.specs.Settings.{IsCertificateIf};
ghost use Rattle.krb_realm.specs.Clients.{IsNoClient};
ghost use Rattle.krb_realm.specs.HeldClients.{client_by};

use crate::client_means::{ClientMeans, Held};
use krb_client::{
    ApAsked, AsAsked, AskRefusal, Credential, ServiceRequest, TakeRefusal, TgsAsked, TicketRequest,
};
use krb_crypto::CipherSuite;
use krb_memory_realms::is_certificate;
use krb_time::Moment;
use picky_asn1::date::GeneralizedTime;
use pkinit_validation::Anchor;
use std::alloc::Global;
use std::marker::Model;
use x509_keys::KeyFunctions;

/// A client: its realm, its name, the suite that it asks for, and a key or a certificate by which it authenticates itself. A contract
/// sees these, the name as its components.
#[derive(Drop)]
pub struct Client {
    asking: krb_client::Client,
    held: Held,
}

impl Model for Client {
    ghost use Rattle.krb_realm.specs.Clients.{ClientState, IsOfSuite};

    ghost Value = { ClientState };

    ghost use Rattle.krb_realm.specs.HeldClients.{client_by};

    ghost view = { λ c. record { client = c.asking; by = client_by c.held } };

    ghost invariant = { λ c. IsOfSuite c.asking.suite (client_by c.held) };
}

impl Client {
    ghost use Rattle.krb_client.specs.ApRequest.{AsksAp, ap_asked};
    ghost use Rattle.krb_client.specs.ApReply.{takes_ap_reply};
    ghost use Rattle.krb_client.specs.AsReply.{takes_as_reply};
    ghost use Rattle.krb_client.specs.AsRequest.{AsksAs, IsUnasked, as_asked};
    ghost use Rattle.krb_client.specs.TgsReply.{takes_tgs_reply};
    ghost use Rattle.krb_client.specs.TgsRequest.{AsksTgs, tgs_asked};
    ghost use Rattle.krb_client.specs.declared.refusal.AskRefusal.{AskRefusal};
    ghost use Rattle.krb_realm.specs.Clients.{IsClientByCertificate, IsOfSuite, client_by_password, means_of};

    /// The client with this password. Its key is that of the password and a salt, which is the realm and behind it the name's
    /// components (RFC 4120, section 4).
    ///
    /// A realm of 1 to 255 characters below 128 and a name of 1 to 16 such components are accepted; others are `BadName`.
    pub fn by_password(
        alloc: Global,
        realm: &[u8],
        name: &[Vec<u8>],
        suite: CipherSuite,
        password: &[u8],
    ) -> Result<Client, AskRefusal>
        ensures made { IsMemoryAside result (client_by_password realm.now (parts name.now) suite password.now) }

        // Running out of memory hides no other refusal.
        ensures first { (refusal : AskRefusal) → client_by_password realm.now (parts name.now) suite password.now ≡ Err refusal → result ≡ Err refusal }
    {
        match krb_client::Client::by_password(alloc, realm, name, suite, password) {
            Ok((asking, own)) => Ok(Client {
                asking,
                held: Held::Key(own),
            }),
            Err(refusal) => Err(refusal),
        }
    }

    /// The client with this certificate, which takes the replies of a realm whose certificate the anchor issued (RFC 4556). Its key
    /// functions are given with each request and reply.
    ///
    /// A realm of 1 to 255 characters below 128 and a name of 1 to 16 such components are accepted; others are `BadName`. The
    /// certificate may have any of the accepted spellings, and bytes that are no certificate are `BadCertificate`. It isn't compared
    /// with the name.
    pub fn by_certificate(
        alloc: Global,
        realm: &[u8],
        name: &[Vec<u8>],
        suite: CipherSuite,
        certificate: &[u8],
        anchor: Anchor,
    ) -> Result<Client, AskRefusal>
        ensures made { MatchResult result
            (IsClientByCertificate realm.now (parts name.now) suite certificate.now anchor)
            (IsNoClient realm.now (parts name.now) suite certificate.now) }

        // Running out of memory hides no bad name.
        ensures first { (refusal : AskRefusal) → client_named realm.now (parts name.now) suite ≡ Err refusal → result ≡ Err refusal }
    {
        match named_and_certified(alloc, realm, name, suite, certificate) {
            Ok((asking, certificate)) => Ok(Client {
                asking,
                held: Held::Certificate(certificate, anchor),
            }),
            Err(refusal) => {
                drop(anchor);
                Err(refusal)
            }
        }
    }

    /// What holds of every client: realm and name are names, and its key is of the suite that it asks for. It does nothing when it
    /// runs.
    pub fn is_well_formed(&self)
        ensures realm { IsRealmName self.now.client.realm }
        ensures name { AreComponents self.now.client.components }
        ensures suite { IsOfSuite self.now.client.suite self.now.by }
    {
        self.asking.is_well_formed();
    }

    /// The request for a ticket for a service of the client's realm till a time, at the moment, and what the client has to remember
    /// for the reply (RFC 4120, section 3.1.1; RFC 4556, section 3.2.1).
    ///
    /// `words`: random bytes, 96 or more. The first are the confounder, 16 to 19 the nonce, and 32 to 95 the agreement's. A name that
    /// isn't of 1 to 16 components of 1 to 255 characters below 128 is `BadName`. Then `NoKeyFunction` says that the client has a
    /// certificate, and its key functions have no public value or don't sign.
    pub fn as_request<K: KeyFunctions>(
        &self,
        alloc: Global,
        service: &[Vec<u8>],
        till: GeneralizedTime,
        moment: Moment,
        words: &[u8],
        keys: &K,
    ) -> Result<(Vec<u8>, AsAsked), AskRefusal>
        requires { AreEnoughForRequest words.now }
        ensures asks { IfOk result (λ r.
            AsksAs self.now.client (means_of self.now (K.functions keys.now)) (parts service.now) till moment words.now r.0.items) }
        ensures only { IfOk result (λ r. (other : List ℕ)
            → AsksAs self.now.client (means_of self.now (K.functions keys.now)) (parts service.now) till moment words.now other → other ≡ r.0.items) }
        ensures asked { IfOk result (λ r. r.1 ≡ as_asked (parts service.now) moment words.now) }
        ensures bad_name { (result ≡ Err AskRefusal.BadName) ↔ (are_components (parts service.now) ≡ false) }
        ensures refusal { IfErr result (IsUnasked self.now.client (means_of self.now (K.functions keys.now)) (parts service.now) till moment words.now) }
    {
        let means = self.means(keys);
        let request = TicketRequest {
            service,
            till,
            moment,
            words,
        };
        self.asking().as_request(alloc, &means, &request)
    }

    /// What the reply to a request grants (RFC 4120, section 3.1.5; RFC 4556, section 3.2.4). The reply is taken if it is encrypted
    /// under the client's key, or under the key that client and realm agree on, and answers that request.
    ///
    /// `Refused` carries an error's code, whatever the error's version and type. The other refusals are in the order in which they
    /// are checked.
    pub fn take_as_reply<K: KeyFunctions>(
        &self,
        alloc: Global,
        asked: &AsAsked,
        reply: &[u8],
        keys: &K,
    ) -> Result<Credential, TakeRefusal>
        ensures { IsTaken (takes_as_reply self.now.client (means_of self.now (K.functions keys.now)) asked.now reply.now) result }
    {
        let means = self.means(keys);
        self.asking().take_as_reply(alloc, &means, asked, reply)
    }

    /// The request for a ticket for a service of the client's realm till a time, by what the realm granted for itself, at the
    /// moment, and what the client has to remember for the reply (RFC 4120, section 3.3.1).
    ///
    /// `words`: random bytes, 96 or more. The first are the confounder, and 16 to 19 the nonce. A name that isn't of 1 to 16 components
    /// of 1 to 255 characters below 128 is refused.
    pub fn tgs_request(
        &self,
        alloc: Global,
        credential: &Credential,
        service: &[Vec<u8>],
        till: GeneralizedTime,
        moment: Moment,
        words: &[u8],
    ) -> Result<(Vec<u8>, TgsAsked), AskRefusal>
        requires { AreEnoughForRequest words.now }
        ensures asks { IfOk result (λ r.
            AsksTgs self.now.client credential.now (parts service.now) till moment words.now r.0.items) }
        ensures only { IfOk result (λ r. (other : List ℕ)
            → AsksTgs self.now.client credential.now (parts service.now) till moment words.now other → other ≡ r.0.items) }
        ensures asked { IfOk result (λ r. r.1 ≡ tgs_asked credential.now (parts service.now) words.now) }
        ensures bad_name { (result ≡ Err AskRefusal.BadName) ↔ (are_components (parts service.now) ≡ false) }
        ensures refusal { IfErr result (λ e. (e ≡ AskRefusal.Memory) ⊎ (e ≡ AskRefusal.BadName)) }
    {
        let request = TicketRequest {
            service,
            till,
            moment,
            words,
        };
        self.asking().tgs_request(alloc, credential, &request)
    }

    /// What the reply to a request for a service ticket grants (RFC 4120, section 3.3.4). The reply is taken if it is encrypted
    /// under the session key and answers that request. It must have the request's nonce, client and service, and a key of a known
    /// suite.
    ///
    /// `Refused` carries an error's code, whatever the error's version and type. The other refusals are in the order in which
    /// they are checked.
    pub fn take_tgs_reply(
        &self,
        alloc: Global,
        asked: &TgsAsked,
        reply: &[u8],
    ) -> Result<Credential, TakeRefusal>
        ensures { IsTaken (takes_tgs_reply self.now.client asked.now reply.now) result }
    {
        self.asking.take_tgs_reply(alloc, asked, reply)
    }

    /// The request to a service by what a realm granted, at the moment, and what the client has to remember for the reply
    /// (RFC 4120, section 3.2.2). `mutual_required` asks for a reply, and `with_subkey` chooses a key for what follows.
    ///
    /// `words`: random bytes, 96 or more. The first are the confounder, and 32 to 63 the subkey's seed. Fails only if memory runs out.
    pub fn ap_request(
        &self,
        alloc: Global,
        credential: &Credential,
        mutual_required: bool,
        with_subkey: bool,
        moment: Moment,
        words: &[u8],
    ) -> Result<(Vec<u8>, ApAsked), AskRefusal>
        requires { AreEnoughForRequest words.now }
        ensures asks { IfOk result (λ r.
            AsksAp self.now.client credential.now mutual_required with_subkey moment words.now r.0.items) }
        ensures only { IfOk result (λ r. (other : List ℕ)
            → AsksAp self.now.client credential.now mutual_required with_subkey moment words.now other → other ≡ r.0.items) }
        ensures asked { IfOk result (λ r. r.1 ≡ ap_asked credential.now with_subkey moment words.now) }
        ensures refusal { IfErr result (λ e. e ≡ AskRefusal.Memory) }
    {
        let request = ServiceRequest {
            mutual_required,
            with_subkey,
            moment,
            words,
        };
        self.asking().ap_request(alloc, credential, &request)
    }

    /// Takes a service's reply (RFC 4120, section 3.2.5). It shows that the service could open the ticket: it is encrypted
    /// under the session key and has the authenticator's time.
    ///
    /// `Refused` carries an error's code, whatever the error's version and type. The other refusals are in the order in which
    /// they are checked.
    pub fn take_ap_reply(
        &self,
        alloc: Global,
        asked: &ApAsked,
        reply: &[u8],
    ) -> Result<(), TakeRefusal>
        ensures { IsTaken (takes_ap_reply asked.now reply.now) result }
    {
        self.asking.take_ap_reply(alloc, asked, reply)
    }

    /// Borrows the client's name and suite, by which it makes requests and takes replies.
    pub fn asking(&self) -> &krb_client::Client
        ensures { result.now ≡ self.now.client }
    {
        &self.asking
    }

    /// Borrows the means by which the client authenticates itself, with its key functions.
    pub(crate) fn means<'a, K: KeyFunctions>(&'a self, keys: &'a K) -> ClientMeans<'a, K>
        ensures by { client_by result.held.now ≡ self.now.by }
        ensures keys { result.keys.now ≡ keys.now }
    {
        ClientMeans {
            held: &self.held,
            keys,
        }
    }
}

// Makes the client of this name, and copies its certificate.
fn named_and_certified(
    alloc: Global,
    realm: &[u8],
    name: &[Vec<u8>],
    suite: CipherSuite,
    certificate: &[u8],
) -> Result<(krb_client::Client, Vec<u8>), AskRefusal>
    ensures made { MatchResult result
        (λ r. (client_named realm.now (parts name.now) suite ≡ Ok r.0) × IsCertificateIf certificate.now true × (r.1.items ≡ certificate.now))
        (IsNoClient realm.now (parts name.now) suite certificate.now) }
    ensures first { (refusal : AskRefusal) → client_named realm.now (parts name.now) suite ≡ Err refusal → result ≡ Err refusal }
{
    let asking = krb_client::Client::new(alloc, realm, name, suite)?;
    match certified(alloc, certificate) {
        Ok(own) => Ok((asking, own)),
        Err(refusal) => {
            drop(asking);
            Err(refusal)
        }
    }
}

// Copies the bytes, if they are a certificate.
fn certified(alloc: Global, bytes: &[u8]) -> Result<Vec<u8>, AskRefusal>
    ensures { MatchResult result
        (λ own. IsCertificateIf bytes.now true × (own.items ≡ bytes.now))
        (λ refusal. (refusal ≡ AskRefusal.Memory) ⊎ ((refusal ≡ AskRefusal.BadCertificate) × IsCertificateIf bytes.now false)) }
{
    if !is_certificate(alloc, bytes)? {
        return Err(AskRefusal::BadCertificate);
    }
    let own = Vec::from_slice(alloc, bytes)?;
    Ok(own)
}
