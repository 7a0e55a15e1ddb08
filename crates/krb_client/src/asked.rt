//! What a client remembers of its requests.
ghost use Rattle.std.specs.Prelude.{◌≡◌, length};
ghost use Rattle.std.specs.Option.{option_copied};
ghost use Rattle.krb_messages.specs.RandomBytes.{AreEnoughForRequest};
ghost use Rattle.krb_client.specs.Asked.{agreement_part};

use crate::agreement::agreement_part;
use krb_crypto::{CipherSuite, Key};
use krb_messages::random_bytes::AGREEMENT_SIZE;
use krb_time::Moment;
use picky_asn1::wrapper::{GeneralStringAsn1, OctetStringAsn1};
use std::marker::Model;

/// What a client remembers of its request to a realm. A contract sees the components of the service's name, the nonce, the
/// moment, and the agreement's random bytes.
#[derive(Drop)]
pub struct AsAsked {
    service: Vec<GeneralStringAsn1>,
    nonce: u32,
    moment: Moment,
    agreement: [u8; AGREEMENT_SIZE],
}

impl Model for AsAsked {
    ghost use Rattle.std.specs.Prelude.{◌≡◌, length};
    ghost use Rattle.krb_client.specs.Asked.{AsAskedRecord};

    ghost Value = { AsAskedRecord };

    ghost view = { λ a. record { service = a.service.items; nonce = a.nonce; moment = a.moment; agreement = a.agreement } };

    ghost invariant = { λ a. length a.agreement ≡ 64 };
}

impl AsAsked {
    /// What there is to remember of a request for this service, with this nonce, at the moment. `words`: random bytes, 96 or more.
    pub fn new(service: Vec<GeneralStringAsn1>, nonce: u32, moment: Moment, words: &[u8]) -> AsAsked
        requires { AreEnoughForRequest words.now }
        ensures { result ≡ record { service = service.items; nonce = nonce; moment = moment; agreement = agreement_part words.now } }
    {
        let mut agreement = [0; AGREEMENT_SIZE];
        agreement.copy_from_slice(agreement_part(words));
        AsAsked {
            service,
            nonce,
            moment,
            agreement,
        }
    }

    /// The components of the service's name.
    pub fn service(&self) -> &[GeneralStringAsn1]
        ensures { result.now ≡ self.now.service }
    {
        self.service.as_slice()
    }

    /// The nonce.
    pub fn nonce(&self) -> u32
        ensures { result ≡ self.now.nonce }
    {
        self.nonce
    }

    /// The moment.
    pub fn moment(&self) -> Moment
        ensures { result ≡ self.now.moment }
    {
        self.moment
    }

    /// The agreement's random bytes.
    pub fn agreement(&self) -> &[u8]
        ensures value { result.now ≡ self.now.agreement }
        ensures sized { length result.now ≡ 64 }
    {
        self.agreement.as_slice()
    }
}

/// What a client remembers of its request for a service ticket. A contract sees the components of the service's name, the
/// nonce, and the session's key, as its suite and its bytes.
#[derive(Drop)]
pub struct TgsAsked {
    service: Vec<GeneralStringAsn1>,
    nonce: u32,
    key: Key,
}

impl Model for TgsAsked {
    ghost use Rattle.krb_client.specs.Asked.{TgsAskedRecord};

    ghost Value = { TgsAskedRecord };

    ghost view = { λ a. record { service = a.service.items; nonce = a.nonce; suite = a.key.suite; key = a.key.bytes } };
}

impl TgsAsked {
    /// What there is to remember of a request for this service, with this nonce, under a session's key.
    pub fn new(service: Vec<GeneralStringAsn1>, nonce: u32, key: Key) -> TgsAsked
        ensures { result ≡ record { service = service.items; nonce = nonce; suite = key.suite; key = key.bytes } }
    {
        TgsAsked {
            service,
            nonce,
            key,
        }
    }

    /// The components of the service's name.
    pub fn service(&self) -> &[GeneralStringAsn1]
        ensures { result.now ≡ self.now.service }
    {
        self.service.as_slice()
    }

    /// The nonce.
    pub fn nonce(&self) -> u32
        ensures { result ≡ self.now.nonce }
    {
        self.nonce
    }

    /// The session's key.
    pub fn key(&self) -> &Key
        ensures { result.now ≡ record { suite = self.now.suite; bytes = self.now.key } }
    {
        &self.key
    }
}

/// What a client remembers of its request to a service: the session's key, the authenticator's time, and the subkey, if
/// one was chosen, which is of the same suite. A contract sees these, the key as its suite and its bytes.
#[derive(Drop)]
pub struct ApAsked {
    key: Key,
    time: Moment,
    subkey: Option<OctetStringAsn1>,
}

impl Model for ApAsked {
    ghost use Rattle.krb_client.specs.Asked.{ApAskedRecord};

    ghost Value = { ApAskedRecord };

    ghost view = { λ a. record { suite = a.key.suite; key = a.key.bytes; time = a.time; subkey = a.subkey } };
}

impl ApAsked {
    /// What there is to remember of a request under a session's key, with this time and subkey.
    pub fn new(key: Key, time: Moment, subkey: Option<OctetStringAsn1>) -> ApAsked
        ensures { result ≡ record { suite = key.suite; key = key.bytes; time = time; subkey = subkey } }
    {
        ApAsked { key, time, subkey }
    }

    /// The suite of the session's key, and of the subkey.
    pub fn suite(&self) -> CipherSuite
        ensures { result ≡ self.now.suite }
    {
        self.key.suite()
    }

    /// The session's key.
    pub fn key(&self) -> &Key
        ensures { result.now ≡ record { suite = self.now.suite; bytes = self.now.key } }
    {
        &self.key
    }

    /// The authenticator's time.
    pub fn time(&self) -> Moment
        ensures { result ≡ self.now.time }
    {
        self.time
    }

    /// The subkey, if one was chosen.
    pub fn subkey(&self) -> Option<&OctetStringAsn1>
        ensures { option_copied result ≡ self.now.subkey }
    {
        self.subkey.as_ref()
    }
}
