//! Clients.
ghost use Rattle.std.specs.Prelude.{◌≡◌, Err, IfOk};
ghost use Rattle.krb_realm_accounts.specs.Names.{AreComponents, IsRealmName, parts};

use crate::by_key::ByKey;
use crate::refusal::AskRefusal;
use krb_crypto::{CipherSuite, Key};
use krb_realm_accounts::{
    are_components, components_of, is_realm_name, password_salt, realm_name_of,
};
use picky_asn1::wrapper::GeneralStringAsn1;
use std::alloc::{AllocError, Global};
use std::marker::Model;

/// A client: its realm, its name, and the suite that it asks for. A contract sees these, the name as its components. How it
/// authenticates itself is beside it (`Means`).
#[derive(Drop)]
pub struct Client {
    realm: GeneralStringAsn1,
    name: Vec<GeneralStringAsn1>,
    suite: CipherSuite,
}

impl Model for Client {
    ghost use Rattle.std.specs.Prelude.{IsTrue};
    ghost use Rattle.krb_realm_accounts.specs.Names.{are_components, is_realm_name};
    ghost use Rattle.krb_client.specs.Client.{ClientRecord};

    ghost Value = { ClientRecord };

    ghost view = { λ c. record { realm = c.realm; components = c.name.items; suite = c.suite } };

    ghost invariant = { λ c. IsTrue (is_realm_name c.realm) × IsTrue (are_components c.name.items) };
}

impl Client {
    ghost use Rattle.krb_client.specs.ByPassword.{client_by_password};
    ghost use Rattle.krb_client.specs.Client.{client_named};
    ghost use Rattle.krb_client.specs.Refusals.{IsMemoryAside};
    ghost use Rattle.krb_client.specs.declared.refusal.AskRefusal.{AskRefusal};

    /// The client of this name, which asks for tickets and keys of this suite.
    ///
    /// A realm of 1 to 255 characters below 128 and a name of 1 to 16 such components are accepted; others are refused.
    pub fn new(
        alloc: Global,
        realm: &[u8],
        name: &[Vec<u8>],
        suite: CipherSuite,
    ) -> Result<Client, AskRefusal>
        ensures made { IsMemoryAside result (client_named realm.now (parts name.now) suite) }

        // Running out of memory hides no other refusal.
        ensures first { (refusal : AskRefusal) → client_named realm.now (parts name.now) suite ≡ Err refusal → result ≡ Err refusal }
    {
        if !is_realm_name(realm) {
            return Err(AskRefusal::BadName);
        }
        if !are_components(name) {
            return Err(AskRefusal::BadName);
        }
        let client = Client::named(alloc, realm, name, suite)?;
        Ok(client)
    }

    /// The client of names that are names (`is_realm_name`, `are_components`). Fails only if memory runs out.
    pub fn named(
        alloc: Global,
        realm: &[u8],
        name: &[Vec<u8>],
        suite: CipherSuite,
    ) -> Result<Client, AllocError>
        requires realm { IsRealmName realm.now }
        requires name { AreComponents (parts name.now) }
        ensures { IfOk result (λ client. client ≡ record { realm = realm.now; components = parts name.now; suite = suite }) }
    {
        let Ok(realm) = realm_name_of(alloc, realm) else {
            return Err(AllocError);
        };
        let Ok(name) = components_of(alloc, name) else {
            return Err(AllocError);
        };
        Ok(Client { realm, name, suite })
    }

    /// The client with this password, and its means. Its key is that of the password and a salt, which is the realm and behind
    /// it the name's components (RFC 4120, section 4).
    ///
    /// A realm of 1 to 255 characters below 128 and a name of 1 to 16 such components are accepted; others are refused.
    pub fn by_password(
        alloc: Global,
        realm: &[u8],
        name: &[Vec<u8>],
        suite: CipherSuite,
        password: &[u8],
    ) -> Result<(Client, ByKey), AskRefusal>
        ensures made { IsMemoryAside result (client_by_password realm.now (parts name.now) suite password.now) }

        // Running out of memory hides no other refusal.
        ensures first { (refusal : AskRefusal) → client_by_password realm.now (parts name.now) suite password.now ≡ Err refusal → result ≡ Err refusal }
    {
        if !is_realm_name(realm) {
            return Err(AskRefusal::BadName);
        }
        if !are_components(name) {
            return Err(AskRefusal::BadName);
        }
        let salt = password_salt(alloc, realm, name)?;
        // The salt isn't empty, so memory is the only refusal.
        let Ok(key) = Key::of_password(alloc, suite, password, &salt) else {
            return Err(AskRefusal::Memory);
        };
        let client = Client::named(alloc, realm, name, suite)?;
        Ok((client, ByKey { key }))
    }

    /// Realm and name are names. It does nothing when it runs: its contract states this of a client that a caller was handed.
    pub fn is_well_formed(&self)
        ensures realm { IsRealmName self.now.realm }
        ensures name { AreComponents self.now.components }
    {
        let _suite = self.suite;
    }

    /// The realm.
    pub fn realm(&self) -> &GeneralStringAsn1
        ensures { result.now ≡ self.now.realm }
    {
        &self.realm
    }

    /// The components of the name.
    pub fn components(&self) -> &[GeneralStringAsn1]
        ensures { result.now ≡ self.now.components }
    {
        self.name.as_slice()
    }

    /// The suite.
    pub fn suite(&self) -> CipherSuite
        ensures { result ≡ self.now.suite }
    {
        self.suite
    }
}
