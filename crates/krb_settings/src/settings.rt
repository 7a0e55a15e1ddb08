//! What a settings file says of a realm and its accounts.

use krb_crypto::CipherSuite;

/// What an account's key is made of. It can't be shown.
#[derive(Drop)]
pub enum Secret {
    /// A password, with the salt of the principal.
    Password(Vec<u8>),
    /// The key itself.
    Key(Vec<u8>),
}

/// An account, as a settings file has it. Whether a realm takes its name and key is judged by the realm.
#[derive(Drop)]
pub struct AccountSettings {
    /// The components of its name.
    pub name: Vec<Vec<u8>>,
    /// The suite of its key.
    pub suite: CipherSuite,
    /// Its password or its key.
    pub secret: Secret,
}

/// A realm, as a settings file has it. Whether these are the name, key and settings of a realm is judged by the realm.
#[derive(Drop)]
pub struct RealmSettings {
    /// The realm's name.
    pub name: Vec<u8>,
    /// The suite of its ticket-granting service.
    pub suite: CipherSuite,
    /// The key of its ticket-granting service.
    pub key: Vec<u8>,
    /// How many seconds clocks may differ.
    pub skew: u64,
    /// How many seconds a ticket lasts at most.
    pub lifetime: u64,
    /// The accounts, in the file's order.
    pub accounts: Vec<AccountSettings>,
}
