//! What a realm knows, without any message: its settings, the rules for names, and the accounts.
//!
//! `Accounts` is a finite map from the components of a name to an account. `Settings::new`, `Account::by_key`, `realm_name_of` and
//! `components_of` refuse by the rules of settings, keys and names, and only by them. `Accounts::change_key` gives a key the next kvno, and
//! refuses where the kvno is the greatest; `Account::keeping` keeps the keys before it, whose kvnos are less and less. `password_salt` is
//! the realm followed by the components. `pack` puts texts into a block of octets, and a block has one list of texts (`unpacked-packed`).
#![tactic(auto)]

mod account;
mod account_key;
mod accounts;
mod attributes;
mod limits;
mod names;
mod packed;
mod passwords;
mod policy;
mod refusal;
mod settings;

pub use account::Account;
pub use account_key::{AccountKey, are_falling};
pub use accounts::Accounts;
pub use attributes::{Attributes, NO_ATTRIBUTES};
pub use limits::FORMER_LIMIT;
pub use names::{
    CHARACTER_LIMIT, COMPONENT_LIMIT, are_components, components_of, is_realm_name, realm_name_of,
};
pub use packed::{BLOCK_ROOM, pack, pack_within};
pub use passwords::password_salt;
pub use policy::{NO_POLICY, Policy};
pub use refusal::RealmRefusal;
pub use settings::{LIFETIME_LIMIT, SKEW_LIMIT, Settings, USUAL_LIFETIME, USUAL_SKEW};
