//! Algorithm agility of PKINIT (RFC 8636): an AuthPack with fields that later documents add, the key derivation function that a KDC
//! chooses, its name in the reply, and the reply key that it gives.

mod asked_pack;
mod auth_pack;
mod authenticator;
mod chosen_kdf;
mod context;
mod counted;
mod derived;
mod dh_rep_info;
mod fields;
mod further;
mod info_octets;
mod kdf;
mod kdf_algorithm_id;
mod other_info;
mod party;
mod party_name;
mod reading;
mod reply;

pub use asked_pack::AgileAuthPack;
pub use auth_pack::ExtensibleAuthPack;
pub use authenticator::ExtensiblePkAuthenticator;
pub use chosen_kdf::first_known;
pub use context::KdfContext;
pub use derived::derived_key;
pub use dh_rep_info::{AgileDhRepInfo, ChosenKdf};
pub use further::{FurtherField, ascend};
pub use kdf::Kdf;
pub use kdf_algorithm_id::KdfAlgorithmId;
pub use other_info::{KdfAlgorithm, OtherInfo, SuppPubInfo};
pub use party_name::PartyName;
pub use reading::read_auth_pack;
pub use reply::agile_reply_bytes;
