//! Public and private keys of X.509 (RFC 5280, section 4.1.2.7; RFC 8017; RFC 5958; RFC 5915; RFC 8410): of RSA, of elliptic curves and
//! of ML-DSA. And the trait by which a party signs, verifies and agrees on keys by them (RFC 4556, sections 3.2.1 to 3.2.4): the
//! cipher's arithmetic is the user's own.
//!
//! A key is read only of the kind that the algorithm's identifier decides. Its deviations are counted, and it is written in DER (`Spelled`
//! of `SubjectPublicKeyInfo` and `PrivateKeyInfo`). The version of a private key is v2 exactly where a public key is present.
//! `SubjectPublicKeyInfo::new` and `new_ed_key` refuse a key of another kind as `Meaning`. The other makers return what their names say
//! (`AreMade`), and the readers return the fields. The four functions of a `KeyFunctions` are functions of their arguments: equal
//! arguments have equal answers, unless memory runs out. What is signed names an algorithm that has an encoding, and each algorithm that a
//! program holds has one (law `has_encoding`). With `NoKeys` no signature verifies, and the other functions return `None`. Nothing else is
//! proved of what an implementation computes.
#![tactic(auto)]

mod ec_private_key;
mod encoding;
mod functions;
mod key_identifiers;
mod lent;
mod new_private_keys;
mod no_keys;
mod private_key_fields;
mod private_key_info;
mod private_key_value;
mod public_key;
mod rsa_private_key;
mod rsa_public_key;
mod signature_algorithm;
mod subject_public_key_info;

pub use ec_private_key::{ECPrivateKey, EncapsulatedEcSecret};
pub use encoding::has_encoding;
pub use functions::{KeyFunctions, Signed, Theirs};
pub use key_identifiers::{EcIdentifiers, EdIdentifiers, MldsaIdentifiers, RsaIdentifiers};
pub use no_keys::NoKeys;
pub use private_key_fields::PrivateKeyFields;
pub use private_key_info::{
    PRIVATE_KEY_INFO_VERSION_1, PRIVATE_KEY_INFO_VERSION_2, PrivateKeyInfo,
};
pub use private_key_value::{PrivateKeyValue, PrivateKinds, PublicKeyField};
pub use public_key::{
    EcPoint, EncapsulatedEcPoint, EncapsulatedMldsaPublicKey, PublicKey, PublicKinds,
};
pub use rsa_private_key::RsaPrivateKey;
pub use rsa_public_key::{EncapsulatedRsaPublicKey, RsaPublicKey};
pub use signature_algorithm::SignatureAlgorithm;
pub use subject_public_key_info::SubjectPublicKeyInfo;
