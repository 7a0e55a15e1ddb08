//! Identifiers of algorithms with their parameters, and of digests, each with its spellings (RFC 5280, section 4.1.1.2). Parameters are
//! hashes, RSASSA-PSS, curves and AES (RFC 8017, RFC 5480, RFC 5084).
//!
//! An algorithm, a digest, a hash and the parameters of RSASSA-PSS are read from each accepted spelling, their deviations are counted, and
//! they are written in DER (`Spelled`). Curves and parameters of AES are read if and only if the bytes are their DER (`Exact`). The
//! parameters are of the kind that the class of the algorithm's identifier decides. Each maker of `AlgorithmIdentifier` returns the
//! identifier and the parameters that its name says (`IsMade`). `HashAlgorithm::identifier` and `ShaVariant::identifier` return the object
//! identifier of the hash.
#![tactic(auto)]

mod aes_parameters;
mod algorithm_class;
mod algorithm_identifier;
mod algorithm_kinds;
mod arcs;
mod digest_info;
mod ec_parameters;
mod hash_algorithm;
mod hash_identifier;
mod hash_spelling;
mod identified;
mod mask_gen_algorithm;
mod named;
mod new_others;
mod new_rsa;
mod null;
mod rsassa_pss_params;
mod sha_variant;
mod unsupported;

pub use aes_parameters::{AesAuthEncParams, AesMode, AesParameters};
pub use algorithm_class::{
    AesCiphers, CurveKeys, Hashes, PlainAlgorithms, PssSignatures, RsaAlgorithms, Signatures,
};
pub use algorithm_identifier::AlgorithmIdentifier;
pub use algorithm_kinds::{AlgorithmIdentifierParameters, AlgorithmKinds};
pub use arcs::octet_behind;
pub use digest_info::DigestInfo;
pub use ec_parameters::EcParameters;
pub use hash_algorithm::{HashAlgorithm, HashOid};
pub use hash_identifier::HashIdentifier;
pub use mask_gen_algorithm::{MaskGenAlgorithm, Mgf1Oid};
pub use named::{PlainAlgorithm, RsaAlgorithm};
pub use null::{HashNull, NoNull, Null, NullRule, RsaNull};
pub use rsassa_pss_params::RsassaPssParams;
pub use sha_variant::ShaVariant;
pub use unsupported::UnsupportedAlgorithmError;
