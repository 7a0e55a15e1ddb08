//! Signed data of the Cryptographic Message Syntax as it is sent (RFC 5652, section 5): one content and one signer, SHA-1 or SHA-2, signers
//! by issuer and serial number or by subject key identifier, any certificates, and any further signed attributes.

mod any_algorithm;
mod attributes;
mod certificates;
mod content;
mod digest_algorithm;
mod form;
mod general_info;
mod general_signed;
mod general_signer;
mod identifier;
pub mod laws;

pub use any_algorithm::AnyAlgorithm;
pub use attributes::{GeneralAttribute, GeneralAttributes};
pub use certificates::CertificateElements;
pub use content::GeneralContent;
pub use digest_algorithm::DigestAlgorithm;
pub use general_info::GeneralInfo;
pub use general_signed::GeneralSigned;
pub use general_signer::GeneralSigner;
pub use identifier::names;
