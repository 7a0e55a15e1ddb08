//! Signed data of the Cryptographic Message Syntax (RFC 5652, section 5), of the one form that PKINIT needs: one content, one
//! certificate, one signer, SHA-256, and the signed attributes content-type and message-digest.
//!
//! The types are read like those of X.509: the certificate and the algorithms may deviate from DER, and the deviations are
//! counted. [`OfForm`] judges what the types leave open: versions, identifiers and algorithms.
//!
//! [`SignedContent::read`] takes signed data of that form. It borrows content, certificate, signed attributes, digest and signature
//! from the bytes. Whether the signature verifies, and whether the digest is the content's, is for the caller to judge. The module
//! `general_form` reads signed data as it is sent.
//!
//! Each type is read from each accepted spelling, its deviations are counted, and it is written in DER (`Spelled`). `OfForm::is_of_form`
//! is true exactly of the values of the one form (`has_form`). The places of certificate, content, signed attributes, digest and signature
//! in the bytes follow from the spelling (law `parts_held` in `specs/`). The parts are returned exactly where the bytes are signed content
//! of the one form (`SignedContent::read`). Each slice is the part of the input at its path, and `covered` is the part of the signed
//! attributes with the first octet 31. `SignedContent::write` writes that form around the given certificate's own bytes, and it is read
//! back (law `written_is_read`). Its `None` says that the party doesn't sign, and `Unreadable` that the bytes are no certificate.
//! [`general_form::DigestAlgorithm::named`] is the digest algorithm that an identifier names with no parameters or NULL (RFC 3370, section
//! 2.1; RFC 5754, section 2). [`general_form::GeneralContent::read`] takes signed data as it is sent, and nothing else
//! (`IsGeneralContent`). Certificates, the signer's identifier and the signature's algorithm are held as whole elements, so that what
//! deviates from DER in them stays in them. All else is DER. The digest algorithm is one of SHA-1, SHA-256, SHA-384 and SHA-512; whether
//! it is taken is for the caller to judge, and so is the signature. [`general_form::names`] says whether a signer's identifier names a
//! certificate. Bytes are one such content at most (law `one_general_content`). Signed content of the one form is such content, with the
//! same parts (law `one_form_is_general`).
#![tactic(auto)]

mod around;
mod assembling;
mod content_info;
mod encapsulated_content_info;
mod fault;
mod form;
pub mod general_form;
pub mod laws;
mod set_of_one;
mod signed_attributes;
mod signed_content;
mod signed_data;
mod signer_info;
mod slices;
mod written_parts;

pub use content_info::ContentInfo;
pub use encapsulated_content_info::EncapsulatedContentInfo;
pub use fault::SignedFault;
pub use form::OfForm;
pub use set_of_one::SetOfOne;
pub use signed_attributes::{ContentTypeAttribute, MessageDigestAttribute, SignedAttributes};
pub use signed_content::SignedContent;
pub use signed_data::SignedData;
pub use signer_info::{IssuerAndSerialNumber, SignerInfo};
