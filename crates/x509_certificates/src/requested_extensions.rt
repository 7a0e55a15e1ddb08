//! Extensions that a certificate is requested with (RFC 2985, section 5.4.2).
use crate::{Extensions, SpelledList};
use asn1_der::octets::SET;

/// The values of an extension request, each a list of extensions.
///
/// ```text
/// extensionRequest ATTRIBUTE ::= {
///         WITH SYNTAX ExtensionRequest
///         SINGLE VALUE TRUE
///         ID pkcs-9-at-extensionRequest }
///
/// ExtensionRequest ::= Extensions
/// ```
///
/// Any number of them is read.
pub type RequestedExtensions = SpelledList<SET, Extensions>;
