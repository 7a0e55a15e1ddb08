//! Tokens of the Kerberos mechanism that establish a context (RFC 4121, section 4.1).
ghost use Rattle.std.specs.Prelude.{◌≡◌, ◌++◌, ℕ, List, IfOk, MatchOption};
ghost use Rattle.asn1_der.specs.Length.{element};
ghost use Rattle.krb_constants.specs.declared.gss_api.TheConstants.{INITIAL_TOKEN};
ghost use Rattle.gss_acceptor.specs.Tokens.{IsApReqToken, ap_rep_token, ap_req_front};

use crate::elements::{element_of, joined};
use krb_constants::gss_api::INITIAL_TOKEN;
use picky_asn1_der::split_element;
use std::alloc::{AllocError, Global};

/// The octets before an AP-REQ in its token: the mechanism's identifier, and the token id (RFC 4121, section 4.1).
pub const AP_REQ_FRONT: [u8; 13] = [
    0x06, 0x09, 0x2a, 0x86, 0x48, 0x86, 0xf7, 0x12, 0x01, 0x02, 0x02, 0x01, 0x00,
];

/// The octets before an AP-REP in its token (RFC 4121, section 4.1).
pub const AP_REP_FRONT: [u8; 13] = [
    0x06, 0x09, 0x2a, 0x86, 0x48, 0x86, 0xf7, 0x12, 0x01, 0x02, 0x02, 0x02, 0x00,
];

/// Returns the AP-REQ in a token of Kerberos, if the octets are one.
pub(crate) fn ap_req_in(token: &[u8]) -> Option<&[u8]>
    ensures { MatchOption result ((request : List ℕ) → IsApReqToken token.now request → ⊥) (λ request. IsApReqToken token.now request.now) }
{
    let content = content_of(token)?;
    request_in(content)
}

/// Returns the content of a token that establishes a context, if the octets are one (RFC 2743, section 3.1).
pub fn content_of(token: &[u8]) -> Option<&[u8]>
    ensures { MatchOption result ((content : List ℕ) → token.now ≡ element INITIAL_TOKEN content → ⊥) (λ content. token.now ≡ element INITIAL_TOKEN content.now) }
{
    let (element, rest) = match split_element(token) {
        Ok(split) => split,
        Err(_) => return None,
    };
    if u8::from(element.tag()) != INITIAL_TOKEN {
        return None;
    }
    if rest.is_empty() {
        return Some(element.content());
    }
    None
}

// Returns the octets after mechanism and token id of an AP-REQ, if the content begins with these.
fn request_in(content: &[u8]) -> Option<&[u8]>
    ensures { MatchOption result ((request : List ℕ) → content.now ≡ ap_req_front ++ request → ⊥) (λ request. content.now ≡ ap_req_front ++ request.now) }
{
    match content.strip_prefix(&AP_REQ_FRONT) {
        Some(request) => Some(request),
        None => None,
    }
}

/// Makes the token of an AP-REP.
pub(crate) fn ap_rep_token(alloc: Global, reply: &[u8]) -> Result<Vec<u8>, AllocError>
    ensures { IfOk result (λ token. token.items ≡ ap_rep_token reply.now) }
{
    let content = joined(alloc, &AP_REP_FRONT, reply)?;
    element_of::<INITIAL_TOKEN>(alloc, content)
}
