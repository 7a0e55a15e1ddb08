//! The answers to an initiator: tokens of Kerberos, and of SPNEGO.
ghost use Rattle.std.specs.Prelude.{◌≡◌, IfOk};
ghost use Rattle.std.specs.Option.{option_map};
ghost use Rattle.gss_acceptor.specs.Answers.{ap_rep_in, neg_token_resp, octets_field, state_element, state_field, supported_field};

use crate::elements::{element_of, joined};
use crate::mechanism::Mechanism;
use crate::token::ap_rep_token;
use asn1_der::octets::{
    CONTEXT_0, CONTEXT_1, CONTEXT_2, CONTEXT_3, OBJECT_IDENTIFIER, OCTET_STRING, SEQUENCE,
};
use krb_constants::gss_api::{ACCEPT_COMPLETE, ACCEPT_INCOMPLETE, REQUEST_MIC};
use std::alloc::{AllocError, Global};

/// Where a negotiation stands (RFC 4178, section 4.2.2).
#[derive(Clone, Copy, Debug, PartialEq, Eq)]
pub enum NegState {
    /// The context is established, and no further token is due.
    AcceptCompleted,
    /// A further token of the initiator is due.
    AcceptIncomplete,
    /// A further token is due, and MICs of the list of mechanisms are.
    RequestMic,
}

impl NegState {
    /// The element of the state.
    fn element(self) -> [u8; 3]
        ensures { result ≡ state_element self }
    {
        match self {
            NegState::AcceptCompleted => ACCEPT_COMPLETE,
            NegState::AcceptIncomplete => ACCEPT_INCOMPLETE,
            NegState::RequestMic => REQUEST_MIC,
        }
    }

    /// The element of `negState`.
    fn field(self) -> [u8; 5]
        ensures { result ≡ state_field self }
    {
        let mut field = [CONTEXT_0, 3, 0, 0, 0];
        field[2..].copy_from_slice(&self.element());
        field
    }
}

/// The token of an AP-REP, if there is one.
pub(crate) fn ap_rep_in(
    alloc: Global,
    reply: Option<Vec<u8>>,
) -> Result<Option<Vec<u8>>, AllocError>
    ensures { IfOk result (λ token. option_map (λ v. v.items) token ≡ ap_rep_in (option_map (λ v. v.items) reply)) }
{
    let Some(reply) = reply else {
        return Ok(None);
    };
    let token = ap_rep_token(alloc, reply.as_slice())?;
    Ok(Some(token))
}

/// An answer of SPNEGO: the state, and what there is of the mechanism's identifier, its token and a MIC of the list of mechanisms.
pub fn neg_token_resp(
    alloc: Global,
    state: NegState,
    supported: Option<Mechanism>,
    token: Option<Vec<u8>>,
    mic: Option<Vec<u8>>,
) -> Result<Vec<u8>, AllocError>
    ensures { IfOk result (λ answer. answer.items ≡ neg_token_resp state supported (option_map (λ v. v.items) token) (option_map (λ v. v.items) mic)) }
{
    let token = octets_field::<CONTEXT_2>(alloc, token)?;
    let mic = octets_field::<CONTEXT_3>(alloc, mic)?;
    let tokens = joined(alloc, &token, &mic)?;
    let supported = supported_field(alloc, supported)?;
    let behind = joined(alloc, &supported, &tokens)?;
    let fields = joined(alloc, &state.field(), &behind)?;
    let sequence = element_of::<SEQUENCE>(alloc, fields)?;
    element_of::<CONTEXT_1>(alloc, sequence)
}

// The element of `supportedMech`, or nothing.
fn supported_field(alloc: Global, supported: Option<Mechanism>) -> Result<Vec<u8>, AllocError>
    ensures { IfOk result (λ field. field.items ≡ supported_field supported) }
{
    let Some(mechanism) = supported else {
        return Ok(Vec::new(alloc));
    };
    let octets = Vec::from_slice(alloc, &mechanism.octets())?;
    let identifier = element_of::<OBJECT_IDENTIFIER>(alloc, octets)?;
    element_of::<CONTEXT_1>(alloc, identifier)
}

// The element of `responseToken` or `mechListMIC`, or nothing.
fn octets_field<const TAG: u8>(
    alloc: Global,
    octets: Option<Vec<u8>>,
) -> Result<Vec<u8>, AllocError>
    ensures { IfOk result (λ field. field.items ≡ octets_field TAG (option_map (λ v. v.items) octets)) }
{
    let Some(octets) = octets else {
        return Ok(Vec::new(alloc));
    };
    let string = element_of::<OCTET_STRING>(alloc, octets)?;
    element_of::<TAG>(alloc, string)
}
