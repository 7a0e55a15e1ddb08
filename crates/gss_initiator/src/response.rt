//! The acceptor's answer of SPNEGO (RFC 4178, section 4.2.2).
ghost use Rattle.std.specs.Prelude.{◌≡◌};
ghost use Rattle.std.specs.Option.{option_copied};
ghost use Rattle.gss_initiator.specs.Replies.{IsRead};
ghost use Rattle.gss_initiator.specs.Responses.{answer_in, due_by, due_in, judged_answer, names_other, negotiated, responded, settled, settled_by, settled_with, settled_without};

use crate::heard::Heard;
use crate::initiated::Pending;
use crate::refusal::InitiateRefusal;
use gss_acceptor::{kerberos_in, octets_in};
use gss_contexts::{Context, MechType, NegTokenTarg, NegTokenTarg1};
use krb_constants::gss_api::{ACCEPT_COMPLETE, ACCEPT_INCOMPLETE, REJECT, REQUEST_MIC};
use picky_asn1::wrapper::OctetStringAsn1;
use picky_asn1_der::{Asn1RawDer, ExplicitContextTag, read_whole};
use std::alloc::Global;

/// What an answer of SPNEGO says, with its tokens.
#[derive(Drop)]
pub(crate) struct Answer {
    /// Whether a further token of the initiator is due.
    pub(crate) is_due: bool,
    /// Kerberos' token.
    pub(crate) token: Option<OctetStringAsn1>,
    /// The acceptor's MIC of the list of mechanisms.
    pub(crate) mic: Option<OctetStringAsn1>,
}

impl Pending {
    /// What an answer of SPNEGO says.
    pub(crate) fn negotiated(&self, alloc: Global, token: &[u8]) -> Result<Heard, InitiateRefusal>
        ensures { IsRead (negotiated self.now token.now).gives result }
    {
        match responded(alloc, token) {
            Ok(answer) => self.settled_by(alloc, answer),
            Err(refusal) => Err(refusal),
        }
    }

    // What an answer says that was read.
    fn settled_by(&self, alloc: Global, answer: Answer) -> Result<Heard, InitiateRefusal>
        ensures { IsRead (settled_by self.now answer).gives result }
    {
        let Answer { is_due, token, mic } = answer;
        let settled = self.settled(alloc, &token);
        drop(token);
        match settled {
            Ok(context) => Ok(Heard {
                context,
                is_due,
                mic,
            }),
            Err(refusal) => {
                drop(mic);
                Err(refusal)
            }
        }
    }

    // The context that the answer's token makes.
    fn settled(
        &self,
        alloc: Global,
        token: &Option<OctetStringAsn1>,
    ) -> Result<Context, InitiateRefusal>
        ensures { IsRead (settled self.now token.now).gives result }
    {
        match token {
            Some(token) => self.settled_with(alloc, token.as_bytes()),
            None => self.settled_without(),
        }
    }

    // The context that the token makes, which is due where mutual authentication was asked for.
    fn settled_with(&self, alloc: Global, token: &[u8]) -> Result<Context, InitiateRefusal>
        ensures { IsRead (settled_with self.now token.now).gives result }
    {
        if !self.is_mutual {
            return Err(InitiateRefusal::NotAToken);
        }
        self.ended(alloc, token)
    }

    // The context without a token, where none is due.
    fn settled_without(&self) -> Result<Context, InitiateRefusal>
        ensures { IsRead (settled_without self.now).gives result }
    {
        if self.is_mutual {
            return Err(InitiateRefusal::NotAToken);
        }
        self.own_context()
    }
}

// Reads an answer.
fn responded(alloc: Global, token: &[u8]) -> Result<Answer, InitiateRefusal>
    ensures { IsRead (responded token.now).gives result }
{
    let read: Option<NegTokenTarg1> = read_whole(alloc, token)?;
    match read {
        Some(message) => answer_in(message.0),
        None => Err(InitiateRefusal::NotAToken),
    }
}

// What a message says, with its tokens.
fn answer_in(mut message: NegTokenTarg) -> Result<Answer, InitiateRefusal>
    ensures { result ≡ answer_in message }
{
    let judged = judged_answer(&message);
    let token = octets_in(message.response_token.0.take());
    let mic = octets_in(message.mech_list_mic.0.take());
    drop(message);
    match judged {
        Ok(is_due) => Ok(Answer { is_due, token, mic }),
        Err(refusal) => {
            drop(token);
            drop(mic);
            Err(refusal)
        }
    }
}

// Judges state and mechanism: whether a further token is due.
fn judged_answer(message: &NegTokenTarg) -> Result<bool, InitiateRefusal>
    ensures { result ≡ judged_answer message.now }
{
    let is_due = due_in(&message.neg_result.0)?;
    if names_other(&message.supported_mech.0) {
        return Err(InitiateRefusal::OtherMechanism);
    }
    Ok(is_due)
}

// Whether a further token is due by the state.
fn due_in(state: &Option<ExplicitContextTag<0, Asn1RawDer>>) -> Result<bool, InitiateRefusal>
    ensures { result ≡ due_in state.now }
{
    match state {
        Some(state) => due_by(state.0.as_bytes()),
        None => Err(InitiateRefusal::NotAToken),
    }
}

// Whether a further token is due by the element of the state.
fn due_by(octets: &[u8]) -> Result<bool, InitiateRefusal>
    ensures { result ≡ due_by octets.now }
{
    if octets == ACCEPT_COMPLETE.as_slice() {
        return Ok(false);
    }
    if octets == ACCEPT_INCOMPLETE.as_slice() {
        return Ok(true);
    }
    if octets == REQUEST_MIC.as_slice() {
        return Ok(true);
    }
    if octets == REJECT.as_slice() {
        return Err(InitiateRefusal::Rejected);
    }
    Err(InitiateRefusal::NotAToken)
}

// Whether a mechanism is named that isn't Kerberos.
fn names_other(mechanism: &Option<ExplicitContextTag<1, MechType>>) -> bool
    ensures { result ≡ names_other mechanism.now }
{
    match mechanism {
        Some(mechanism) => kerberos_in(&mechanism.0).is_none(),
        None => false,
    }
}
