//! Taking the acceptor's answer.
ghost use Rattle.std.specs.Prelude.{◌≡◌, None, Some, Err, IfErr, MatchBool};
ghost use Rattle.gss_acceptor.specs.Answers.{neg_token_resp};
ghost use Rattle.gss_acceptor.specs.declared.answer.NegState.TheVariants.{AcceptCompleted};
ghost use Rattle.gss_initiator.specs.declared.initiated.TokenForm.TheVariants.{Bare};
ghost use Rattle.gss_initiator.specs.declared.refusal.InitiateRefusal.TheVariants.{NoMic};
ghost use Rattle.gss_initiator.specs.Replies.{IsRead};
ghost use Rattle.gss_initiator.specs.Taking.{IsConcluded, IsExchanged, IsVerified, Takes, heard, heard_as, kept, outcome_of, unasked};

use crate::heard::Heard;
use crate::initiated::{Pending, TokenForm};
use crate::refusal::InitiateRefusal;
use gss_acceptor::{NegState, mic_for_mic, neg_token_resp};
use gss_contexts::Context;
use std::alloc::Global;
use std::marker::Model;

/// The DER encoding of the list of mechanisms, which has Kerberos alone.
const LIST: [u8; 13] = [
    0x30, 0x0b, 0x06, 0x09, 0x2a, 0x86, 0x48, 0x86, 0xf7, 0x12, 0x01, 0x02, 0x02,
];

/// The context that an answer establishes.
#[derive(Drop)]
pub struct Taken {
    /// The initiator's end of the context (GSS_S_COMPLETE of RFC 2743, section 1.2.1.1).
    pub context: Context,
    /// The last token to send to the acceptor, if one is due. No answer to it is.
    pub reply: Option<Vec<u8>>,
}

impl Model for Taken {
    ghost use Rattle.std.specs.Option.{option_map};
    ghost use Rattle.gss_initiator.specs.Taking.{TakenRecord};

    ghost Value = { TakenRecord };

    ghost view = { λ t. record { context = t.context; reply = option_map (λ v. v.items) t.reply } };
}

/// An answer that isn't taken: why, and the context that waits for another one.
#[derive(Drop)]
pub struct RefusedAnswer {
    /// Why the answer isn't taken.
    pub refusal: InitiateRefusal,
    /// The context that still waits for the acceptor's answer.
    pub pending: Pending,
}

impl Pending {
    /// Takes the acceptor's answer: a token of Kerberos (RFC 4121, section 4.1), or one of SPNEGO where the first token was (RFC 4178,
    /// section 4.2.2).
    ///
    /// An AP-REP in it shows that the acceptor could open the ticket: it is encrypted under the session key and has the authenticator's
    /// time. The context's key is the acceptor's subkey if there is one, and else the initiator's. SPNEGO's answer has to have the
    /// acceptor's MIC of the list of mechanisms where it asks for the initiator's, which then is in the last token to send (section 5).
    ///
    /// The refusals, in this order: of SPNEGO `NotAToken`, `Rejected`, `OtherMechanism`; of Kerberos' token `NotAToken`, `Refused`,
    /// `NotSealed`, `NotAsked`, `BadSequenceNumber`, `UnknownKey`, `OldSuite`; of the MICs `NoMic`, `Mic`. A refusal gives the
    /// context back as it was: another answer may be taken.
    ///
    /// One answer is taken at most, since the call consumes what waits. Two contexts would send the same numbers under one key.
    pub fn take(self, alloc: Global, token: &[u8]) -> Result<Taken, RefusedAnswer>
        ensures taken { Takes self token.now (outcome_of result) }
        ensures waits { IfErr result (λ refused. refused.pending ≡ self) }
    {
        match self.judge(alloc, token) {
            Ok(taken) => {
                drop(self);
                Ok(taken)
            }
            Err(refusal) => Err(RefusedAnswer {
                refusal,
                pending: self,
            }),
        }
    }

    // The context that the answer establishes, or why there is none.
    fn judge(&self, alloc: Global, token: &[u8]) -> Result<Taken, InitiateRefusal>
        ensures { Takes self.now token.now result }
    {
        match self.heard(alloc, token) {
            Ok(heard) => conclude(alloc, heard),
            Err(refusal) => Err(refusal),
        }
    }

    // What the answer says.
    fn heard(&self, alloc: Global, token: &[u8]) -> Result<Heard, InitiateRefusal>
        ensures { IsRead (heard self.now token.now).gives result }
    {
        match self.form {
            TokenForm::Bare => self.bare(alloc, token),
            TokenForm::Negotiated => self.negotiated(alloc, token),
        }
    }

    // What a token of Kerberos says.
    fn bare(&self, alloc: Global, token: &[u8]) -> Result<Heard, InitiateRefusal>
        ensures { IsRead (heard_as Bare self.now token.now).gives result }
    {
        match self.ended(alloc, token) {
            Ok(context) => Ok(unasked(context)),
            Err(refusal) => Err(refusal),
        }
    }
}

// A context that no MIC is due of.
fn unasked(context: Context) -> Heard
    ensures { result ≡ unasked context }
{
    Heard {
        context,
        is_due: false,
        mic: None,
    }
}

// Ends with the context, and takes the acceptor's MIC, if there is one.
fn conclude(alloc: Global, heard: Heard) -> Result<Taken, InitiateRefusal>
    ensures { IsConcluded heard result }
{
    let Heard {
        context,
        is_due,
        mic,
    } = heard;
    match mic {
        Some(mic) => {
            let concluded = take_mic(alloc, context, is_due, mic.as_bytes());
            drop(mic);
            concluded
        }
        None => without_mic(context, is_due),
    }
}

// Ends with the context without a MIC, if none is due.
fn without_mic(context: Context, is_due: bool) -> Result<Taken, InitiateRefusal>
    ensures { MatchBool is_due (result ≡ Err NoMic) (result ≡ kept context None) }
{
    if is_due {
        drop(context);
        return Err(InitiateRefusal::NoMic);
    }
    Ok(Taken {
        context,
        reply: None,
    })
}

// Takes the acceptor's MIC, and makes the initiator's, if it is due.
fn take_mic(
    alloc: Global,
    context: Context,
    is_due: bool,
    mic: &[u8],
) -> Result<Taken, InitiateRefusal>
    ensures { MatchBool is_due (IsExchanged context mic.now result) (IsVerified context mic.now result) }
{
    if is_due {
        exchanged(alloc, context, mic)
    } else {
        verified(alloc, context, mic)
    }
}

// Takes the acceptor's MIC.
fn verified(alloc: Global, mut context: Context, mic: &[u8]) -> Result<Taken, InitiateRefusal>
    ensures { IsVerified context mic.now result }
{
    match context.verify_mic(alloc, &LIST, mic) {
        Ok(()) => Ok(Taken {
            context,
            reply: None,
        }),
        Err(cause) => {
            drop(context);
            Err(InitiateRefusal::Mic(cause))
        }
    }
}

// Takes the acceptor's MIC, and makes the initiator's, with the last token.
fn exchanged(alloc: Global, mut context: Context, mic: &[u8]) -> Result<Taken, InitiateRefusal>
    ensures { IsExchanged context mic.now result }
{
    match mic_for_mic(alloc, &mut context, &LIST, mic) {
        Ok(own) => completed(alloc, context, own),
        Err(cause) => {
            drop(context);
            Err(InitiateRefusal::Mic(cause))
        }
    }
}

// Ends with the context, and the last token.
fn completed(alloc: Global, context: Context, own: Vec<u8>) -> Result<Taken, InitiateRefusal>
    ensures { IsRead (λ given. given ≡ kept context (Some (neg_token_resp AcceptCompleted None None (Some own.items)))) result }
{
    match neg_token_resp(alloc, NegState::AcceptCompleted, None, None, Some(own)) {
        Ok(reply) => Ok(Taken {
            context,
            reply: Some(reply),
        }),
        Err(_) => {
            drop(context);
            Err(InitiateRefusal::Memory)
        }
    }
}
