//! The acceptor's token of Kerberos (RFC 4121, section 4.1).
ghost use Rattle.std.specs.Prelude.{◌≡◌, ◌++◌, ℕ, List, MatchOption};
ghost use Rattle.gss_acceptor.specs.Tokens.{ap_rep_front};
ghost use Rattle.gss_initiator.specs.Replies.{IsRead, IsTokenOf, answered, by_error, ended, error_front, failed, opened, replied, told};

use crate::initiated::Pending;
use crate::refusal::InitiateRefusal;
use gss_acceptor::{AP_REP_FRONT, content_of};
use gss_contexts::Context;
use krb_client::{ApAsked, is_of_type, open_ap_part, read_ap_reply, read_error_code, tells};
use krb_constants::types::AP_REP_MSG_TYPE;
use krb_messages::data_types::EncApRepPartInner;
use krb_messages::messages::ApRepInner;
use std::alloc::Global;

/// The length of the octets before a message in its token.
const FRONT: usize = 13;

/// The octets before a KRB-ERROR in its token (RFC 4121, section 4.1).
const ERROR_FRONT: [u8; FRONT] = [
    0x06, 0x09, 0x2a, 0x86, 0x48, 0x86, 0xf7, 0x12, 0x01, 0x02, 0x02, 0x03, 0x00,
];

impl Pending {
    /// The context that the acceptor's token makes.
    pub(crate) fn ended(&self, alloc: Global, token: &[u8]) -> Result<Context, InitiateRefusal>
        ensures { IsRead (ended self.now token.now).gives result }
    {
        match answered(alloc, &self.asked, token) {
            Ok(part) => {
                let context = self.context_by(&part);
                drop(part);
                context
            }
            Err(refusal) => Err(refusal),
        }
    }
}

// The part of the AP-REP in a token.
fn answered(
    alloc: Global,
    asked: &ApAsked,
    token: &[u8],
) -> Result<EncApRepPartInner, InitiateRefusal>
    ensures { IsRead (answered asked.now token.now).gives result }
{
    match message_in(token, &AP_REP_FRONT) {
        Some(message) => replied(alloc, asked, message),
        None => by_error(alloc, token),
    }
}

// The refusal of a token that has no AP-REP.
fn by_error(alloc: Global, token: &[u8]) -> Result<EncApRepPartInner, InitiateRefusal>
    ensures { IsRead (by_error token.now).gives result }
{
    match message_in(token, &ERROR_FRONT) {
        Some(message) => failed(alloc, message),
        None => Err(InitiateRefusal::NotAToken),
    }
}

// The message after these octets in a token.
fn message_in<'a>(token: &'a [u8], front: &[u8]) -> Option<&'a [u8]>
    ensures { MatchOption result ((message : List ℕ) → IsTokenOf front.now token.now message → ⊥) (λ message. IsTokenOf front.now token.now message.now) }
{
    let content = content_of(token)?;
    message_behind(content, front)
}

// The message after these octets in a token's content.
fn message_behind<'a>(content: &'a [u8], front: &[u8]) -> Option<&'a [u8]>
    ensures { MatchOption result ((message : List ℕ) → content.now ≡ front.now ++ message → ⊥) (λ message. content.now ≡ front.now ++ message.now) }
{
    content.strip_prefix(front)
}

// The refusal of an acceptor that sends an error.
fn failed(alloc: Global, message: &[u8]) -> Result<EncApRepPartInner, InitiateRefusal>
    ensures { IsRead (failed message.now).gives result }
{
    let read = read_error_code(alloc, message)?;
    match read {
        Some(code) => Err(InitiateRefusal::Refused(code)),
        None => Err(InitiateRefusal::NotAToken),
    }
}

// The part of the AP-REP that a message is.
fn replied(
    alloc: Global,
    asked: &ApAsked,
    message: &[u8],
) -> Result<EncApRepPartInner, InitiateRefusal>
    ensures { IsRead (replied asked.now message.now).gives result }
{
    let Some(reply) = read_ap_reply(alloc, message)? else {
        return Err(InitiateRefusal::NotAToken);
    };
    let part = opened(alloc, asked, &reply);
    drop(reply);
    part
}

// The part of an AP-REP that was read: judges its type, decrypts its enc-part, and judges the part.
fn opened(
    alloc: Global,
    asked: &ApAsked,
    reply: &ApRepInner,
) -> Result<EncApRepPartInner, InitiateRefusal>
    ensures { IsRead (opened asked.now reply.now).gives result }
{
    if !is_of_type(AP_REP_MSG_TYPE, &reply.pvno.0, &reply.msg_type.0) {
        return Err(InitiateRefusal::NotAToken);
    }
    let opened = open_ap_part(alloc, asked, &reply.enc_part.0)?;
    match opened {
        Some(part) => told(asked, part),
        None => Err(InitiateRefusal::NotSealed),
    }
}

// The part, if it has the authenticator's time.
fn told(asked: &ApAsked, part: EncApRepPartInner) -> Result<EncApRepPartInner, InitiateRefusal>
    ensures { (told asked.now part).gives result }
{
    if !tells(asked.time(), &part) {
        drop(part);
        return Err(InitiateRefusal::NotAsked);
    }
    Ok(part)
}
