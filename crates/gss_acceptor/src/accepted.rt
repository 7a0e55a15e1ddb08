//! The result of an initiator's token that isn't refused.

use crate::established::Established;
use crate::exchange::{Terms, Unverified};
use std::marker::Model;

/// The result of an initiator's token that isn't refused.
#[derive(Drop)]
pub enum Accepted {
    /// The context is established (GSS_S_COMPLETE of RFC 2743, section 1.2.1.1).
    Established(Established),
    /// The initiator has to send a further token (GSS_S_CONTINUE_NEEDED).
    ContinueNeeded(Continuation),
}

/// The token that a negotiation sends, and the negotiation itself.
#[derive(Drop)]
pub struct Continuation {
    /// The token to send to the initiator.
    pub reply: Vec<u8>,
    /// The negotiation, which [`Acceptor::resume`](crate::Acceptor::resume) takes with the initiator's next token.
    pub negotiation: Negotiation,
}

impl Model for Continuation {
    ghost use Rattle.gss_acceptor.specs.Continuing.{ContinuationRecord};

    ghost Value = { ContinuationRecord };

    ghost view = { λ c. record { reply = c.reply.items; negotiation = c.negotiation } };
}

/// A negotiation of SPNEGO that waits for the initiator's next token. A context that it holds isn't handed out before the initiator's
/// MIC was verified.
#[derive(Drop)]
pub struct Negotiation {
    pub(crate) stage: Stage,
}

/// The message that a negotiation waits for.
#[derive(Drop)]
pub(crate) enum Stage {
    /// The first token of Kerberos.
    Token(Terms),
    /// The initiator's MIC of the list of mechanisms.
    Mic(Unverified),
}
