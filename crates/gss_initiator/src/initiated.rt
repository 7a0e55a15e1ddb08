//! The result of asking for a context.

use gss_contexts::Context;
use krb_client::ApAsked;
use krb_crypto::Key;
use std::marker::Model;

/// The form of the first token.
#[derive(Clone, Copy, Debug, PartialEq, Eq)]
pub enum TokenForm {
    /// A token of Kerberos (RFC 4121, section 4.1).
    Bare,
    /// A token of SPNEGO that offers Kerberos alone, with Kerberos' token in it (RFC 4178, section 4.2.1).
    Negotiated,
}

/// The first token, and how the context stands.
#[derive(Drop)]
pub struct Initiated {
    /// The token to send to the acceptor.
    pub token: Vec<u8>,
    /// How the context stands.
    pub progress: Progress,
}

impl Model for Initiated {
    ghost use Rattle.gss_initiator.specs.Initiating.{InitiatedRecord};

    ghost Value = { InitiatedRecord };

    ghost view = { λ i. record { token = i.token.items; progress = i.progress } };
}

/// How a context stands once its first token is made.
#[derive(Drop)]
pub enum Progress {
    /// The context is established (GSS_S_COMPLETE of RFC 2743, section 1.2.1.1). Its acceptor isn't authenticated before it protects a
    /// message.
    Established(Context),
    /// The acceptor has to answer (GSS_S_CONTINUE_NEEDED).
    ContinueNeeded(Pending),
}

/// A context that waits for the acceptor's answer: the session key and the authenticator's time, the initiator's subkey and first sequence
/// number, whether an AP-REP is due and the context is in sequence, and the form of the first token.
#[derive(Drop)]
pub struct Pending {
    pub(crate) asked: ApAsked,
    pub(crate) key: Key,
    pub(crate) number: u32,
    pub(crate) is_mutual: bool,
    pub(crate) in_sequence: bool,
    pub(crate) form: TokenForm,
}
