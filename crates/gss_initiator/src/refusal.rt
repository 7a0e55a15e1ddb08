//! Why no context is asked for, or none is established.
ghost use Rattle.std.specs.Prelude.{◌≡◌};
ghost use Rattle.gss_initiator.specs.declared.refusal.InitiateRefusal.TheVariants.{Memory};

use gss_contexts::TokenRefusal;
use krb_constants::error_names::ErrorCode;
use std::alloc::AllocError;
use thiserror::Error;

/// Why no context is asked for, or none is established.
#[derive(Clone, Copy, Debug, PartialEq, Eq, Error)]
pub enum InitiateRefusal {
    /// The flags ask for DCE style or another thing that isn't offered, or for delegation where no ticket is handed in.
    #[error("the flags ask for what isn't offered")]
    NotOffered,

    /// Triple DES, whose contexts have the tokens of RFC 1964.
    #[error("the suite has no tokens of RFC 4121")]
    OldSuite,

    /// The ticket to hand on isn't a forwarded one (RFC 4120, section 2.6).
    #[error("the ticket to hand on isn't a forwarded one")]
    NotForwarded,

    /// The KRB-CRED has more octets than the checksum's field Dlgth tells: 65536 and more (RFC 4121, section 4.1.1).
    #[error("the ticket to hand on is too long")]
    LongDelegation,

    /// The octets are no token that is due: none of Kerberos with an AP-REP or a KRB-ERROR, and no answer of SPNEGO with what it has to
    /// hold.
    #[error("the octets are no token that is due of Kerberos or SPNEGO")]
    NotAToken,

    /// The acceptor answers with a KRB-ERROR of this code (RFC 4120, section 7.5.9).
    #[error("the acceptor refuses: {}", ErrorCode(*.0))]
    Refused(u32),

    /// The AP-REP isn't sealed under the session key.
    #[error("the AP-REP isn't sealed under the session key")]
    NotSealed,

    /// The AP-REP answers another request: it doesn't have the authenticator's time.
    #[error("the AP-REP answers another request")]
    NotAsked,

    /// The AP-REP's sequence number doesn't fit 32 bits.
    #[error("the sequence number doesn't fit 32 bits")]
    BadSequenceNumber,

    /// The acceptor's subkey is of no known suite, or of another length than its suite's keys.
    #[error("the acceptor's subkey is of no known suite")]
    UnknownKey,

    /// The acceptor rejects the negotiation (RFC 4178, section 4.2.2).
    #[error("the acceptor rejects the mechanisms")]
    Rejected,

    /// The acceptor chooses a mechanism that isn't Kerberos.
    #[error("the acceptor chooses a mechanism that isn't Kerberos")]
    OtherMechanism,

    /// The acceptor's MIC of the list of mechanisms is due, and isn't there (RFC 4178, section 5).
    #[error("the MIC of the list of mechanisms is due, and isn't there")]
    NoMic,

    /// The acceptor's MIC of the list of mechanisms is wrong, or the initiator's can't be made.
    #[error("the MIC of the list of mechanisms: {0}")]
    Mic(TokenRefusal),

    /// Memory ran out.
    #[error("out of memory")]
    Memory,
}

impl From<AllocError> for InitiateRefusal {
    ghost from_gives = { λ _ refusal. refusal ≡ Memory };

    fn from(_error: AllocError) -> InitiateRefusal {
        InitiateRefusal::Memory
    }
}
