//! Why no context is established.
ghost use Rattle.std.specs.Prelude.{◌≡◌};
ghost use Rattle.gss_acceptor.specs.declared.refusal.AcceptRefusal.TheVariants.{Admit, Memory};

use gss_contexts::TokenRefusal;
use krb_ap_requests::AdmitRefusal;
use std::alloc::AllocError;
use thiserror::Error;

/// Why no context is established.
#[derive(Clone, Copy, Debug, PartialEq, Eq, Error)]
pub enum AcceptRefusal {
    /// The octets are no token that is due: no token of Kerberos with an AP-REQ, and no token of SPNEGO with what it has to hold.
    #[error("the octets are no token that is due of Kerberos or SPNEGO")]
    NotAToken,

    /// Kerberos is none of the mechanisms that SPNEGO offers.
    #[error("Kerberos is none of the mechanisms that are offered")]
    NoKerberos,

    /// The service doesn't admit the AP-REQ.
    #[error("the service doesn't admit the client: {0}")]
    Admit(AdmitRefusal),

    /// The authenticator has no checksum of type 0x8003.
    #[error("the authenticator has no checksum of type 0x8003")]
    NoChecksum,

    /// The authenticator's checksum of type 0x8003 is malformed (RFC 4121, section 4.1.1).
    #[error("the authenticator's checksum of type 0x8003 is malformed")]
    OtherChecksum,

    /// The initiator's channel bindings differ from the acceptor's (GSS_S_BAD_BINDINGS of RFC 2743, section 1.1.6).
    #[error("the initiator's channel bindings differ from the acceptor's")]
    OtherBindings,

    /// The authenticator's sequence number doesn't fit 32 bits.
    #[error("the sequence number doesn't fit 32 bits")]
    BadSequenceNumber,

    /// The key is of no known suite, or of another length than its suite's keys.
    #[error("the key is of no known suite")]
    UnknownKey,

    /// Triple DES, whose contexts have the tokens of RFC 1964.
    #[error("the suite has no tokens of RFC 4121")]
    OldSuite,

    /// The initiator's flag says that it delegates, and the checksum has no delegation that the session key opens (RFC 4121, section
    /// 4.1.1.1).
    #[error("the checksum has no delegation that the session key opens")]
    BadDelegation,

    /// The initiator's MIC of the list of mechanisms is due, and isn't there (RFC 4178, section 5).
    #[error("the MIC of the list of mechanisms is due, and isn't there")]
    NoMic,

    /// The initiator's MIC of the list of mechanisms is wrong, or the acceptor's can't be made.
    #[error("the MIC of the list of mechanisms: {0}")]
    Mic(TokenRefusal),

    /// Memory ran out.
    #[error("out of memory")]
    Memory,
}

impl From<AdmitRefusal> for AcceptRefusal {
    ghost from_gives = { λ cause refusal. refusal ≡ Admit cause };

    fn from(cause: AdmitRefusal) -> AcceptRefusal {
        AcceptRefusal::Admit(cause)
    }
}

impl From<AllocError> for AcceptRefusal {
    ghost from_gives = { λ _ refusal. refusal ≡ Memory };

    fn from(_error: AllocError) -> AcceptRefusal {
        AcceptRefusal::Memory
    }
}
