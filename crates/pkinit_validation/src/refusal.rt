//! Why signed content is not trusted.
ghost use Rattle.std.specs.Prelude.{◌≡◌};
ghost use Rattle.pkinit_validation.specs.declared.refusal.TrustFault.TheVariants as trust_fault;

use krb_constants::error_codes::{
    KDC_ERR_CANT_VERIFY_CERTIFICATE, KDC_ERR_CLIENT_NAME_MISMATCH, KDC_ERR_INVALID_CERTIFICATE,
    KDC_ERROR_INVALID_SIG,
};
use krb_messages::Refusal;
use std::alloc::AllocError;
use thiserror::Error;

/// Why signed content is not trusted.
#[derive(Clone, Copy, Debug, PartialEq, Eq, Error)]
pub enum TrustRefusal {
    /// The signer's certificate is not valid at the moment.
    #[error("the certificate is not valid at this moment")]
    InvalidCertificate,
    /// The certificate is unreadable, the anchor did not issue it, or it has a critical extension that is not recognised.
    #[error("the certificate cannot be verified")]
    CantVerifyCertificate,
    /// The certificate names another principal, or none.
    #[error("the certificate does not name this principal")]
    NameMismatch,
    /// The certificate's holder did not sign the content.
    #[error("the signature is not valid")]
    InvalidSignature,
}

impl TrustRefusal {
    ghost use Rattle.pkinit_validation.specs.Refusals.{code_of};

    /// The error code of a KRB-ERROR for it (RFC 4556, section 3.1.3).
    pub fn code(self) -> u32
        ensures { result ≡ code_of self }
    {
        match self {
            TrustRefusal::InvalidCertificate => KDC_ERR_INVALID_CERTIFICATE,
            TrustRefusal::CantVerifyCertificate => KDC_ERR_CANT_VERIFY_CERTIFICATE,
            TrustRefusal::NameMismatch => KDC_ERR_CLIENT_NAME_MISMATCH,
            TrustRefusal::InvalidSignature => KDC_ERROR_INVALID_SIG,
        }
    }
}

/// Why signed content was not found to be trusted.
#[derive(Clone, Copy, Debug, PartialEq, Eq, Error)]
pub enum TrustFault {
    /// It is not trusted.
    #[error("{0}")]
    Refused(TrustRefusal),
    /// Memory ran out.
    #[error("out of memory")]
    Memory,
}

impl From<AllocError> for TrustFault {
    ghost from_gives = { λ _ fault. fault ≡ trust_fault.Memory };

    fn from(_error: AllocError) -> TrustFault {
        TrustFault::Memory
    }
}

impl From<TrustFault> for Refusal {
    ghost use Rattle.pkinit_validation.specs.Refusals.{request_refusal};

    ghost from_gives = { λ fault refusal. refusal ≡ request_refusal fault };

    fn from(fault: TrustFault) -> Refusal {
        match fault {
            TrustFault::Refused(refusal) => Refusal::Krb(refusal.code()),
            TrustFault::Memory => Refusal::Memory,
        }
    }
}
