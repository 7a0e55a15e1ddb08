//! Why a PA-PK-AS-REQ isn't read to its end.
ghost use Rattle.std.specs.Prelude.{◌≡◌};

/// Why a KDC refuses a PA-PK-AS-REQ as KDC_ERR_PREAUTH_FAILED before it judges a certificate (RFC 4556, section 3.2.1), in the order in
/// which they count. The error code doesn't tell one from another, and a KDC's log does.
#[derive(Clone, Copy, Debug, PartialEq, Eq)]
pub enum PkAsReqFault {
    /// The padata-value is not the one DER encoding of a PA-PK-AS-REQ.
    PaPkAsReq,
    /// The octets of signedAuthPack are no ContentInfo with SignedData of the one form.
    SignedAuthPack,
    /// The eContentType of signedAuthPack is another one.
    ContentType,
    /// The eContent is not the one DER encoding of an AuthPack, and has an element that is none of the four fields.
    UnknownField,
    /// The eContent is not the one DER encoding of an AuthPack for another reason.
    AuthPack,
    /// The AuthPack has no clientPublicValue.
    PublicValue,
    /// The cusec of pkAuthenticator is no part of a second.
    Cusec,
    /// The paChecksum of pkAuthenticator is missing, or is that of another body.
    PaChecksum,
}

impl PkAsReqFault {
    ghost use Rattle.pkinit_validation.specs.Diagnoses.{fault_text};

    /// The part that is wrong, and what is wrong with it.
    pub fn text(self) -> &'static str
        ensures { result.now ≡ fault_text self }
    {
        match self {
            PkAsReqFault::PaPkAsReq => "PA-PK-AS-REQ: not its one DER encoding",
            PkAsReqFault::SignedAuthPack => "signedAuthPack: not SignedData of the one form",
            PkAsReqFault::ContentType => "signedAuthPack: eContentType isn't id-pkinit-authData",
            PkAsReqFault::UnknownField => "AuthPack: unknown field",
            PkAsReqFault::AuthPack => "AuthPack: not its one DER encoding",
            PkAsReqFault::PublicValue => "AuthPack: no clientPublicValue",
            PkAsReqFault::Cusec => "pkAuthenticator: cusec isn't from 0 to 999999",
            PkAsReqFault::PaChecksum => {
                "pkAuthenticator: paChecksum isn't the SHA-1 digest of the request's body"
            }
        }
    }
}
