//! Why a request was refused, where its error code leaves that open.
ghost use Rattle.std.specs.Prelude.{◌≡◌};

use pkinit_validation::PkAsReqFault;
use std::fmt;

/// Why an AS request was refused as KDC_ERR_PREAUTH_FAILED, or a TGS request as KRB_AP_ERR_BAD_INTEGRITY (RFC 4120, section 7.5.9). It
/// tells nothing of a key, nor of what is sealed.
#[derive(Clone, Copy, Debug, PartialEq, Eq)]
pub enum Reason {
    /// The PA-PK-AS-REQ is refused for this.
    PkAsReq(PkAsReqFault),
    /// The PA-ENC-TIMESTAMP is no EncryptedData.
    Timestamp,
    /// The PA-ENC-TIMESTAMP has another encryption type than the client's key.
    TimestampEtype,
    /// The PA-ENC-TIMESTAMP doesn't open under the client's key: mostly the password was another one.
    TimestampKey,
    /// The pausec of the timestamp is no part of a second.
    Pausec,
    /// The ticket doesn't open under the key of the ticket-granting service.
    Ticket,
    /// The ticket's session key is of no suite.
    SessionKey,
    /// The authenticator doesn't open under the ticket's session key.
    Authenticator,
    /// The authenticator's subkey is of no suite.
    Subkey,
}

impl Reason {
    ghost use Rattle.krb_log.specs.Reasons.{reason_text};

    /// The part that is wrong, and what is wrong with it, without a quotation mark.
    pub fn text(self) -> &'static str
        ensures { result.now ≡ reason_text self }
    {
        match self {
            Reason::PkAsReq(fault) => fault.text(),
            Reason::Timestamp => "PA-ENC-TIMESTAMP: not the one DER encoding of an EncryptedData",
            Reason::TimestampEtype => "PA-ENC-TIMESTAMP: etype isn't that of the client's key",
            Reason::TimestampKey => "PA-ENC-TIMESTAMP: doesn't open under the client's key",
            Reason::Pausec => "PA-ENC-TIMESTAMP: pausec isn't from 0 to 999999",
            Reason::Ticket => "ticket: doesn't open under the key of krbtgt",
            Reason::SessionKey => "ticket: session key is of no known encryption type",
            Reason::Authenticator => {
                "authenticator: doesn't open under the ticket's session key"
            }
            Reason::Subkey => "authenticator: subkey is of no known encryption type",
        }
    }
}

impl fmt::Display for Reason {
    ghost use Rattle.std.specs.Prelude.{Some};
    ghost use Rattle.krb_log.specs.Reasons.{reason_text};

    ghost output = { λ reason. Some (reason_text reason) };

    fn fmt<W: fmt::Write>(&self, f: &mut fmt::Formatter<W>) -> fmt::Result {
        f.write_str(self.text())
    }
}
