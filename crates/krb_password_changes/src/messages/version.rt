//! The versions of requests.
ghost use Rattle.std.specs.Prelude.{◌≡◌, IfSome};
ghost use Rattle.krb_password_changes.specs.Versions.{version_number, version_of};

use krb_constants::krb_priv::PROTOCOL_VERSION;

/// The version of a request by RFC 3244.
pub const SET_PASSWORD_VERSION: u16 = 0xFF80;

/// The version of a message. A reply has version 1, whichever the request's is (RFC 3244, section 2).
#[derive(Clone, Copy, Debug, PartialEq, Eq)]
pub enum Version {
    /// Version 1: the client changes its own password, which is all that the KRB-PRIV of a request carries.
    ChangePassword,
    /// Version 0xFF80: the KRB-PRIV of a request carries a ChangePasswdData, which may name another principal.
    SetPassword,
}

impl Version {
    /// The version's number.
    pub fn number(self) -> u16
        ensures { result ≡ version_number self }
    {
        match self {
            Version::ChangePassword => PROTOCOL_VERSION,
            Version::SetPassword => SET_PASSWORD_VERSION,
        }
    }

    /// The version of a number, if it is one of the two.
    pub fn of_number(number: u16) -> Option<Version>
        ensures found { result ≡ version_of number }
        ensures number { IfSome result (λ version. version_number version ≡ number) }
    {
        if number == PROTOCOL_VERSION {
            Some(Version::ChangePassword)
        } else if number == SET_PASSWORD_VERSION {
            Some(Version::SetPassword)
        } else {
            None
        }
    }
}
