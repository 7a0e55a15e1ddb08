//! Times of a credential.

/// A credential's times, in seconds since the start of 1970. One that the ticket lacks is 0.
#[derive(Clone, Copy, Debug, PartialEq, Eq)]
pub struct CredentialTimes {
    pub authtime: u32,
    pub starttime: u32,
    pub endtime: u32,
    pub renew_till: u32,
}
