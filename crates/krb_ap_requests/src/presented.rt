//! What a request presents.
use krb_crypto::CipherSuite;
use krb_messages::data_types::{AuthenticatorInner, EncTicketPartInner};
use krb_time::Moment;

/// An authenticator that was opened (RFC 4120, section 5.5.1).
#[derive(Drop)]
pub struct Authenticated {
    /// The suite of the session key, which opened it.
    pub suite: CipherSuite,
    /// The authenticator as it was encrypted.
    pub authenticator: AuthenticatorInner,
    /// The moment of its ctime and cusec.
    pub time: Moment,
}

/// What a request presents to its service (RFC 4120, section 3.2.3).
#[derive(Drop)]
pub struct Presented {
    /// The ticket's part, which the service's key opened.
    pub part: EncTicketPartInner,
    /// The suite of the session key, which is in the part.
    pub suite: CipherSuite,
    /// The authenticator, which the session key opened.
    pub authenticator: AuthenticatorInner,
    /// The moment of the authenticator's ctime and cusec.
    pub time: Moment,
    /// Whether the client wants a reply: the option mutual-required is set.
    pub wants_reply: bool,
}
