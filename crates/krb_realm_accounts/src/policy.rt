//! What the owner of a realm sets beyond clock skew and lifetime.

/// What a realm grants otherwise than by [`Settings::new`](crate::Settings::new) alone. Each part is off where nobody sets it.
#[derive(Clone, Copy, Debug, PartialEq, Eq)]
pub struct Policy {
    /// Session keys of triple DES are granted only where the account of the client or of the service has a key of triple DES (RFC 8429,
    /// section 7).
    pub limits_des3: bool,
    /// A ticket is forwardable where the client asks for it (RFC 4120, section 2.6).
    pub forwardable: bool,
    /// A ticket is proxiable where the client asks for it (RFC 4120, section 2.5).
    pub proxiable: bool,
    /// How many seconds after its starttime a ticket may be renewed at most (RFC 4120, section 2.3). By 0 no ticket is renewable.
    pub renewable_life: u32,
    /// Requests by certificate are taken with algorithm agility (RFC 8636): with further fields in AuthPack, and signed data by SHA-256,
    /// SHA-384 or SHA-512 of any signer that it names.
    pub pkinit_agility: bool,
    /// A client with algorithm agility may sign by SHA-1, too. A certificate is never taken so.
    pub pkinit_sha1: bool,
}

/// The policy of settings in which nobody sets one.
pub const NO_POLICY: Policy = Policy {
    limits_des3: false,
    forwardable: false,
    proxiable: false,
    renewable_life: 0,
    pkinit_agility: false,
    pkinit_sha1: false,
};
