//! What the owner of a realm sets for one account.
ghost use Rattle.std.specs.Prelude.{◌≡◌};
ghost use Rattle.krb_realm_accounts.specs.Account.{is_set, rekeyed_attributes};

/// What an account may do and when. Each part is off where nobody sets it.
#[derive(Clone, Copy, Debug, PartialEq, Eq)]
pub struct Attributes {
    /// The last second of the account, counted from 0000-01-01 00:00:00. By 0 it doesn't end.
    pub ends: u64,
    /// The account is switched off: it gets no ticket, and there is none for it.
    pub is_off: bool,
    /// The password has to be changed: the account gets no first ticket but one for the service that changes passwords. A new key ends
    /// this.
    pub must_change: bool,
    /// How many seconds a ticket of the account, or for it, lasts at most. By 0 it lasts as long as the realm's settings allow.
    pub lifetime: u32,
    /// There is no ticket for the account as a service, as for a user whose key is that of a password.
    pub is_no_service: bool,
}

impl Attributes {
    /// Whether one of them is set.
    pub fn is_set(self) -> bool
        ensures { result ≡ is_set self }
    {
        0 < self.ends || 0 < self.lifetime || self.is_off || self.must_change || self.is_no_service
    }

    /// The attributes of an account that was given a key: its password needn't be changed any more.
    pub fn rekeyed(self) -> Attributes
        ensures { result ≡ rekeyed_attributes self }
    {
        Attributes {
            must_change: false,
            ..self
        }
    }
}

/// The attributes of an account for which nobody sets one.
pub const NO_ATTRIBUTES: Attributes = Attributes {
    ends: 0,
    is_off: false,
    must_change: false,
    lifetime: 0,
    is_no_service: false,
};
