//! A call to a realm: what it judges a request by.
ghost use Rattle.std.specs.Prelude.{◌≡◌};
ghost use Rattle.krb_time.specs.Skew.{IsWithinDay};

use krb_realm_accounts::{Accounts, Settings};
use krb_time::{MICROSECONDS_IN_SECOND, Moment};
use picky_asn1::wrapper::GeneralStringAsn1;

/// A call to a realm: its name, settings and accounts, the moment, and random bytes.
#[derive(Clone, Copy)]
pub struct Call<'a> {
    /// The realm's name.
    pub realm: &'a GeneralStringAsn1,
    /// Its settings.
    pub settings: Settings,
    /// The accounts of its principals.
    pub accounts: &'a Accounts,
    /// The moment at which it is called.
    pub moment: Moment,
    /// The random bytes, of which the first 128 are used.
    pub words: &'a [u8],
}

impl Call<'_> {
    ghost use Rattle.krb_kdc_exchanges.specs.Call.{call_of, skew_of};

    /// The realm's clock skew in microseconds, a day at most.
    pub fn skew(&self) -> u64
        ensures value { result ≡ skew_of (call_of self.now) }
        ensures most { IsWithinDay result }
    {
        self.settings.skew() * MICROSECONDS_IN_SECOND
    }
}
