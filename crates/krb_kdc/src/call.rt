//! A call to a realm whose accounts are looked up.
use krb_kdc_exchanges::Call;
use krb_realm_accounts::{Accounts, Settings};
use krb_time::Moment;
use picky_asn1::wrapper::GeneralStringAsn1;

/// A call to a realm whose accounts are looked up: a [`Call`] without accounts. It has the realm's name and settings, the moment, and
/// random bytes.
#[derive(Clone, Copy)]
pub struct LookupCall<'a> {
    /// The realm's name.
    pub realm: &'a GeneralStringAsn1,
    /// Its settings.
    pub settings: Settings,
    /// The moment at which it is called.
    pub moment: Moment,
    /// The random bytes, of which the first 128 are used.
    pub words: &'a [u8],
}

impl LookupCall<'_> {
    ghost use Rattle.std.specs.Prelude.{◌≡◌};
    ghost use Rattle.krb_realm_accounts.specs.Accounts.{look_in};
    ghost use Rattle.krb_kdc_exchanges.specs.Call.{call_of};
    ghost use Rattle.krb_kdc.specs.Calls.{call_with};

    /// Returns the call to the realm with these accounts.
    pub(crate) fn with<'a>(&'a self, accounts: &'a Accounts) -> Call<'a>
        ensures call { call_of result ≡ call_with self.now (look_in accounts.now) }
        ensures words { result.words.now ≡ self.now.words.now }
    {
        Call {
            realm: self.realm,
            settings: self.settings,
            accounts,
            moment: self.moment,
            words: self.words,
        }
    }
}
