//! Which of an account's keys opens what is encrypted under one of them.
ghost use Rattle.std.specs.Prelude.{◌≡◌};
ghost use Rattle.std.specs.List.{find};
ghost use Rattle.std.specs.Option.{option_copied};
ghost use Rattle.krb_ap_requests.specs.ApTable.{kvno_fits};
ghost use Rattle.krb_kdc_exchanges.specs.ChosenKeys.{chosen};

use krb_ap_requests::kvno_fits;
use krb_crypto::Key;
use krb_messages::data_types::EncryptedData;
use krb_realm_accounts::{Account, AccountKey};

/// A key of an account, with its kvno.
#[derive(Clone, Copy, Drop)]
pub struct ChosenKey<'a> {
    /// The key.
    pub key: &'a Key,
    /// Its kvno.
    pub kvno: u32,
}

/// The account's key that has the kvno of the data, the newest where several have it or the data has none. Where no key has it, this is the
/// account's own key, whose kvno isn't that of the data.
pub fn chosen_key<'a>(encrypted: &EncryptedData, account: &'a Account) -> ChosenKey<'a>
    ensures key { result.key.now ≡ record { suite = (chosen encrypted.now account.now).suite; bytes = (chosen encrypted.now account.now).key } }
    ensures kvno { result.kvno ≡ (chosen encrypted.now account.now).kvno }
{
    let own = ChosenKey {
        key: account.key(),
        kvno: account.kvno(),
    };
    if kvno_fits(own.kvno, encrypted) {
        return own;
    }
    match former_of(encrypted, account.former()) {
        Some(key) => ChosenKey {
            key: key.key(),
            kvno: key.kvno(),
        },
        None => own,
    }
}

// The first of these keys that has the kvno of the data.
fn former_of<'a>(encrypted: &EncryptedData, keys: &'a [AccountKey]) -> Option<&'a AccountKey>
    ensures { option_copied result ≡ find (λ key. kvno_fits key.kvno encrypted.now) keys.now }
{
    keys.iter().find(|key| kvno_fits(key.kvno(), encrypted))
}
