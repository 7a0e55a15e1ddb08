//! Whether a login is honest.
ghost use Rattle.std.specs.Prelude.{◌≡◌, ◌↔◌, IfOk, IsTrue};
ghost use Rattle.krb_crypto.specs.Keys.{KeyRecord};
ghost use Rattle.krb_logins.specs.Honest.{IsHonestByPassword};
ghost use Rattle.krb_logins.specs.Input.{login_of};
ghost use Rattle.krb_realm.specs.Clients.{ByKey};
ghost use Rattle.krb_logins.specs.ApExchanges.{remembered};
ghost use Rattle.krb_realm.specs.Logins.{realm_record};

use crate::client::Client;
use crate::client_means::Held;
use krb_logins::{LoginInput, is_honest_by_key};
use krb_memory_realms::Realm;
use krb_service::Service;
use std::alloc::{AllocError, Global};
use x509_keys::NoKeys;

/// Whether a login by password is honest, as [`login_by_password`] asks for one key on both sides. The pairs of client and time that
/// the service holds count as all that it admitted. Fails only if memory runs out.
///
/// [`login_by_password`]: crate::login::login_by_password
pub fn is_honest_by_password(
    alloc: Global,
    client: &Client,
    realm: &Realm,
    service: &Service,
    input: &LoginInput<'_>,
) -> Result<bool, AllocError>
    ensures { IfOk result (λ is. IsTrue is ↔ ((key : KeyRecord) × (client.now.by ≡ ByKey key)
        × IsHonestByPassword client.now.client key.bytes (realm_record realm.now) service.now (remembered service.now service.now.seen.held) (login_of input.now))) }
{
    let asking = client.asking();
    let call = realm.call(input.moments.realm_as, input.realm_words_as);
    match client.means(&NoKeys).held {
        Held::Key(own) => is_honest_by_key(alloc, asking, &own.key, &call, service, input),
        Held::Certificate(_, _) => Ok(false),
    }
}
