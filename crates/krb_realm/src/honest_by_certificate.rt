//! Whether a login by certificate is honest.
ghost use Rattle.std.specs.Prelude.{◌≡◌, ◌↔◌, IfOk, IsTrue};
ghost use Rattle.krb_messages.specs.RandomBytes.{AreEnoughForReply, AreEnoughForRequest};
ghost use Rattle.picky_asn1.specs.Bytes.{Bytes};
ghost use Rattle.krb_logins.specs.Input.{login_of};
ghost use Rattle.krb_realm.specs.Clients.{ByCertificate};
ghost use Rattle.krb_logins.specs.ApExchanges.{remembered};
ghost use Rattle.krb_realm.specs.Logins.{realm_record};
ghost use Rattle.krb_realm.specs.HonestByCertificate.{IsHonestByCertificate};
ghost use Rattle.pkinit_validation.specs.Anchors.{AnchorRecord};

use crate::certified_honesty::is_certified_login_honest;
use crate::client::Client;
use crate::client_means::{Held, by_certificate};
use krb_logins::LoginInput;
use krb_memory_realms::Realm;
use krb_service::Service;
use std::alloc::{AllocError, Global};
use x509_keys::KeyFunctions;

/// Whether a login by the client's certificate is honest, as [`login_by_certificate`] asks for one key on both sides. The pairs of
/// client and time that the service holds count as all that it admitted. Fails only if memory runs out.
///
/// [`login_by_certificate`]: crate::login::login_by_certificate
pub fn is_honest_by_certificate<C: KeyFunctions, R: KeyFunctions>(
    alloc: Global,
    client: &Client,
    realm: &Realm,
    service: &Service,
    input: &LoginInput<'_>,
    client_keys: &C,
    realm_keys: &R,
) -> Result<bool, AllocError>
    requires asked { AreEnoughForRequest input.now.words_as.now }
    requires replied { AreEnoughForReply input.now.realm_words_as.now }
    ensures { IfOk result (λ is. IsTrue is ↔ ((certificate : Bytes) × (anchor : AnchorRecord) × (client.now.by ≡ ByCertificate certificate anchor)
        × IsHonestByCertificate client.now.client certificate anchor (C.functions client_keys.now) (realm_record realm.now) realm.now.trust (R.functions realm_keys.now)
        service.now (remembered service.now service.now.seen.held) (login_of input.now))) }
{
    let asking = client.asking();
    let call = realm.call(input.moments.realm_as, input.realm_words_as);
    let own = realm.pkinit(realm_keys);
    match client.means(client_keys).held {
        Held::Key(_) => Ok(false),
        Held::Certificate(certificate, anchor) => {
            let means = by_certificate(certificate, anchor, client_keys);
            is_certified_login_honest(alloc, asking, &means, &call, &own, service, input)
        }
    }
}
