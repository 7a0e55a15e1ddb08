//! Whether a login by GSS is honest: the premises of its laws, judged by what the parties hold.
ghost use Rattle.std.specs.Prelude.{◌≡◌, ◌↔◌, IfOk, IsTrue, Ok};
ghost use Rattle.krb_messages.specs.RandomBytes.{AreEnoughForRequest, AreEnoughForSubkey};
ghost use Rattle.krb_logins.specs.Honest.{AreEnough};
ghost use Rattle.krb_logins.specs.Input.{held_by, login_of, realm_of};
ghost use Rattle.gss_acceptor.specs.Checksum.{bound_by};
ghost use Rattle.gss_logins.specs.Granted.{IsHonestGssLogin};

use gss_acceptor::{AcceptorTerms, InitialChecksum};
use gss_initiator::refusal_of;
use krb_client::Client;
use krb_kdc_exchanges::Call;
use krb_logins::LoginInput;
use krb_service::Service;
use std::alloc::{AllocError, Global};

/// Whether a login is honest of this client, at the realm that is called so and at this service, where the client asks for a context with
/// these channel bindings and flags. What the service holds counts as what it admitted. Fails only if memory runs out.
pub fn is_honest(
    alloc: Global,
    client: &Client,
    realm: &Call<'_>,
    service: &Service,
    terms: AcceptorTerms,
    input: &LoginInput<'_>,
    initial: InitialChecksum,
    words: &[u8],
) -> Result<bool, AllocError>
    requires login { AreEnough (login_of input.now) }
    requires context { AreEnoughForRequest words.now }
    requires reply { AreEnoughForSubkey input.now.service_words.now }
    ensures { IfOk result (λ is. IsTrue is ↔ IsHonestGssLogin client.now (realm_of realm.now) service.now terms (held_by service.now) (login_of input.now) initial words.now) }
{
    client.is_well_formed();
    service.is_well_formed();
    service.holds_window();
    if !is_bound(&terms.bindings, initial) {
        return Ok(false);
    }
    if refusal_of(client.suite(), initial.flags).is_some() {
        return Ok(false);
    }
    krb_logins::is_honest(alloc, client, realm, service, input)
}

// Whether the acceptor's channel bindings, if it has some, are the client's, or the client has none.
fn is_bound(bindings: &Option<[u8; 16]>, initial: InitialChecksum) -> bool
    ensures { IsTrue result ↔ (bound_by bindings.now initial ≡ Ok initial) }
{
    let Some(bindings) = bindings else {
        return true;
    };
    let own = initial.bindings.as_slice();
    own == [0; 16].as_slice() || own == bindings.as_slice()
}
