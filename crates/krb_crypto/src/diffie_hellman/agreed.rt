//! The key of a suite that a shared secret gives.

ghost use Rattle.std.specs.Prelude.{◌≡◌, IfOk};
ghost use Rattle.krb_crypto.specs.AgreedKeys.{agreed_key};

use crate::diffie_hellman::key::generate_key_from_shared_secret;
use crate::key::Key;
use crate::suite::CipherSuite;
use std::alloc::{AllocError, Global};

/// The key that a shared secret makes of the suite, without nonces (RFC 4556, section 3.2.3.1). Memory is the only refusal.
pub fn agreed_key(alloc: Global, suite: CipherSuite, secret: Vec<u8>) -> Result<Key, AllocError>
    ensures { IfOk result (λ key. key ≡ record { suite = suite; bytes = agreed_key suite secret.items }) }
{
    let Ok(bytes) = generate_key_from_shared_secret(alloc, secret, None, &suite) else {
        return Err(AllocError);
    };
    let Ok(key) = Key::new(suite, &bytes) else {
        return Err(AllocError);
    };
    Ok(key)
}
