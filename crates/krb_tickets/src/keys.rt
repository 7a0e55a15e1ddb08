//! Keys of messages.
ghost use Rattle.std.specs.Prelude.{◌≡◌, Option, None, Some};
ghost use Rattle.krb_tickets.specs.Keys.{key_in};
ghost use Rattle.krb_tickets.specs.Keys.{is_key_of, suite_of};

use krb_crypto::{Cipher, CipherSuite, Key};
use krb_messages::data_types::EncryptionKey;
use krb_messages::is_number;

/// The suite that a key is one of, by its type and its length, or none (RFC 4120, section 5.2.9).
pub fn suite_of(key: &EncryptionKey) -> Option<CipherSuite>
    ensures { result ≡ suite_of key.now }
{
    CipherSuite::all()
        .iter()
        .copied()
        .find(|suite| is_key_of(*suite, key))
}

/// The key of the suite that it is one of, or none.
pub fn key_of(key: &EncryptionKey) -> Option<Key>
    ensures { result ≡ key_in key.now }
{
    let suite = suite_of(key)?;
    Key::new(suite, key.key_value.0.as_bytes()).ok()
}

fn is_key_of(suite: CipherSuite, key: &EncryptionKey) -> bool
    ensures { result ≡ is_key_of suite key.now }
{
    let has_type = is_number(&key.key_type.0, u32::from(&suite));
    let size = key.key_value.0.as_bytes().len();
    has_type && size == suite.key_size()
}
