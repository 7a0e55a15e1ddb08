//! The random bytes of a client's agreement.
ghost use Rattle.std.specs.Prelude.{◌≡◌, length};
ghost use Rattle.krb_messages.specs.RandomBytes.{AreEnoughForRequest};
ghost use Rattle.krb_client.specs.Asked.{agreement_part};

use krb_messages::random_bytes::{AGREEMENT_SIZE, CLIENT_AGREEMENT};

/// The random bytes of the client's agreement among those of an AS request (RFC 4556, section 3.2.1). `words`: random bytes, 96 or
/// more.
pub fn agreement_part(words: &[u8]) -> &[u8]
    requires { AreEnoughForRequest words.now }
    ensures part { result.now ≡ agreement_part words.now }
    ensures sized { length result.now ≡ 64 }
{
    &words[CLIENT_AGREEMENT..CLIENT_AGREEMENT + AGREEMENT_SIZE]
}
