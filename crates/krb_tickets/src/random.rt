//! What suites take of random bytes.
ghost use Rattle.std.specs.Prelude.{◌≡◌, ◌≤◌, ◌+◌, length, IfOk};
ghost use Rattle.krb_crypto.specs.Sealing.{seed_key_of};
ghost use Rattle.krb_crypto.specs.Suites.{cipher_confounder_size, cipher_seed_size};
ghost use Rattle.krb_messages.specs.RandomBytes.{random_part};

use krb_crypto::{Cipher, CipherSuite};
use picky_asn1::wrapper::OctetStringAsn1;
use std::alloc::{AllocError, Global};

/// The confounder of the suite: as many of the random bytes as it has, from the place on (RFC 3961, section 5.3).
pub fn confounder_at(suite: CipherSuite, words: &[u8], place: usize) -> &[u8]
    requires { place + 16 ≤ length words.now }
    ensures part { result.now ≡ random_part place (cipher_confounder_size suite) words.now }
    ensures sized { length result.now ≡ cipher_confounder_size suite }
{
    &words[place..place + suite.confounder_size()]
}

/// The key of the suite that a seed makes: as many of the random bytes as the seed has, from the place on (RFC 3961,
/// section 3, random-to-key).
pub fn key_at(
    alloc: Global,
    suite: CipherSuite,
    words: &[u8],
    place: usize,
) -> Result<OctetStringAsn1, AllocError>
    requires { place + 32 ≤ length words.now }
    ensures { IfOk result (λ key. key ≡ seed_key_of suite (random_part place (cipher_seed_size suite) words.now)) }
{
    let seed = &words[place..place + suite.seed_bit_len() / 8];
    let Ok(key) = suite.random_to_key(alloc, seed) else {
        return Err(AllocError);
    };
    Ok(OctetStringAsn1::from(key))
}
