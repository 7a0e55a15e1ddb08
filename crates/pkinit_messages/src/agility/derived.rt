//! The derived key.
ghost use Rattle.std.specs.Prelude.{◌≡◌, IfOk};
ghost use Rattle.pkinit_messages.specs.Contexts.{context_of};
ghost use Rattle.pkinit_messages.specs.DerivedKeys.{derived_key, derived_seed};

use crate::agility::context::KdfContext;
use crate::agility::counted::kdf_octets;
use crate::agility::info_octets::other_info_bytes;
use crate::agility::kdf::Kdf;
use krb_crypto::{Cipher, CipherSuite, Key};
use std::alloc::{AllocError, Global};

/// The key of the suite that a shared secret gives by a key derivation function (RFC 8636, section 6). Memory is the only refusal.
pub fn derived_key(
    alloc: Global,
    suite: CipherSuite,
    kdf: Kdf,
    secret: Vec<u8>,
    context: &KdfContext<'_>,
) -> Result<Key, AllocError>
    ensures { IfOk result (λ key. key ≡ record { suite = suite; bytes = derived_key suite kdf secret.items (context_of context.now) }) }
{
    let seed = derived_seed(alloc, suite, kdf, secret, context)?;
    let Ok(bytes) = suite.random_to_key(alloc, &seed) else {
        return Err(AllocError);
    };
    let Ok(key) = Key::new(suite, &bytes) else {
        return Err(AllocError);
    };
    Ok(key)
}

// The octets from which random-to-key makes the key.
#[tactic(auto, unfolding(crate::specs::DerivedKeys::derived_seed))]
fn derived_seed(
    alloc: Global,
    suite: CipherSuite,
    kdf: Kdf,
    secret: Vec<u8>,
    context: &KdfContext<'_>,
) -> Result<Vec<u8>, AllocError>
    ensures { IfOk result (λ seed. seed.items ≡ derived_seed suite kdf secret.items (context_of context.now)) }
{
    let info = other_info_bytes(alloc, suite, kdf, context)?;
    let mut octets = secret;
    octets.extend_from_slice(&info)?;
    let len = suite.seed_bit_len().div_ceil(8);
    let seed = kdf_octets(alloc, kdf, &octets, len)?;
    Ok(seed)
}
