//! The hash of a key.
ghost use Rattle.std.specs.Prelude.{◌≡◌};
ghost use Rattle.cdb.specs.Hash.{hash_of};

use crate::format::HASH_START;

/// Returns the hash of a key. The hash starts as [`HASH_START`]. Each octet is joined by exclusive or to 33 times the hash so far,
/// modulo 2^32. The remainder by 256 is the number of the key's hash table.
#[tactic(auto, unfolding(crate::specs::Hash::hash_of))]
pub fn hash_of(key: &[u8]) -> u32
    ensures { result ≡ hash_of key.now }
{
    let mut hash = HASH_START;
    for byte in key {
        hash = hash.wrapping_mul(33) ^ u32::from(*byte);
    }
    hash
}
