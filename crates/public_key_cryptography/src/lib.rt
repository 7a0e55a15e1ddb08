//! RSA signatures: RSASSA-PKCS1-v1_5 (RFC 8017, section 8.2) with SHA-256, SHA-384 and SHA-512. Diffie-Hellman agreements modulo a
//! prime (RFC 2631), in groups of RFC 3526 and RFC 2409 whose generator is 2. Both are over `modular_arithmetic`.
//!
//! [`PublicKey::verifies`] is true exactly where the RFC's definition says so: a signature is one row of octets, as long as the modulus.
//! [`PrivateKey::sign`] returns the RFC's signature if that verifies under the public key, and `None` else. So whatever it returns
//! verifies, for every pair of keys. A right key signs each message (clause `right`): its modulus is the product of two odd primes, and its
//! exponents belong to them (RFC 8017, section 3). It signs by the two primes where the key has them, and else by the exponent.
//! [`PublicKey::new`] refuses a weak, long, even or malformed key, each by its name, and takes every other. SHA-1 and MD5 have no name here.
//! [`Group::public_value`] is 2 to the secret's power modulo the prime. [`Group::shared_secret`] is the peer's value to the secret's
//! power, exactly where that value is one of 2 to the prime less 2, and `None` else. Two sides come to one secret (law `agree`).
//! [`Group::of_prime`] knows a group by its prime, and refuses the 1024-bit group unless it is asked for. The primes are those that the
//! RFCs print. That they are prime isn't proved. No step branches on a bit of a private exponent or of a secret.
#![tactic(auto)]

mod encoding;
mod group;
mod group_primes;
mod hash;
mod private_key;
mod public_key;
mod rsa_primes;

pub use group::{Exchange, Group, GroupRefusal, WeakGroup, agree};
pub use hash::HashFunction;
pub use private_key::PrivateKey;
pub use public_key::{KeyRefusal, PublicKey, PublicNumbers};
pub use rsa_primes::{PrimeNumbers, Primes, PrimesRefusal};
