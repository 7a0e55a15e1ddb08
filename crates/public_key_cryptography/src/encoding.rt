//! A message as the octets that are signed (RFC 8017, section 9.2).
ghost use Rattle.std.specs.Prelude.{◌≡◌, ℕ, ◌+◌, ◌<◌, ◌≤◌, length, replicate, slice_index};
ghost use Rattle.public_key_cryptography.specs.Pkcs1.{encoded, padded};

use crate::hash::{HashFunction, sha1_of, sha256_of, sha384_of, sha512_of};

// The zero octet, and the DER of a DigestInfo up to the digest (RFC 8017, section 9.2, note 1).
const AHEAD_SHA256: [u8; 20] = [
    0, 0x30, 0x31, 0x30, 0x0d, 0x06, 0x09, 0x60, 0x86, 0x48, 0x01, 0x65, 0x03, 0x04, 0x02, 0x01,
    0x05, 0x00, 0x04, 0x20,
];

const AHEAD_SHA384: [u8; 20] = [
    0, 0x30, 0x41, 0x30, 0x0d, 0x06, 0x09, 0x60, 0x86, 0x48, 0x01, 0x65, 0x03, 0x04, 0x02, 0x02,
    0x05, 0x00, 0x04, 0x30,
];

const AHEAD_SHA512: [u8; 20] = [
    0, 0x30, 0x51, 0x30, 0x0d, 0x06, 0x09, 0x60, 0x86, 0x48, 0x01, 0x65, 0x03, 0x04, 0x02, 0x03,
    0x05, 0x00, 0x04, 0x40,
];

const AHEAD_SHA1: [u8; 16] = [
    0, 0x30, 0x21, 0x30, 0x09, 0x06, 0x05, 0x2b, 0x0e, 0x03, 0x02, 0x1a, 0x05, 0x00, 0x04, 0x14,
];

/// Says of octets what their type says. It does nothing.
pub(crate) fn are_octets(octets: &[u8])
    ensures { (k : ℕ) → slice_index octets.now k < 256 }
{}

/// Writes an octet at each place.
fn fill(octets: &mut [u8], octet: u8)
    ensures { octets.new ≡ replicate (length octets.old) octet }
{
    for k in 0..octets.len() {
        octets[k] = octet;
    }
}

/// Writes a digest after the padding and what stands ahead of it.
fn pad(octets: &mut [u8], ahead: &[u8], digest: &[u8])
    requires { length ahead.now + length digest.now + 2 ≤ length octets.old }
    ensures { octets.new ≡ padded (length octets.old) ahead.now digest.now }
{
    let digest_at = octets.len() - digest.len();
    let ahead_at = digest_at - ahead.len();
    octets[..2].copy_from_slice(&[0, 1]);
    fill(&mut octets[2..ahead_at], 0xff);
    octets[ahead_at..digest_at].copy_from_slice(ahead);
    octets[digest_at..].copy_from_slice(digest);
}

/// Writes the octets that are signed for a message.
pub(crate) fn encode(octets: &mut [u8], hash: HashFunction, message: &[u8])
    requires { 256 ≤ length octets.old }
    ensures { octets.new ≡ encoded (length octets.old) hash message.now }
{
    match hash {
        HashFunction::Sha256 => pad(octets, &AHEAD_SHA256, &sha256_of(message)),
        HashFunction::Sha384 => pad(octets, &AHEAD_SHA384, &sha384_of(message)),
        HashFunction::Sha512 => pad(octets, &AHEAD_SHA512, &sha512_of(message)),
        HashFunction::Sha1 => pad(octets, &AHEAD_SHA1, &sha1_of(message)),
    }
}
