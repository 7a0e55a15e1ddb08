//! Keys of triple DES that RFC 3961, section 6.3.1, makes of no random bits.
ghost use Rattle.std.specs.Prelude.{◌≡◌};
ghost use Rattle.krb_settings.specs.WeakKeys.{has_odd_parity, has_weak_part};

use block_ciphers::is_weak;

/// Whether each octet has odd parity.
pub(crate) fn has_odd_parity(key: &[u8]) -> bool
    ensures { result ≡ has_odd_parity key.now }
{
    key.iter().all(|octet| octet.count_ones() % 2 == 1)
}

/// Whether a key of 24 octets has a weak or semi-weak part.
pub(crate) fn has_weak_part(key: &[u8]) -> bool
    ensures { result ≡ has_weak_part key.now }
{
    key.len() == 24 && (is_weak(&key[..8]) || is_weak(&key[8..16]) || is_weak(&key[16..24]))
}
