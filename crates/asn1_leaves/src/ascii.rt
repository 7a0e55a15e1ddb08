//! Octets below 128 as text.
ghost use Rattle.std.specs.Prelude.{◌≡◌};
ghost use Rattle.asn1_leaves.specs.CharSets.{IsGeneralString};

use std::str;

// The octets as text. Each is below 128, so that they are UTF-8.
pub(crate) fn ascii_text(octets: &[u8]) -> &str
    requires { IsGeneralString octets.now }
    ensures { result.now ≡ octets.now }
{
    str::from_utf8(octets).unwrap()
}
