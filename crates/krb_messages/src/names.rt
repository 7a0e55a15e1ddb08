//! Names of realms and principals.
ghost use Rattle.std.specs.Prelude.{◌≡◌};
ghost use Rattle.krb_messages.specs.Names.{is_same_name, is_same_realm};

use picky_asn1::wrapper::GeneralStringAsn1;

/// Whether two realms are the same: by their characters, in the same case (RFC 4120, section 6.1).
pub fn is_same_realm(realm: &GeneralStringAsn1, other: &GeneralStringAsn1) -> bool
    ensures { result ≡ is_same_realm realm.now other.now }
{
    realm == other
}

/// Whether two names have the same components (RFC 4120, section 6.2).
pub fn is_same_name(name: &[GeneralStringAsn1], other: &[GeneralStringAsn1]) -> bool
    ensures { result ≡ is_same_name name.now other.now }
{
    name == other
}
