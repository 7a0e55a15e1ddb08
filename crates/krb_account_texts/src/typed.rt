//! Names of realms that a client's user can type.
ghost use Rattle.std.specs.Prelude.{◌≡◌};
ghost use Rattle.std.specs.List.{list_all};
ghost use Rattle.krb_account_texts.specs.Typed.{can_be_typed, is_typed};

use krb_realm_accounts::is_realm_name;

/// The characters that a name has a use of its own for (RFC 1964, section 2.1.1), or krb5.conf.
const RESERVED: &[u8] = b"\"#*/;=@[\\]{}";

/// Whether a name is one of a realm that a client's user can type, in `user@REALM` and in krb5.conf.
pub fn can_be_typed(name: &[u8]) -> bool
    ensures { result ≡ can_be_typed name.now }
{
    is_realm_name(name) && are_typed(name)
}

fn are_typed(name: &[u8]) -> bool
    ensures { result ≡ list_all is_typed name.now }
{
    name.iter().all(|character| is_typed(*character))
}

fn is_typed(character: u8) -> bool
    ensures { result ≡ is_typed character }
{
    32 < character && character < 127 && !RESERVED.contains(&character)
}
