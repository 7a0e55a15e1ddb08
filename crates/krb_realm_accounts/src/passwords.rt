//! The salt of a password.
ghost use Rattle.std.specs.Prelude.{◌≡◌, IfOk};
ghost use Rattle.krb_realm_accounts.specs.Names.{parts};
ghost use Rattle.krb_realm_accounts.specs.Passwords.{password_salt};

use std::alloc::{AllocError, Global};

/// The salt of a principal's password: the realm, and behind it the components of the name (RFC 4120, section 4).
pub fn password_salt(alloc: Global, realm: &[u8], name: &[Vec<u8>]) -> Result<Vec<u8>, AllocError>
    ensures { IfOk result (λ salt. salt.items ≡ password_salt realm.now (parts name.now)) }
{
    let mut salt = Vec::from_slice(alloc, realm)?;
    for component in name {
        salt.extend_from_slice(component)?;
    }
    Ok(salt)
}
