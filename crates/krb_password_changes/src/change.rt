//! What a request asks for.
ghost use Rattle.std.specs.Prelude.{◌≡◌, IfOk};
ghost use Rattle.picky_asn1_der.specs.Found.{IsFound};
ghost use Rattle.krb_password_changes.specs.Changes.{IsChange, client_of, is_same_target, own_change, target_of};

use crate::messages::Version;
use krb_messages::data_types::{PrincipalName, Realm};
use krb_messages::{is_same_name, is_same_realm};
use krb_service::Admission;
use microsoft_messages::ChangePasswdData;
use picky_asn1::wrapper::OctetStringAsn1;
use picky_asn1_der::{ExplicitContextTag, Optional, read_whole};
use std::alloc::{AllocError, Global};
use std::marker::Model;

/// The principal that gets a password. A contract sees its realm and its name.
#[derive(Drop)]
pub struct Target<'a> {
    /// Its realm.
    pub realm: &'a Realm,
    /// Its name.
    pub name: &'a PrincipalName,
}

impl<'a> Model for Target<'a> {
    ghost use Rattle.krb_password_changes.specs.Changes.{TargetRecord};

    ghost Value = { TargetRecord };

    ghost view = { λ own. record { realm = own.realm.now; name = own.name.now } };
}

/// Returns the change that user-data of a version ask for, or none if they are no such data.
pub fn read_change(
    alloc: Global,
    version: Version,
    user_data: &[u8],
) -> Result<Option<ChangePasswdData>, AllocError>
    ensures { IfOk result (IsFound (IsChange version user_data.now)) }
{
    match version {
        Version::ChangePassword => {
            let change = own_change(alloc, user_data)?;
            Ok(Some(change))
        }
        Version::SetPassword => read_whole(alloc, user_data),
    }
}

// The client's own change to a password.
fn own_change(alloc: Global, password: &[u8]) -> Result<ChangePasswdData, AllocError>
    ensures { IfOk result (λ change. change ≡ own_change password.now) }
{
    let new_passwd = OctetStringAsn1::new(alloc, password)?;
    Ok(ChangePasswdData {
        new_passwd: ExplicitContextTag(new_passwd),
        target_name: Optional(None),
        target_realm: Optional(None),
    })
}

/// Returns the principal that a change names, or else the client that was admitted; none if a name or a realm is missing.
pub fn target_of<'a>(admission: &'a Admission, change: &'a ChangePasswdData) -> Option<Target<'a>>
    ensures { result ≡ target_of admission.now change.now }
{
    match (&change.target_name.0, &change.target_realm.0) {
        (None, None) => Some(client_of(admission)),
        (Some(name), Some(realm)) => Some(Target {
            realm: &realm.0,
            name: &name.0,
        }),
        _ => None,
    }
}

// The client that was admitted.
pub(crate) fn client_of(admission: &Admission) -> Target<'_>
    ensures { result ≡ client_of admission.now }
{
    Target {
        realm: &admission.realm,
        name: &admission.client,
    }
}

// Whether two principals are the same.
pub(crate) fn is_same_target(own: &Target<'_>, other: &Target<'_>) -> bool
    ensures { result ≡ is_same_target own.now other.now }
{
    is_same_realm(own.realm, other.realm)
        && is_same_name(
            own.name.name_string.0.as_slice(),
            other.name.name_string.0.as_slice(),
        )
}
