//! The rules for the names of realms and of principals.
ghost use Rattle.std.specs.Prelude.{◌≡◌, ◌↔◌, ◌⊎◌, IfOk, IfErr, nat_lt, false};
ghost use Rattle.std.specs.List.{list_all};
ghost use Rattle.krb_realm_accounts.specs.Names.{AreComponents, IsRealmName, are_components, is_realm_name, parts};

use crate::refusal::RealmRefusal;
use picky_asn1::wrapper::GeneralStringAsn1;
use std::alloc::{AllocError, Global};

/// The most characters of a realm's name and of a component.
pub const CHARACTER_LIMIT: usize = 255;

/// The most components of a principal's name.
pub const COMPONENT_LIMIT: usize = 16;

/// Whether a realm may have this name: 1 to 255 characters below 128.
pub fn is_realm_name(name: &[u8]) -> bool
    ensures { result ≡ is_realm_name name.now }
{
    if name.is_empty() || CHARACTER_LIMIT < name.len() {
        return false;
    }
    has_characters_below_128(name)
}

/// Whether a principal may have this name: 1 to 16 components, each like a realm's name.
pub fn are_components(name: &[Vec<u8>]) -> bool
    ensures { result ≡ are_components (parts name.now) }
{
    if name.is_empty() || COMPONENT_LIMIT < name.len() {
        return false;
    }
    are_realm_names(name)
}

/// Whether each character is below 128.
pub(crate) fn has_characters_below_128(text: &[u8]) -> bool
    ensures { result ≡ list_all (λ character. nat_lt character 128) text.now }
{
    text.iter().all(|character| *character < 128)
}

fn are_realm_names(names: &[Vec<u8>]) -> bool
    ensures { result ≡ list_all (λ name. is_realm_name name.items) names.now }
{
    names.iter().all(|name| is_realm_name(name.as_slice()))
}

/// A realm's name as messages hold it. What is none is refused.
pub fn realm_name_of(alloc: Global, name: &[u8]) -> Result<GeneralStringAsn1, RealmRefusal>
    ensures ok { IfOk result (λ s. s ≡ name.now) }
    ensures valid { IfOk result (λ _. IsRealmName name.now) }
    ensures bad_name { (result ≡ Err RealmRefusal.BadName) ↔ (is_realm_name name.now ≡ false) }
    ensures refusal { IfErr result (λ e. (e ≡ RealmRefusal.Memory) ⊎ (e ≡ RealmRefusal.BadName)) }
{
    if !is_realm_name(name) {
        return Err(RealmRefusal::BadName);
    }
    Ok(copy_of(alloc, name)?)
}

/// A principal's name as messages hold it. What is none is refused.
pub fn components_of(
    alloc: Global,
    name: &[Vec<u8>],
) -> Result<Vec<GeneralStringAsn1>, RealmRefusal>
    ensures ok { IfOk result (λ v. v.items ≡ parts name.now) }
    ensures valid { IfOk result (λ _. AreComponents (parts name.now)) }
    ensures bad_name { (result ≡ Err RealmRefusal.BadName) ↔ (are_components (parts name.now) ≡ false) }
    ensures refusal { IfErr result (λ e. (e ≡ RealmRefusal.Memory) ⊎ (e ≡ RealmRefusal.BadName)) }
{
    if !are_components(name) {
        return Err(RealmRefusal::BadName);
    }
    let mut components = Vec::with_capacity(alloc, name.len())?;
    for component in name {
        components.push(copy_of(alloc, component.as_slice())?)?;
    }
    Ok(components)
}

/// A copy of a realm's name or of a component.
fn copy_of(alloc: Global, name: &[u8]) -> Result<GeneralStringAsn1, AllocError>
    requires { IsRealmName name.now }
    ensures { IfOk result (λ s. s ≡ name.now) }
{
    match GeneralStringAsn1::from_content(alloc, name)? {
        Some(copy) => Ok(copy),
        None => unreachable!(),
    }
}
