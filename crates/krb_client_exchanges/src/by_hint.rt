//! A client whose key is made as its KDC says.
ghost use Rattle.std.specs.Prelude.{◌≡◌, nat_eq, Err, IfErr, IfOk};
ghost use Rattle.std.specs.Cmp.Lexicographic.{pointwise};
ghost use Rattle.std.specs.List.{flat_map};
ghost use Rattle.krb_realm_accounts.specs.Names.{parts};
ghost use Rattle.krb_realm_accounts.specs.Passwords.{password_salt};
ghost use Rattle.krb_crypto.specs.Sealing.{IsRefusedPassword, password_key_of};
ghost use Rattle.krb_client_exchanges.specs.HintedClients.{client_by_hint, has_default_salt, has_no_key, is_keyless, salt_by, takes_salt, takes_suite};
ghost use Rattle.krb_client_exchanges.specs.Refusals.{IsMemoryAside};
ghost use Rattle.krb_client_exchanges.specs.declared.refusal.HintedClientRefusal.{HintedClientRefusal};

use crate::hint::KeyHint;
use crate::refusal::HintedClientRefusal;
use crate::wanted::{Wanted, is_one_of};
use krb_client::{ByKey, Client};
use krb_crypto::{CipherSuite, Key};
use krb_realm_accounts::{are_components, is_realm_name, password_salt};
use std::alloc::{AllocError, Global};

/// The client with this password, and its means. Its suite is the hint's, and its key is that of the password and the hint's salt, or of the
/// default salt where the hint has none: the realm followed by the name's components (RFC 4120, section 5.2.7.5).
///
/// A realm of 1 to 255 characters below 128 and a name of 1 to 16 such components are accepted; others are refused. Then the hint's suite
/// has to be one that is wanted, and its salt the default one unless the user named the suite. After it an empty password with an empty
/// salt is refused under triple DES, which has no key of them.
pub fn client_by_hint(
    alloc: Global,
    wanted: Wanted<'_>,
    realm: &[u8],
    name: &[Vec<u8>],
    password: &[u8],
    hint: &KeyHint,
) -> Result<(Client, ByKey), HintedClientRefusal>
    ensures made { IsMemoryAside result (client_by_hint wanted.entry realm.now (parts name.now) password.now hint.now) }

    // Running out of memory hides no other refusal.
    ensures first { (refusal : HintedClientRefusal) → client_by_hint wanted.entry realm.now (parts name.now) password.now hint.now ≡ Err refusal → result ≡ Err refusal }
{
    if !is_realm_name(realm) {
        return Err(HintedClientRefusal::BadName);
    }
    if !are_components(name) {
        return Err(HintedClientRefusal::BadName);
    }
    if !takes_suite(wanted, hint) {
        return Err(HintedClientRefusal::OtherSuite);
    }
    if !takes_salt(wanted, hint, realm, name) {
        return Err(HintedClientRefusal::OtherSalt);
    }
    if is_keyless(hint, password) {
        return Err(HintedClientRefusal::NoKey);
    }
    let key = key_by(alloc, realm, name, password, hint)?;
    let client = Client::named(alloc, realm, name, hint.suite)?;
    Ok((client, ByKey { key }))
}

// Whether the hint's suite is one that is wanted.
fn takes_suite(wanted: Wanted<'_>, hint: &KeyHint) -> bool
    ensures { result ≡ takes_suite wanted.entry hint.now }
{
    is_one_of(wanted.suites(), hint.suite)
}

// Whether the hint's salt is taken.
fn takes_salt(wanted: Wanted<'_>, hint: &KeyHint, realm: &[u8], name: &[Vec<u8>]) -> bool
    ensures { result ≡ takes_salt wanted.entry hint.now realm.now (parts name.now) }
{
    match wanted {
        Wanted::Usual => has_default_salt(hint, realm, name),
        Wanted::Chosen(_) => true,
    }
}

// Whether the hint's salt is the default one.
fn has_default_salt(hint: &KeyHint, realm: &[u8], name: &[Vec<u8>]) -> bool
    ensures { result ≡ has_default_salt hint.now realm.now (parts name.now) }
{
    match &hint.salt {
        Some(salt) => is_default_salt(salt.as_bytes(), realm, name),
        None => true,
    }
}

// Whether the octets are the realm, followed by the components.
fn is_default_salt(octets: &[u8], realm: &[u8], name: &[Vec<u8>]) -> bool
    ensures { result ≡ pointwise nat_eq octets.now (password_salt realm.now (parts name.now)) }
{
    match octets.strip_prefix(realm) {
        Some(rest) => are_joined(rest, name),
        None => false,
    }
}

// Whether the octets are the components, one behind the other.
fn are_joined(octets: &[u8], name: &[Vec<u8>]) -> bool
    ensures { result ≡ pointwise nat_eq octets.now (flat_map (λ component. component) (parts name.now)) }
{
    let mut rest = octets;
    for component in name {
        match rest.strip_prefix(component.as_slice()) {
            Some(behind) => rest = behind,
            None => return false,
        }
    }
    rest.is_empty()
}

// The key of the password by the hint, where there is one. Fails only if memory runs out.
fn key_by(
    alloc: Global,
    realm: &[u8],
    name: &[Vec<u8>],
    password: &[u8],
    hint: &KeyHint,
) -> Result<Key, AllocError>
    ensures { IfOk result (λ key. key ≡ record {
      suite = hint.now.suite;
      bytes = password_key_of hint.now.suite password.now (salt_by hint.now realm.now (parts name.now));
    }) }
{
    let salt = salt_by(alloc, realm, name, hint)?;
    let Ok(key) = Key::of_password(alloc, hint.suite, password, &salt) else {
        return Err(AllocError);
    };
    Ok(key)
}

// The hint's salt, or the default one. Fails only if memory runs out.
fn salt_by(
    alloc: Global,
    realm: &[u8],
    name: &[Vec<u8>],
    hint: &KeyHint,
) -> Result<Vec<u8>, AllocError>
    ensures { IfOk result (λ salt. salt.items ≡ salt_by hint.now realm.now (parts name.now)) }
{
    match &hint.salt {
        Some(salt) => Vec::from_slice(alloc, salt.as_bytes()),
        None => password_salt(alloc, realm, name),
    }
}

// Whether there is no key of the password with the hint's salt.
fn is_keyless(hint: &KeyHint, password: &[u8]) -> bool
    ensures { result ≡ is_keyless hint.now password.now }
{
    match &hint.salt {
        Some(salt) => has_no_key(hint.suite, password, salt.as_bytes()),
        None => false,
    }
}

// Whether the suite has no key of the password with the salt.
fn has_no_key(suite: CipherSuite, password: &[u8], salt: &[u8]) -> bool
    ensures { result ≡ has_no_key suite password.now salt.now }
{
    match suite {
        CipherSuite::Des3CbcSha1Kd => password.is_empty() && salt.is_empty(),
        _ => false,
    }
}
