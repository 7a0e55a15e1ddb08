//! Accounts by their names, and how refusals print.

use krb_crypto::{CipherSuite, Key};
use krb_realm_accounts::{
    Account, Accounts, RealmRefusal, Settings, are_components, components_of, is_realm_name,
    password_salt, realm_name_of,
};
use picky_asn1::wrapper::{GeneralStringAsn1, OctetStringAsn1};
use std::alloc::Global;

const AES128: CipherSuite = CipherSuite::Aes128CtsHmacSha196;

const AES256: CipherSuite = CipherSuite::Aes256CtsHmacSha196;

fn name_of(alloc: Global, components: &[&[u8]]) -> Option<Vec<GeneralStringAsn1>> {
    let mut name = Vec::new(alloc);
    for component in components {
        let component = realm_name_of(alloc, component).ok()?;
        name.push(component).ok()?;
    }
    Some(name)
}

fn is_kept(skew: u64, lifetime: u64) -> bool {
    match Settings::new(skew, lifetime) {
        Ok(settings) => settings.skew() == skew && settings.lifetime() == lifetime,
        Err(_) => false,
    }
}

#[test]
fn settings(rt: HostRuntime) {
    assert!(rt; is_kept(300, 36_000));
}

fn host(alloc: Global) -> Option<Vec<Vec<u8>>> {
    let host = Vec::from_slice(alloc, b"host").ok()?;
    vec![in alloc; host].ok()
}

fn is_component(alloc: Global) -> Option<bool> {
    let name = host(alloc)?;
    let components = components_of(alloc, &name).ok()?;
    Some(are_components(&name) && Some(components) == name_of(alloc, &[b"host"]))
}

fn is_salt(alloc: Global, wanted: &[u8]) -> Option<bool> {
    let name = host(alloc)?;
    let salt = password_salt(alloc, b"EXAMPLE.ORG", &name).ok()?;
    Some(salt.as_slice() == wanted)
}

// The salt is the realm and behind it the components (RFC 4120, section 4).
#[test]
fn names(rt: HostRuntime) {
    assert!(rt; is_realm_name(b"EXAMPLE.ORG") && !is_realm_name(b""));
    assert!(rt; is_component(rt.alloc()) == Some(true));
    assert!(rt; is_salt(rt.alloc(), b"EXAMPLE.ORGhost") == Some(true));
}

fn add(
    accounts: &mut Accounts,
    name: Option<Vec<GeneralStringAsn1>>,
    account: Account,
) -> Option<()> {
    accounts.insert_new(name?, account).ok()
}

// The service host/a, and a user by a key of number 7 with a salt.
fn two_accounts(alloc: Global) -> Option<Accounts> {
    let mut accounts = Accounts::new(alloc);
    let host = Account::by_key(AES128, &[1; 16]).ok()?;
    add(&mut accounts, name_of(alloc, &[b"host", b"a"]), host)?;
    add(&mut accounts, name_of(alloc, &[b"user"]), account_7(alloc)?)?;
    Some(accounts)
}

fn account_7(alloc: Global) -> Option<Account> {
    let salt = OctetStringAsn1::new(alloc, b"Ruser").ok()?;
    let key = Key::new(AES256, &[2; 32]).ok()?;
    Some(Account::new(key, 7, Some(salt)))
}

fn is_account_7(account: &Account) -> bool {
    account.suite() == AES256
        && account.key().as_bytes() == [2; 32].as_slice()
        && account.kvno() == 7
        && account.salt().is_some_and(is_user_salt)
}

fn is_user_salt(salt: &OctetStringAsn1) -> bool {
    salt.as_bytes() == b"Ruser".as_slice()
}

// Whether this name has an account.
fn is_known(alloc: Global, components: &[&[u8]]) -> Option<bool> {
    let name = name_of(alloc, components)?;
    Some(two_accounts(alloc)?.get(name.as_slice()).is_some())
}

fn is_found(alloc: Global) -> Option<bool> {
    let name = name_of(alloc, &[b"user"])?;
    Some(
        two_accounts(alloc)?
            .get(name.as_slice())
            .is_some_and(is_account_7),
    )
}

// Names differ in the cases of letters and in where components end.
#[test]
fn found_accounts(rt: HostRuntime) {
    assert!(rt; is_found(rt.alloc()) == Some(true));
    assert!(rt; is_known(rt.alloc(), &[b"User"]) == Some(false));
    assert!(rt; is_known(rt.alloc(), &[b"hosta"]) == Some(false));
    assert!(rt; is_known(rt.alloc(), &[b"host/a"]) == Some(false));
}

fn is_printed(alloc: Global, refusal: RealmRefusal, text: &str) -> bool {
    match format!(in alloc; "{refusal}") {
        Ok(printed) => printed.as_str() == text,
        Err(_) => false,
    }
}

#[test]
fn refusals(rt: HostRuntime) {
    for (refusal, number) in [
        (RealmRefusal::Exists, 1),
        (RealmRefusal::BadName, 3),
        (RealmRefusal::BadKeyLength, 4),
        (RealmRefusal::BadSetting, 7),
        (RealmRefusal::Memory, 8),
    ] {
        assert!(rt; refusal as u8 == number, "at {number}");
    }
    assert!(rt;
        is_printed(
            rt.alloc(),
            RealmRefusal::Exists,
            "the account exists already"
        )
    );
}
