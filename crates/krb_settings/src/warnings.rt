//! What is likely a slip in a settings file that is a realm's.
ghost use Rattle.std.specs.Prelude.{◌≡◌, ◌+◌, ◌<◌, ◌∷◌, ◌++◌, [], length, take, IfOk, OnOk, map, string_bytes};
ghost use Rattle.krb_settings.specs.Written.{key, shown_account, shown_realm};
ghost use Rattle.krb_settings.specs.Messages.{found_text};
ghost use Rattle.krb_settings.specs.Warnings.{account_found, accounts_found, met, secret_found, shared_cases, warnings};

use crate::cases::{key_cases, name_cases, password_cases, realm_cases, shared_cases};
use crate::outline::Outline;
use crate::warning::{Found, Warning};
use crate::{AccountSettings, Place, RealmSettings, Remark, Secret};
use krb_crypto::CipherSuite;
use std::alloc::{AllocError, Global};

/// What is likely a slip in a settings file that writes this realm: each as a remark on its line. It shows no key and no password.
pub fn warnings_of(
    alloc: Global,
    text: &[u8],
    written: &RealmSettings,
) -> Result<Vec<Remark>, AllocError>
    ensures { IfOk result (λ remarks. map (λ remark. string_bytes remark.text) remarks.items ≡ map found_text (warnings (shown_realm written.now))) }
{
    let found = warnings_in(alloc, written)?;
    let outline = Outline::read(alloc, text)?;
    remarks_on(alloc, outline.as_ref(), &found)
}

// Each warning on its line.
fn remarks_on(
    alloc: Global,
    outline: Option<&Outline>,
    found: &[Found],
) -> Result<Vec<Remark>, AllocError>
    ensures { IfOk result (λ remarks. map (λ remark. string_bytes remark.text) remarks.items ≡ map found_text found.now) }
{
    let mut remarks = Vec::new(alloc);
    for warning in found {
        remarks.push(remark_on(alloc, outline, *warning)?)?;
    }
    Ok(remarks)
}

fn remark_on(alloc: Global, outline: Option<&Outline>, found: Found) -> Result<Remark, AllocError>
    ensures { IfOk result (λ remark. string_bytes remark.text ≡ found_text found) }
{
    let line = match outline {
        Some(outline) => outline.line(found.place, found.warning.field()),
        None => None,
    };
    let text = format!(in alloc; "{found}")?;
    Ok(Remark { line, text })
}

// The warnings of a realm, in the file's order.
fn warnings_in(alloc: Global, written: &RealmSettings) -> Result<Vec<Found>, AllocError>
    ensures { IfOk result (λ found. found.items ≡ warnings (shown_realm written.now)) }
{
    let mut found = Vec::new(alloc);
    add(&mut found, Place::File, &realm_cases(&written.name))?;
    add(
        &mut found,
        Place::File,
        &key_cases(written.suite, &written.key),
    )?;
    add_accounts(&mut found, written)?;
    Ok(found)
}

fn add_accounts(found: &mut Vec<Found>, written: &RealmSettings) -> Result<(), AllocError>
    ensures { OnOk result (found.new.items ≡ found.old.items ++ accounts_found (shown_realm written.now) 0 (shown_realm written.now).accounts) }
{
    for (index, account) in written.accounts.iter().enumerate() {
        add_account(found, written, index, account)?;
    }
    Ok(())
}

// The warnings of the account of this index.
fn add_account(
    found: &mut Vec<Found>,
    written: &RealmSettings,
    index: usize,
    account: &AccountSettings,
) -> Result<(), AllocError>
    requires { index < length written.now.accounts.items }
    ensures { OnOk result (found.new.items ≡ found.old.items ++ account_found (shown_realm written.now) index (shown_account account.now)) }
{
    let place = Place::Account(index + 1);
    add(found, place, &name_cases(&account.name))?;
    match &account.secret {
        Secret::Password(text) => add(found, place, &password_cases(account.suite, text)),
        Secret::Key(octets) => add_key(found, written, index, account.suite, octets),
    }
}

// The warnings of the key of an account of this index.
fn add_key(
    found: &mut Vec<Found>,
    written: &RealmSettings,
    index: usize,
    suite: CipherSuite,
    octets: &[u8],
) -> Result<(), AllocError>
    requires { index < length written.now.accounts.items }
    ensures { let realm = shown_realm written.now in OnOk result (found.new.items ≡
        found.old.items ++ secret_found (Place.Account (index + 1)) realm (take index realm.accounts) suite (key octets.now)) }
{
    let place = Place::Account(index + 1);
    add(found, place, &key_cases(suite, octets))?;
    add(found, place, &own_cases(written, index, octets))
}

// The tests of a key beside the realm's and those of the accounts before this index.
#[tactic(auto, using(crate::proofs::Mapped::take_shown))]
fn own_cases(written: &RealmSettings, index: usize, octets: &[u8]) -> [(bool, Warning); 2]
    requires { index < length written.now.accounts.items }
    ensures { let realm = shown_realm written.now in result ≡ shared_cases realm.key (take index realm.accounts) octets.now }
{
    let (earlier, _later) = written.accounts.as_slice().split_at(index);
    shared_cases(written.key.as_slice(), earlier, octets)
}

// The warnings whose tests hold.
fn add(found: &mut Vec<Found>, place: Place, cases: &[(bool, Warning)]) -> Result<(), AllocError>
    ensures { OnOk result (found.new.items ≡ found.old.items ++ met place cases.now) }
{
    for case in cases {
        add_case(found, place, case)?;
    }
    Ok(())
}

#[tactic(auto, unfolding(crate::specs::Warnings::met))]
fn add_case(found: &mut Vec<Found>, place: Place, case: &(bool, Warning)) -> Result<(), AllocError>
    ensures { OnOk result (found.new.items ≡ found.old.items ++ met place (case.now ∷ [])) }
{
    let (holds, warning) = *case;
    if holds {
        found.push(Found { place, warning })?;
    }
    Ok(())
}
