//! The new password of an account.
ghost use Rattle.std.specs.Prelude.{◌≡◌, IfErr, IfOk, OnErr, OnOk, Ok, Err};
ghost use Rattle.krb_crypto.specs.Sealing.{password_key_of};
ghost use Rattle.krb_realm_accounts.specs.Passwords.{password_salt};
ghost use Rattle.krb_password_changes.specs.ChangeTable.{settable};
ghost use Rattle.krb_password_changes.specs.declared.judge.Granted.{Granted};
ghost use Rattle.krb_password_changes.specs.NewPasswords.{Changes, HasPassword};
ghost use Rattle.krb_password_changes.specs.Refusals.{IsJudged};

use crate::judge::{Granted, Rules, judge_private, suite_of_rules};
use crate::messages::{ResultCode, Version};
use crate::refusal::ChangeRefusal;
use krb_account_texts::{Line, change_key};
use krb_crypto::{CipherSuite, Key};
use krb_service::Admission;
use picky_asn1::wrapper::{GeneralStringAsn1, OctetStringAsn1};
use std::alloc::{AllocError, Global};

// The salt of a realm and a name.
fn salt_of(alloc: Global, realm: &[u8], name: &[GeneralStringAsn1]) -> Result<Vec<u8>, AllocError>
    ensures { IfOk result (λ salt. salt.items ≡ password_salt realm.now name.now) }
{
    let mut salt = Vec::from_slice(alloc, realm)?;
    for component in name {
        salt.extend_from_slice(component.as_bytes())?;
    }
    Ok(salt)
}

// The key of a password with a salt. A password that isn't empty has one, unless memory runs out.
fn key_of_password(
    alloc: Global,
    suite: CipherSuite,
    password: &[u8],
    salt: &[u8],
) -> Result<Key, AllocError>
    ensures { IfOk result (λ key. key ≡ record { suite = suite; bytes = password_key_of suite password.now salt.now }) }
{
    let Ok(key) = Key::of_password(alloc, suite, password, salt) else {
        return Err(AllocError);
    };
    Ok(key)
}

/// Gives the account of the granted target the next key: that of the password, of this suite. What is refused changes nothing.
pub fn set_password(
    alloc: Global,
    lines: &mut Vec<Line>,
    suite: CipherSuite,
    granted: &Granted,
) -> Result<(), ChangeRefusal>
    ensures ok { OnOk result (HasPassword suite granted.now lines.old.items lines.new.items) }
    ensures judged { IfOk result (λ _. (settable lines.old.items granted.now).gives (Ok granted.now)) }
    ensures refused { IfErr result (λ refusal. IsJudged {T = Granted} (settable lines.old.items granted.now).gives (Err refusal)) }
    ensures err { OnErr result (lines.new.items ≡ lines.old.items) }
{
    let name = granted.name.name_string.0.as_slice();
    let salt = salt_of(alloc, granted.realm.as_bytes(), name)?;
    let key = key_of_password(alloc, suite, granted.password.as_bytes(), &salt)?;
    match change_key(lines, name, key, Some(OctetStringAsn1::from(salt))) {
        Ok(()) => Ok(()),
        Err(_) => Err(ChangeRefusal::Refused(ResultCode::HardError)),
    }
}

/// Grants what the octets of a KRB-PRIV ask for, of a client that was admitted, and gives the target's account the new password. What is
/// refused changes nothing.
pub fn change_password(
    alloc: Global,
    lines: &mut Vec<Line>,
    rules: &Rules,
    version: Version,
    admission: &Admission,
    krb_priv: &[u8],
) -> Result<Granted, ChangeRefusal>
    ensures { Changes rules.now version admission.now krb_priv.now lines.old.items result lines.new.items }
{
    let granted = judge_private(alloc, rules, version, admission, krb_priv)?;
    let suite = suite_of_rules(rules);
    match set_password(alloc, lines, suite, &granted) {
        Ok(()) => Ok(granted),
        Err(refusal) => {
            drop(granted);
            Err(refusal)
        }
    }
}
