//! Accounts whose keys are of passwords, in a realm that guards these.
ghost use Rattle.std.specs.Prelude.{◌≡◌, is_some, true};
ghost use Rattle.std.specs.Option.{option_map};
ghost use Rattle.krb_account_texts.specs.Edits.{guarded_account, guards_password, is_guarding};

use crate::edits::is_krbtgt;
use crate::line::{Line, RealmLine};
use crate::order::realm_among;
use krb_realm_accounts::{Account, Attributes};
use picky_asn1::wrapper::GeneralStringAsn1;

/// Whether the realm of these lines guards the password of an account of this name: its line has the word `guards-passwords`, and the name
/// isn't that of its own ticket-granting service.
pub(crate) fn guards_password(lines: &[Line], name: &[GeneralStringAsn1]) -> bool
    ensures { result ≡ guards_password name.now lines.now }
{
    is_guarding(realm_among(lines), name)
}

fn is_guarding(realm: Option<&RealmLine>, name: &[GeneralStringAsn1]) -> bool
    ensures { result ≡ is_guarding (option_map (λ realm. realm.now) realm.entry) name.now }
{
    match realm {
        Some(own) => own.guards_passwords && !is_krbtgt(own.name.as_bytes(), name),
        None => false,
    }
}

/// The account as a realm keeps it that guards its password or doesn't. Where it does, an account whose key is of a password has the mark
/// that there is no ticket for it as a service.
pub(crate) fn guarded_account(guards: bool, account: Account) -> Account
    ensures { result ≡ guarded_account guards account }
{
    if guards && is_of_password(&account) {
        without_tickets(account)
    } else {
        account
    }
}

// Whether the account's key was made of a password: one that has a salt was.
fn is_of_password(account: &Account) -> bool
    ensures { result ≡ is_some account.now.salt }
{
    match account.salt() {
        Some(_) => true,
        None => false,
    }
}

// The account with the mark that there is no ticket for it as a service.
fn without_tickets(account: Account) -> Account
    ensures { result ≡ record account { attributes = record account.attributes { is_no_service = true } } }
{
    let attributes = Attributes {
        is_no_service: true,
        ..account.attributes()
    };
    account.with_attributes(attributes)
}
