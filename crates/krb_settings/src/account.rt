//! The accounts of a settings file.
ghost use Rattle.std.specs.Prelude.{map};
ghost use Rattle.toml.specs.View.{view, items_view, table_view};
ghost use Rattle.krb_settings.specs.Steps.{IsAside};
ghost use Rattle.krb_settings.specs.Accounts.{account_of, accounts_at, accounts_in, key_of, name_at, numbered, password_of, secret_at, texts_of};
ghost use Rattle.krb_settings.specs.Written.{shown_account, shown_secret};

use crate::table::{bytes_of, check_keys, get, list_of, suite_at, text_of, value_at};
use crate::{AccountSettings, Field, Secret, SettingsFault, TableFault};
use std::alloc::Global;
use toml::{Table, Value};

/// The fields of an account.
pub const ACCOUNT_FIELDS: [Field; 4] = [Field::Key, Field::Name, Field::Password, Field::Suite];

// The accounts of a file.
pub(crate) fn accounts_at(
    alloc: Global,
    table: &Table,
) -> Result<Vec<AccountSettings>, SettingsFault>
    ensures { IsAside SettingsFault.Memory (λ v. map shown_account v.items) (accounts_at (table_view table.now)) result }
{
    match get(table, Field::Account) {
        None => Ok(Vec::new(alloc)),
        Some(value) => match value.as_array() {
            Some(values) => read_accounts(alloc, values),
            None => Err(SettingsFault::File(TableFault::WrongType(Field::Account))),
        },
    }
}

fn read_accounts(alloc: Global, values: &[Value]) -> Result<Vec<AccountSettings>, SettingsFault>
    ensures { IsAside SettingsFault.Memory (λ v. map shown_account v.items) (accounts_in (items_view values.now)) result }
{
    let mut accounts = Vec::with_capacity(alloc, values.len())?;
    for (index, value) in values.iter().enumerate() {
        accounts.push(numbered(alloc, index + 1, value)?)?;
    }
    Ok(accounts)
}

// The account of this number.
fn numbered(alloc: Global, number: usize, value: &Value) -> Result<AccountSettings, SettingsFault>
    ensures { IsAside SettingsFault.Memory shown_account (numbered number (view value.now)) result }
{
    let Some(table) = value.as_table() else {
        return Err(SettingsFault::File(TableFault::WrongType(Field::Account)));
    };
    match account_of(alloc, table) {
        Ok(account) => Ok(account),
        Err(fault) => Err(SettingsFault::in_account(number, fault)),
    }
}

// The account that a table writes.
fn account_of(alloc: Global, table: &Table) -> Result<AccountSettings, TableFault>
    ensures { IsAside TableFault.Memory shown_account (account_of (table_view table.now)) result }
{
    check_keys(table, &ACCOUNT_FIELDS)?;
    let name = name_at(alloc, table)?;
    let suite = suite_at(table)?;
    let secret = secret_at(alloc, table)?;
    Ok(AccountSettings {
        name,
        suite,
        secret,
    })
}

// The components of an account's name.
fn name_at(alloc: Global, table: &Table) -> Result<Vec<Vec<u8>>, TableFault>
    ensures { IsAside TableFault.Memory (λ v. map (λ part. part.items) v.items) (name_at (table_view table.now)) result }
{
    let value = value_at(table, Field::Name)?;
    texts_of(alloc, list_of(Field::Name, value)?)
}

fn texts_of(alloc: Global, values: &[Value]) -> Result<Vec<Vec<u8>>, TableFault>
    ensures { IsAside TableFault.Memory (λ v. map (λ part. part.items) v.items) (texts_of (items_view values.now)) result }
{
    let mut texts = Vec::with_capacity(alloc, values.len())?;
    for value in values {
        let text = text_of(Field::Name, value)?;
        texts.push(Vec::from_slice(alloc, text.as_bytes())?)?;
    }
    Ok(texts)
}

// The password or the key of an account.
fn secret_at(alloc: Global, table: &Table) -> Result<Secret, TableFault>
    ensures { IsAside TableFault.Memory shown_secret (secret_at (table_view table.now)) result }
{
    match (get(table, Field::Password), get(table, Field::Key)) {
        (None, None) => Err(TableFault::NeitherSecret),
        (Some(value), None) => password_of(alloc, value),
        (None, Some(value)) => key_of(alloc, value),
        (Some(_), Some(_)) => Err(TableFault::BothSecrets),
    }
}

fn password_of(alloc: Global, value: &Value) -> Result<Secret, TableFault>
    ensures { IsAside TableFault.Memory shown_secret (password_of (view value.now)) result }
{
    let text = text_of(Field::Password, value)?;
    Ok(Secret::Password(Vec::from_slice(alloc, text.as_bytes())?))
}

fn key_of(alloc: Global, value: &Value) -> Result<Secret, TableFault>
    ensures { IsAside TableFault.Memory shown_secret (key_of (view value.now)) result }
{
    let digits = text_of(Field::Key, value)?;
    Ok(Secret::Key(bytes_of(alloc, digits)?))
}
