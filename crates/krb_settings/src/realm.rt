//! The realm of a settings file.
ghost use Rattle.std.specs.Prelude.{◌≡◌, map};
ghost use Rattle.toml.specs.View.{table_view};
ghost use Rattle.krb_settings.specs.Steps.{IsAside};
ghost use Rattle.krb_settings.specs.Realms.{realm_in_table, realm_with};
ghost use Rattle.krb_settings.specs.Written.{shown_account, shown_realm};

use crate::account::accounts_at;
use crate::table::{check_keys, key_at, natural_at, suite_at, text_at};
use crate::{AccountSettings, Field, RealmSettings, SettingsFault, TableFault};
use std::alloc::Global;
use toml::Table;

/// The fields of a file's own table.
pub const REALM_FIELDS: [Field; 6] = [
    Field::Account,
    Field::Key,
    Field::Lifetime,
    Field::Realm,
    Field::Skew,
    Field::Suite,
];

// The realm that a file's table writes.
pub(crate) fn realm_in_table(alloc: Global, table: &Table) -> Result<RealmSettings, SettingsFault>
    ensures { IsAside SettingsFault.Memory shown_realm (realm_in_table (table_view table.now)) result }
{
    if let Err(fault) = check_keys(table, &REALM_FIELDS) {
        return Err(SettingsFault::in_file(fault));
    }
    let accounts = accounts_at(alloc, table)?;
    match realm_with(alloc, table, accounts) {
        Ok(realm) => Ok(realm),
        Err(fault) => Err(SettingsFault::in_file(fault)),
    }
}

// The realm with these accounts.
fn realm_with(
    alloc: Global,
    table: &Table,
    accounts: Vec<AccountSettings>,
) -> Result<RealmSettings, TableFault>
    ensures { IsAside TableFault.Memory shown_realm (realm_with (table_view table.now) (map shown_account accounts.items)) result }
{
    let name = text_at(table, Field::Realm)?;
    let suite = suite_at(table)?;
    let key = key_at(alloc, table)?;
    let skew = natural_at(table, Field::Skew)?;
    let lifetime = natural_at(table, Field::Lifetime)?;
    Ok(RealmSettings {
        name: Vec::from_slice(alloc, name.as_bytes())?,
        suite,
        key,
        skew,
        lifetime,
        accounts,
    })
}
