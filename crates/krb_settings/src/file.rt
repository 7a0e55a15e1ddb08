//! A settings file as a whole.
ghost use Rattle.std.specs.Prelude.{MatchResult};
ghost use Rattle.krb_settings.specs.Files.{HasFault, IsRealmText};
ghost use Rattle.krb_settings.specs.Written.{shown_realm};

use crate::realm::realm_in_table;
use crate::{RealmSettings, SettingsFault};
use std::alloc::Global;

/// How many bytes a settings file may have.
pub const SETTINGS_LIMIT: usize = 1_048_576;

/// The realm that a settings file writes, or what is wrong with the file.
///
/// The faults come in this order: `TooLong`, `NotToml`, an unknown key of the file, the accounts' faults, and those of the
/// other fields: `realm`, `suite`, `key`, `skew`, `lifetime`. `Memory` says nothing of the file.
pub fn read_settings_file(alloc: Global, text: &[u8]) -> Result<RealmSettings, SettingsFault>
    ensures { MatchResult result (λ realm. IsRealmText text.now (shown_realm realm)) (HasFault text.now) }
{
    if SETTINGS_LIMIT < text.len() {
        return Err(SettingsFault::TooLong);
    }
    match toml::table_from_slice(alloc, text) {
        Ok(table) => realm_in_table(alloc, &table),
        Err(error) if error.is_memory() => Err(SettingsFault::Memory),
        Err(error) => Err(SettingsFault::NotToml(error)),
    }
}
