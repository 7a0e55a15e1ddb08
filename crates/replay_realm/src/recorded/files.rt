//! Settings files, and what is said of them.

use crate::recorded::rows::Rows;
use krb_settings_kdc::{FileCheck, check_file, settings_at};
use std::alloc::Global;
use test_support::{Row, Told};

/// Settings files, each after a line with what is to be said of it: `FILE: ok` and the warnings, or `FILE:LINE:` and the fault.
#[derive(Clone, Copy)]
pub(crate) struct SettingsFiles;

impl Rows for SettingsFiles {
    const SEPARATOR: &'static str = "== ";

    const COLUMNS: &'static str = "\n";

    const NAME: &'static str = "files";

    const WRONG: &'static str = "differing";

    fn tell(&self, rt: &HostRuntime, row: &mut Row<'_>, told: &mut Told) -> anyhow::Result<()> {
        row.want();
        tell_check(rt.alloc(), row.rest().as_bytes(), told)
    }
}

/// Settings files by name, or their octets in hexadecimal after `hex `, each with what is to be said of it.
#[derive(Clone, Copy)]
pub(crate) struct NamedFiles;

impl Rows for NamedFiles {
    const NAME: &'static str = "files";

    const WRONG: &'static str = "differing";

    fn tell(&self, rt: &HostRuntime, row: &mut Row<'_>, told: &mut Told) -> anyhow::Result<()> {
        let name = row.word();
        row.want();
        let settings = match name.strip_prefix("hex ") {
            Some(digits) => hex::decode(rt.alloc(), digits)?,
            None => settings_at(rt, name)?,
        };
        tell_check(rt.alloc(), &settings, told)
    }
}

/// Writes what is said of a settings file.
fn tell_check(alloc: Global, settings: &[u8], told: &mut Told) -> anyhow::Result<()> {
    match check_file(alloc, settings)? {
        FileCheck::Fault(fault) => {
            told.put("FILE");
            told.show(&fault);
        }
        FileCheck::Realm(warnings) => {
            told.put("FILE: ok");
            for warning in &warnings {
                told.put("; FILE");
                told.show(warning);
            }
        }
    }
    Ok(())
}
