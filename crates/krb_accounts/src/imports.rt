//! The command `import`.

use crate::PROGRAM;
use crate::accounts::{service_name, two_lines};
use crate::arguments::expected;
use crate::secrets::{SaltedKey, key_of_password};
use crate::texts::finish_text;
use krb_account_texts::{AccountLine, EditRefusal, Line, RealmLine, add, principal_name};
use krb_commands::{FileKind, Stop, begin_first, octets_of, printable_of, refused};
use krb_crypto::{CipherSuite, Key};
use krb_programs::say;
use krb_realm_accounts::{Account, RealmRefusal, Settings, components_of, realm_name_of};
use krb_settings::{
    AccountSettings, Place, RealmSettings, Rule, Secret, SettingsFault, explain, explain_rule,
    read_settings_file, warnings_of,
};
use picky_asn1::wrapper::GeneralStringAsn1;
use std::alloc::Global;

/// `import SETTINGS TEXT`: makes a text of the realm of a settings file. Each account has kvno 1.
pub(crate) fn import(rt: &HostRuntime, arguments: &[String]) -> Result<(), Stop> {
    let [settings, path] = arguments else {
        return Err(expected(rt.alloc(), "import SETTINGS TEXT"));
    };
    let settings = settings.as_str();
    let new_file = begin_first(rt, path.as_str(), &[settings])?;
    let lines = imported(rt, settings);
    finish_text(rt, new_file, lines)
}

fn imported(rt: &HostRuntime, settings: &str) -> Result<Vec<Line>, Stop> {
    let text = octets_of(rt, settings, FileKind::Settings)?;
    let source = Source {
        path: settings,
        text: &text,
    };
    lines_in(rt, source)
}

// The lines of the realm of a settings file, of which it warns.
fn lines_in(rt: &HostRuntime, source: Source<'_>) -> Result<Vec<Line>, Stop> {
    let written = settings_of(rt.alloc(), source)?;
    warn_of_settings(rt, source, &written)?;
    lines_of(rt, source, &written)
}

// What the settings file says.
fn settings_of(alloc: Global, source: Source<'_>) -> Result<RealmSettings, Stop> {
    match read_settings_file(alloc, source.text) {
        Ok(written) => Ok(written),
        Err(SettingsFault::Memory) => Err(Stop::Memory),
        Err(fault) => {
            let path = source.path;
            let remark = explain(alloc, source.text, fault)?;
            Err(refused(alloc, format_args!("{path}{remark}")))
        }
    }
}

fn warn_of_settings(
    rt: &HostRuntime,
    source: Source<'_>,
    written: &RealmSettings,
) -> Result<(), Stop> {
    let path = source.path;
    for remark in &warnings_of(rt.alloc(), source.text, written)? {
        let line = printable_of(rt.alloc(), format_args!("{path}{remark}"))?;
        say(rt, PROGRAM, &line);
    }
    Ok(())
}

/// A settings file.
#[derive(Clone, Copy)]
struct Source<'a> {
    path: &'a str,
    text: &'a [u8],
}

impl<'a> Source<'a> {
    // The stop of a rule that a table of the file breaks.
    fn breaks(self, rt: &HostRuntime, place: Place, rule: Rule) -> Stop {
        let path = self.path;
        match explain_rule(rt.alloc(), self.text, place, rule) {
            Ok(remark) => refused(rt.alloc(), format_args!("{path}{remark}")),
            Err(_) => Stop::Memory,
        }
    }

    // The stop of a name that a table of the file writes, and a realm refuses.
    fn refuses(self, rt: &HostRuntime, place: Place, refusal: RealmRefusal) -> Stop {
        match refusal {
            RealmRefusal::Memory => Stop::Memory,
            _ => self.breaks(rt, place, Rule::Name),
        }
    }
}

// The lines of a realm.
fn lines_of(
    rt: &HostRuntime,
    source: Source<'_>,
    written: &RealmSettings,
) -> Result<Vec<Line>, Stop> {
    let mut lines = first_lines(rt, source, written)?;
    for (index, account) in written.accounts.iter().enumerate() {
        let place = Place::Account(index.saturating_add(1));
        put_account(rt, source, place, &mut lines, &written.name, account)?;
    }
    Ok(lines)
}

// The lines of a realm without accounts.
fn first_lines(
    rt: &HostRuntime,
    source: Source<'_>,
    written: &RealmSettings,
) -> Result<Vec<Line>, Stop> {
    let own = realm_of(rt, source, written)?;
    let service = service_of(rt, source, written, &own.name)?;
    two_lines(rt.alloc(), own, service)
}

// The line of the realm's ticket-granting service.
fn service_of(
    rt: &HostRuntime,
    source: Source<'_>,
    written: &RealmSettings,
    realm: &GeneralStringAsn1,
) -> Result<AccountLine, Stop> {
    let name = service_name(rt.alloc(), realm)?;
    let key = key_of(rt, source, Place::File, written.suite, &written.key)?;
    let account = Account::new(key, 1, None);
    Ok(AccountLine {
        name,
        account,
        is_disabled: false,
    })
}

fn put_account(
    rt: &HostRuntime,
    source: Source<'_>,
    place: Place,
    lines: &mut Vec<Line>,
    realm: &[u8],
    account: &AccountSettings,
) -> Result<(), Stop> {
    let line = account_of(rt, source, place, realm, account)?;
    match add(lines, line) {
        Ok(()) => Ok(()),
        Err(EditRefusal::Memory) => Err(Stop::Memory),
        Err(_) => Err(source.breaks(rt, place, Rule::Exists)),
    }
}

fn realm_of(
    rt: &HostRuntime,
    source: Source<'_>,
    written: &RealmSettings,
) -> Result<RealmLine, Stop> {
    let name = match realm_name_of(rt.alloc(), &written.name) {
        Ok(name) => name,
        Err(refusal) => return Err(source.refuses(rt, Place::File, refusal)),
    };
    match Settings::new(written.skew, written.lifetime) {
        Ok(settings) => Ok(RealmLine {
            name,
            settings,
            guards_passwords: false,
            pkinit: None,
        }),
        Err(_) => Err(source.breaks(rt, Place::File, Rule::Range)),
    }
}

fn key_of(
    rt: &HostRuntime,
    source: Source<'_>,
    place: Place,
    suite: CipherSuite,
    octets: &[u8],
) -> Result<Key, Stop> {
    let Ok(key) = Key::new(suite, octets) else {
        return Err(source.breaks(rt, place, Rule::KeyLength));
    };
    Ok(key)
}

// The line of an account.
fn account_of(
    rt: &HostRuntime,
    source: Source<'_>,
    place: Place,
    realm: &[u8],
    account: &AccountSettings,
) -> Result<AccountLine, Stop> {
    let alloc = rt.alloc();
    let components = match components_of(alloc, &account.name) {
        Ok(components) => components,
        Err(refusal) => return Err(source.refuses(rt, place, refusal)),
    };
    let salted = salted_key_of(rt, source, place, realm, &components, account)?;
    let name = principal_name(alloc, components)?;
    let account = Account::new(salted.key, 1, salted.salt);
    Ok(AccountLine {
        name,
        account,
        is_disabled: false,
    })
}

// The key of an account.
fn salted_key_of(
    rt: &HostRuntime,
    source: Source<'_>,
    place: Place,
    realm: &[u8],
    name: &[GeneralStringAsn1],
    account: &AccountSettings,
) -> Result<SaltedKey, Stop> {
    match &account.secret {
        Secret::Password(password) => {
            key_of_password(rt.alloc(), account.suite, password, realm, name)
        }
        Secret::Key(octets) => Ok(SaltedKey {
            key: key_of(rt, source, place, account.suite, octets)?,
            salt: None,
        }),
    }
}
