//! What is likely a slip in an account, by the rules for settings files.

use crate::PROGRAM;
use crate::secrets::octets_of;
use krb_account_texts::{Line, RealmLine, is_krbtgt};
use krb_commands::{Stop, account_among, print_line, printable_of};
use krb_crypto::CipherSuite;
use krb_messages::data_types::PrincipalName;
use krb_messages::krbtgt_of;
use krb_settings::{AccountSettings, RealmSettings, Secret, warnings_of};
use std::alloc::{AllocError, Global};
use std::fmt::Display;

/// Where warnings are written.
#[derive(Clone, Copy)]
pub(crate) enum Stream {
    /// Standard error, beside what a command does.
    Error,
    /// Standard output: they are all that the command does.
    Output,
}

/// What warnings of an account's own fields begin with, as those of a settings file of one account.
const OF_ACCOUNT: &str = "warning: account 1: ";

/// What warnings of the realm begin with.
const OF_REALM: &str = "warning: ";

/// The name of a realm, and the key of its ticket-granting service.
#[derive(Drop)]
pub(crate) struct RealmKey {
    /// The name.
    pub(crate) name: Vec<u8>,
    suite: CipherSuite,
    key: Vec<u8>,
}

/// Whether a name is that of the ticket-granting service of the realm of this name.
pub(crate) fn is_service(realm: &[u8], name: &PrincipalName) -> bool {
    is_krbtgt(realm, name.name_string.0.as_slice())
}

impl RealmKey {
    /// The name and key of the realm of these lines. The key is empty where the realm has none yet.
    pub(crate) fn among(
        alloc: Global,
        realm: &RealmLine,
        lines: &[Line],
    ) -> Result<RealmKey, AllocError> {
        let service = krbtgt_of(alloc, &realm.name)?;
        let own = account_among(lines, &service);
        drop(service);
        let (suite, key) = match own {
            Some(own) => (own.account.suite(), own.account.key().as_bytes()),
            None => (CipherSuite::Aes256CtsHmacSha196, "".as_bytes()),
        };
        Ok(RealmKey {
            name: Vec::from_slice(alloc, realm.name.as_bytes())?,
            suite,
            key: Vec::from_slice(alloc, key)?,
        })
    }

    // The settings of the realm, with these accounts.
    fn settings(
        &self,
        alloc: Global,
        accounts: Vec<AccountSettings>,
    ) -> Result<RealmSettings, AllocError> {
        Ok(RealmSettings {
            name: Vec::from_slice(alloc, &self.name)?,
            suite: self.suite,
            key: Vec::from_slice(alloc, &self.key)?,
            skew: 0,
            lifetime: 1,
            accounts,
        })
    }
}

/// Writes a warning as a line of its own. Where standard error takes none, that is no fault.
pub(crate) fn say<D: Display + Drop>(
    rt: &HostRuntime,
    stream: Stream,
    warning: D,
) -> Result<(), Stop> {
    let warning = printable_of(rt.alloc(), warning)?;
    match stream {
        Stream::Error => {
            krb_programs::say(rt, PROGRAM, &warning);
            Ok(())
        }
        Stream::Output => print_line(rt, format_args!("{PROGRAM}: {warning}")),
    }
}

/// Warns of the realm's name and key.
pub(crate) fn warn_of_realm(
    rt: &HostRuntime,
    stream: Stream,
    realm: &RealmKey,
) -> Result<(), Stop> {
    let settings = realm.settings(rt.alloc(), Vec::new(rt.alloc()))?;
    warn_by(rt, stream, &settings, OF_REALM, "")
}

/// Warns of an account's name, and of its password or key.
pub(crate) fn warn_of_account(
    rt: &HostRuntime,
    stream: Stream,
    realm: &RealmKey,
    name: &PrincipalName,
    suite: CipherSuite,
    secret: Secret,
) -> Result<(), Stop> {
    let settings = settings_of_account(rt.alloc(), realm, name, suite, secret)?;
    warn_by(rt, stream, &settings, OF_ACCOUNT, format_args!("{name}: "))
}

// The settings of a realm with this account.
fn settings_of_account(
    alloc: Global,
    realm: &RealmKey,
    name: &PrincipalName,
    suite: CipherSuite,
    secret: Secret,
) -> Result<RealmSettings, AllocError> {
    let name = octets_of(alloc, name.name_string.0.as_slice())?;
    let account = AccountSettings {
        name,
        suite,
        secret,
    };
    realm.settings(alloc, vec![in alloc; account]?)
}

// Warns by the settings' warnings that begin so, each with `of` before its words.
fn warn_by<D: Display + Drop>(
    rt: &HostRuntime,
    stream: Stream,
    settings: &RealmSettings,
    start: &str,
    of: D,
) -> Result<(), Stop> {
    for remark in &warnings_of(rt.alloc(), b"", settings)? {
        if let Some(words) = remark.text.as_str().strip_prefix(start) {
            say(rt, stream, format_args!("warning: {of}{words}"))?;
        }
    }
    Ok(())
}
