//! What is said of a settings file.
ghost use Rattle.std.specs.Prelude.{◌≡◌, ◌⊎◌, IfOk, MatchOption, Err, Ok};
ghost use Rattle.krb_memory_realms.specs.Realm.{RealmState};
ghost use Rattle.krb_settings.specs.Files.{IsRealmText};
ghost use Rattle.krb_settings.specs.Written.{shown_realm};
ghost use Rattle.krb_settings_kdc.specs.Checks.{IsChecked};
ghost use Rattle.krb_settings_kdc.specs.Realms.{realm_of_settings};

use crate::fault::RealmFault;
use crate::realm::realm_of_settings;
use krb_realm_accounts::RealmRefusal;
use krb_settings::{
    Place, RealmSettings, Remark, Rule, SettingsFault, explain, explain_rule, read_settings_file,
    warnings_of,
};
use std::alloc::{AllocError, Global};

/// What is said of a settings file.
#[derive(Debug, Drop)]
pub enum FileCheck {
    /// It is a realm's. What is likely a slip is warned of.
    Realm(Vec<Remark>),
    /// It is no realm's, for this fault.
    Fault(Remark),
}

/// Says whether a settings file is a realm's: with what is likely a slip in it, or with its first fault: line, word, and what
/// was expected. Fails only if memory runs out.
pub fn check_file(alloc: Global, text: &[u8]) -> Result<FileCheck, AllocError>
    ensures { IfOk result (IsChecked text.now) }
{
    match read_settings_file(alloc, text) {
        Ok(written) => check_written(alloc, text, &written),
        Err(SettingsFault::Memory) => Err(AllocError),
        Err(fault) => Ok(FileCheck::Fault(explain(alloc, text, fault)?)),
    }
}

// What is said of a file that writes these settings.
fn check_written(
    alloc: Global,
    text: &[u8],
    written: &RealmSettings,
) -> Result<FileCheck, AllocError>
    requires { IsRealmText text.now (shown_realm written.now) }
    ensures { IfOk result (IsChecked text.now) }
{
    match fault_of(alloc, written) {
        None => Ok(FileCheck::Realm(warnings_of(alloc, text, written)?)),
        Some(RealmFault::Memory) => Err(AllocError),
        Some(fault) => Ok(FileCheck::Fault(explain_refusal(alloc, text, fault)?)),
    }
}

// Why these settings are no realm's.
fn fault_of(alloc: Global, written: &RealmSettings) -> Option<RealmFault>
    ensures { MatchOption result
        ((realm : RealmState) × (realm_of_settings (shown_realm written.now) ≡ Ok realm))
        (λ fault. (fault ≡ RealmFault.Memory) ⊎ (realm_of_settings (shown_realm written.now) ≡ Err fault)) }
{
    realm_of_settings(alloc, written).err()
}

// The message of what the realm refuses in a file.
fn explain_refusal(alloc: Global, text: &[u8], fault: RealmFault) -> Result<Remark, AllocError> {
    let (place, refusal) = match fault {
        RealmFault::File(fault) => return explain(alloc, text, fault),
        RealmFault::Realm(refusal) => (Place::File, refusal),
        RealmFault::Account(number, refusal) => (Place::Account(number), refusal),
        RealmFault::Memory => return Err(AllocError),
    };
    match rule_of(refusal) {
        Some(rule) => explain_rule(alloc, text, place, rule),
        None => Ok(Remark {
            line: None,
            text: format!(in alloc; "{fault}")?,
        }),
    }
}

// The rule that a refused name, key or setting breaks.
fn rule_of(refusal: RealmRefusal) -> Option<Rule> {
    match refusal {
        RealmRefusal::BadName => Some(Rule::Name),
        RealmRefusal::BadKeyLength => Some(Rule::KeyLength),
        RealmRefusal::BadSetting => Some(Rule::Range),
        RealmRefusal::Exists => Some(Rule::Exists),
        RealmRefusal::Unknown
        | RealmRefusal::KeptAccount
        | RealmRefusal::NumberSpent
        | RealmRefusal::Memory => None,
    }
}
