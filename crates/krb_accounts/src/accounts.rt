//! The commands that change accounts in a text.

use crate::arguments::{expected, name_of, options_of};
use crate::secrets::{KeyInput, SaltedKey, input_of, key_of_password, key_without_password};
use crate::texts::finish_text;
use crate::warnings::{RealmKey, Stream, is_service, warn_of_account, warn_of_realm};
use krb_account_texts::{
    AccountLine, EditRefusal, Line, RealmLine, add, can_be_typed, change_key, disable, enable,
    keep_key, place_of, principal_name, purge, realm_among, remove,
};
use krb_commands::{
    FileKind, Stop, account_among, begin, begin_first, lines_of, realm_of, refused,
};
use krb_crypto::{CipherSuite, Key};
use krb_messages::data_types::PrincipalName;
use krb_messages::krbtgt_of;
use krb_realm_accounts::{Account, Policy, Settings, USUAL_LIFETIME, USUAL_SKEW, realm_name_of};
use krb_settings::Secret;
use picky_asn1::wrapper::GeneralStringAsn1;
use std::alloc::{AllocError, Global};

/// The suite of a key for which none is given.
const SUITE: CipherSuite = CipherSuite::Aes256CtsHmacSha196;

/// The policy of a new realm.
const NEW_POLICY: Policy = Policy {
    limits_des3: true,
    forwardable: false,
    proxiable: false,
    renewable_life: 0,
    pkinit_agility: false,
    pkinit_sha1: false,
};

/// `create [-e SUITE] [-k [random]] TEXT REALM`: makes a text of a realm, with the key of its ticket-granting service.
pub(crate) fn create(rt: &HostRuntime, arguments: &[String]) -> Result<(), Stop> {
    let alloc = rt.alloc();
    let (options, arguments) = options_of(alloc, arguments)?;
    let [path, realm] = arguments else {
        return Err(expected(alloc, "create [-e SUITE] [-k [random]] TEXT REALM"));
    };
    let own = realm_line(alloc, realm.as_str())?;
    let input = input_of(rt, options.source)?;
    let new_file = begin_first(rt, path.as_str(), &[])?;
    let lines = created(rt, own, options.suite.unwrap_or(SUITE), &input);
    finish_text(rt, new_file, lines)
}

fn created(
    rt: &HostRuntime,
    own: RealmLine,
    suite: CipherSuite,
    input: &KeyInput,
) -> Result<Vec<Line>, Stop> {
    let account = service_line(rt, &own.name, suite, input)?;
    let lines = two_lines(rt.alloc(), own, account)?;
    warn_of_created(rt, &lines)?;
    Ok(lines)
}

// The line of the ticket-granting service of a new realm.
fn service_line(
    rt: &HostRuntime,
    realm: &GeneralStringAsn1,
    suite: CipherSuite,
    input: &KeyInput,
) -> Result<AccountLine, Stop> {
    let name = service_name(rt.alloc(), realm)?;
    let salted = key_without_password(rt, suite, input)?;
    Ok(AccountLine {
        name,
        account: Account::new(salted.key, 1, None),
        is_disabled: false,
    })
}

/// The name of the ticket-granting service of a realm.
pub(crate) fn service_name(
    alloc: Global,
    realm: &GeneralStringAsn1,
) -> Result<PrincipalName, AllocError> {
    let components = krbtgt_of(alloc, realm)?;
    principal_name(alloc, components)
}

/// The line of a realm, and that of its ticket-granting service.
pub(crate) fn two_lines(
    alloc: Global,
    realm: RealmLine,
    service: AccountLine,
) -> Result<Vec<Line>, Stop> {
    let lines = vec![in alloc; Line::Realm(realm), Line::Account(service)]?;
    Ok(lines)
}

fn warn_of_created(rt: &HostRuntime, lines: &[Line]) -> Result<(), Stop> {
    let Some(realm) = realm_among(lines) else {
        return Ok(());
    };
    let own = RealmKey::among(rt.alloc(), realm, lines)?;
    warn_of_realm(rt, Stream::Error, &own)
}

// The line of a realm of this name, if clients can type it, with the settings of a new realm.
fn realm_line(alloc: Global, name: &str) -> Result<RealmLine, Stop> {
    if !can_be_typed(name.as_bytes()) {
        return Err(refused(
            alloc,
            "REALM: expected 1 to 255 printable ASCII characters that clients can type: no blank, and none of \"#*/;=@[\\]{}",
        ));
    }
    let (Ok(name), Ok(settings)) = (
        realm_name_of(alloc, name.as_bytes()),
        Settings::new(USUAL_SKEW, USUAL_LIFETIME),
    ) else {
        return Err(Stop::Memory);
    };
    Ok(RealmLine {
        name,
        settings: settings.with_policy(NEW_POLICY),
        guards_passwords: false,
        pkinit: None,
    })
}

/// What `add` and `key` are given.
#[derive(Drop)]
struct Given<'a> {
    /// The suite, if one is given.
    suite: Option<CipherSuite>,
    /// The path of the text.
    path: &'a str,
    name: PrincipalName,
    input: KeyInput,
    /// Whether the keys before stay.
    keeps: bool,
}

// What these arguments and standard input give to a command that expects `command`.
fn given_of<'a>(
    rt: &HostRuntime,
    command: &str,
    arguments: &'a [String],
) -> Result<Given<'a>, Stop> {
    let (options, arguments) = options_of(rt.alloc(), arguments)?;
    let [path, name] = arguments else {
        return Err(expected(rt.alloc(), command));
    };
    let name = name_of(rt.alloc(), name.as_str())?;
    let input = input_of(rt, options.source)?;
    Ok(Given {
        suite: options.suite,
        path: path.as_str(),
        name,
        input,
        keeps: options.keeps,
    })
}

/// `add [-e SUITE] [-k [random]] TEXT NAME`: adds an account, with kvno 1. Where the realm guards passwords, one with a password is no
/// service.
pub(crate) fn add_account(rt: &HostRuntime, arguments: &[String]) -> Result<(), Stop> {
    let command = "add [-e SUITE] [-k [random]] TEXT NAME";
    let given = given_of(rt, command, arguments)?;
    if given.keeps {
        return Err(expected(rt.alloc(), command));
    }
    let new_file = begin(rt, given.path, FileKind::Accounts, &[])?;
    let lines = added(rt, given);
    finish_text(rt, new_file, lines)
}

fn added(rt: &HostRuntime, given: Given<'_>) -> Result<Vec<Line>, Stop> {
    let mut lines = lines_of(rt, given.path)?;
    let components = given.name.name_string.0.as_slice();
    if place_of(&lines, components).is_some() {
        return Err(refusal_of(rt.alloc(), &given.name, EditRefusal::Exists));
    }
    let suite = given.suite.unwrap_or(SUITE);
    let salted = salted_key(rt, &given, &lines, suite)?;
    put_account(&mut lines, given.name, salted)?;
    Ok(lines)
}

// Adds an account of a name that has none, with kvno 1.
fn put_account(lines: &mut Vec<Line>, name: PrincipalName, salted: SaltedKey) -> Result<(), Stop> {
    let line = AccountLine {
        name,
        account: Account::new(salted.key, 1, salted.salt),
        is_disabled: false,
    };
    match add(lines, line) {
        Ok(()) => Ok(()),
        Err(_) => Err(Stop::Memory),
    }
}

// The key that was given, of which it warns.
fn salted_key(
    rt: &HostRuntime,
    given: &Given<'_>,
    lines: &[Line],
    suite: CipherSuite,
) -> Result<SaltedKey, Stop> {
    let realm = realm_of(rt, given.path, lines)?;
    let salted = key_of_input(rt, given, realm, suite)?;
    warn_of_key(rt, given, realm, lines, &salted.key)?;
    Ok(salted)
}

fn key_of_input(
    rt: &HostRuntime,
    given: &Given<'_>,
    realm: &RealmLine,
    suite: CipherSuite,
) -> Result<SaltedKey, Stop> {
    let KeyInput::Password(password) = &given.input else {
        return key_without_password(rt, suite, &given.input);
    };
    let realm = realm.name.as_bytes();
    let name = &given.name;
    if is_service(realm, name) {
        return Err(refused(
            rt.alloc(),
            format_args!(
                "{name}: the realm's key is made of no password: expected -k random, or -k and a key"
            ),
        ));
    }
    let components = name.name_string.0.as_slice();
    key_of_password(rt.alloc(), suite, password, realm, components)
}

// Warns of a key, beside the realm's. That of the realm's own account isn't judged beside the key that it has now.
fn warn_of_key(
    rt: &HostRuntime,
    given: &Given<'_>,
    realm: &RealmLine,
    lines: &[Line],
    key: &Key,
) -> Result<(), Stop> {
    let alloc = rt.alloc();
    let others: &[Line] = if is_service(realm.name.as_bytes(), &given.name) {
        &[]
    } else {
        lines
    };
    let own = RealmKey::among(alloc, realm, others)?;
    let told = told_secret(alloc, given, key)?;
    warn_of_account(rt, Stream::Error, &own, &given.name, key.suite(), told)
}

// The secret of which it warns: the key, or the password of which it was made.
fn told_secret(alloc: Global, given: &Given<'_>, key: &Key) -> Result<Secret, AllocError> {
    match &given.input {
        KeyInput::Password(password) => Ok(Secret::Password(Vec::from_slice(alloc, password)?)),
        KeyInput::Digits(_) | KeyInput::Random => {
            Ok(Secret::Key(Vec::from_slice(alloc, key.as_bytes())?))
        }
    }
}

/// `key [-e SUITE] [-k [random]] [--keep] TEXT NAME`: gives an account its next key, with the next kvno. With `--keep`, and for the realm's
/// ticket-granting service, the keys before stay. Where the realm guards passwords, an account with a password is no service then.
pub(crate) fn change_account(rt: &HostRuntime, arguments: &[String]) -> Result<(), Stop> {
    let command = "key [-e SUITE] [-k [random]] [--keep] TEXT NAME";
    let given = given_of(rt, command, arguments)?;
    let new_file = begin(rt, given.path, FileKind::Accounts, &[])?;
    let lines = changed(rt, &given);
    finish_text(rt, new_file, lines)
}

fn changed(rt: &HostRuntime, given: &Given<'_>) -> Result<Vec<Line>, Stop> {
    let mut lines = lines_of(rt, given.path)?;
    let salted = next_key(rt, given, &lines)?;
    match put_key(rt.alloc(), &mut lines, given, salted) {
        Ok(()) => Ok(lines),
        Err(refusal) => Err(refusal_of(rt.alloc(), &given.name, refusal)),
    }
}

// Gives the account its next key. The ticket-granting service keeps the keys before, so that its tickets stay good.
fn put_key(
    alloc: Global,
    lines: &mut Vec<Line>,
    given: &Given<'_>,
    salted: SaltedKey,
) -> Result<(), EditRefusal> {
    let components = given.name.name_string.0.as_slice();
    let keeps = given.keeps || is_granting(lines, &given.name);
    if keeps {
        keep_key(alloc, lines, components, salted.key, salted.salt)
    } else {
        change_key(lines, components, salted.key, salted.salt)
    }
}

// Whether a name is that of the ticket-granting service of the realm of these lines.
fn is_granting(lines: &[Line], name: &PrincipalName) -> bool {
    match realm_among(lines) {
        Some(realm) => is_service(realm.name.as_bytes(), name),
        None => false,
    }
}

// The next key of an account, of its suite where none is given.
fn next_key(rt: &HostRuntime, given: &Given<'_>, lines: &[Line]) -> Result<SaltedKey, Stop> {
    match account_among(lines, given.name.name_string.0.as_slice()) {
        Some(own) => {
            let suite = given.suite.unwrap_or(own.account.suite());
            salted_key(rt, given, lines, suite)
        }
        None => Err(refusal_of(rt.alloc(), &given.name, EditRefusal::Unknown)),
    }
}

/// What is done with one account, beside its key.
#[derive(Clone, Copy)]
pub(crate) enum Edit {
    /// Its line is taken away.
    Remove,
    /// It is disabled.
    Disable,
    /// It is enabled.
    Enable,
    /// The keys before its own are taken away.
    Purge,
}

impl Edit {
    // The arguments of the command.
    fn command(self) -> &'static str {
        match self {
            Edit::Remove => "remove TEXT NAME",
            Edit::Disable => "disable TEXT NAME",
            Edit::Enable => "enable TEXT NAME",
            Edit::Purge => "purge TEXT NAME",
        }
    }

    fn change(self, lines: &mut Vec<Line>, name: &[GeneralStringAsn1]) -> Result<(), EditRefusal> {
        match self {
            Edit::Remove => remove(lines, name),
            Edit::Disable => disable(lines, name),
            Edit::Enable => enable(lines, name),
            Edit::Purge => purge(lines, name),
        }
    }
}

/// `remove TEXT NAME`, `disable TEXT NAME`, `enable TEXT NAME` and `purge TEXT NAME`: takes an account away, disables it, enables it, or
/// takes the keys before its own away.
pub(crate) fn edit_account(rt: &HostRuntime, edit: Edit, arguments: &[String]) -> Result<(), Stop> {
    let [path, name] = arguments else {
        return Err(expected(rt.alloc(), edit.command()));
    };
    let name = name_of(rt.alloc(), name.as_str())?;
    let new_file = begin(rt, path.as_str(), FileKind::Accounts, &[])?;
    let lines = edited(rt, path.as_str(), edit, &name);
    finish_text(rt, new_file, lines)
}

fn edited(
    rt: &HostRuntime,
    path: &str,
    edit: Edit,
    name: &PrincipalName,
) -> Result<Vec<Line>, Stop> {
    let mut lines = lines_of(rt, path)?;
    match edit.change(&mut lines, name.name_string.0.as_slice()) {
        Ok(()) => Ok(lines),
        Err(refusal) => Err(refusal_of(rt.alloc(), name, refusal)),
    }
}

/// The stop of a refused change of the account of a name.
pub(crate) fn refusal_of(alloc: Global, name: &PrincipalName, refusal: EditRefusal) -> Stop {
    match refusal {
        EditRefusal::Memory => Stop::Memory,
        EditRefusal::Exists
        | EditRefusal::Unknown
        | EditRefusal::KeptAccount
        | EditRefusal::NumberSpent => refused(alloc, format_args!("{name}: {refusal}")),
    }
}
