//! Changes of the line of one account, and of the realm.
ghost use Rattle.std.specs.Prelude.{◌≡◌, ◌<◌, ◌↔◌, ◌⊎◌, true, false, length, if◌then◌else◌, IfErr, IfOk, IfSome, Some, IsSome, OnOk, OnErr, None, Ok, Err};
ghost use Rattle.std.specs.List.{insert};
ghost use Rattle.std.specs.Option.{option_map};
ghost use Rattle.krb_realm_accounts.specs.Accounts.{purged};
ghost use Rattle.krb_account_texts.specs.Edits.{HasCertified, HasChanged, HasOneLess, HasOneMore, added_line, certified, guards_password, is_krbtgt, is_line_of, is_name_spent, is_realm, is_service_of, is_spent, allowed_line, leaving, marked, place_of, purged_line, realm_place, rekeyed, rekeyed_keeping, staying};
ghost use Rattle.krb_account_texts.specs.Order.{place_for};

use crate::line::{AccountLine, Line, RealmLine};
use crate::order::{place_for, realm_among};
use crate::passwords::{guarded_account, guards_password};
use krb_crypto::Key;
use krb_messages::{is_same_name, krbtgt};
use krb_realm_accounts::{Account, Attributes, RealmRefusal};
use picky_asn1::wrapper::{GeneralStringAsn1, OctetStringAsn1};
use std::alloc::{AllocError, AllocFailed, Global};
use thiserror::Error;

/// Why the line of an account was not changed. A refused call changes nothing.
#[derive(Clone, Copy, Debug, PartialEq, Eq, Error)]
pub enum EditRefusal {
    /// An account has that name already.
    #[error("the account is there already")]
    Exists,
    /// No account has that name.
    #[error("no such account")]
    Unknown,
    /// The account is that of the realm's own ticket-granting service, and is kept.
    #[error("the account of the ticket-granting service is kept")]
    KeptAccount,
    /// The kvno is the greatest, and none follows.
    #[error("kvno 4294967295 is the greatest: expected a new name")]
    NumberSpent,
    /// Memory ran out.
    #[error("out of memory")]
    Memory,
}

impl From<AllocError> for EditRefusal {
    ghost use Rattle.krb_account_texts.specs.declared.edits.EditRefusal.TheVariants.{Memory};

    ghost from_gives = { λ _ refusal. refusal ≡ Memory };

    fn from(_error: AllocError) -> EditRefusal {
        EditRefusal::Memory
    }
}

impl<T: Drop> From<AllocFailed<T>> for EditRefusal {
    ghost use Rattle.krb_account_texts.specs.declared.edits.EditRefusal.TheVariants.{Memory};

    ghost from_gives = { λ _ refusal. refusal ≡ Memory };

    fn from(_error: AllocFailed<T>) -> EditRefusal {
        EditRefusal::Memory
    }
}

/// The place of the line of the account of this name, if there is one.
pub fn place_of(lines: &[Line], name: &[GeneralStringAsn1]) -> Option<usize>
    ensures first { result ≡ place_of name.now lines.now }
    ensures within { IfSome result (λ place. place < length lines.now) }
{
    lines.iter().position(|line| is_line_of(line, name))
}

fn is_line_of(line: &Line, name: &[GeneralStringAsn1]) -> bool
    ensures { result ≡ is_line_of name.now line.now }
{
    match line {
        Line::Account(own) => is_same_name(own.name.name_string.0.as_slice(), name),
        _ => false,
    }
}

/// Adds the line of an account, at its place in the order of names. Where the realm guards passwords, and the key is of one, the account
/// has the mark that there is no ticket for it as a service. All other lines stay. It is refused as `Exists` if and only if the name has an
/// account.
pub fn add(lines: &mut Vec<Line>, account: AccountLine) -> Result<(), EditRefusal>
    ensures ok { OnOk result (HasOneMore (added_line (guards_password account.name.name_string.0 lines.old.items) account) lines.old.items lines.new.items) }
    ensures place { OnOk result (lines.new.items ≡ insert lines.old.items (place_for account.name.name_string.0 lines.old.items) (added_line (guards_password account.name.name_string.0 lines.old.items) account)) }
    ensures exists { (result ≡ Err EditRefusal.Exists) ↔ IsSome (place_of account.name.name_string.0 lines.old.items) }
    ensures new { OnOk result (place_of account.name.name_string.0 lines.old.items ≡ None) }
    ensures refusal { IfErr result (λ e. (e ≡ EditRefusal.Exists) ⊎ (e ≡ EditRefusal.Memory)) }
    ensures err { OnErr result (lines.new.items ≡ lines.old.items) }
{
    let name = account.name.name_string.0.as_slice();
    if place_of(lines, name).is_some() {
        return Err(EditRefusal::Exists);
    }
    let place = place_for(lines, name);
    let guards = guards_password(lines, name);
    let line = added_line(guards, account);
    lines.insert(place, line)?;
    Ok(())
}

// The line of an account that is added to the lines of a realm that guards its password or doesn't.
fn added_line(guards: bool, own: AccountLine) -> Line
    ensures { result ≡ added_line guards own }
{
    Line::Account(AccountLine {
        name: own.name,
        account: guarded_account(guards, own.account),
        is_disabled: own.is_disabled,
    })
}

/// Gives the account of a name its next key, with the next kvno and this salt. One that is disabled stays so. Where the realm guards
/// passwords, and the key is of one, the account has the mark that there is no ticket for it as a service. All other lines stay.
///
/// It is refused as `Unknown` if and only if the name has no account, and as `NumberSpent` if and only if its kvno is the greatest.
pub fn change_key(
    lines: &mut Vec<Line>,
    name: &[GeneralStringAsn1],
    key: Key,
    salt: Option<OctetStringAsn1>,
) -> Result<(), EditRefusal>
    ensures ok { OnOk result (HasChanged name.now (rekeyed (guards_password name.now lines.old.items) key.suite key.bytes salt) lines.old.items lines.new.items) }
    ensures unknown { (result ≡ Err EditRefusal.Unknown) ↔ (place_of name.now lines.old.items ≡ None) }
    ensures spent { (result ≡ Err EditRefusal.NumberSpent) ↔ (is_name_spent name.now lines.old.items ≡ true) }
    ensures refusal { IfErr result (λ e. (e ≡ EditRefusal.Unknown) ⊎ (e ≡ EditRefusal.NumberSpent)) }
    ensures err { OnErr result (lines.new.items ≡ lines.old.items) }
{
    let Some(place) = place_of(lines, name) else {
        return Err(EditRefusal::Unknown);
    };
    let guards = guards_password(lines, name);
    rekey(guards, &mut lines[place], key, salt)
}

// Gives the account of a line its next key, in a realm that guards its password or doesn't.
fn rekey(
    guards: bool,
    line: &mut Line,
    key: Key,
    salt: Option<OctetStringAsn1>,
) -> Result<(), EditRefusal>
    ensures ok { OnOk result (line.new ≡ rekeyed guards key.suite key.bytes salt line.old) }
    ensures spent { result ≡ (if is_spent line.old then Err EditRefusal.NumberSpent else Ok tt) }
    ensures err { OnErr result (line.new ≡ line.old) }
{
    let Line::Account(own) = line else {
        return Ok(());
    };
    let kvno = own.account.kvno();
    if kvno == u32::MAX {
        return Err(EditRefusal::NumberSpent);
    }
    let attributes = own.account.attributes().rekeyed();
    let next = Account::new(key, kvno + 1, salt).with_attributes(attributes);
    own.account = guarded_account(guards, next);
    Ok(())
}

/// Gives the account of a name its next key, as [`change_key`] does, and keeps the keys before it. All other lines stay.
///
/// It is refused as `Unknown` if and only if the name has no account, and as `NumberSpent` if and only if its kvno is the greatest.
pub fn keep_key(
    alloc: Global,
    lines: &mut Vec<Line>,
    name: &[GeneralStringAsn1],
    key: Key,
    salt: Option<OctetStringAsn1>,
) -> Result<(), EditRefusal>
    ensures ok { OnOk result (HasChanged name.now (rekeyed_keeping (guards_password name.now lines.old.items) key.suite key.bytes salt) lines.old.items lines.new.items) }
    ensures unknown { (result ≡ Err EditRefusal.Unknown) ↔ (place_of name.now lines.old.items ≡ None) }
    ensures spent { (result ≡ Err EditRefusal.NumberSpent) ↔ (is_name_spent name.now lines.old.items ≡ true) }
    ensures err { OnErr result (lines.new.items ≡ lines.old.items) }
{
    let Some(place) = place_of(lines, name) else {
        return Err(EditRefusal::Unknown);
    };
    let guards = guards_password(lines, name);
    rekey_keeping(alloc, guards, &mut lines[place], key, salt)
}

// Gives the account of a line its next key, in a realm that guards its password or doesn't, and keeps the keys before it.
fn rekey_keeping(
    alloc: Global,
    guards: bool,
    line: &mut Line,
    key: Key,
    salt: Option<OctetStringAsn1>,
) -> Result<(), EditRefusal>
    ensures ok { OnOk result (line.new ≡ rekeyed_keeping guards key.suite key.bytes salt line.old) }
    ensures spent { (result ≡ Err EditRefusal.NumberSpent) ↔ (is_spent line.old ≡ true) }
    ensures refusal { IfErr result (λ e. (e ≡ EditRefusal.NumberSpent) ⊎ (e ≡ EditRefusal.Memory)) }
    ensures err { OnErr result (line.new ≡ line.old) }
{
    let Line::Account(own) = line else {
        return Ok(());
    };
    match own.account.keeping(alloc, key, salt) {
        Ok(next) => {
            own.account = guarded_account(guards, next);
            Ok(())
        }
        Err(RealmRefusal::NumberSpent) => Err(EditRefusal::NumberSpent),
        Err(_) => Err(EditRefusal::Memory),
    }
}

/// Takes the keys before its own from the account of a name. All other lines stay. It is refused as `Unknown` if and only if the name has
/// no account.
pub fn purge(lines: &mut Vec<Line>, name: &[GeneralStringAsn1]) -> Result<(), EditRefusal>
    ensures ok { OnOk result (HasChanged name.now purged_line lines.old.items lines.new.items) }
    ensures refusal { result ≡ staying name.now lines.old.items }
    ensures err { OnErr result (lines.new.items ≡ lines.old.items) }
{
    let Some(place) = place_of(lines, name) else {
        return Err(EditRefusal::Unknown);
    };
    purge_line(&mut lines[place]);
    Ok(())
}

fn purge_line(line: &mut Line)
    ensures { line.new ≡ purged_line line.old }
{
    let Line::Account(own) = line else {
        return;
    };
    purge_account(own);
}

fn purge_account(own: &mut AccountLine)
    ensures { own.new ≡ record own.old { account = purged own.old.account } }
{
    own.account.purge();
}

/// Gives the account of a name these attributes in place of its own, but never that of the realm's own ticket-granting service. All other
/// lines stay.
///
/// It is refused, in this order: `Unknown`, `KeptAccount`.
pub fn allow(
    lines: &mut Vec<Line>,
    name: &[GeneralStringAsn1],
    attributes: Attributes,
) -> Result<(), EditRefusal>
    ensures ok { OnOk result (HasChanged name.now (allowed_line attributes) lines.old.items lines.new.items) }
    ensures refusal { result ≡ leaving name.now lines.old.items }
    ensures err { OnErr result (lines.new.items ≡ lines.old.items) }
{
    let place = leaving(lines, name)?;
    allow_line(&mut lines[place], attributes);
    Ok(())
}

fn allow_line(line: &mut Line, attributes: Attributes)
    ensures { line.new ≡ allowed_line attributes line.old }
{
    let Line::Account(own) = line else {
        return;
    };
    allow_account(own, attributes);
}

fn allow_account(own: &mut AccountLine, attributes: Attributes)
    ensures { own.new ≡ record own.old { account = record own.old.account { attributes = attributes } } }
{
    own.account.set_attributes(attributes);
}

/// Takes the line of the account of a name away, but never that of the realm's own ticket-granting service. All other lines stay.
///
/// It is refused, in this order: `Unknown`, `KeptAccount`.
pub fn remove(lines: &mut Vec<Line>, name: &[GeneralStringAsn1]) -> Result<(), EditRefusal>
    ensures ok { OnOk result (HasOneLess name.now lines.old.items lines.new.items) }
    ensures refusal { result ≡ leaving name.now lines.old.items }
    ensures err { OnErr result (lines.new.items ≡ lines.old.items) }
{
    let place = leaving(lines, name)?;
    let _line = lines.remove(place);
    Ok(())
}

/// Disables the account of a name, but never that of the realm's own ticket-granting service: it has no record in a database, and keeps its
/// line. All other lines stay.
///
/// It is refused, in this order: `Unknown`, `KeptAccount`.
pub fn disable(lines: &mut Vec<Line>, name: &[GeneralStringAsn1]) -> Result<(), EditRefusal>
    ensures ok { OnOk result (HasChanged name.now (marked true) lines.old.items lines.new.items) }
    ensures refusal { result ≡ leaving name.now lines.old.items }
    ensures err { OnErr result (lines.new.items ≡ lines.old.items) }
{
    let place = leaving(lines, name)?;
    mark(&mut lines[place], true);
    Ok(())
}

/// Enables the account of a name. All other lines stay. It is refused as `Unknown` if and only if the name has no account.
pub fn enable(lines: &mut Vec<Line>, name: &[GeneralStringAsn1]) -> Result<(), EditRefusal>
    ensures ok { OnOk result (HasChanged name.now (marked false) lines.old.items lines.new.items) }
    ensures refusal { result ≡ staying name.now lines.old.items }
    ensures err { OnErr result (lines.new.items ≡ lines.old.items) }
{
    let Some(place) = place_of(lines, name) else {
        return Err(EditRefusal::Unknown);
    };
    mark(&mut lines[place], false);
    Ok(())
}

fn mark(line: &mut Line, is_disabled: bool)
    ensures { line.new ≡ marked is_disabled line.old }
{
    let Line::Account(own) = line else {
        return;
    };
    own.is_disabled = is_disabled;
}

// The place of the account of a name, if it may leave the database.
fn leaving(lines: &[Line], name: &[GeneralStringAsn1]) -> Result<usize, EditRefusal>
    ensures ok { IfOk result (λ place. (place_of name.now lines.now ≡ Some place) × (place < length lines.now) × (leaving name.now lines.now ≡ Ok tt)) }
    ensures err { IfErr result (λ e. leaving name.now lines.now ≡ Err e) }
{
    let Some(place) = place_of(lines, name) else {
        return Err(EditRefusal::Unknown);
    };
    if is_service_of(realm_among(lines), name) {
        return Err(EditRefusal::KeptAccount);
    }
    Ok(place)
}

fn is_service_of(realm: Option<&RealmLine>, name: &[GeneralStringAsn1]) -> bool
    ensures { result ≡ is_service_of (option_map (λ realm. realm.now) realm.entry) name.now }
{
    match realm {
        Some(own) => is_krbtgt(own.name.as_bytes(), name),
        None => false,
    }
}

/// Whether a name is that of the ticket-granting service of the realm of this name (RFC 4120, section 7.3).
pub fn is_krbtgt(realm: &[u8], name: &[GeneralStringAsn1]) -> bool
    ensures { result ≡ is_krbtgt realm.now name.now }
{
    let [first, second] = name else {
        return false;
    };
    first.as_bytes() == krbtgt() && second.as_bytes() == realm
}

/// Gives the realm what its logins by certificate are answered by, or takes it away. All other lines stay. It is refused as `Unknown` only
/// if there is no line of a realm.
pub fn certify(lines: &mut Vec<Line>, pkinit: Option<OctetStringAsn1>) -> Result<(), EditRefusal>
    ensures ok { OnOk result (HasCertified pkinit lines.old.items lines.new.items) }
    ensures refusal { IfErr result (λ e. (e ≡ EditRefusal.Unknown) × (realm_place lines.old.items ≡ None)) }
    ensures err { OnErr result (lines.new.items ≡ lines.old.items) }
{
    let Some(place) = realm_place(lines) else {
        return Err(EditRefusal::Unknown);
    };
    put_pkinit(&mut lines[place], pkinit);
    Ok(())
}

// The place of the line of the realm, if there is one.
fn realm_place(lines: &[Line]) -> Option<usize>
    ensures first { result ≡ realm_place lines.now }
    ensures within { IfSome result (λ place. place < length lines.now) }
{
    lines.iter().position(|line| is_realm(line))
}

fn is_realm(line: &Line) -> bool
    ensures { result ≡ is_realm line.now }
{
    match line {
        Line::Realm(_) => true,
        _ => false,
    }
}

fn put_pkinit(line: &mut Line, pkinit: Option<OctetStringAsn1>)
    ensures { line.new ≡ certified pkinit line.old }
{
    let Line::Realm(own) = line else {
        return;
    };
    own.pkinit = pkinit;
}
