//! The judgement of a request.
ghost use Rattle.std.specs.Prelude.{◌≡◌, IfOk};
ghost use Rattle.std.specs.List.{list_any};
ghost use Rattle.krb_messages.specs.Names.{components, is_same_name};
ghost use Rattle.krb_password_changes.specs.ChangeTable.{allowed_target, asked_change, granted_change, is_refused_word, judged_message, judged_part, judged_private, strong};
ghost use Rattle.krb_password_changes.specs.Changes.{is_admin, may_set};
ghost use Rattle.krb_password_changes.specs.Refusals.{IsJudged};

use crate::change::{Target, client_of, is_same_target, read_change, target_of};
use crate::messages::{ResultCode, Version};
use crate::private::{open_private, read_krb_priv};
use crate::refusal::ChangeRefusal;
use krb_constants::ticket_flags;
use krb_crypto::CipherSuite;
use krb_messages::data_types::{PrincipalName, Realm};
use krb_messages::{is_same_name, is_same_realm};
use krb_service::Admission;
use microsoft_messages::{ChangePasswdData, EncKrbPrivPartInner, KrbPrivInner};
use picky_asn1::wrapper::{GeneralStringAsn1, OctetStringAsn1};
use picky_asn1_der::LentFields;
use std::alloc::{AllocError, Global};
use std::marker::Model;

/// The rules of a realm for passwords, and its administrators.
#[derive(Drop)]
pub struct Rules {
    /// The realm.
    pub realm: GeneralStringAsn1,
    /// The suite of new keys.
    pub suite: CipherSuite,
    /// The least length of a password, in octets.
    pub least: usize,
    /// The words that are no passwords.
    pub words: Vec<OctetStringAsn1>,
    /// The names of the administrators, who set the passwords of others.
    pub admins: Vec<PrincipalName>,
}

impl Model for Rules {
    ghost use Rattle.krb_password_changes.specs.ChangeTable.{RulesRecord};

    ghost Value = { RulesRecord };

    ghost view = { λ r. record { realm = r.realm; suite = r.suite; least = r.least; words = r.words.items; admins = r.admins.items } };
}

/// A granted change. The principal is the client of the ticket, or the target that the change names.
#[derive(Drop)]
pub struct Granted {
    /// The realm of the principal.
    pub realm: Realm,
    /// Its name.
    pub name: PrincipalName,
    /// Its new password.
    pub password: OctetStringAsn1,
}

/// The suite of new keys.
pub(crate) fn suite_of_rules(rules: &Rules) -> CipherSuite
    ensures { result ≡ rules.now.suite }
{
    rules.suite
}

// Whether the client is an administrator of the realm.
fn is_admin(rules: &Rules, client: &Target<'_>) -> bool
    ensures { result ≡ is_admin rules.now.realm rules.now.admins client.now }
{
    is_same_realm(client.realm, &rules.realm)
        && is_among(
            rules.admins.as_slice(),
            client.name.name_string.0.as_slice(),
        )
}

// Whether a name is one of these.
fn is_among(names: &[PrincipalName], name: &[GeneralStringAsn1]) -> bool
    ensures { result ≡ list_any (λ own. is_same_name (components own) name.now) names.now }
{
    names
        .iter()
        .any(|own| is_same_name(own.name_string.0.as_slice(), name))
}

// Whether the client may set the password of a principal.
fn may_set(rules: &Rules, client: &Target<'_>, own: &Target<'_>) -> bool
    ensures { result ≡ may_set rules.now.realm rules.now.admins client.now own.now }
{
    is_same_target(client, own) || is_admin(rules, client)
}

// Judges whose password a change may set.
fn check_target<'a>(
    rules: &Rules,
    admission: &'a Admission,
    change: &'a ChangePasswdData,
) -> Result<Target<'a>, ResultCode>
    ensures { (allowed_target rules.now admission.now change.now).gives result }
{
    let Some(own) = target_of(admission, change) else {
        return Err(ResultCode::Malformed);
    };
    if !admission.flags.bit(ticket_flags::INITIAL) {
        return Err(ResultCode::InitialFlagNeeded);
    }
    if !may_set(rules, &client_of(admission), &own) {
        return Err(ResultCode::AccessDenied);
    }
    if !is_same_realm(own.realm, &rules.realm) {
        return Err(ResultCode::AccessDenied);
    }
    Ok(own)
}

// Whether the password is one of the words that are refused.
fn is_refused_word(rules: &Rules, password: &OctetStringAsn1) -> bool
    ensures { result ≡ is_refused_word rules.now password.now }
{
    rules.words.iter().any(|word| word == password)
}

// Judges whether the realm takes a password.
fn check_password(rules: &Rules, password: &OctetStringAsn1) -> Result<(), ResultCode>
    ensures { (strong rules.now password.now).gives result }
{
    if password.as_bytes().len() < 1 {
        return Err(ResultCode::SoftError);
    }
    if password.as_bytes().len() < rules.least {
        return Err(ResultCode::SoftError);
    }
    if is_refused_word(rules, password) {
        return Err(ResultCode::SoftError);
    }
    Ok(())
}

// Judges a change, and returns what is granted.
fn grant_change(
    rules: &Rules,
    admission: &Admission,
    change: &ChangePasswdData,
) -> Result<Granted, ChangeRefusal>
    ensures { IsJudged (granted_change rules.now admission.now change.now).gives result }
{
    let own = check_target(rules, admission, change)?;
    check_password(rules, &change.new_passwd.0)?;
    let granted = granted_copy(&own, &change.new_passwd.0)?;
    Ok(granted)
}

// Copies the principal and its password.
fn granted_copy(own: &Target<'_>, password: &OctetStringAsn1) -> Result<Granted, AllocError>
    ensures { IfOk result (λ granted. granted ≡ record { realm = own.now.realm; name = own.now.name; password = password.now }) }
{
    let (realm, (name, (password, ()))) = (own.realm, (own.name, (password, ()))).copied()?;
    Ok(Granted {
        realm,
        name,
        password,
    })
}

// Returns the change that a part asks for.
fn ask_change(
    alloc: Global,
    version: Version,
    part: &EncKrbPrivPartInner,
) -> Result<ChangePasswdData, ChangeRefusal>
    ensures { IsJudged (asked_change version part.now).gives result }
{
    let Some(change) = read_change(alloc, version, part.user_data.0.as_bytes())? else {
        return Err(ChangeRefusal::Refused(ResultCode::Malformed));
    };
    Ok(change)
}

// Judges the change that a part asks for.
fn check_part(
    alloc: Global,
    rules: &Rules,
    version: Version,
    admission: &Admission,
    part: &EncKrbPrivPartInner,
) -> Result<Granted, ChangeRefusal>
    ensures { IsJudged (judged_part rules.now version admission.now part.now).gives result }
{
    let change = ask_change(alloc, version, part)?;
    let judged = grant_change(rules, admission, &change);
    drop(change);
    judged
}

// Decrypts a KRB-PRIV, and judges what it asks for.
fn check_private(
    alloc: Global,
    rules: &Rules,
    version: Version,
    admission: &Admission,
    message: &KrbPrivInner,
) -> Result<Granted, ChangeRefusal>
    ensures { IsJudged (judged_message rules.now version admission.now message.now).gives result }
{
    let part = open_private(alloc, admission, message)?;
    let judged = check_part(alloc, rules, version, admission, &part);
    drop(part);
    judged
}

/// Judges what the octets of a KRB-PRIV ask for, of a client that was admitted. It asks no account.
pub fn judge_private(
    alloc: Global,
    rules: &Rules,
    version: Version,
    admission: &Admission,
    octets: &[u8],
) -> Result<Granted, ChangeRefusal>
    ensures { IsJudged (judged_private rules.now version admission.now octets.now).gives result }
{
    let message = read_krb_priv(alloc, octets)?;
    let judged = check_private(alloc, rules, version, admission, &message);
    drop(message);
    judged
}
