//! Writing a text of accounts.
ghost use Rattle.std.specs.Prelude.{◌≡◌, ◌∷◌, ◌++◌, [], map, nat_lt, string_bytes, IfOk, OnOk};
ghost use Rattle.std.specs.Option.{option_map};
ghost use Rattle.krb_messages.specs.NameText.{name_text};
ghost use Rattle.krb_account_texts.specs.Lines.{account_fields, account_text, before, further_by, further_text, guarded, last_words, line_text, realm_text, renewable_word, salt_text, text_of, words_text, written};

use crate::further::further_fields;
use crate::line::{AccountLine, Line, RealmLine};
use crate::reading::is_comment;
use krb_messages::data_types::PrincipalName;
use krb_realm_accounts::Policy;
use krb_settings::suite_name;
use picky_asn1::wrapper::OctetStringAsn1;
use std::alloc::{AllocError, Global};

/// Writes lines, with a line feed after each.
pub fn text_of(alloc: Global, lines: &[Line]) -> Result<String, AllocError>
    ensures { IfOk result (λ text. string_bytes text ≡ text_of (map written lines.now)) }
{
    let mut text = String::new(alloc);
    for line in lines {
        put_line(alloc, &mut text, line)?;
    }
    Ok(text)
}

fn put_line(alloc: Global, text: &mut String, line: &Line) -> Result<(), AllocError>
    ensures { OnOk result (string_bytes text.new ≡ string_bytes text.old ++ (line_text (written line.now) ++ 10 ∷ [])) }
{
    let own = line_text(alloc, line)?;
    text.push_str(&own)?;
    text.push('\n')
}

/// Writes a line, without a line feed.
pub fn line_text(alloc: Global, line: &Line) -> Result<String, AllocError>
    ensures { IfOk result (λ text. string_bytes text ≡ line_text (written line.now)) }
{
    match line {
        Line::Comment(text) => String::from_str(alloc, text.as_str()),
        Line::Realm(realm) => realm_text(alloc, realm),
        Line::Account(account) => account_text(alloc, account),
    }
}

fn realm_text(alloc: Global, line: &RealmLine) -> Result<String, AllocError>
    ensures { IfOk result (λ text. string_bytes text ≡ realm_text line.now.name line.now.settings line.now.guards_passwords line.now.pkinit) }
{
    let name = &line.name;
    let skew = line.settings.skew();
    let lifetime = line.settings.lifetime();
    let policy = line.settings.policy();
    let further = further_text(alloc, policy, line.guards_passwords, &line.pkinit)?;
    format!(in alloc; "realm\t{name}\t{skew}\t{lifetime}{further}")
}

// What follows in the realm's line.
fn further_text(
    alloc: Global,
    policy: Policy,
    guards: bool,
    pkinit: &Option<OctetStringAsn1>,
) -> Result<String, AllocError>
    ensures { IfOk result (λ text. string_bytes text ≡ further_text policy guards pkinit.now) }
{
    let words = words_text(alloc, policy, guards, pkinit.is_some())?;
    let digits = digits_text(alloc, pkinit)?;
    further_by(alloc, words, digits)
}

// What follows in the realm's line, of words and octets.
fn further_by(alloc: Global, words: String, octets: String) -> Result<String, AllocError>
    ensures { IfOk result (λ text. string_bytes text ≡ further_by (string_bytes words) (string_bytes octets)) }
{
    if words.is_empty() {
        return Ok(words);
    }
    format!(in alloc; "\t{words}\t{octets}")
}

// The hexadecimal digits of octets, or `-` if there are none.
fn digits_text(alloc: Global, octets: &Option<OctetStringAsn1>) -> Result<String, AllocError>
    ensures { IfOk result (λ text. string_bytes text ≡ salt_text octets.now) }
{
    match octets {
        None => String::from_str(alloc, "-"),
        Some(octets) => hex::encode(alloc, octets.as_bytes()),
    }
}

// The words of policy, of guarded passwords and of logins by certificate.
#[tactic(auto, unfolding(crate::specs::Lines::words_text))]
fn words_text(
    alloc: Global,
    policy: Policy,
    guards: bool,
    is_certified: bool,
) -> Result<String, AllocError>
    ensures { IfOk result (λ text. string_bytes text ≡ words_text policy guards is_certified) }
{
    let text = last_words(alloc, policy, guards, is_certified)?;
    let text = before_life(alloc, policy.renewable_life, text)?;
    let text = before(alloc, policy.proxiable, "proxiable", text)?;
    let text = before(alloc, policy.forwardable, "forwardable", text)?;
    before(alloc, policy.limits_des3, "limits-des3", text)
}

// The words of guarded passwords and of logins by certificate.
fn last_words(
    alloc: Global,
    policy: Policy,
    guards: bool,
    is_certified: bool,
) -> Result<String, AllocError>
    ensures { IfOk result (λ text. string_bytes text ≡ last_words policy guards is_certified) }
{
    let text = before(alloc, is_certified, "pkinit", String::new(alloc))?;
    let text = before(alloc, policy.pkinit_sha1, "pkinit-sha1", text)?;
    let text = before(alloc, policy.pkinit_agility, "pkinit-agility", text)?;
    before(alloc, guards, "guards-passwords", text)
}

// The word of a greatest renewable life before a text of words, if there is such a life.
fn before_life(alloc: Global, life: u32, text: String) -> Result<String, AllocError>
    ensures { IfOk result (λ more. string_bytes more ≡ before (nat_lt 0 life) (renewable_word life) (string_bytes text)) }
{
    let word = format!(in alloc; "renewable={life}")?;
    before(alloc, 0 < life, &word, text)
}

// A word before a text of words, if the word is there.
fn before(alloc: Global, is: bool, word: &str, text: String) -> Result<String, AllocError>
    ensures { IfOk result (λ more. string_bytes more ≡ before is word.now (string_bytes text)) }
{
    if !is {
        return Ok(text);
    }
    if text.is_empty() {
        return String::from_str(alloc, word);
    }
    format!(in alloc; "{word},{text}")
}

fn account_text(alloc: Global, line: &AccountLine) -> Result<String, AllocError>
    ensures { IfOk result (λ text. string_bytes text ≡ account_text line.now.name.name_string.0 line.now.account line.now.is_disabled) }
{
    let fields = account_fields(alloc, line)?;
    if line.is_disabled {
        format!(in alloc; "#disabled\t{fields}")
    } else {
        Ok(fields)
    }
}

// The fields of an account.
fn account_fields(alloc: Global, line: &AccountLine) -> Result<String, AllocError>
    ensures { IfOk result (λ text. string_bytes text ≡ account_fields line.now.name.name_string.0 line.now.account) }
{
    let name = first_name(alloc, &line.name)?;
    let suite = suite_name(line.account.suite());
    let kvno = line.account.kvno();
    let salt = salt_text(alloc, line.account.salt())?;
    let key = hex::encode(alloc, line.account.key().as_bytes())?;
    let further = further_fields(alloc, &line.account)?;
    format!(in alloc; "{name}\t{suite}\t{kvno}\t{salt}\t{key}{further}")
}

// The text of a name where a line begins.
fn first_name(alloc: Global, name: &PrincipalName) -> Result<String, AllocError>
    ensures { IfOk result (λ text. string_bytes text ≡ guarded (name_text name.now.name_string.0)) }
{
    let text = format!(in alloc; "{name}")?;
    if is_comment(text.as_bytes()) {
        format!(in alloc; "\\{text}")
    } else {
        Ok(text)
    }
}

/// Writes a salt: its hexadecimal digits, or `-` if there is none.
pub fn salt_text(alloc: Global, salt: Option<&OctetStringAsn1>) -> Result<String, AllocError>
    ensures { IfOk result (λ text. string_bytes text ≡ salt_text (option_map (λ salt. salt.now) salt.entry)) }
{
    match salt {
        None => String::from_str(alloc, "-"),
        Some(salt) => hex::encode(alloc, salt.as_bytes()),
    }
}
