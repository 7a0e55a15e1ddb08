//! What is read in a file and what is replied, as the words that rows have for it.

use anyhow::Context;
use cdb::ReadAt;
use krb_kdc::{Lookup, LookupFault, LookupRefusal, Unobserved};
use krb_realm_accounts::{Account, Policy};
use krb_realm_files::{AccountFile, RealmParameters, answer_from, realm_of};
use krb_time::Moment;
use picky_asn1::wrapper::{GeneralStringAsn1, OctetStringAsn1};
use std::alloc::Global;

/// Returns the octets that a word is. The word `-` is no octet.
pub(crate) fn octets_of(alloc: Global, word: &str) -> anyhow::Result<Vec<u8>> {
    Ok(hex::decode(alloc, if word == "-" { "" } else { word })?)
}

/// Returns the word of octets.
fn word_of(alloc: Global, octets: &[u8]) -> anyhow::Result<String> {
    if octets.is_empty() {
        return Ok(String::from_str(alloc, "-")?);
    }
    Ok(hex::encode(alloc, octets)?)
}

/// Returns the name whose components are between slashes. The word `none` is the name of no component.
pub(crate) fn name_of(alloc: Global, word: &str) -> anyhow::Result<Vec<GeneralStringAsn1>> {
    let mut name = Vec::new(alloc);
    if word == "none" {
        return Ok(name);
    }
    for component in word.split('/') {
        name.push(text_of(alloc, component)?)?;
    }
    Ok(name)
}

/// Returns the text that a word is.
pub(crate) fn text_of(alloc: Global, word: &str) -> anyhow::Result<GeneralStringAsn1> {
    let octets = octets_of(alloc, word)?;
    GeneralStringAsn1::from_content(alloc, &octets)?.context("a text of other characters")
}

/// Returns the word for a fault.
fn fault_word(fault: LookupFault) -> &'static str {
    match fault {
        LookupFault::Failed(_) => "failed",
        LookupFault::Damaged => "damaged",
        LookupFault::Memory => "memory",
    }
}

/// Returns the words for the realm that a file says.
pub(crate) fn realm_words<F: ReadAt>(
    alloc: Global,
    accounts: &AccountFile<F>,
) -> anyhow::Result<String> {
    match realm_of(alloc, &accounts.file) {
        Ok(realm) => words_of_realm(alloc, &realm),
        Err(fault) => Ok(String::from_str(alloc, fault_word(fault))?),
    }
}

fn words_of_realm(alloc: Global, realm: &RealmParameters) -> anyhow::Result<String> {
    let name = word_of(alloc, realm.name.as_bytes())?;
    let skew = realm.settings.skew();
    let lifetime = realm.settings.lifetime();
    let pkinit = octets_word(alloc, realm.pkinit.as_ref())?;
    let policy = policy_words(alloc, realm.settings.policy())?;
    Ok(format!(in alloc; "{name} {skew} {lifetime} {pkinit}{policy}")?)
}

/// Returns the words for a policy, each behind a space. There is none where no policy is set.
fn policy_words(alloc: Global, policy: Policy) -> anyhow::Result<String> {
    let limits = if policy.limits_des3 {
        " limits-des3"
    } else {
        ""
    };
    let forwardable = if policy.forwardable {
        " forwardable"
    } else {
        ""
    };
    let proxiable = if policy.proxiable { " proxiable" } else { "" };
    let certificates = pkinit_words(policy);
    let life = policy.renewable_life;
    if life == 0 {
        return Ok(format!(in alloc; "{limits}{forwardable}{proxiable}{certificates}")?);
    }
    Ok(format!(in alloc; "{limits}{forwardable}{proxiable} renewable={life}{certificates}")?)
}

fn pkinit_words(policy: Policy) -> &'static str {
    match (policy.pkinit_agility, policy.pkinit_sha1) {
        (true, true) => " pkinit-agility pkinit-sha1",
        (true, false) => " pkinit-agility",
        (false, true) => " pkinit-sha1",
        (false, false) => "",
    }
}

/// Returns the words for the account that a file says.
pub(crate) fn account_words<F: ReadAt>(
    alloc: Global,
    accounts: &AccountFile<F>,
    name: &[GeneralStringAsn1],
) -> anyhow::Result<String> {
    match accounts.account(alloc, name) {
        Ok(Some(account)) => words_of_account(alloc, &account),
        Ok(None) => Ok(String::from_str(alloc, "none")?),
        Err(fault) => Ok(String::from_str(alloc, fault_word(fault))?),
    }
}

fn words_of_account(alloc: Global, account: &Account) -> anyhow::Result<String> {
    let suite = u8::from(account.suite());
    let kvno = account.kvno();
    let key = word_of(alloc, account.key().as_bytes())?;
    let salt = octets_word(alloc, account.salt())?;
    Ok(format!(in alloc; "{suite} {kvno} {key} {salt}")?)
}

fn octets_word(alloc: Global, octets: Option<&OctetStringAsn1>) -> anyhow::Result<String> {
    match octets {
        Some(octets) => word_of(alloc, octets.as_bytes()),
        None => Ok(String::from_str(alloc, "none")?),
    }
}

/// Returns the words for the reply of a file's realm to a message, at the first second of 2000.
pub(crate) fn reply_words<F: ReadAt>(
    alloc: Global,
    accounts: &AccountFile<F>,
    message: &[u8],
) -> anyhow::Result<String> {
    let moment = Moment::from_text(b"20000101000000Z").context("no moment")?;
    words_of_reply(
        alloc,
        answer_from(
            alloc,
            accounts,
            &mut Unobserved,
            message,
            moment,
            &random_words(),
        ),
    )
}

fn words_of_reply(alloc: Global, reply: Result<Vec<u8>, LookupRefusal>) -> anyhow::Result<String> {
    match reply {
        Ok(reply) => word_of(alloc, &reply),
        Err(LookupRefusal::Unreadable) => Ok(String::from_str(alloc, "Unreadable")?),
        Err(LookupRefusal::Fault(fault)) => Ok(String::from_str(alloc, fault_word(fault))?),
    }
}

/// Returns the random bytes of each reply: 0 to 127.
fn random_words() -> [u8; 128] {
    let mut words = [0; 128];
    let mut next = 0u8;
    for word in &mut words {
        *word = next;
        next = next.wrapping_add(1);
    }
    words
}
