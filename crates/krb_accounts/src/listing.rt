//! The commands that print accounts of a text.

use crate::accounts::refusal_of;
use crate::arguments::{expected, name_of};
use krb_account_texts::{
    AccountLine, EditRefusal, Line, Pattern, RealmLine, marks_text, salt_text,
};
use krb_commands::{Stop, account_among, failed, lines_of, printable_of};
use krb_messages::data_types::PrincipalName;
use krb_realm_accounts::{Account, Attributes, Policy};
use krb_settings::suite_name;
use krb_time::LAST_SECOND;
use picky_asn1::date::GeneralizedTime;
use std::alloc::{AllocError, Global};
use std::fmt::Display;
use std::io::IsTerminal;

/// What is above the accounts at a terminal. What isn't one gets no header, so that programs read lines of accounts alone.
const HEADER: &str = "name\tsuite\tkvno\tkey\n";

/// `list TEXT [PATTERN]`: prints the realm, its policy, and whether it guards passwords and answers logins by certificate. It prints each
/// account's name, suite, kvno, whether its key is of a password, how many older keys it keeps, its attributes, and whether it is disabled.
/// With a pattern, it prints the accounts whose names it matches, and no realm.
pub(crate) fn list(rt: &HostRuntime, arguments: &[String]) -> Result<(), Stop> {
    match arguments {
        [path] => print_listed(rt, path.as_str(), None),
        [path, pattern] => {
            let marks = pattern.as_bytes();
            print_listed(rt, path.as_str(), Some(Pattern { marks }))
        }
        _ => Err(expected(rt.alloc(), "list TEXT [PATTERN]")),
    }
}

fn print_listed(rt: &HostRuntime, path: &str, pattern: Option<Pattern<'_>>) -> Result<(), Stop> {
    let text = listed(rt, path, pattern)?;
    print_text(rt, text)
}

fn print_text<D: Display + Drop>(rt: &HostRuntime, text: D) -> Result<(), Stop> {
    match print!(rt; "{text}") {
        Ok(()) => Ok(()),
        Err(_) => Err(failed(rt.alloc(), "standard output can't be written")),
    }
}

fn listed(rt: &HostRuntime, path: &str, pattern: Option<Pattern<'_>>) -> Result<String, Stop> {
    let lines = lines_of(rt, path)?;
    let mut listing = Listing {
        alloc: rt.alloc(),
        has_header: !rt.stdout().is_terminal(),
        pattern,
        text: String::new(rt.alloc()),
    };
    for line in &lines {
        listing.put(line)?;
    }
    Ok(listing.text)
}

// What is listed so far.
#[derive(Drop)]
struct Listing<'a> {
    alloc: Global,
    // Whether a header is there, or none is wanted.
    has_header: bool,
    pattern: Option<Pattern<'a>>,
    text: String,
}

impl Listing<'_> {
    fn put(&mut self, line: &Line) -> Result<(), AllocError> {
        match line {
            Line::Comment(_) => Ok(()),
            Line::Realm(realm) => self.put_realm(realm),
            Line::Account(own) => self.put_account(own),
        }
    }

    fn put_realm(&mut self, realm: &RealmLine) -> Result<(), AllocError> {
        if self.pattern.is_some() {
            return Ok(());
        }
        let text = realm_listed(self.alloc, realm)?;
        self.text.push_str(text.as_str())
    }

    fn put_account(&mut self, own: &AccountLine) -> Result<(), AllocError> {
        let name = &own.name;
        let name = format!(in self.alloc; "{name}")?;
        if !self.is_listed(name.as_str())? {
            return Ok(());
        }
        if !self.has_header {
            self.has_header = true;
            self.text.push_str(HEADER)?;
        }
        let text = account_listed(self.alloc, own)?;
        self.text.push_str(text.as_str())
    }

    fn is_listed(&self, name: &str) -> Result<bool, AllocError> {
        match self.pattern {
            Some(pattern) => pattern.matches(self.alloc, name.as_bytes()),
            None => Ok(true),
        }
    }
}

fn realm_listed(alloc: Global, realm: &RealmLine) -> Result<String, AllocError> {
    let name = &realm.name;
    let skew = realm.settings.skew();
    let lifetime = realm.settings.lifetime();
    let policy = policy_listed(alloc, realm.settings.policy())?;
    let guards = word_if(realm.guards_passwords, "\tguards-passwords");
    let further = word_if(realm.pkinit.is_some(), "\tpkinit");
    format!(in alloc; "realm\t{name}\t{skew}\t{lifetime}{policy}{guards}{further}\n")
}

// The words of a policy, each behind a tab.
fn policy_listed(alloc: Global, policy: Policy) -> Result<String, AllocError> {
    let limits = word_if(policy.limits_des3, "\tlimits-des3");
    let forwardable = word_if(policy.forwardable, "\tforwardable");
    let proxiable = word_if(policy.proxiable, "\tproxiable");
    let agility = word_if(policy.pkinit_agility, "\tpkinit-agility");
    let sha1 = word_if(policy.pkinit_sha1, "\tpkinit-sha1");
    let life = policy.renewable_life;
    if life == 0 {
        return format!(in alloc; "{limits}{forwardable}{proxiable}{agility}{sha1}");
    }
    format!(in alloc; "{limits}{forwardable}{proxiable}\trenewable={life}{agility}{sha1}")
}

// The word, if it is there.
fn word_if(is: bool, word: &'static str) -> &'static str {
    if is { word } else { "" }
}

fn account_listed(alloc: Global, own: &AccountLine) -> Result<String, AllocError> {
    let name = printable_of(alloc, &own.name)?;
    let suite = suite_name(own.account.suite());
    let kvno = own.account.kvno();
    let kind = kind_of(&own.account);
    let older = older_listed(alloc, &own.account)?;
    let attributes = attributes_listed(alloc, own.account.attributes())?;
    let further = if own.is_disabled { "\tdisabled" } else { "" };
    format!(in alloc; "{name}\t{suite}\t{kvno}\t{kind}{older}{attributes}{further}\n")
}

// How many older keys an account keeps, if it keeps any.
fn older_listed(alloc: Global, account: &Account) -> Result<String, AllocError> {
    let count = account.former().len();
    if count == 0 {
        return Ok(String::new(alloc));
    }
    format!(in alloc; "\tolder={count}")
}

// The attributes that are set.
fn attributes_listed(alloc: Global, attributes: Attributes) -> Result<String, AllocError> {
    let ends = if attributes.ends == 0 {
        String::new(alloc)
    } else {
        let ends = ends_shown(alloc, attributes)?;
        format!(in alloc; "\tends={ends}")?
    };
    let lifetime = if attributes.lifetime == 0 {
        String::new(alloc)
    } else {
        let lifetime = attributes.lifetime;
        format!(in alloc; "\tlifetime={lifetime}")?
    };
    let marks = marks_listed(alloc, attributes)?;
    format!(in alloc; "{ends}{lifetime}{marks}")
}

// The marks that are set.
fn marks_listed(alloc: Global, attributes: Attributes) -> Result<String, AllocError> {
    let marks = marks_text(attributes);
    if marks == "-" {
        return Ok(String::new(alloc));
    }
    format!(in alloc; "\t{marks}")
}

// The last second of an account, or `-`.
fn ends_shown(alloc: Global, attributes: Attributes) -> Result<String, AllocError> {
    if attributes.ends == 0 {
        return String::from_str(alloc, "-");
    }
    let time = GeneralizedTime::from_seconds(attributes.ends.min(LAST_SECOND));
    format!(in alloc; "{time}")
}

// The greatest lifetime of an account, or `-`.
fn lifetime_shown(alloc: Global, attributes: Attributes) -> Result<String, AllocError> {
    if attributes.lifetime == 0 {
        return String::from_str(alloc, "-");
    }
    let lifetime = attributes.lifetime;
    format!(in alloc; "{lifetime}")
}

// The kvnos of the keys before an account's own, the newest first, or `-`.
fn older_shown(alloc: Global, account: &Account) -> Result<String, AllocError> {
    let [first, others @ ..] = account.former() else {
        return String::from_str(alloc, "-");
    };
    let kvno = first.kvno();
    let mut text = format!(in alloc; "{kvno}")?;
    for older in others {
        let kvno = older.kvno();
        let further = format!(in alloc; ",{kvno}")?;
        text.push_str(further.as_str())?;
    }
    Ok(text)
}

// Whether an account's key was made of a password: one that has a salt was.
fn kind_of(account: &Account) -> &'static str {
    if account.salt().is_some() {
        "password"
    } else {
        "key"
    }
}

/// `show TEXT NAME`: prints what the text says of one account, but not its key.
pub(crate) fn show(rt: &HostRuntime, arguments: &[String]) -> Result<(), Stop> {
    let [path, name] = arguments else {
        return Err(expected(rt.alloc(), "show TEXT NAME"));
    };
    let name = name_of(rt.alloc(), name.as_str())?;
    let text = shown(rt, path.as_str(), &name)?;
    print_text(rt, text)
}

fn shown(rt: &HostRuntime, path: &str, name: &PrincipalName) -> Result<String, Stop> {
    let lines = lines_of(rt, path)?;
    match account_among(&lines, name.name_string.0.as_slice()) {
        Some(own) => Ok(account_shown(rt.alloc(), own)?),
        None => Err(refusal_of(rt.alloc(), name, EditRefusal::Unknown)),
    }
}

fn account_shown(alloc: Global, own: &AccountLine) -> Result<String, AllocError> {
    let name = printable_of(alloc, &own.name)?;
    let suite = suite_name(own.account.suite());
    let kvno = own.account.kvno();
    let kind = kind_of(&own.account);
    let salt = salt_text(alloc, own.account.salt())?;
    let state = if own.is_disabled {
        "disabled"
    } else {
        "enabled"
    };
    let further = further_shown(alloc, &own.account)?;
    format!(in alloc;
        "name\t{name}\nsuite\t{suite}\nkvno\t{kvno}\nkey\t{kind}\nsalt\t{salt}\nstate\t{state}\n{further}"
    )
}

// What an account has beside its key.
fn further_shown(alloc: Global, account: &Account) -> Result<String, AllocError> {
    let attributes = account.attributes();
    let older = older_shown(alloc, account)?;
    let ends = ends_shown(alloc, attributes)?;
    let lifetime = lifetime_shown(alloc, attributes)?;
    let marks = marks_text(attributes);
    format!(in alloc;
        "older keys\t{older}\nends\t{ends}\nlifetime\t{lifetime}\nattributes\t{marks}\n"
    )
}
