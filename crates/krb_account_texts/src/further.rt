//! What follows the key in an account's line: its attributes and its older keys.
ghost use Rattle.std.specs.Prelude.{◌≡◌, ◌≤◌, ◌++◌, ◌∷◌, ◌<◌, ◌^◌, nat_eq, length, map, string_bytes, IfOk, OnOk};
ghost use Rattle.std.specs.Cmp.Lexicographic.{pointwise};
ghost use Rattle.std.specs.List.{find};
ghost use Rattle.krb_realm_accounts.specs.Account.{AreBefore};
ghost use Rattle.krb_realm_accounts.specs.declared.limits.TheConstants.{FORMER_LIMIT};
ghost use Rattle.krb_account_texts.specs.FurtherLines.{ends_text, former_text, further_fields, has_further, lifetime_text, marks_of, older_text};
ghost use Rattle.krb_account_texts.specs.Further.{told_of_further};
ghost use Rattle.krb_account_texts.specs.Reading.{colon_parts, ends_in, former_in, further_in, judged_former, lifetime_in, marked_among, marked_in, marks_in, number_or_dash, older_by, older_in, older_of, since_epoch};
ghost use Rattle.krb_account_texts.specs.Steps.{IsAside, each_from};
ghost use Rattle.krb_account_texts.specs.declared.further.TheConstants.{ALL_MARKS};

use crate::fault::LineFault;
use crate::fields::{kvno_of, number_of, read_key, suite_of};
use krb_realm_accounts::{
    Account, AccountKey, Attributes, FORMER_LIMIT, NO_ATTRIBUTES, are_falling,
};
use krb_settings::suite_name;
use krb_time::EPOCH;
use std::alloc::{AllocError, Global};

/// The attributes that are marks, set in each way.
const ALL_MARKS: [Attributes; 8] = [
    Attributes {
        ends: 0,
        is_off: false,
        must_change: false,
        lifetime: 0,
        is_no_service: false,
    },
    Attributes {
        ends: 0,
        is_off: true,
        must_change: false,
        lifetime: 0,
        is_no_service: false,
    },
    Attributes {
        ends: 0,
        is_off: false,
        must_change: true,
        lifetime: 0,
        is_no_service: false,
    },
    Attributes {
        ends: 0,
        is_off: true,
        must_change: true,
        lifetime: 0,
        is_no_service: false,
    },
    Attributes {
        ends: 0,
        is_off: false,
        must_change: false,
        lifetime: 0,
        is_no_service: true,
    },
    Attributes {
        ends: 0,
        is_off: true,
        must_change: false,
        lifetime: 0,
        is_no_service: true,
    },
    Attributes {
        ends: 0,
        is_off: false,
        must_change: true,
        lifetime: 0,
        is_no_service: true,
    },
    Attributes {
        ends: 0,
        is_off: true,
        must_change: true,
        lifetime: 0,
        is_no_service: true,
    },
];

/// What follows the key.
#[derive(Drop)]
pub(crate) struct Further {
    pub(crate) attributes: Attributes,
    pub(crate) former: Vec<AccountKey>,
}

/// Reads the fields that follow the key of an account with this kvno.
pub(crate) fn further_of(alloc: Global, kvno: u32, fields: &[&str]) -> Result<Further, LineFault>
    ensures read { IsAside LineFault.Memory told_of_further (further_in kvno (map (λ field. field.now) fields.now)) result }
    ensures before { IfOk result (λ further. AreBefore kvno further.former.items) }
    ensures few { IfOk result (λ further. length further.former.items ≤ FORMER_LIMIT) }
{
    match fields {
        [] => Ok(Further {
            attributes: NO_ATTRIBUTES,
            former: Vec::new(alloc),
        }),
        [_, ..] => marked_among(alloc, kvno, fields),
    }
}

// Reads these fields, of which there is one at least.
fn marked_among(alloc: Global, kvno: u32, fields: &[&str]) -> Result<Further, LineFault>
    ensures read { IsAside LineFault.Memory told_of_further (marked_among kvno (map (λ field. field.now) fields.now)) result }
    ensures before { IfOk result (λ further. AreBefore kvno further.former.items) }
    ensures few { IfOk result (λ further. length further.former.items ≤ FORMER_LIMIT) }
{
    match fields {
        [ends, lifetime, marks, keys @ ..] => marked_of(alloc, kvno, ends, lifetime, marks, keys),
        _ => Err(LineFault::Fields),
    }
}

// Reads these fields: the last second, the greatest lifetime, the marks and the older keys.
#[tactic(auto, unfolding(crate::specs::Reading::marked_in))]
fn marked_of(
    alloc: Global,
    kvno: u32,
    ends: &str,
    lifetime: &str,
    marks: &str,
    keys: &[&str],
) -> Result<Further, LineFault>
    ensures read { IsAside LineFault.Memory told_of_further (marked_in kvno ends.now lifetime.now marks.now (map (λ field. field.now) keys.now)) result }
    ensures before { IfOk result (λ further. AreBefore kvno further.former.items) }
    ensures few { IfOk result (λ further. length further.former.items ≤ FORMER_LIMIT) }
{
    let ends = ends_of(ends)?;
    let lifetime = lifetime_of(lifetime)?;
    let marks = marks_of_text(marks)?;
    let former = former_of(alloc, kvno, keys)?;
    let attributes = Attributes {
        ends,
        lifetime,
        ..marks
    };
    Ok(Further { attributes, former })
}

// The last second of an account, or 0 for `-`.
#[tactic(auto, unfolding(crate::specs::Reading::ends_in))]
fn ends_of(text: &str) -> Result<u64, LineFault>
    ensures { result ≡ ends_in text.now }
{
    let seconds = number_or_dash(text, LineFault::Ends)?;
    Ok(since_epoch(seconds))
}

// An account's last second, from the seconds since 1970. Number 0 is none.
fn since_epoch(seconds: u64) -> u64
    requires { seconds < 2 ^ 32 }
    ensures { result ≡ since_epoch seconds }
{
    if seconds == 0 { 0 } else { seconds + EPOCH }
}

// The greatest lifetime of an account, or 0 for `-`.
#[tactic(auto, unfolding(crate::specs::Reading::lifetime_in))]
fn lifetime_of(text: &str) -> Result<u32, LineFault>
    ensures { result ≡ lifetime_in text.now }
{
    let seconds = number_or_dash(text, LineFault::Lifetime)?;
    Ok(seconds as u32)
}

// The number that decimal digits write, or 0 for `-`.
fn number_or_dash(text: &str, otherwise: LineFault) -> Result<u64, LineFault>
    ensures value { result ≡ number_or_dash otherwise text.now }
    ensures below { IfOk result (λ number. number < 2 ^ 32) }
{
    if text == "-" {
        return Ok(0);
    }
    match number_of(text.as_bytes()) {
        Some(number) => Ok(number),
        None => Err(otherwise),
    }
}

// The attributes that are marks, by their words.
#[tactic(auto, unfolding(crate::specs::Reading::marks_in))]
fn marks_of_text(text: &str) -> Result<Attributes, LineFault>
    ensures { result ≡ marks_in text.now }
{
    match marks_named(text) {
        Some(marks) => Ok(marks),
        None => Err(LineFault::Marks),
    }
}

// The attributes that are marks of these words, if the words are such.
fn marks_named(text: &str) -> Option<Attributes>
    ensures { result ≡ find (λ marks. pointwise nat_eq text.now (marks_of marks)) ALL_MARKS }
{
    ALL_MARKS
        .iter()
        .copied()
        .find(|marks| text == marks_text(*marks))
}

/// The words of the attributes that are marks, with a comma between each two, or `-` if none of them is set.
#[tactic(auto, unfolding(crate::specs::FurtherLines::marks_text))]
pub fn marks_text(attributes: Attributes) -> &'static str
    ensures { result.now ≡ marks_of attributes }
{
    match (
        attributes.is_off,
        attributes.must_change,
        attributes.is_no_service,
    ) {
        (false, false, false) => "-",
        (true, false, false) => "off",
        (false, true, false) => "must-change",
        (true, true, false) => "off,must-change",
        (false, false, true) => "no-service",
        (true, false, true) => "off,no-service",
        (false, true, true) => "must-change,no-service",
        (true, true, true) => "off,must-change,no-service",
    }
}

// The older keys of these fields.
#[tactic(auto, unfolding(crate::specs::Reading::former_in))]
fn former_of(alloc: Global, kvno: u32, fields: &[&str]) -> Result<Vec<AccountKey>, LineFault>
    ensures read { IsAside LineFault.Memory (λ v. v.items) (former_in kvno (map (λ field. field.now) fields.now)) result }
    ensures before { IfOk result (λ v. AreBefore kvno v.items) }
    ensures few { IfOk result (λ v. length v.items ≤ FORMER_LIMIT) }
{
    let keys = keys_of(alloc, fields)?;
    judged_former(kvno, keys)
}

// These older keys, if there are no more than an account keeps, and their kvnos fall.
fn judged_former(kvno: u32, keys: Vec<AccountKey>) -> Result<Vec<AccountKey>, LineFault>
    ensures read { IsAside LineFault.Memory (λ v. v.items) (judged_former kvno keys.items) result }
    ensures before { IfOk result (λ v. AreBefore kvno v.items) }
    ensures few { IfOk result (λ v. length v.items ≤ FORMER_LIMIT) }
{
    if keys.len() <= FORMER_LIMIT && are_falling(kvno, &keys) {
        Ok(keys)
    } else {
        Err(LineFault::OlderKey)
    }
}

// The older key of each field.
fn keys_of(alloc: Global, fields: &[&str]) -> Result<Vec<AccountKey>, LineFault>
    ensures { IsAside LineFault.Memory (λ v. v.items) (each_from older_in 1 (map (λ field. field.now) fields.now)) result }
{
    let mut keys = Vec::new(alloc);
    for (index, field) in fields.iter().enumerate() {
        keys.push(older_in(alloc, index + 1, field)?)?;
    }
    Ok(keys)
}

// The older key that a field writes. Its place doesn't count.
fn older_in(alloc: Global, place: usize, text: &str) -> Result<AccountKey, LineFault>
    ensures { IsAside LineFault.Memory (λ own. own) (older_in place text.now) result }
{
    let parts = parts_of(alloc, text)?;
    older_of(alloc, &parts)
}

// The parts between colons.
fn parts_of<'a>(alloc: Global, text: &'a str) -> Result<Vec<&'a str>, AllocError>
    ensures { IfOk result (λ v. map (λ part. part.now) v.items ≡ colon_parts text.now) }
{
    text.split(':').collect(alloc)
}

// The older key of these parts.
fn older_of(alloc: Global, parts: &[&str]) -> Result<AccountKey, LineFault>
    ensures { IsAside LineFault.Memory (λ own. own) (older_of (map (λ part. part.now) parts.now)) result }
{
    let [suite, kvno, key] = parts else {
        return Err(LineFault::OlderKey);
    };
    older_by(alloc, suite, kvno, key)
}

// The older key of a suite, a kvno and a key.
fn older_by(alloc: Global, suite: &str, kvno: &str, key: &str) -> Result<AccountKey, LineFault>
    ensures { IsAside LineFault.Memory (λ own. own) (older_by suite.now kvno.now key.now) result }
{
    let suite = suite_of(suite)?;
    let kvno = kvno_of(kvno)?;
    let key = read_key(alloc, suite, key)?;
    Ok(AccountKey::new(key, kvno))
}

/// Writes what follows the key of an account.
pub(crate) fn further_fields(alloc: Global, account: &Account) -> Result<String, AllocError>
    ensures { IfOk result (λ text. string_bytes text ≡ further_fields account.now) }
{
    if !has_further(account) {
        return Ok(String::new(alloc));
    }
    let attributes = account.attributes();
    let ends = ends_text(alloc, attributes.ends)?;
    let lifetime = lifetime_text(alloc, attributes.lifetime)?;
    let marks = marks_text(attributes);
    let former = former_text(alloc, account.former())?;
    format!(in alloc; "\t{ends}\t{lifetime}\t{marks}{former}")
}

// Whether the account has attributes or older keys.
fn has_further(account: &Account) -> bool
    ensures { result ≡ has_further account.now }
{
    account.attributes().is_set() || 0 < account.former().len()
}

// Writes the last second of an account.
fn ends_text(alloc: Global, ends: u64) -> Result<String, AllocError>
    ensures { IfOk result (λ text. string_bytes text ≡ ends_text ends) }
{
    if ends == 0 {
        return String::from_str(alloc, "-");
    }
    let seconds = ends.saturating_sub(EPOCH);
    format!(in alloc; "{seconds}")
}

// Writes the greatest lifetime of an account.
fn lifetime_text(alloc: Global, lifetime: u32) -> Result<String, AllocError>
    ensures { IfOk result (λ text. string_bytes text ≡ lifetime_text lifetime) }
{
    if lifetime == 0 {
        return String::from_str(alloc, "-");
    }
    format!(in alloc; "{lifetime}")
}

// Writes each older key in a field of its own.
fn former_text(alloc: Global, keys: &[AccountKey]) -> Result<String, AllocError>
    ensures { IfOk result (λ text. string_bytes text ≡ former_text keys.now) }
{
    let mut text = String::new(alloc);
    for own in keys {
        put_older(alloc, &mut text, own)?;
    }
    Ok(text)
}

fn put_older(alloc: Global, text: &mut String, own: &AccountKey) -> Result<(), AllocError>
    ensures { OnOk result (string_bytes text.new ≡ string_bytes text.old ++ (9 ∷ older_text own.now)) }
{
    let older = older_text(alloc, own)?;
    text.push('\t')?;
    text.push_str(&older)
}

// Writes an older key.
fn older_text(alloc: Global, own: &AccountKey) -> Result<String, AllocError>
    ensures { IfOk result (λ text. string_bytes text ≡ older_text own.now) }
{
    let suite = suite_name(own.suite());
    let kvno = own.kvno();
    let key = hex::encode(alloc, own.key().as_bytes())?;
    format!(in alloc; "{suite}:{kvno}:{key}")
}
