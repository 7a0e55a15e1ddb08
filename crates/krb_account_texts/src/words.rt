//! The words of policy, of guarded passwords and of logins by certificate in a realm's line.
ghost use Rattle.std.specs.Prelude.{◌≡◌, ◌==◌, true, false, drop, length, map, IfOk, MatchOption};
ghost use Rattle.std.specs.List.{slice_split};
ghost use Rattle.krb_account_texts.specs.Reading.{agile, certified, forwarded, guarding, if_may, is_renewable, limited, may_be_agile, may_certify, may_forward, may_guard, may_limit, may_proxy, may_renew, may_take_sha1, next_words, no_words, proxied, renewable_mark, renewed, with_life, with_sha1, words_behind, words_in};
ghost use Rattle.krb_account_texts.specs.Steps.{IsAside};

use crate::fault::LineFault;
use crate::fields::life_of;
use krb_realm_accounts::{NO_POLICY, Policy};
use std::alloc::{AllocError, Global};

/// What the words say.
#[derive(Clone, Copy)]
pub(crate) struct Words {
    /// The policy.
    pub(crate) policy: Policy,
    /// Whether passwords are guarded.
    pub(crate) guards_passwords: bool,
    /// Whether logins by certificate are answered.
    pub(crate) is_certified: bool,
}

/// What the words of a field say. They are in their order, each at most once, with a comma between each two.
#[tactic(auto, unfolding(crate::specs::Reading::words_in))]
pub(crate) fn words_of(alloc: Global, text: &str) -> Result<Words, LineFault>
    ensures { IsAside LineFault.Memory (λ words. words) (words_in text.now) result }
{
    let parts = parts_of(alloc, text)?;
    words_among(&parts)
}

// The parts between commas.
fn parts_of<'a>(alloc: Global, text: &'a str) -> Result<Vec<&'a str>, AllocError>
    ensures { IfOk result (λ v. map (λ part. part.now) v.items ≡ slice_split (λ octet. octet == 44) text.now) }
{
    text.split(',').collect(alloc)
}

// What these words say.
fn words_among(parts: &[&str]) -> Result<Words, LineFault>
    ensures { IsAside LineFault.Memory (λ words. words) (words_behind no_words (map (λ part. part.now) parts.now)) result }
{
    let mut words = Words {
        policy: NO_POLICY,
        guards_passwords: false,
        is_certified: false,
    };
    for part in parts {
        words = next_words(words, part)?;
    }
    Ok(words)
}

// The words with one more, if it is one and may follow them.
#[tactic(auto, unfolding(crate::specs::Reading::next_words))]
fn next_words(words: Words, word: &str) -> Result<Words, LineFault>
    ensures { result ≡ next_words words word.now }
{
    if word == "limits-des3" {
        return if_may(may_limit(words), limited(words));
    }
    if word == "forwardable" {
        return if_may(may_forward(words), forwarded(words));
    }
    if word == "proxiable" {
        return if_may(may_proxy(words), proxied(words));
    }
    if word == "guards-passwords" {
        return if_may(may_guard(words), guarding(words));
    }
    if word == "pkinit-agility" {
        return if_may(may_be_agile(words), agile(words));
    }
    if word == "pkinit-sha1" {
        return if_may(may_take_sha1(words), with_sha1(words));
    }
    if word == "pkinit" {
        return if_may(may_certify(words), certified(words));
    }
    match life_digits(word) {
        Some(digits) => with_life(words, digits),
        None => Err(LineFault::Words),
    }
}

// The words, if the last one may follow those before it.
fn if_may(may: bool, words: Words) -> Result<Words, LineFault>
    ensures { result ≡ if_may may words }
{
    if may {
        Ok(words)
    } else {
        Err(LineFault::Words)
    }
}

// Whether the word `pkinit` may follow: it isn't there.
fn may_certify(words: Words) -> bool
    ensures { result ≡ may_certify words }
{
    !words.is_certified
}

// Whether the word `pkinit-sha1` may follow: neither it nor a later one is there.
fn may_take_sha1(words: Words) -> bool
    ensures { result ≡ may_take_sha1 words }
{
    !words.policy.pkinit_sha1 && may_certify(words)
}

// The same of the word `pkinit-agility`.
fn may_be_agile(words: Words) -> bool
    ensures { result ≡ may_be_agile words }
{
    !words.policy.pkinit_agility && may_take_sha1(words)
}

// The same of the word `guards-passwords`.
fn may_guard(words: Words) -> bool
    ensures { result ≡ may_guard words }
{
    !words.guards_passwords && may_be_agile(words)
}

// The same of the word of a greatest renewable life.
fn may_renew(words: Words) -> bool
    ensures { result ≡ may_renew words }
{
    words.policy.renewable_life == 0 && may_guard(words)
}

// The same of the word `proxiable`.
fn may_proxy(words: Words) -> bool
    ensures { result ≡ may_proxy words }
{
    !words.policy.proxiable && may_renew(words)
}

// The same of the word `forwardable`.
fn may_forward(words: Words) -> bool
    ensures { result ≡ may_forward words }
{
    !words.policy.forwardable && may_proxy(words)
}

// The same of the word `limits-des3`.
fn may_limit(words: Words) -> bool
    ensures { result ≡ may_limit words }
{
    !words.policy.limits_des3 && may_forward(words)
}

// The words with `limits-des3`.
fn limited(words: Words) -> Words
    ensures { result ≡ limited words }
{
    let policy = Policy {
        limits_des3: true,
        ..words.policy
    };
    Words { policy, ..words }
}

// The words with `forwardable`.
fn forwarded(words: Words) -> Words
    ensures { result ≡ forwarded words }
{
    let policy = Policy {
        forwardable: true,
        ..words.policy
    };
    Words { policy, ..words }
}

// The words with `proxiable`.
fn proxied(words: Words) -> Words
    ensures { result ≡ proxied words }
{
    let policy = Policy {
        proxiable: true,
        ..words.policy
    };
    Words { policy, ..words }
}

// The words with `guards-passwords`.
fn guarding(words: Words) -> Words
    ensures { result ≡ guarding words }
{
    Words {
        guards_passwords: true,
        ..words
    }
}

// The words with `pkinit-agility`.
fn agile(words: Words) -> Words
    ensures { result ≡ agile words }
{
    let policy = Policy {
        pkinit_agility: true,
        ..words.policy
    };
    Words { policy, ..words }
}

// The words with `pkinit-sha1`.
fn with_sha1(words: Words) -> Words
    ensures { result ≡ with_sha1 words }
{
    let policy = Policy {
        pkinit_sha1: true,
        ..words.policy
    };
    Words { policy, ..words }
}

// The words with `pkinit`.
fn certified(words: Words) -> Words
    ensures { result ≡ certified words }
{
    Words {
        is_certified: true,
        ..words
    }
}

// The words with this greatest renewable life.
fn renewed(words: Words, life: u32) -> Words
    ensures { result ≡ renewed life words }
{
    let policy = Policy {
        renewable_life: life,
        ..words.policy
    };
    Words { policy, ..words }
}

// The words with a greatest renewable life of these digits, if it may follow them.
fn with_life(words: Words, digits: &str) -> Result<Words, LineFault>
    ensures { result ≡ with_life words digits.now }
{
    if !may_renew(words) {
        return Err(LineFault::Words);
    }
    let life = life_of(digits)?;
    Ok(renewed(words, life))
}

/// What the word of a greatest renewable life begins with.
const RENEWABLE: &str = "renewable=";

// The digits of a greatest renewable life, if the word is one.
fn life_digits(word: &str) -> Option<&str>
    ensures { MatchOption result (is_renewable word.now ≡ false) (λ digits. (is_renewable word.now ≡ true) × (digits.now ≡ drop (length renewable_mark) word.now)) }
{
    word.strip_prefix(RENEWABLE)
}
