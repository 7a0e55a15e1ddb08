//! The command `attributes`.

use crate::accounts::refusal_of;
use crate::arguments::{expected, name_of};
use crate::texts::finish_text;
use krb_account_texts::{EditRefusal, Line, allow};
use krb_commands::{FileKind, Stop, account_among, begin, lines_of, refused};
use krb_messages::data_types::PrincipalName;
use krb_realm_accounts::Attributes;
use krb_time::EPOCH;
use picky_asn1::date::GeneralizedTime;
use std::alloc::Global;

/// The last second of an account that a text can have, counted from 1970.
const LAST_END: u64 = 4_294_967_295;

/// `attributes TEXT NAME WORD..`: changes the attributes of an account that the words say, and no others.
pub(crate) fn attributes(rt: &HostRuntime, arguments: &[String]) -> Result<(), Stop> {
    let [path, name, words @ ..] = arguments else {
        return Err(expected(rt.alloc(), "attributes TEXT NAME WORD.."));
    };
    let name = name_of(rt.alloc(), name.as_str())?;
    let new_file = begin(rt, path.as_str(), FileKind::Accounts, &[])?;
    let lines = changed(rt, path.as_str(), &name, words);
    finish_text(rt, new_file, lines)
}

fn changed(
    rt: &HostRuntime,
    path: &str,
    name: &PrincipalName,
    words: &[String],
) -> Result<Vec<Line>, Stop> {
    let mut lines = lines_of(rt, path)?;
    let components = name.name_string.0.as_slice();
    let own = match account_among(&lines, components) {
        Some(own) => own.account.attributes(),
        None => return Err(refusal_of(rt.alloc(), name, EditRefusal::Unknown)),
    };
    let attributes = with_words(rt.alloc(), own, words)?;
    match allow(&mut lines, components, attributes) {
        Ok(()) => Ok(lines),
        Err(refusal) => Err(refusal_of(rt.alloc(), name, refusal)),
    }
}

// The attributes, changed by each word in turn.
fn with_words(alloc: Global, own: Attributes, words: &[String]) -> Result<Attributes, Stop> {
    let mut attributes = own;
    for word in words {
        attributes = with_word(alloc, attributes, word.as_str())?;
    }
    Ok(attributes)
}

// The attributes, changed by a word.
fn with_word(alloc: Global, own: Attributes, word: &str) -> Result<Attributes, Stop> {
    if let Some(time) = word.strip_prefix("ends=") {
        let ends = end_of(alloc, time)?;
        return Ok(Attributes { ends, ..own });
    }
    if let Some(digits) = word.strip_prefix("lifetime=") {
        let lifetime = lifetime_of(alloc, digits)?;
        return Ok(Attributes { lifetime, ..own });
    }
    with_mark(alloc, own, word)
}

// The attributes, with a mark set by `+` or taken away by `-`.
fn with_mark(alloc: Global, own: Attributes, word: &str) -> Result<Attributes, Stop> {
    let marked = match (word.strip_prefix('+'), word.strip_prefix('-')) {
        (Some(mark), _) => marked(own, mark, true),
        (None, Some(mark)) => marked(own, mark, false),
        (None, None) => None,
    };
    match marked {
        Some(attributes) => Ok(attributes),
        None => Err(unknown(alloc, word)),
    }
}

// The attributes with this mark set or not, if there is such a mark.
fn marked(own: Attributes, mark: &str, is_set: bool) -> Option<Attributes> {
    match mark {
        "off" => Some(Attributes {
            is_off: is_set,
            ..own
        }),
        "must-change" => Some(Attributes {
            must_change: is_set,
            ..own
        }),
        "no-service" => Some(Attributes {
            is_no_service: is_set,
            ..own
        }),
        _ => None,
    }
}

fn unknown(alloc: Global, word: &str) -> Stop {
    refused(
        alloc,
        format_args!(
            "{word}: expected ends=YYYYMMDDHHMMSSZ, lifetime=SECONDS, each with - for none, or +off, -off, +must-change, -must-change, +no-service or -no-service"
        ),
    )
}

// The last second of an account, or 0 for `-`.
fn end_of(alloc: Global, text: &str) -> Result<u64, Stop> {
    if text == "-" {
        return Ok(0);
    }
    let Some(time) = GeneralizedTime::from_text(text.as_bytes()) else {
        return Err(no_end(alloc, text));
    };
    let ends = time.seconds();
    if ends <= EPOCH || EPOCH + LAST_END < ends {
        return Err(no_end(alloc, text));
    }
    Ok(ends)
}

fn no_end(alloc: Global, text: &str) -> Stop {
    refused(
        alloc,
        format_args!(
            "ends={text}: expected YYYYMMDDHHMMSSZ, from 1970 on and up to 2106, or - for none"
        ),
    )
}

// The greatest lifetime of an account, or 0 for `-`.
fn lifetime_of(alloc: Global, text: &str) -> Result<u32, Stop> {
    if text == "-" {
        return Ok(0);
    }
    match text.parse::<u32>() {
        Ok(seconds) if 0 < seconds => Ok(seconds),
        _ => Err(refused(
            alloc,
            format_args!(
                "lifetime={text}: expected seconds, from 1 to 4294967295, or - for the realm's"
            ),
        )),
    }
}
