//! The default realm.
ghost use Rattle.std.specs.Prelude.{◌≡◌, IfOk, false, map};
ghost use Rattle.std.specs.Option.{option_copied};
ghost use Rattle.std.specs.Str.Lines.{lines};
ghost use Rattle.krb_commands.specs.Configuration.{default_realm_in, is_header, is_library, realm_below, realm_in, realm_of};

use std::alloc::{AllocError, Global};

/// The header of the section that has the default realm.
const LIBRARY: &str = "[libdefaults]";

/// The name of the default realm.
const NAME: &str = "default_realm";

/// The default realm of a configuration, if it names one: the value of the first relation `default_realm` in a section `[libdefaults]`.
/// Other files that the configuration includes don't count.
pub fn default_realm_in(alloc: Global, text: &str) -> Result<Option<&str>, AllocError>
    ensures { IfOk result (λ realm. option_copied realm ≡ default_realm_in text.now) }
{
    let lines = lines_of(alloc, text)?;
    Ok(realm_below(lines.as_slice()))
}

// The lines of a text.
fn lines_of<'a>(alloc: Global, text: &'a str) -> Result<Vec<&'a str>, AllocError>
    ensures { IfOk result (λ v. map (λ line. line.now) v.items ≡ lines text.now) }
{
    text.lines().collect(alloc)
}

// The default realm of lines.
fn realm_below<'a>(lines: &[&'a str]) -> Option<&'a str>
    ensures { option_copied result ≡ realm_below false (map (λ line. line.now) lines.now) }
{
    let mut is_inside = false;
    for line in lines {
        if is_header(line) {
            is_inside = is_library(line);
        } else if is_inside {
            if let Some(realm) = realm_of(line) {
                return Some(realm);
            }
        }
    }
    None
}

// Whether a line begins a section.
fn is_header(line: &str) -> bool
    ensures { result ≡ is_header line.now }
{
    line.trim().as_bytes().first() == Some(&b'[')
}

// Whether a line begins the section of the library's defaults.
fn is_library(line: &str) -> bool
    ensures { result ≡ is_library line.now }
{
    line.trim() == LIBRARY
}

// The realm that a line of that section names.
fn realm_of(line: &str) -> Option<&str>
    ensures { option_copied result ≡ realm_of line.now }
{
    match line.split_once('=') {
        Some((name, value)) => realm_in(name, value),
        None => realm_in(line, ""),
    }
}

// The realm of a relation with this name and this value.
fn realm_in<'a>(name: &str, value: &'a str) -> Option<&'a str>
    ensures { option_copied result ≡ realm_in name.now value.now }
{
    let realm = value.trim();
    if realm.is_empty() || name.trim() != NAME {
        return None;
    }
    Some(realm)
}
