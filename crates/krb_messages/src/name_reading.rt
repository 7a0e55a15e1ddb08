//! Names that are given as text, as `host/server@REALM` (RFC 1964, section 2.1.1).
ghost use Rattle.std.specs.Prelude.{◌≡◌, ◌++◌, ◌∷◌, [], ℕ, List, Some, Ok, IfOk, IfErr, IsTrue};
ghost use Rattle.std.specs.Option.{option_map};
ghost use Rattle.krb_messages.specs.NameText.{name_text, principal_text};
ghost use Rattle.krb_messages.specs.NameReading.{IsFault, are_ascii, components_in, octets, option_octets, principal_in, realm_in, split_realm, unquoted};

use std::alloc::{AllocError, AllocFailed, Global};
use std::mem::replace;
use thiserror::Error;

/// Why a text names no principal.
#[derive(Clone, Copy, Debug, PartialEq, Eq, Error)]
pub enum NameTextFault {
    /// The text of the name or of the realm ends with a backslash that quotes nothing.
    #[error("a backslash at the end quotes nothing")]
    TrailingBackslash,

    /// An `@` that isn't quoted is where no realm may follow.
    #[error("no realm may follow here")]
    UnexpectedRealm,

    /// The realm has a `/` that isn't quoted.
    #[error("a realm has no components")]
    SlashInRealm,

    /// Memory ran out.
    #[error("out of memory")]
    Memory,
}

impl From<AllocError> for NameTextFault {
    ghost use Rattle.krb_messages.specs.declared.name_reading.NameTextFault.TheVariants.{Memory};

    ghost from_gives = { λ _ fault. fault ≡ Memory };

    fn from(_error: AllocError) -> NameTextFault {
        NameTextFault::Memory
    }
}

impl<T: Drop> From<AllocFailed<T>> for NameTextFault {
    ghost use Rattle.krb_messages.specs.declared.name_reading.NameTextFault.TheVariants.{Memory};

    ghost from_gives = { λ _ fault. fault ≡ Memory };

    fn from(_error: AllocFailed<T>) -> NameTextFault {
        NameTextFault::Memory
    }
}

/// A name of a text, as the calls take it: its components, and its realm where the text has one.
#[derive(Debug, Drop)]
pub struct PrincipalText {
    /// The components, of which there is one or more.
    pub components: Vec<Vec<u8>>,
    /// The realm after the `@`.
    pub realm: Option<Vec<u8>>,
}

/// The components of a name: `host/server` has two (RFC 1964, section 2.1.1).
///
/// A backslash quotes the octet after it: `\/`, `\@` and `\\` are those octets, `\n`, `\t`, `\b` and `\0` are newline, tab, backspace and
/// NUL, and any other octet is itself. Components may be empty: which names there are is for the call that takes them.
pub fn components_of_text(alloc: Global, text: &str) -> Result<Vec<Vec<u8>>, NameTextFault>
    ensures ok { IfOk result (λ name. components_in text.now ≡ Ok (octets name.items)) }
    ensures refusal { IfErr result (IsFault (components_in text.now)) }
{
    components(alloc, text.as_bytes())
}

/// The components of a name, and its realm after an `@`: `user@EXAMPLE.COM` has both (RFC 1964, section 2.1.1). The realm is quoted as
/// the components are.
pub fn principal_of_text(alloc: Global, text: &str) -> Result<PrincipalText, NameTextFault>
    ensures ok { IfOk result (λ name. principal_in text.now ≡ Ok (octets name.components.items, option_octets name.realm)) }
    ensures refusal { IfErr result (IsFault (principal_in text.now)) }
{
    let (name, realm) = split_realm(text.as_bytes());
    let components = components(alloc, name)?;
    let realm = match realm {
        Some(realm) => Some(realm_of(alloc, realm)?),
        None => None,
    };
    Ok(PrincipalText { components, realm })
}

/// What [`PrincipalName`](crate::data_types::PrincipalName) prints is read as its components, and what
/// [`NameInRealm`](crate::data_types::NameInRealm) prints as its components and its realm. It does nothing when it runs: its contract
/// is the law.
pub fn printed_name_is_read()
    ensures name { (first : List ℕ) (further : List (List ℕ)) → IsTrue (are_ascii (first ∷ further))
        → components_in (name_text (first ∷ further)) ≡ Ok (first ∷ further) }
    ensures realm { (first : List ℕ) (further : List (List ℕ)) (realm : List ℕ) → IsTrue (are_ascii (realm ∷ first ∷ further))
        → principal_in (principal_text (first ∷ further) realm) ≡ Ok (first ∷ further, Some realm) }
{}

fn components(alloc: Global, text: &[u8]) -> Result<Vec<Vec<u8>>, NameTextFault>
    ensures ok { IfOk result (λ name. components_in text.now ≡ Ok (octets name.items)) }
    ensures refusal { IfErr result (IsFault (components_in text.now)) }
{
    let (mut components, last) = parts(alloc, text)?;
    components.push(last)?;
    Ok(components)
}

fn realm_of(alloc: Global, text: &[u8]) -> Result<Vec<u8>, NameTextFault>
    ensures ok { IfOk result (λ realm. realm_in text.now ≡ Ok realm.items) }
    ensures refusal { IfErr result (IsFault (realm_in text.now)) }
{
    let (before, realm) = parts(alloc, text)?;
    if !before.as_slice().is_empty() {
        return Err(NameTextFault::SlashInRealm);
    }
    Ok(realm)
}

// The parts between slashes: those before the last one, and the last one.
fn parts(alloc: Global, text: &[u8]) -> Result<(Vec<Vec<u8>>, Vec<u8>), NameTextFault>
    ensures ok { IfOk result (λ parts. components_in text.now ≡ Ok (octets parts.0.items ++ parts.1.items ∷ [])) }
    ensures refusal { IfErr result (IsFault (components_in text.now)) }
{
    let mut parts = Vec::new(alloc);
    let mut part = Vec::new(alloc);
    let mut quoted = false;
    for octet in text {
        if quoted {
            part.push(unquoted(*octet))?;
            quoted = false;
        } else if *octet == b'\\' {
            quoted = true;
        } else if *octet == b'/' {
            parts.push(replace(&mut part, Vec::new(alloc)))?;
        } else if *octet == b'@' {
            return Err(NameTextFault::UnexpectedRealm);
        } else {
            part.push(*octet)?;
        }
    }
    if quoted {
        return Err(NameTextFault::TrailingBackslash);
    }
    Ok((parts, part))
}

// What precedes the first `@` that isn't quoted, and what follows it.
fn split_realm(text: &[u8]) -> (&[u8], Option<&[u8]>)
    ensures { (result.0.now, option_map (λ realm. realm.now) result.1) ≡ split_realm text.now }
{
    let mut quoted = false;
    for (index, octet) in text.iter().enumerate() {
        if quoted {
            quoted = false;
        } else if *octet == b'@' {
            return (&text[..index], Some(&text[index + 1..]));
        } else {
            quoted = *octet == b'\\';
        }
    }
    (text, None)
}

// The octet that a backslash and this one are for.
fn unquoted(octet: u8) -> u8
    ensures { result ≡ unquoted octet }
{
    match octet {
        b'n' => b'\n',
        b't' => b'\t',
        b'b' => 8,
        b'0' => 0,
        _ => octet,
    }
}
