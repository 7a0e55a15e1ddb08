//! Names of principals as text.
ghost use Rattle.std.specs.Prelude.{◌≡◌};
ghost use Rattle.krb_messages.specs.NameText.{escape_letter};

use crate::data_types::{KerberosStringAsn1, PrincipalName, Realm};
use std::fmt;

/// A name in its realm, which prints as `host/server@REALM`. In a component and in the realm a backslash precedes
/// `/`, `@` and a backslash, and NUL, backspace, tab and newline are `\0`, `\b`, `\t` and `\n` (RFC 1964, section 2.1.3).
#[derive(Clone, Copy)]
pub struct NameInRealm<'a> {
    /// The name.
    pub name: &'a PrincipalName,
    /// Its realm.
    pub realm: &'a Realm,
}

impl PrincipalName {
    /// The name in a realm, for printing.
    pub fn with_realm<'a>(&'a self, realm: &'a Realm) -> NameInRealm<'a>
        ensures name { result.name.now ≡ self.now }
        ensures realm { result.realm.now ≡ realm.now }
    {
        NameInRealm { name: self, realm }
    }
}

impl<'a> fmt::Display for NameInRealm<'a> {
    ghost use Rattle.std.specs.Prelude.{Some};
    ghost use Rattle.krb_messages.specs.NameText.{principal_text};

    ghost output = { λ principal. Some (principal_text principal.name.now.name_string.0 principal.realm.now) };

    fn fmt<W: fmt::Write>(&self, f: &mut fmt::Formatter<W>) -> fmt::Result {
        let name = self.name;
        let realm = Component(self.realm);
        write!(f, "{name}@{realm}")
    }
}

/// The components with `/` between them, escaped as those of a [`NameInRealm`].
impl fmt::Display for PrincipalName {
    ghost use Rattle.std.specs.Prelude.{Some};
    ghost use Rattle.krb_messages.specs.NameText.{name_text};

    ghost output = { λ name. Some (name_text name.name_string.0) };

    fn fmt<W: fmt::Write>(&self, f: &mut fmt::Formatter<W>) -> fmt::Result {
        let [first, further @ ..] = self.name_string.0.as_slice() else {
            return Ok(());
        };
        let first = Component(first);
        let further = FurtherComponents(further);
        write!(f, "{first}{further}")
    }
}

// The components after the first one.
#[derive(Clone, Copy)]
struct FurtherComponents<'a>(&'a [KerberosStringAsn1]);

impl<'a> fmt::Display for FurtherComponents<'a> {
    ghost use Rattle.std.specs.Prelude.{Some, ◌∷◌};
    ghost use Rattle.std.specs.List.{flat_map};
    ghost use Rattle.krb_messages.specs.NameText.{component_text};

    ghost output = { λ further. Some (flat_map (λ component. 47 ∷ component_text component) further.0.now) };

    fn fmt<W: fmt::Write>(&self, f: &mut fmt::Formatter<W>) -> fmt::Result {
        for component in self.0 {
            let component = Component(component);
            write!(f, "/{component}")?;
        }
        Ok(())
    }
}

// A component of a name, or a realm.
#[derive(Clone, Copy)]
struct Component<'a>(&'a KerberosStringAsn1);

impl<'a> fmt::Display for Component<'a> {
    ghost use Rattle.std.specs.Prelude.{Some};
    ghost use Rattle.krb_messages.specs.NameText.{component_text};

    ghost output = { λ component. Some (component_text component.0.now) };

    fn fmt<W: fmt::Write>(&self, f: &mut fmt::Formatter<W>) -> fmt::Result {
        for character in self.0.as_bytes() {
            let character = Character(*character);
            write!(f, "{character}")?;
        }
        Ok(())
    }
}

// A character of a component or of a realm.
#[derive(Clone, Copy)]
struct Character(u8);

impl fmt::Display for Character {
    ghost use Rattle.std.specs.Prelude.{Some};
    ghost use Rattle.krb_messages.specs.NameText.{escaped};

    ghost output = { λ character. Some (escaped character.0) };

    fn fmt<W: fmt::Write>(&self, f: &mut fmt::Formatter<W>) -> fmt::Result {
        match escape_letter(self.0) {
            Some(letter) => {
                let letter = char::from(letter);
                write!(f, "\\{letter}")
            }
            None => {
                let character = char::from(self.0);
                write!(f, "{character}")
            }
        }
    }
}

// The letter that follows a backslash in place of the character, if it has one.
fn escape_letter(character: u8) -> Option<u8>
    ensures { result ≡ escape_letter character }
{
    match character {
        0 => Some(b'0'),
        8 => Some(b'b'),
        b'\t' => Some(b't'),
        b'\n' => Some(b'n'),
        b'/' | b'@' | b'\\' => Some(character),
        _ => None,
    }
}
