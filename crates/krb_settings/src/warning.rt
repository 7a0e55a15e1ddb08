//! What is likely a slip in a settings file.

use crate::{Field, Place};
use std::fmt;

/// What messages say of a realm's name with a control character.
pub(crate) const REALM_CONTROL: &str =
    "realm has a control character: expected printable characters";

/// What they say of one with an `@`.
pub(crate) const REALM_AT: &str = "realm has an @: expected the realm's name alone";

/// What they say of one with a blank.
pub(crate) const REALM_BLANK: &str = "realm has a blank: expected none";

/// What they say of one with lower-case letters.
pub(crate) const REALM_LOWER: &str =
    "realm has lower-case letters: expected upper case, in which clients write it";

/// What they say of a component with a slash.
pub(crate) const NAME_SLASH: &str =
    "a component of name has a slash: expected a text for each component, as [\"host\", \"server.example.com\"]";

/// What they say of one with an `@`.
pub(crate) const NAME_AT: &str =
    "a component of name has an @: expected the name without its realm";

/// What they say of one with a control character.
pub(crate) const NAME_CONTROL: &str =
    "a component of name has a control character: expected printable characters";

/// What they say of one with a blank at an end.
pub(crate) const NAME_BLANK: &str =
    "a component of name begins or ends with a blank: expected none there";

/// What they say of no password.
pub(crate) const PASSWORD_EMPTY: &str = "password is empty: expected at least 12 octets";

/// What they say of a short password.
pub(crate) const PASSWORD_SHORT: &str =
    "password has fewer than 12 octets: expected more, since it can be guessed without the realm";

/// What they say of a password that ends in a line break.
pub(crate) const PASSWORD_BREAK: &str =
    "password ends in a line break: expected none, since clients read a line";

/// What they say of the example's password.
pub(crate) const PASSWORD_EXAMPLE: &str =
    "password is that of examples/settings.toml, which everyone knows: expected one of your own";

/// What they say of a password of AES with SHA-2.
pub(crate) const PASSWORD_ROUNDS: &str =
    "password of this suite takes 32768 rounds of PBKDF2 at each start (RFC 8009, section 4): a key takes none";

/// What they say of the example's keys.
pub(crate) const KEY_EXAMPLE: &str =
    "key is one of examples/settings.toml, which everyone knows: expected random octets";

/// What they say of a key of one octet.
pub(crate) const KEY_REPEATED: &str = "key is one octet repeated: expected random octets";

/// What they say of a triple DES key with an octet of even parity.
pub(crate) const KEY_PARITY: &str =
    "key has an octet of even parity: expected odd parity (RFC 3961, section 6.3.1)";

/// What they say of a triple DES key with a weak part.
pub(crate) const KEY_WEAK: &str =
    "key has a weak or semi-weak DES key in it: expected three that are neither";

/// What they say of an account with the realm's own key.
pub(crate) const KEY_REALM: &str = "key is the realm's too: expected a key of its own";

/// What is likely a slip.
#[derive(Clone, Copy, Debug, PartialEq, Eq)]
pub enum Warning {
    /// The realm's name has a control character.
    RealmControl,
    /// The realm's name has an `@`.
    RealmAt,
    /// The realm's name has a blank.
    RealmBlank,
    /// The realm's name has a lower-case letter.
    RealmLower,
    /// A component has a slash.
    NameSlash,
    /// A component has an `@`.
    NameAt,
    /// A component has a control character.
    NameControl,
    /// A component begins or ends with a blank.
    NameBlank,
    /// The password is empty.
    PasswordEmpty,
    /// The password has fewer than 12 octets.
    PasswordShort,
    /// The password ends in a line break.
    PasswordBreak,
    /// The password is that of `examples/settings.toml`.
    PasswordExample,
    /// The password's key takes many rounds.
    PasswordRounds,
    /// The key is one of `examples/settings.toml`.
    KeyExample,
    /// The key is one octet repeated.
    KeyRepeated,
    /// The triple DES key has an octet of even parity.
    KeyParity,
    /// The triple DES key has a weak or semi-weak part.
    KeyWeak,
    /// The key is the realm's too.
    KeyOfRealm,
    /// The key is this account's too. The first has number 1.
    KeyOfAccount(usize),
}

impl Warning {
    // The field that it is about.
    pub(crate) fn field(self) -> Field {
        match self {
            Warning::RealmControl | Warning::RealmAt | Warning::RealmBlank | Warning::RealmLower =>
                Field::Realm,
            Warning::NameSlash | Warning::NameAt | Warning::NameControl | Warning::NameBlank =>
                Field::Name,
            Warning::PasswordEmpty
            | Warning::PasswordShort
            | Warning::PasswordBreak
            | Warning::PasswordExample
            | Warning::PasswordRounds => Field::Password,
            Warning::KeyExample
            | Warning::KeyRepeated
            | Warning::KeyParity
            | Warning::KeyWeak
            | Warning::KeyOfRealm
            | Warning::KeyOfAccount(_) => Field::Key,
        }
    }
}

impl fmt::Display for Warning {
    ghost use Rattle.std.specs.Prelude.{Some};
    ghost use Rattle.krb_settings.specs.Messages.{warning_text};

    ghost output = { λ warning. Some (warning_text warning) };

    fn fmt<W: fmt::Write>(&self, f: &mut fmt::Formatter<W>) -> fmt::Result {
        let words = match *self {
            Warning::RealmControl => REALM_CONTROL,
            Warning::RealmAt => REALM_AT,
            Warning::RealmBlank => REALM_BLANK,
            Warning::RealmLower => REALM_LOWER,
            Warning::NameSlash => NAME_SLASH,
            Warning::NameAt => NAME_AT,
            Warning::NameControl => NAME_CONTROL,
            Warning::NameBlank => NAME_BLANK,
            Warning::PasswordEmpty => PASSWORD_EMPTY,
            Warning::PasswordShort => PASSWORD_SHORT,
            Warning::PasswordBreak => PASSWORD_BREAK,
            Warning::PasswordExample => PASSWORD_EXAMPLE,
            Warning::PasswordRounds => PASSWORD_ROUNDS,
            Warning::KeyExample => KEY_EXAMPLE,
            Warning::KeyRepeated => KEY_REPEATED,
            Warning::KeyParity => KEY_PARITY,
            Warning::KeyWeak => KEY_WEAK,
            Warning::KeyOfRealm => KEY_REALM,
            Warning::KeyOfAccount(number) => {
                return write!(
                    f,
                    "key is account {number}'s too: expected a key of its own"
                );
            }
        };
        f.write_str(words)
    }
}

/// A warning about a table of a file.
#[derive(Clone, Copy, Debug, PartialEq, Eq)]
pub struct Found {
    /// The table.
    pub place: Place,
    /// The warning.
    pub warning: Warning,
}

impl fmt::Display for Found {
    ghost use Rattle.std.specs.Prelude.{Some};
    ghost use Rattle.krb_settings.specs.Messages.{found_text};

    ghost output = { λ found. Some (found_text found) };

    fn fmt<W: fmt::Write>(&self, f: &mut fmt::Formatter<W>) -> fmt::Result {
        let Found { place, warning } = *self;
        write!(f, "warning: {place}{warning}")
    }
}
