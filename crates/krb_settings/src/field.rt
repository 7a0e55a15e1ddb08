//! The fields of the tables of a settings file.
ghost use Rattle.std.specs.Prelude.{◌≡◌};

use std::fmt;

/// A field of a settings file, or of an account in one.
#[derive(Clone, Copy, Debug, PartialEq, Eq)]
pub enum Field {
    /// The accounts: a list of tables.
    Account,
    /// The key of the realm's ticket-granting service, or of an account: hexadecimal digits.
    Key,
    /// How many seconds a ticket lasts at most.
    Lifetime,
    /// The components of an account's name: a list of texts.
    Name,
    /// The password of an account.
    Password,
    /// The realm's name.
    Realm,
    /// How many seconds clocks may differ.
    Skew,
    /// The suite of a key.
    Suite,
}

impl Field {
    ghost use Rattle.krb_settings.specs.Fields.{field_name};

    /// The key under which the field stands.
    pub fn name(self) -> &'static str
        ensures { result.now ≡ field_name self }
    {
        match self {
            Field::Account => "account",
            Field::Key => "key",
            Field::Lifetime => "lifetime",
            Field::Name => "name",
            Field::Password => "password",
            Field::Realm => "realm",
            Field::Skew => "skew",
            Field::Suite => "suite",
        }
    }

    // What the field holds.
    pub(crate) fn kind(self) -> &'static str {
        match self {
            Field::Account => "a list of tables",
            Field::Key | Field::Password | Field::Realm | Field::Suite => "a text",
            Field::Lifetime | Field::Skew => "a whole number of seconds",
            Field::Name => "a list of texts",
        }
    }
}

impl fmt::Display for Field {
    ghost use Rattle.std.specs.Prelude.{Some};
    ghost use Rattle.krb_settings.specs.Fields.{field_name};

    ghost output = { λ field. Some (field_name field) };

    fn fmt<W: fmt::Write>(&self, f: &mut fmt::Formatter<W>) -> fmt::Result {
        f.write_str(self.name())
    }
}
