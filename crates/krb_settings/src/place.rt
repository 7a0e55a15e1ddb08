//! The tables of a settings file.

use std::fmt;

/// A table of a settings file.
#[derive(Clone, Copy, Debug, PartialEq, Eq)]
pub enum Place {
    /// The file's own table.
    File,
    /// The table of the account with this number. The first account has number 1.
    Account(usize),
}

/// What messages about the table begin with.
impl fmt::Display for Place {
    ghost use Rattle.std.specs.Prelude.{Some};
    ghost use Rattle.krb_settings.specs.Messages.{place_text};

    ghost output = { λ place. Some (place_text place) };

    fn fmt<W: fmt::Write>(&self, f: &mut fmt::Formatter<W>) -> fmt::Result {
        match *self {
            Place::File => Ok(()),
            Place::Account(number) => write!(f, "account {number}: "),
        }
    }
}
