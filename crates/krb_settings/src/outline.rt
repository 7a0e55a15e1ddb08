//! A settings file's document beside the lines of its keys.

use crate::lines::{KeyLine, key_lines};
use crate::{Field, Place, is_among};
use std::alloc::{AllocError, Global};
use std::str;
use toml::{Table, Value};

/// A settings file's document beside the lines of its keys.
#[derive(Drop)]
pub(crate) struct Outline {
    table: Table,
    keys: Vec<KeyLine>,
}

impl Outline {
    /// The outline of a text. A text that is no TOML has none.
    pub(crate) fn read(alloc: Global, text: &[u8]) -> Result<Option<Outline>, AllocError> {
        let Ok(text) = str::from_utf8(text) else {
            return Ok(None);
        };
        let table = match toml::table_from_str(alloc, text) {
            Ok(table) => table,
            Err(error) if error.is_memory() => return Err(AllocError),
            Err(_) => return Ok(None),
        };
        let keys = key_lines(alloc, text)?;
        Ok(Some(Outline { table, keys }))
    }

    /// The file's own table, or that of an account.
    pub(crate) fn table(&self, place: Place) -> Option<&Table> {
        let Place::Account(number) = place else {
            return Some(&self.table);
        };
        let accounts = self.table.get(Field::Account.name())?.as_array()?;
        accounts.get(number.checked_sub(1)?)?.as_table()
    }

    /// How many accounts there are.
    pub(crate) fn accounts(&self) -> usize {
        match self.table.get(Field::Account.name()) {
            Some(Value::Array(accounts)) => accounts.len(),
            _ => 0,
        }
    }

    /// What a field holds.
    pub(crate) fn value(&self, place: Place, field: Field) -> Option<&Value> {
        self.table(place)?.get(field.name())
    }

    /// The key of a table that is the name of none of the fields, the first in the file.
    pub(crate) fn unknown_key(&self, place: Place, fields: &[Field]) -> Option<&KeyLine> {
        for key in &self.keys {
            if key.place == place && !is_among(fields, key.key.as_str()) {
                return Some(key);
            }
        }
        None
    }

    /// The line of a field. Where it isn't found, that on which its table begins.
    pub(crate) fn line(&self, place: Place, field: Field) -> Option<usize> {
        for key in &self.keys {
            if key.place == place && key.key.as_str() == field.name() {
                return Some(key.line);
            }
        }
        self.head(place)
    }

    /// The line on which a table begins.
    pub(crate) fn head(&self, place: Place) -> Option<usize> {
        let Place::Account(number) = place else {
            return Some(1);
        };
        let mut last = None;
        let mut accounts = 0usize;
        for key in &self.keys {
            if key.place == Place::File && key.key.as_str() == Field::Account.name() {
                accounts = accounts.saturating_add(1);
                last = Some(key.line);
            }
            if accounts == number {
                break;
            }
        }
        last
    }
}
