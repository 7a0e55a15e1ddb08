//! Rows of data, read word by word.
use anyhow::bail;
use hex::FromHexError;
use std::alloc::{AllocError, Global};
use std::str::FromStr;

/// The words of a row that are still to be read.
///
/// A word that is not as expected is a fault. The reader keeps the first fault, and returns a value in place of the word. So a row is
/// read whole, and [`Row::ended`] refuses it at its end.
#[derive(Clone, Copy)]
pub struct Row<'a> {
    rest: Option<&'a str>,
    separator: &'static str,
    wanted: &'a str,
    /// The first fault.
    fault: Option<&'static str>,
}

impl<'a> Row<'a> {
    /// The row of this text, whose words the separator divides.
    pub fn new(text: &'a str, separator: &'static str) -> Row<'a> {
        Row {
            rest: Some(text),
            separator,
            wanted: "",
            fault: None,
        }
    }

    /// Keeps a fault.
    pub fn refuse(&mut self, fault: &'static str) {
        self.fault = self.fault.or(Some(fault));
    }

    /// What the row wants to come out.
    pub fn wanted(&self) -> &'a str {
        self.wanted
    }

    /// The next word is what the row wants to come out.
    pub fn want(&mut self) {
        self.wanted = self.word();
    }

    /// All that follows is what the row wants to come out.
    pub fn want_rest(&mut self) {
        self.wanted = self.rest();
    }

    /// The next word.
    pub fn word(&mut self) -> &'a str {
        let Some(rest) = self.rest else {
            self.refuse("too few words");
            return "";
        };
        match rest.split_once(self.separator) {
            Some((word, rest)) => {
                self.rest = Some(rest);
                word
            }
            None => {
                self.rest = None;
                rest
            }
        }
    }

    /// All that follows.
    pub fn rest(&mut self) -> &'a str {
        let Some(rest) = self.rest else {
            self.refuse("too few words");
            return "";
        };
        self.rest = None;
        rest
    }

    /// Passes over all that follows.
    pub fn pass_rest(&mut self) {
        self.rest = None;
    }

    /// The next word as text, which is empty for `-`.
    pub fn text(&mut self) -> &'a str {
        let word = self.word();
        if word == "-" { "" } else { word }
    }

    /// The next word as a number.
    pub fn number<T: FromStr + Default + Drop>(&mut self) -> T
    where
        T::Err: Drop,
    {
        let word = self.word();
        match word.parse::<T>() {
            Ok(number) => number,
            Err(_) => {
                self.refuse("no number");
                T::default()
            }
        }
    }

    /// The next word as octets, in hexadecimal. `-` is no octet.
    pub fn octets(&mut self, alloc: Global) -> Vec<u8> {
        let word = self.text();
        match hex::decode(alloc, word) {
            Ok(octets) => return octets,
            Err(FromHexError::OutOfMemory) => self.refuse("out of memory"),
            Err(_) => self.refuse("no octets in hexadecimal"),
        }
        Vec::new(alloc)
    }

    /// The next word as octets, in hexadecimal. There are no octets if no word is left.
    pub fn further_octets(&mut self, alloc: Global) -> Vec<u8> {
        if self.rest.is_none() {
            return Vec::new(alloc);
        }
        self.octets(alloc)
    }

    /// The next word as the components of a name.
    pub fn name(&mut self, alloc: Global) -> Vec<Vec<u8>> {
        let word = self.word();
        match components_of(alloc, word) {
            Ok(name) => name,
            Err(_) => {
                self.refuse("out of memory");
                Vec::new(alloc)
            }
        }
    }

    /// Fails unless the row was read to its end without a fault.
    pub fn ended(&self) -> anyhow::Result<()> {
        if let Some(fault) = self.fault {
            bail!("{fault}");
        }
        if self.rest.is_some() {
            bail!("too many words");
        }
        Ok(())
    }
}

/// The components of a name, which are divided by slashes. `-` and `none` have no component.
pub fn components_of(alloc: Global, name: &str) -> Result<Vec<Vec<u8>>, AllocError> {
    let mut components = Vec::new(alloc);
    if name == "-" || name == "none" {
        return Ok(components);
    }
    for component in name.split('/') {
        components.push(Vec::from_slice(alloc, component.as_bytes())?)?;
    }
    Ok(components)
}
