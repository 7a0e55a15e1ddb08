//! Text that is written piece by piece.
use anyhow::bail;
use std::alloc::Global;
use std::fmt::{Debug, Display, Write};

/// Text that is written piece by piece. Where memory runs out for a piece, [`Told::text`] refuses the text at its end.
#[derive(Drop)]
pub struct Told {
    alloc: Global,
    text: String,
    /// Whether each piece was written.
    is_whole: bool,
}

impl Told {
    /// No text yet.
    pub fn new(alloc: Global) -> Told {
        Told {
            alloc,
            text: String::new(alloc),
            is_whole: true,
        }
    }

    /// Takes the text back.
    pub fn clear(&mut self) {
        self.text.clear();
    }

    /// Writes a text.
    pub fn put(&mut self, piece: &str) {
        let written = self.text.push_str(piece).is_ok();
        self.is_whole = self.is_whole && written;
    }

    /// Writes a value as it is printed.
    pub fn show<T: Display>(&mut self, value: &T) {
        let written = write!(self.text, "{value}").is_ok();
        self.is_whole = self.is_whole && written;
    }

    /// Writes a value by its name in the code, as `{:?}` does.
    pub fn debug<T: Debug>(&mut self, value: &T) {
        let written = write!(self.text, "{value:?}").is_ok();
        self.is_whole = self.is_whole && written;
    }

    /// Writes octets in hexadecimal.
    pub fn octets(&mut self, octets: &[u8]) {
        match hex::encode(self.alloc, octets) {
            Ok(digits) => self.put(&digits),
            Err(_) => self.is_whole = false,
        }
    }

    /// Writes octets as the text that they are in UTF-8.
    pub fn utf8(&mut self, octets: &[u8]) {
        match str::from_utf8(octets) {
            Ok(piece) => self.put(piece),
            Err(_) => self.put("octets that are no UTF-8"),
        }
    }

    /// The whole text.
    pub fn text(&self) -> anyhow::Result<&str> {
        if !self.is_whole {
            bail!("out of memory");
        }
        Ok(self.text.as_str())
    }
}
