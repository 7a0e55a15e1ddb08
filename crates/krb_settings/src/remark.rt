//! What is said of a settings file, and of which line.
ghost use Rattle.std.specs.Prelude.{◌≡◌, ◌++◌, IfOk, IfSome, string_bytes};
ghost use Rattle.krb_settings.specs.Messages.{place_text};

use crate::Place;
use std::alloc::{AllocError, Global};
use std::fmt;

/// What is said of a settings file. It shows no key and no password.
///
/// It is displayed as what follows the file's name: `:7: account 1: no suite: expected ..`.
#[derive(Debug, Drop)]
pub struct Remark {
    /// The line, from 1 on. None where the remark is of the whole file.
    pub line: Option<usize>,
    /// The words.
    pub text: String,
}

impl Remark {
    /// A remark on a table of a file.
    pub(crate) fn on_table<D: fmt::Display + Drop>(
        alloc: Global,
        place: Place,
        line: Option<usize>,
        words: D,
    ) -> Result<Remark, AllocError>
        ensures line { IfOk result (λ remark. remark.line ≡ line) }
        ensures text { IfOk result (λ remark.
            IfSome (D.output words) (λ shown. string_bytes remark.text ≡ place_text place ++ shown)) }
    {
        let text = format!(in alloc; "{place}{words}")?;
        Ok(Remark { line, text })
    }

    /// A remark on the whole file.
    pub(crate) fn on_file<D: fmt::Display + Drop>(
        alloc: Global,
        words: D,
    ) -> Result<Remark, AllocError>
        ensures line { IfOk result (λ remark. remark.line ≡ None) }
        ensures text { IfOk result (λ remark.
            IfSome (D.output words) (λ shown. string_bytes remark.text ≡ shown)) }
    {
        Remark::on_table(alloc, Place::File, None, words)
    }
}

impl fmt::Display for Remark {
    ghost use Rattle.std.specs.Prelude.{Some};
    ghost use Rattle.krb_settings.specs.Messages.{remark_text};

    ghost output = { λ remark. Some (remark_text remark) };

    fn fmt<W: fmt::Write>(&self, f: &mut fmt::Formatter<W>) -> fmt::Result {
        let text = self.text.as_str();
        match self.line {
            Some(line) => write!(f, ":{line}: {text}"),
            None => write!(f, ": {text}"),
        }
    }
}
