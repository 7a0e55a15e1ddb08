//! Lines of the scripts: `STEP WORD .. | MESSAGE | WANTED`. The message and the expected text may be missing.

use test_support::Row;

#[derive(Clone, Copy)]
pub(crate) struct Line<'a> {
    /// The step and its words.
    pub(crate) words: Row<'a>,
    /// The bytes that the step is given in place of those that were sent last, in hexadecimal.
    pub(crate) message: Option<&'a str>,
    /// What the step is to write.
    pub(crate) wanted: &'a str,
}

pub(crate) fn line_of(text: &str) -> Line<'_> {
    let mut columns = text.split('|');
    let step = columns.next().unwrap_or_default();
    let (message, wanted) = match (columns.next(), columns.next()) {
        (Some(message), Some(wanted)) => (Some(text_of(message.trim())), wanted),
        (Some(wanted), None) => (None, wanted),
        (None, _) => (None, "ok"),
    };
    Line {
        words: Row::new(step.trim(), " "),
        message,
        wanted: wanted.trim(),
    }
}

/// The text of a word, `-` for none.
fn text_of(word: &str) -> &str {
    if word == "-" { "" } else { word }
}
