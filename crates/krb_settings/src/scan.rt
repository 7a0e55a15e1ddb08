//! Where statements of a TOML text begin: a line that isn't within a string or within brackets.

/// How many quotes begin and end a string that may have several lines.
const LONG_QUOTES: u8 = 3;

/// What the place of a scan is within.
#[derive(Clone, Copy)]
enum Inside {
    /// Neither a string nor a comment.
    Nothing,
    /// A comment, up to the line's end.
    Comment,
    /// A string, behind the one quote that was read of it.
    FirstQuote(u8),
    /// An empty string, or one of three quotes of which two were read.
    SecondQuote(u8),
    /// A string of one line.
    Short(u8),
    /// A string of one line, behind a backslash.
    ShortEscape,
    /// A string of several lines, behind so many of its quotes in a row.
    Long(u8, u8),
    /// A string of several lines, behind a backslash.
    LongEscape,
}

/// The place of a scan.
#[derive(Clone, Copy)]
pub(crate) struct Scan {
    inside: Inside,
    brackets: usize,
}

impl Scan {
    /// The scan of a text from its first line on.
    pub(crate) fn new() -> Scan {
        Scan {
            inside: Inside::Nothing,
            brackets: 0,
        }
    }

    /// Whether a statement may begin here.
    pub(crate) fn is_at_statement(self) -> bool {
        self.brackets == 0 && matches!(self.inside, Inside::Nothing)
    }

    /// The scan after a line.
    pub(crate) fn after_line(self, line: &str) -> Scan {
        let mut scan = self;
        for byte in line.bytes() {
            scan = scan.after(byte);
        }
        Scan {
            inside: at_next_line(scan.inside),
            brackets: scan.brackets,
        }
    }

    // The scan after a byte.
    fn after(self, byte: u8) -> Scan {
        match self.inside {
            Inside::Nothing => self.after_plain(byte),
            Inside::SecondQuote(quote) if byte != quote => self.after_plain(byte),
            Inside::Long(quote, quotes) if byte != quote && LONG_QUOTES <= quotes => {
                self.after_plain(byte)
            }
            inside => Scan {
                inside: within(inside, byte),
                brackets: self.brackets,
            },
        }
    }

    // The scan after a byte that is in no string and in no comment.
    fn after_plain(self, byte: u8) -> Scan {
        let brackets = match byte {
            b'[' | b'{' => self.brackets.saturating_add(1),
            b']' | b'}' => self.brackets.saturating_sub(1),
            _ => self.brackets,
        };
        let inside = match byte {
            b'#' => Inside::Comment,
            b'"' | b'\'' => Inside::FirstQuote(byte),
            _ => Inside::Nothing,
        };
        Scan { inside, brackets }
    }
}

// What the place behind a byte of a string or of a comment is within.
fn within(inside: Inside, byte: u8) -> Inside {
    match inside {
        Inside::Nothing => Inside::Nothing,
        Inside::Comment => Inside::Comment,
        Inside::FirstQuote(quote) if byte == quote => Inside::SecondQuote(quote),
        Inside::FirstQuote(quote) | Inside::Short(quote) => within_short(quote, byte),
        Inside::ShortEscape => Inside::Short(b'"'),
        Inside::SecondQuote(quote) => Inside::Long(quote, 0),
        Inside::Long(quote, quotes) if byte == quote => {
            Inside::Long(quote, quotes.saturating_add(1))
        }
        Inside::Long(b'"', _) if byte == b'\\' => Inside::LongEscape,
        Inside::Long(quote, _) => Inside::Long(quote, 0),
        Inside::LongEscape => Inside::Long(b'"', 0),
    }
}

// What the place behind a byte of a string of one line is within. Literal strings have no escapes.
fn within_short(quote: u8, byte: u8) -> Inside {
    if byte == quote {
        Inside::Nothing
    } else if byte == b'\\' && quote == b'"' {
        Inside::ShortEscape
    } else {
        Inside::Short(quote)
    }
}

// What the next line's first byte is within.
fn at_next_line(inside: Inside) -> Inside {
    match inside {
        Inside::Long(quote, quotes) if quotes < LONG_QUOTES => Inside::Long(quote, 0),
        Inside::LongEscape => Inside::Long(b'"', 0),
        _ => Inside::Nothing,
    }
}
