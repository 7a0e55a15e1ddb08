//! The program's arguments.
ghost use Rattle.std.specs.Prelude.{◌≡◌, map, string_bytes};
ghost use Rattle.std.specs.Option.{option_copied, option_map};
ghost use Rattle.krb_kdcd.specs.Commands.{asked, command_in, command_named, option_in, options_in, served, served_at, served_by_two, served_with};

/// What the arguments ask for.
#[derive(Clone, Copy, Debug, PartialEq, Eq)]
pub(crate) enum Command<'a> {
    /// The program serves a database.
    Serve(Served<'a>),
    /// The program prints how it is used.
    Help,
    /// The program prints its version.
    Version,
}

/// What is served, and how.
#[derive(Clone, Copy, Debug, PartialEq, Eq)]
pub(crate) struct Served<'a> {
    /// The path of the file of accounts.
    pub(crate) database: &'a str,
    /// The path of the file of random octets.
    pub(crate) words: &'a str,
    /// Whether each message has a line on standard error.
    pub(crate) is_logged: bool,
    /// Whether the random octets may be fixed ones of a regular file, as a test has them.
    pub(crate) may_be_fixed: bool,
    /// The text of the moment at which all messages are answered, if it isn't that of the clock.
    pub(crate) moment: Option<&'a str>,
}

/// Returns what the arguments ask for, or none if they are none that the program takes: `DATABASE WORDS [--log] [--fixed-words]
/// [--at MOMENT]`, `-h`, `--help` or `--version`. A path doesn't begin with `--`. Any text may stand for the moment.
pub(crate) fn command_of<'a>(arguments: &'a [String]) -> Option<Command<'a>>
    ensures { option_map asked result ≡ command_in (map string_bytes arguments.now) }
{
    match arguments {
        [word] => command_named(word),
        [database, words] => served_of(database, words, Options::NONE, None),
        [database, words, option] => served_with(database, words, option_of(option), None),
        [database, words, first, second] => served_by_two(database, words, first, second),
        [database, words, option, at, moment] => {
            served_at(database, words, option_of(option), at, moment)
        }
        [database, words, log, fixed, at, moment] => {
            served_at(database, words, options_of(log, fixed), at, moment)
        }
        _ => None,
    }
}

// What the options behind both paths say, but for the moment.
#[derive(Clone, Copy)]
struct Options {
    is_logged: bool,
    may_be_fixed: bool,
}

impl Options {
    // What is so without options.
    const NONE: Options = Options {
        is_logged: false,
        may_be_fixed: false,
    };
}

// Returns what one option says, if it is one.
fn option_of(option: &str) -> Option<Options>
    ensures { result ≡ option_in option.now }
{
    if option == "--log" {
        return Some(Options {
            is_logged: true,
            may_be_fixed: false,
        });
    }
    if option == "--fixed-words" {
        return Some(Options {
            is_logged: false,
            may_be_fixed: true,
        });
    }
    None
}

// Returns what both options say, if they are these in their order.
fn options_of(log: &str, fixed: &str) -> Option<Options>
    ensures { result ≡ options_in log.now fixed.now }
{
    if log == "--log" && fixed == "--fixed-words" {
        return Some(Options {
            is_logged: true,
            may_be_fixed: true,
        });
    }
    None
}

// Returns the command to serve these files with two words behind the paths: the moment, or both options.
fn served_by_two<'a>(
    database: &'a str,
    words: &'a str,
    first: &'a str,
    second: &'a str,
) -> Option<Command<'a>>
    ensures { option_map asked result ≡ served_by_two database.now words.now first.now second.now }
{
    if first == "--at" {
        return served_of(database, words, Options::NONE, Some(second));
    }
    served_with(database, words, options_of(first, second), None)
}

// Returns the command to serve these files with these options, if there are any, and with the moment behind the word for it.
fn served_at<'a>(
    database: &'a str,
    words: &'a str,
    options: Option<Options>,
    at: &'a str,
    moment: &'a str,
) -> Option<Command<'a>>
    ensures { option_map asked result ≡ served_at database.now words.now options at.now moment.now }
{
    if at == "--at" {
        return served_with(database, words, options, Some(moment));
    }
    None
}

// Returns the command to serve these files with these options, if there are any, perhaps at a moment.
fn served_with<'a>(
    database: &'a str,
    words: &'a str,
    options: Option<Options>,
    moment: Option<&'a str>,
) -> Option<Command<'a>>
    ensures { option_map asked result ≡ served_with database.now words.now options (option_copied moment.entry) }
{
    match options {
        Some(options) => served_of(database, words, options, moment),
        None => None,
    }
}

// Returns the command that is this one word, if it is one.
fn command_named<'a>(word: &str) -> Option<Command<'a>>
    ensures { option_map asked result ≡ command_named word.now }
{
    if word == "-h" || word == "--help" {
        return Some(Command::Help);
    }
    if word == "--version" {
        return Some(Command::Version);
    }
    None
}

// Returns the command to serve these files, if both words are paths.
fn served_of<'a>(
    database: &'a str,
    words: &'a str,
    options: Options,
    moment: Option<&'a str>,
) -> Option<Command<'a>>
    ensures { option_map asked result ≡ served database.now words.now options (option_copied moment.entry) }
{
    if database.as_bytes().starts_with(b"--") || words.as_bytes().starts_with(b"--") {
        return None;
    }
    Some(Command::Serve(Served {
        database,
        words,
        is_logged: options.is_logged,
        may_be_fixed: options.may_be_fixed,
        moment,
    }))
}
