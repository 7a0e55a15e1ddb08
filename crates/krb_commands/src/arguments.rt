//! The arguments of a program.
ghost use Rattle.std.specs.Prelude.{◌≡◌, ◌∷◌, ◌⊎◌, List, None, Some, Ok, IfOk, IfErr, IsErr, codes, map, nat_eq, string_bytes};
ghost use Rattle.std.specs.Option.{option_copied};
ghost use Rattle.std.specs.Cmp.Lexicographic.{pointwise};
ghost use Rattle.krb_messages.specs.NameReading.{octets, option_octets, principal_in};
ghost use Rattle.krb_commands.specs.Arguments.{IsGivenMoment, IsNoMoment, IsStopOf, Text, is_among, only_value, parts_after, parts_of, texts, values_of};
ghost use Rattle.krb_commands.specs.Given.{parts};
ghost use Rattle.krb_commands.specs.Stops.{IsUsage};

use crate::stop::{Stop, usage};
use krb_messages::{NameTextFault, PrincipalText, principal_of_text};
use krb_programs::{ArgumentsFault, read_arguments};
use krb_time::Moment;
use std::alloc::{AllocError, Global};

/// The arguments after the program's name. One that is no text is refused.
pub fn arguments_of(rt: &HostRuntime) -> Result<Vec<String>, Stop> {
    match read_arguments(rt) {
        Ok(arguments) => Ok(arguments),
        Err(fault) => Err(unread(rt.alloc(), fault)),
    }
}

// The stop of arguments that aren't read.
fn unread(alloc: Global, fault: ArgumentsFault) -> Stop
    ensures memory { fault ≡ ArgumentsFault.Memory → result ≡ Stop.Memory }
    ensures text { IsUsage (Some (codes "the arguments can't be read: expected text")) result }
{
    match fault {
        ArgumentsFault::Memory => Stop::Memory,
        ArgumentsFault::NotText => usage(alloc, "the arguments can't be read: expected text"),
    }
}

/// Whether an argument is this word.
pub fn is_word(argument: &String, word: &str) -> bool
    ensures { result ≡ pointwise nat_eq (string_bytes argument.now) word.now }
{
    argument.as_str() == word
}

/// The arguments of a command: options with their values, and the words beside them.
#[derive(Drop)]
pub struct Given<'a> {
    options: Vec<(&'a str, &'a str)>,
    words: Vec<&'a str>,
}

/// Takes arguments apart. Each of the options has the argument after it as its value. Another argument that begins with `-` is refused, and
/// so is an option at the end.
pub fn given_of<'a>(
    alloc: Global,
    options: &[&str],
    arguments: &'a [String],
) -> Result<Given<'a>, Stop>
    ensures ok { IfOk result (λ given. parts_of (texts options.now) (map string_bytes arguments.now) ≡ Ok (parts given)) }
    ensures err { IfErr result (IsStopOf (parts_of (texts options.now) (map string_bytes arguments.now))) }
{
    let mut given = Given {
        options: Vec::new(alloc),
        words: Vec::new(alloc),
    };
    let mut option = None;
    for argument in arguments {
        option = put_argument(alloc, options, &mut given, option, argument.as_str())?;
    }
    match option {
        Some(name) => Err(usage(alloc, format_args!("{name}: expected its value after it"))),
        None => Ok(given),
    }
}

// Puts an argument at its place. Returns the option of which the next one is the value, if this one is an option.
fn put_argument<'a>(
    alloc: Global,
    options: &[&str],
    given: &mut Given<'a>,
    option: Option<&'a str>,
    argument: &'a str,
) -> Result<Option<&'a str>, Stop>
    ensures ok { IfOk result (λ next. (arguments : List Text) → parts_after (texts options.now) (parts given.old) (option_copied option.entry) (argument.now ∷ arguments)
        ≡ parts_after (texts options.now) (parts given.new) (option_copied next) arguments) }
    ensures err { IfErr result (λ stop. (arguments : List Text)
        → IsStopOf (parts_after (texts options.now) (parts given.old) (option_copied option.entry) (argument.now ∷ arguments)) stop) }
{
    if let Some(name) = option {
        given.options.push((name, argument))?;
        return Ok(None);
    }
    if is_among(options, argument) {
        return Ok(Some(argument));
    }
    if argument.as_bytes().first() == Some(&b'-') {
        return Err(usage(
            alloc,
            format_args!("{argument}: no such option: expected one of --help"),
        ));
    }
    given.words.push(argument)?;
    Ok(None)
}

// Whether an argument is one of the options.
fn is_among(options: &[&str], argument: &str) -> bool
    ensures { result ≡ is_among (texts options.now) argument.now }
{
    options.iter().any(|name| *name == argument)
}

impl<'a> Given<'a> {
    /// The words that are no option and no value, in their order.
    pub fn words(&self) -> &[&'a str]
        ensures { texts result.now ≡ (parts self.now).words }
    {
        self.words.as_slice()
    }

    /// The value of an option, if it is given. One that is given twice is refused.
    pub fn value(&self, alloc: Global, option: &str) -> Result<Option<&'a str>, Stop>
        ensures ok { IfOk result (λ value. only_value option.now (values_of (parts self.now).options option.now) ≡ Ok (option_copied value)) }
        ensures err { IfErr result (IsStopOf (only_value option.now (values_of (parts self.now).options option.now))) }
    {
        let values = self.values(alloc, option)?;
        match values.as_slice() {
            [] => Ok(None),
            [value] => Ok(Some(*value)),
            _ => Err(usage(alloc, format_args!("{option}: expected it once"))),
        }
    }

    /// The moment that an option's value names (UTC, as 20261128040000Z), if it is given. A value that names none is refused, and so is
    /// an option that is given twice.
    pub fn moment(&self, alloc: Global, option: &str) -> Result<Option<Moment>, Stop>
        ensures ok { IfOk result (IsGivenMoment (only_value option.now (values_of (parts self.now).options option.now))) }
        ensures err { IfErr result (IsNoMoment option.now (only_value option.now (values_of (parts self.now).options option.now))) }
    {
        let Some(value) = self.value(alloc, option)? else {
            return Ok(None);
        };
        match Moment::from_text(value.as_bytes()) {
            Some(moment) => Ok(Some(moment)),
            None => Err(usage(
                alloc,
                format_args!("{option}: expected a time (UTC), as 20261128040000Z"),
            )),
        }
    }

    /// The values of an option, in their order.
    pub fn values(&self, alloc: Global, option: &str) -> Result<Vec<&'a str>, AllocError>
        ensures { IfOk result (λ values. texts values.items ≡ values_of (parts self.now).options option.now) }
    {
        let mut values = Vec::new(alloc);
        for (name, value) in &self.options {
            if *name == option {
                values.push(*value)?;
            }
        }
        Ok(values)
    }
}

/// The principal that an argument names, with its realm where it has one (RFC 1964, section 2.1.1).
pub fn principal_in(alloc: Global, argument: &str) -> Result<PrincipalText, Stop>
    ensures ok { IfOk result (λ name. principal_in argument.now ≡ Ok (octets name.components.items, option_octets name.realm)) }
    ensures err { IfErr result (λ stop. (stop ≡ Stop.Memory) ⊎ (IsUsage None stop × IsErr (principal_in argument.now))) }
{
    match principal_of_text(alloc, argument) {
        Ok(name) => Ok(name),
        Err(fault) => Err(unnamed(alloc, argument, fault)),
    }
}

// Why an argument names no principal.
fn unnamed(alloc: Global, argument: &str, fault: NameTextFault) -> Stop
    ensures memory { fault ≡ NameTextFault.Memory → result ≡ Stop.Memory }
    ensures usage { IsUsage None result }
{
    match fault {
        NameTextFault::Memory => Stop::Memory,
        _ => usage(alloc, format_args!("{argument}: {fault}")),
    }
}
