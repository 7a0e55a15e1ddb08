//! Why the program stops before the end of its input.
ghost use Rattle.std.specs.Prelude.{◌≡◌};
ghost use Rattle.krb_kdcd.specs.Stops.{serving_text};

use krb_frames::ServeFault;
use krb_programs::ArgumentsFault;
use krb_realm_files::FileFault;
use std::alloc::AllocError;
use std::fmt;
use std::io::ErrorKind;

/// Why the program stops before the end of its input. It is displayed as one line: what can't be used, what is wrong with it, and what
/// was expected.
#[derive(Clone, Copy, Debug, PartialEq, Eq)]
pub(crate) enum Stop<'a> {
    /// The arguments are none that the program takes.
    Arguments,
    /// This text names no moment at which messages could be answered.
    Moment(&'a str),
    /// The file of accounts with this path can't be used, which was found before the first message.
    Database(&'a str, FileFault),
    /// The file of random octets with this path can't be opened.
    Words(&'a str, ErrorKind),
    /// The file of random octets with this path is a regular file, whose octets are the same at each start.
    FixedWords(&'a str),
    /// The file of random octets with this path begins with one octet that is repeated.
    RepeatedWords(&'a str),
    /// Memory ran out before the first message.
    Memory,
    /// Serving stopped, at this device.
    Serving(Device<'a>, ServeFault),
}

/// A device that is served with.
#[derive(Clone, Copy, Debug, PartialEq, Eq)]
pub(crate) enum Device<'a> {
    /// Standard input or standard output.
    Stream,
    /// The file of random octets with this path.
    Words(&'a str),
}

impl<'a> From<ArgumentsFault> for Stop<'a> {
    ghost use Rattle.krb_kdcd.specs.Stops.{stop_of_arguments};

    ghost from_gives = { λ fault stop. stop ≡ stop_of_arguments fault };

    fn from(fault: ArgumentsFault) -> Stop<'a> {
        match fault {
            ArgumentsFault::NotText => Stop::Arguments,
            ArgumentsFault::Memory => Stop::Memory,
        }
    }
}

impl<'a> From<AllocError> for Stop<'a> {
    ghost use Rattle.krb_kdcd.specs.declared.stop.Stop.TheVariants.{Memory};

    ghost from_gives = { λ _ stop. stop ≡ Memory };

    fn from(_fault: AllocError) -> Stop<'a> {
        Stop::Memory
    }
}

impl Stop<'_> {
    ghost use Rattle.krb_kdcd.specs.Stops.{status_of};

    /// Returns the program's status: 1 if nothing was served, 2 if serving stopped early.
    pub(crate) fn status(self) -> u8
        ensures { result ≡ status_of self.entry }
    {
        match self {
            Stop::Arguments
            | Stop::Moment(_)
            | Stop::Database(_, _)
            | Stop::Words(_, _)
            | Stop::FixedWords(_)
            | Stop::RepeatedWords(_)
            | Stop::Memory => 1,
            Stop::Serving(_, _) => 2,
        }
    }
}

impl<'a> fmt::Display for Stop<'a> {
    ghost use Rattle.krb_kdcd.specs.Stops.{stop_text};

    ghost output = { stop_text };

    fn fmt<W: fmt::Write>(&self, f: &mut fmt::Formatter<W>) -> fmt::Result {
        match self {
            Stop::Arguments => {
                f.write_str(
                    "arguments: expected DATABASE WORDS [--log] [--fixed-words] [--at MOMENT], --help or --version",
                )
            }
            Stop::Moment(text) => write!(
                f,
                "{text}: names no moment: expected a time (UTC), as 20261128040000Z"
            ),
            Stop::Database(path, fault) => write!(f, "{path}: {fault}"),
            Stop::Words(path, kind) => write!(
                f,
                "{path}: can't be opened: {kind}: expected a file of random octets, as /dev/urandom"
            ),
            Stop::FixedWords(path) => write!(
                f,
                "{path}: is a regular file: expected a device of random octets, as /dev/urandom, or --fixed-words for a test"
            ),
            Stop::RepeatedWords(path) => write!(
                f,
                "{path}: gives one octet again and again: expected random octets, as /dev/urandom"
            ),
            Stop::Memory => f.write_str("out of memory: expected room for the realm's record"),
            Stop::Serving(device, fault) => {
                let words = serving_text(*fault);
                write!(f, "{device}{words}")
            }
        }
    }
}

impl<'a> fmt::Display for Device<'a> {
    ghost use Rattle.std.specs.Prelude.{Some};
    ghost use Rattle.krb_kdcd.specs.Stops.{device_text};

    ghost output = { λ device. Some (device_text device) };

    fn fmt<W: fmt::Write>(&self, f: &mut fmt::Formatter<W>) -> fmt::Result {
        match self {
            Device::Stream => Ok(()),
            Device::Words(path) => write!(f, "{path}: "),
        }
    }
}

// What is wrong where serving stopped, and what was expected.
fn serving_text(fault: ServeFault) -> &'static str
    ensures { result.now ≡ serving_text fault }
{
    match fault {
        ServeFault::Truncated => {
            "standard input: ended within a frame: expected a message of the length before it"
        }
        ServeFault::FrameTooLong => {
            "standard input: a length over 65536: expected four octets, the highest first"
        }
        ServeFault::NoRequest => "standard input: no request: expected an AS or a TGS request",
        ServeFault::Read => "can't be read: expected a device that works",
        ServeFault::Write => "standard output: can't be written: expected a reader of replies",
        ServeFault::NoWords => "ended: expected 128 random octets for each message",
        ServeFault::NoMoment => "clock: can't be read: expected a time before the year 10000",
        ServeFault::ReplyTooLong => {
            "standard output: a reply of over 65536 octets: expected at most as many"
        }
        ServeFault::Memory => "out of memory: expected room for a message and its reply",
        ServeFault::Accounts => "accounts: no reply: expected a database that can be read",
    }
}
