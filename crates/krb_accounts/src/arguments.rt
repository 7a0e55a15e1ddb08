//! The arguments of the program.

use krb_account_texts::{LineFault, read_name, suite_named};
use krb_commands::{Stop, failed, refused};
use krb_crypto::CipherSuite;
use krb_messages::data_types::PrincipalName;
use std::alloc::Global;

/// Where a key comes from.
#[derive(Clone, Copy, PartialEq, Eq)]
pub(crate) enum KeySource {
    /// A password, which is the line of standard input. It's that of `create` and of an account without `-k`.
    Password,
    /// `-k`: the key's hexadecimal digits are the line of standard input.
    Digits,
    /// `-k random`: the system's random octets.
    Random,
}

/// The options of `create`, `add` and `key`.
#[derive(Clone, Copy)]
pub(crate) struct Options {
    /// The suite of the key, if one was given.
    pub(crate) suite: Option<CipherSuite>,
    /// Where the key comes from.
    pub(crate) source: KeySource,
    /// `--keep`: the keys before stay.
    pub(crate) keeps: bool,
}

// What the last argument was, which says what the next one may be.
#[derive(Clone, Copy, PartialEq, Eq)]
enum Last {
    Suite,
    Key,
    Other,
}

/// The options, and the arguments after them. The word `random` behind `-k` is no other argument.
pub(crate) fn options_of(alloc: Global, words: &[String]) -> Result<(Options, &[String]), Stop> {
    let mut options = Options {
        suite: None,
        source: KeySource::Password,
        keeps: false,
    };
    let mut last = Last::Other;
    for (index, word) in words.iter().enumerate() {
        match put_option(alloc, &mut options, last, word.as_str())? {
            Some(next) => last = next,
            None => return Ok((options, &words[index..])),
        }
    }
    Ok((options, &[]))
}

// Puts an argument among the options, if it is one.
fn put_option(
    alloc: Global,
    options: &mut Options,
    last: Last,
    word: &str,
) -> Result<Option<Last>, Stop> {
    if last == Last::Suite {
        options.suite = Some(suite_of(alloc, word)?);
        return Ok(Some(Last::Other));
    }
    if last == Last::Key && word == "random" {
        options.source = KeySource::Random;
        return Ok(Some(Last::Other));
    }
    match word {
        "-e" => Ok(Some(Last::Suite)),
        "--keep" => {
            options.keeps = true;
            Ok(Some(Last::Other))
        }
        "-k" => {
            options.source = KeySource::Digits;
            Ok(Some(Last::Key))
        }
        _ => Ok(None),
    }
}

fn suite_of(alloc: Global, word: &str) -> Result<CipherSuite, Stop> {
    match suite_named(word) {
        Some(suite) => Ok(suite),
        None => Err(failed(
            alloc,
            "-e: expected aes128-cts-hmac-sha1-96, aes256-cts-hmac-sha1-96, des3-cbc-sha1-kd, aes128-cts-hmac-sha256-128 or aes256-cts-hmac-sha384-192",
        )),
    }
}

/// The failure of a command with other arguments.
pub(crate) fn expected(alloc: Global, arguments: &str) -> Stop {
    failed(alloc, format_args!("expected: krb_accounts {arguments}"))
}

/// The name that an argument writes.
pub(crate) fn name_of(alloc: Global, argument: &str) -> Result<PrincipalName, Stop> {
    match read_name(alloc, argument) {
        Ok(name) => Ok(name),
        Err(LineFault::Memory) => Err(Stop::Memory),
        Err(_) => Err(refused(
            alloc,
            format_args!(
                "{argument}: expected a name of 1 to 16 components of 1 to 255 ASCII characters, with / between each two, and no realm"
            ),
        )),
    }
}
