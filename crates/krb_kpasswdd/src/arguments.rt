//! The arguments of the program.

use krb_account_texts::suite_named;
use krb_commands::{Given, Stop, given_of, usage};
use krb_crypto::CipherSuite;
use krb_time::Moment;
use std::alloc::Global;
use std::net::{IpAddr, Ipv4Addr};

/// The options that have a value.
const OPTIONS: [&str; 5] = ["--least", "--refused", "--suite", "--address", "--at"];

/// The least length of a password for which none is given.
const LEAST: usize = 8;

/// What the arguments ask for.
#[derive(Clone, Copy)]
pub(crate) struct Options<'a> {
    /// The path of the text of accounts.
    pub(crate) text: &'a str,
    /// The path of its database.
    pub(crate) database: &'a str,
    /// The path of the random octets.
    pub(crate) words: &'a str,
    /// The least length of a password.
    pub(crate) least: usize,
    /// The path of the words that are no passwords, if there is one.
    pub(crate) refused: Option<&'a str>,
    /// The suite of new keys.
    pub(crate) suite: CipherSuite,
    /// The service's address.
    pub(crate) address: IpAddr,
    /// The moment of all messages, if one is given.
    pub(crate) moment: Option<Moment>,
}

/// What these arguments ask for.
pub(crate) fn options_of(alloc: Global, arguments: &[String]) -> Result<Options<'_>, Stop> {
    let given = given_of(alloc, &OPTIONS, arguments)?;
    let [text, database, words] = given.words() else {
        return Err(usage(
            alloc,
            "expected TEXT DATABASE WORDS: expected one of --help",
        ));
    };
    Ok(Options {
        text,
        database,
        words,
        least: least_of(alloc, &given)?,
        refused: given.value(alloc, "--refused")?,
        suite: suite_of(alloc, &given)?,
        address: address_of(alloc, &given)?,
        moment: given.moment(alloc, "--at")?,
    })
}

// The least length that is given.
fn least_of(alloc: Global, given: &Given<'_>) -> Result<usize, Stop> {
    let Some(value) = given.value(alloc, "--least")? else {
        return Ok(LEAST);
    };
    match value.parse::<usize>() {
        Ok(least) => Ok(least),
        Err(_) => Err(usage(alloc, "--least: expected a number of octets")),
    }
}

// The suite that is given.
fn suite_of(alloc: Global, given: &Given<'_>) -> Result<CipherSuite, Stop> {
    let Some(value) = given.value(alloc, "--suite")? else {
        return Ok(CipherSuite::Aes256CtsHmacSha196);
    };
    match suite_named(value) {
        Some(suite) => Ok(suite),
        None => Err(usage(
            alloc,
            "--suite: expected the name of a suite, as aes256-cts-hmac-sha1-96",
        )),
    }
}

// The address that is given, or that of no host.
fn address_of(alloc: Global, given: &Given<'_>) -> Result<IpAddr, Stop> {
    let Some(value) = given.value(alloc, "--address")? else {
        return Ok(IpAddr::V4(Ipv4Addr::new(0, 0, 0, 0)));
    };
    match value.parse::<IpAddr>() {
        Ok(address) => Ok(address),
        Err(_) => Err(usage(
            alloc,
            "--address: expected an address, as 192.0.2.1 or 2001:db8::1",
        )),
    }
}
