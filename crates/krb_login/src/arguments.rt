//! The arguments of a login.

use crate::environment::{default_cache, default_realm};
use crate::held::{Held, held_in};
use krb_account_texts::suite_named;
use krb_client::{AskRefusal, Client, Credential};
use krb_client_exchanges::Wanted;
use krb_commands::{Given, Stop, given_of, is_word, principal_in, usage};
use krb_crypto::CipherSuite;
use krb_messages::PrincipalText;
use krb_realm_accounts::{LIFETIME_LIMIT, USUAL_LIFETIME, are_components};
use krb_time::Moment;
use picky_asn1_der::both;
use std::alloc::Global;

/// The options that have a value.
const OPTIONS: [&str; 12] = [
    "-k", "-p", "-C", "-K", "-A", "-c", "-e", "-s", "-l", "-L", "-r", "-t",
];

/// The options that have none.
const VERBOSE: &str = "-v";

const FORWARDABLE: &str = "-f";

const PROXIABLE: &str = "-P";

const RENEWAL: &str = "-R";

/// The random octets, if no file is given.
const WORDS: &str = "/dev/urandom";

/// What a renewal has none of.
const NOT_RENEWED: [&str; 6] = ["-k", "-p", "-C", "-K", "-A", "-L"];

/// What a renewal is called, which names no user.
const RENEWED: &str = "the ticket-granting ticket";

/// What the arguments have to name.
pub(crate) const ONE_MEANS: &str =
    "expected one of: -k KEYTAB; -p FILE; -C CERTIFICATE with -K KEY and -A ANCHOR";

/// How the client authenticates itself.
#[derive(Clone, Copy)]
pub(crate) enum Means<'a> {
    /// A key that it shares with the KDC.
    Key(KeyFile<'a>),
    /// A certificate (RFC 4556).
    Certificate(CertificateFiles<'a>),
}

/// What the client has its key of: a keytab, or the password in a file.
#[derive(Clone, Copy)]
pub(crate) enum KeyFile<'a> {
    Keytab(&'a str),
    Password(&'a str),
}

/// The files of a login by certificate.
#[derive(Clone, Copy)]
pub(crate) struct CertificateFiles<'a> {
    /// The path of the client's certificate.
    pub(crate) certificate: &'a str,
    /// The path of its private key.
    pub(crate) key: &'a str,
    /// The path of the certificate of the authority that the client trusts.
    pub(crate) anchor: &'a str,
}

/// A login, as the arguments say it.
#[derive(Drop)]
pub(crate) struct Login<'a> {
    pub(crate) user: User<'a>,
    /// The services, in their order.
    pub(crate) services: Vec<Service<'a>>,
    /// The path of the cache.
    pub(crate) cache: String,
    /// The suites that the user named, or none.
    chosen: Vec<CipherSuite>,
    /// The paths of the files that it reads.
    pub(crate) read: [&'a str; 4],
    pub(crate) settings: Settings<'a>,
}

impl Login<'_> {
    /// The suites that the client takes.
    pub(crate) fn wanted(&self) -> Wanted<'_> {
        if self.chosen.is_empty() {
            Wanted::Usual
        } else {
            Wanted::Chosen(self.chosen.as_slice())
        }
    }
}

/// The client, with the argument that names it. Its suite doesn't count.
#[derive(Drop)]
pub(crate) struct User<'a> {
    pub(crate) argument: &'a str,
    pub(crate) client: Client,
}

/// A service, with the argument that names it, and the components of its name.
#[derive(Drop)]
pub(crate) struct Service<'a> {
    pub(crate) argument: &'a str,
    pub(crate) components: Vec<Vec<u8>>,
}

/// The values of the options but `-c`, `-e` and `-s`.
#[derive(Clone, Copy)]
pub(crate) struct Settings<'a> {
    /// The lifetime that is requested for tickets, in seconds.
    pub(crate) lifetime: u64,
    /// For how many seconds the ticket-granting ticket is to be renewable, if it is to be.
    pub(crate) renew_life: Option<u64>,
    /// The path of the random octets.
    pub(crate) words: &'a str,
    /// The moment of each request, if it isn't the clock's.
    pub(crate) moment: Option<Moment>,
    /// The options that have no value.
    pub(crate) flags: Flags,
}

/// Which of the options that have no value are given.
#[derive(Clone, Copy)]
pub(crate) struct Flags {
    /// `-v`: it says what it asks and what the KDC answers.
    pub(crate) is_verbose: bool,
    /// `-f`: the ticket-granting ticket is to be forwardable.
    pub(crate) is_forwardable: bool,
    /// `-P`: it is to be proxiable.
    pub(crate) is_proxiable: bool,
    /// `-R`: the ticket-granting ticket of the cache is to be renewed.
    pub(crate) is_renewal: bool,
}

impl Flags {
    // None of them.
    fn none() -> Flags {
        Flags {
            is_verbose: false,
            is_forwardable: false,
            is_proxiable: false,
            is_renewal: false,
        }
    }

    // These with the one that an argument is, if it is one.
    fn with(self, argument: &String) -> Option<Flags> {
        let mut flags = self;
        if is_word(argument, VERBOSE) {
            flags.is_verbose = true;
        } else if is_word(argument, FORWARDABLE) {
            flags.is_forwardable = true;
        } else if is_word(argument, PROXIABLE) {
            flags.is_proxiable = true;
        } else if is_word(argument, RENEWAL) {
            flags.is_renewal = true;
        } else {
            return None;
        }
        Some(flags)
    }
}

/// Arguments without the options that have no value, and which of these were among them.
#[derive(Drop)]
pub(crate) struct Arguments {
    pub(crate) words: Vec<String>,
    pub(crate) flags: Flags,
}

/// Takes the options that have no value out of arguments. The value of another option isn't one.
pub(crate) fn without_flags(alloc: Global, arguments: Vec<String>) -> Result<Arguments, Stop> {
    let mut words = Vec::new(alloc);
    let mut flags = Flags::none();
    let mut is_value = false;
    for argument in arguments {
        let more = if is_value {
            None
        } else {
            flags.with(&argument)
        };
        is_value = !is_value && takes_value(&argument);
        match more {
            Some(more) => flags = more,
            None => words.push(argument)?,
        }
    }
    Ok(Arguments { words, flags })
}

// Whether an argument is an option that has a value.
fn takes_value(argument: &String) -> bool {
    OPTIONS.iter().any(|option| is_word(argument, option))
}

/// The login of these arguments, and of the environment where they leave something out, and how the client authenticates itself.
pub(crate) fn login_of<'a>(
    rt: &HostRuntime,
    arguments: &'a Arguments,
) -> Result<(Login<'a>, Means<'a>), Stop> {
    let alloc = rt.alloc();
    let given = given_of(alloc, &OPTIONS, arguments.words.as_slice())?;
    let settings = settings_of(alloc, &given, arguments.flags);
    let asked = both(means_of(alloc, &given), settings);
    let files = both(cache_of(rt, &given), chosen_of(alloc, &given));
    let (((means, settings), files), user) = both(both(asked, files), user_of(rt, &given))?;
    let services = services_of(alloc, &user.client, &given);
    let ((user, (cache, chosen)), services) = both(Ok((user, files)), services)?;
    let read = files_read(means, settings.words);
    let login = Login {
        user,
        services,
        cache,
        chosen,
        read,
        settings,
    };
    Ok((login, means))
}

/// The renewal of these arguments: a login of the cache's user, and the credential that is renewed.
pub(crate) fn renewal_of<'a>(
    rt: &HostRuntime,
    arguments: &'a Arguments,
) -> Result<(Login<'a>, Credential), Stop> {
    let alloc = rt.alloc();
    let given = given_of(alloc, &OPTIONS, arguments.words.as_slice())?;
    is_renewal(alloc, &given, arguments.flags)?;
    let settings = settings_of(alloc, &given, arguments.flags);
    let files = both(cache_of(rt, &given), chosen_of(alloc, &given));
    let (settings, (cache, chosen)) = both(settings, files)?;
    let Held { client, credential } = held_in(rt, cache.as_str())?;
    let services = services_of(alloc, &client, &given);
    let ((client, credential), services) = both(Ok((client, credential)), services)?;
    let words = settings.words;
    let login = Login {
        user: User {
            argument: RENEWED,
            client,
        },
        services,
        cache,
        chosen,
        read: [words; 4],
        settings,
    };
    Ok((login, credential))
}

// Whether nothing is given that a renewal can't have: it has the user and the flags of the cache's ticket.
fn is_renewal(alloc: Global, given: &Given<'_>, flags: Flags) -> Result<(), Stop> {
    let mut is_other = flags.is_forwardable || flags.is_proxiable || !given.words().is_empty();
    for option in NOT_RENEWED {
        is_other = is_other || !given.values(alloc, option)?.is_empty();
    }
    if is_other {
        return Err(usage(
            alloc,
            "-R: expected no USER, MEANS, -f, -P or -L: they are those of the cache's ticket",
        ));
    }
    Ok(())
}

// The paths of the files that a login reads.
fn files_read<'a>(means: Means<'a>, words: &'a str) -> [&'a str; 4] {
    match means {
        Means::Key(KeyFile::Keytab(path) | KeyFile::Password(path)) => [path, path, path, words],
        Means::Certificate(files) => [files.certificate, files.key, files.anchor, words],
    }
}

fn settings_of<'a>(alloc: Global, given: &Given<'a>, flags: Flags) -> Result<Settings<'a>, Stop> {
    let words = both(given.value(alloc, "-r"), given.moment(alloc, "-t"));
    let lives = both(
        seconds_in(alloc, given, "-l"),
        seconds_in(alloc, given, "-L"),
    );
    let numbers = both(lives, words);
    let ((lifetime, renew_life), (words, moment)) = numbers?;
    Ok(Settings {
        lifetime: lifetime.unwrap_or(USUAL_LIFETIME),
        renew_life,
        words: words.unwrap_or(WORDS),
        moment,
        flags,
    })
}

// The path of the cache: the one that is given, or that of the environment.
fn cache_of(rt: &HostRuntime, given: &Given<'_>) -> Result<String, Stop> {
    match given.value(rt.alloc(), "-c")? {
        Some(cache) => named_cache(rt.alloc(), "-c", cache),
        None => default_cache(rt),
    }
}

/// The path of a cache that an option or a variable names. Caches of other kinds than files are refused.
pub(crate) fn named_cache(alloc: Global, place: &str, cache: &str) -> Result<String, Stop> {
    match cache_path(cache) {
        Some(path) if !path.is_empty() => Ok(String::from_str(alloc, path)?),
        _ => Err(usage(
            alloc,
            format_args!("{place}: {cache:?} is no file: expected a path or FILE:PATH"),
        )),
    }
}

// The path of a cache, which may have its type in front, if that is a file.
fn cache_path(word: &str) -> Option<&str> {
    if word.starts_with('/') {
        return Some(word);
    }
    match word.strip_prefix("FILE:") {
        Some(path) => Some(path),
        None if word.contains(':') => None,
        None => Some(word),
    }
}

// The suites that the user names, in their order.
fn chosen_of(alloc: Global, given: &Given<'_>) -> Result<Vec<CipherSuite>, Stop> {
    let mut chosen = Vec::new(alloc);
    for name in given.values(alloc, "-e")? {
        let Some(suite) = suite_named(name) else {
            return Err(usage(
                alloc,
                format_args!("-e: {name:?} is no suite: expected one, as aes256-cts-hmac-sha1-96"),
            ));
        };
        chosen.push(suite)?;
    }
    Ok(chosen)
}

fn means_of<'a>(alloc: Global, given: &Given<'a>) -> Result<Means<'a>, Stop> {
    let key = key_file_of(alloc, given);
    match both(key, certificate_files_of(alloc, given))? {
        (Some(file), None) => Ok(Means::Key(file)),
        (None, Some(files)) => Ok(Means::Certificate(files)),
        _ => Err(usage(alloc, ONE_MEANS)),
    }
}

// The file of the client's key, if it is given.
fn key_file_of<'a>(alloc: Global, given: &Given<'a>) -> Result<Option<KeyFile<'a>>, Stop> {
    match both(given.value(alloc, "-k"), given.value(alloc, "-p"))? {
        (None, None) => Ok(None),
        (Some(path), None) => Ok(Some(KeyFile::Keytab(path_of(path)))),
        (None, Some("-")) => Err(usage(
            alloc,
            "-p: standard input is the KDC's: expected a file, as /dev/fd/3",
        )),
        (None, Some(path)) => Ok(Some(KeyFile::Password(path))),
        _ => Err(usage(alloc, ONE_MEANS)),
    }
}

// The files of a login by certificate, if they are given: all three, or none.
fn certificate_files_of<'a>(
    alloc: Global,
    given: &Given<'a>,
) -> Result<Option<CertificateFiles<'a>>, Stop> {
    let key_and_anchor = both(given.value(alloc, "-K"), given.value(alloc, "-A"));
    match both(given.value(alloc, "-C"), key_and_anchor)? {
        (None, (None, None)) => Ok(None),
        (Some(certificate), (Some(key), Some(anchor))) => Ok(Some(CertificateFiles {
            certificate,
            key,
            anchor,
        })),
        _ => Err(usage(
            alloc,
            "-C CERTIFICATE, -K KEY and -A ANCHOR go together: expected all three",
        )),
    }
}

// The path of a keytab or a cache, which may have its type in front.
fn path_of(word: &str) -> &str {
    word.strip_prefix("FILE:").unwrap_or(word)
}

// The seconds that an option has as its value, if it is given.
fn seconds_in(alloc: Global, given: &Given<'_>, option: &str) -> Result<Option<u64>, Stop> {
    let Some(word) = given.value(alloc, option)? else {
        return Ok(None);
    };
    match word.parse::<u64>() {
        Ok(seconds) if 0 < seconds && seconds <= LIFETIME_LIMIT => Ok(Some(seconds)),
        _ => Err(usage(
            alloc,
            format_args!("{option}: expected a whole number of seconds from 1 to 31536000"),
        )),
    }
}

fn user_of<'a>(rt: &HostRuntime, given: &Given<'a>) -> Result<User<'a>, Stop> {
    let [argument] = given.words() else {
        return Err(usage(rt.alloc(), "expected: one USER@REALM"));
    };
    let PrincipalText { components, realm } = principal_in(rt.alloc(), *argument)?;
    match realm {
        Some(realm) => user_in(rt.alloc(), *argument, &components, &realm),
        None => {
            let realm = default_realm(rt, *argument)?;
            user_in(rt.alloc(), *argument, &components, realm.as_bytes())
        }
    }
}

// The user of this name in a realm.
fn user_in<'a>(
    alloc: Global,
    argument: &'a str,
    components: &[Vec<u8>],
    realm: &[u8],
) -> Result<User<'a>, Stop> {
    match Client::new(alloc, realm, components, CipherSuite::Aes256CtsHmacSha196) {
        Ok(client) => Ok(User { argument, client }),
        Err(AskRefusal::Memory) => Err(Stop::Memory),
        Err(_) => Err(usage(alloc, format_args!("{argument}: expected USER@REALM"))),
    }
}

fn services_of<'a>(
    alloc: Global,
    client: &Client,
    given: &Given<'a>,
) -> Result<Vec<Service<'a>>, Stop> {
    let mut services = Vec::new(alloc);
    for argument in given.values(alloc, "-s")? {
        services.push(service_of(alloc, client, argument)?)?;
    }
    Ok(services)
}

// A service of the client's realm.
fn service_of<'a>(alloc: Global, client: &Client, argument: &'a str) -> Result<Service<'a>, Stop> {
    let PrincipalText { components, realm } = principal_in(alloc, argument)?;
    let has_realm = match &realm {
        Some(realm) => realm.as_slice() == client.realm().as_bytes(),
        None => true,
    };
    if !has_realm || !are_components(&components) {
        return Err(usage(
            alloc,
            format_args!(
                "{argument}: expected a service of the user's realm, as HTTP/server.example.com"
            ),
        ));
    }
    Ok(Service {
        argument,
        components,
    })
}
