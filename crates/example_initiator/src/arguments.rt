//! The arguments of a login at a service.

use crate::service_name::{ServiceName, service_name_of};
use gss_contexts::Protection;
use gss_initiator::{NO_BINDINGS, TokenForm, bindings_of};
use krb_commands::{Given, Stop, given_of, usage};
use krb_time::Moment;
use picky_asn1_der::both;
use std::alloc::Global;

/// The options.
const OPTIONS: [&str; 8] = ["-c", "-f", "-m", "-p", "-b", "-d", "-r", "-t"];

/// The random octets, if no file is given.
const WORDS: &str = "/dev/urandom";

/// Where the tokens go.
#[derive(Clone, Copy)]
pub(crate) enum Manner {
    /// To a service of the sample protocol.
    Talk,
    /// To a web server, by whoever calls the program.
    Negotiate,
}

/// What the arguments ask for.
#[derive(Drop)]
pub(crate) struct Asked<'a> {
    pub(crate) manner: Manner,
    pub(crate) service: ServiceName<'a>,
    /// The messages, in their order.
    pub(crate) messages: Vec<&'a str>,
    pub(crate) settings: Settings<'a>,
}

/// The values of the options.
#[derive(Clone, Copy)]
pub(crate) struct Settings<'a> {
    /// The path of the cache.
    pub(crate) cache: &'a str,
    pub(crate) choice: Choice,
    /// Whether the cache's forwarded ticket-granting ticket is delegated.
    pub(crate) delegates: bool,
    /// The path of the random octets.
    pub(crate) words: &'a str,
    /// The moment of the request, if it isn't the clock's.
    pub(crate) moment: Option<Moment>,
}

/// What is chosen for the context and its messages.
#[derive(Clone, Copy)]
pub(crate) struct Choice {
    pub(crate) form: TokenForm,
    /// Whether the service has to authenticate itself.
    pub(crate) is_mutual: bool,
    /// How messages are wrapped, if they are.
    pub(crate) protection: Option<Protection>,
    /// The hash of the channel bindings.
    pub(crate) bindings: [u8; 16],
}

/// The words beside the options.
#[derive(Drop)]
struct Words<'a> {
    manner: Manner,
    service: &'a str,
    messages: Vec<&'a str>,
}

/// What these arguments ask for.
pub(crate) fn asked_of<'a>(alloc: Global, arguments: &'a [String]) -> Result<Asked<'a>, Stop> {
    let given = given_of(alloc, &OPTIONS, arguments)?;
    let settings = settings_of(alloc, &given)?;
    let words = words_of(alloc, given.words())?;
    let service = service_name_of(alloc, words.service)?;
    Ok(Asked {
        manner: words.manner,
        service,
        messages: words.messages,
        settings,
    })
}

fn words_of<'a>(alloc: Global, words: &[&'a str]) -> Result<Words<'a>, Stop> {
    match words {
        ["talk", service, messages @ ..] => Ok(Words {
            manner: Manner::Talk,
            service: *service,
            messages: Vec::from_slice(alloc, messages)?,
        }),
        ["negotiate", service] => Ok(Words {
            manner: Manner::Negotiate,
            service: *service,
            messages: Vec::new(alloc),
        }),
        _ => Err(usage(
            alloc,
            "expected: talk SERVICE and messages, or negotiate SERVICE: see --help",
        )),
    }
}

fn settings_of<'a>(alloc: Global, given: &Given<'a>) -> Result<Settings<'a>, Stop> {
    let first = both(cache_of(alloc, given), choice_of(alloc, given));
    let last = both(given.value(alloc, "-r"), given.moment(alloc, "-t"));
    let last = both(answer_of(alloc, given, "-d", false), last);
    let ((cache, choice), (delegates, (words, moment))) = both(first, last)?;
    Ok(Settings {
        cache,
        choice,
        delegates,
        words: words.unwrap_or(WORDS),
        moment,
    })
}

// The path of the cache, which may have its type in front.
fn cache_of<'a>(alloc: Global, given: &Given<'a>) -> Result<&'a str, Stop> {
    match given.value(alloc, "-c")? {
        Some(cache) => Ok(cache.strip_prefix("FILE:").unwrap_or(cache)),
        None => Err(usage(alloc, "expected: -c CACHE")),
    }
}

fn choice_of(alloc: Global, given: &Given<'_>) -> Result<Choice, Stop> {
    let first = both(form_of(alloc, given), answer_of(alloc, given, "-m", true));
    let last = both(protection_of(alloc, given), hash_of(alloc, given));
    let ((form, is_mutual), (protection, bindings)) = both(first, last)?;
    Ok(Choice {
        form,
        is_mutual,
        protection,
        bindings,
    })
}

fn form_of(alloc: Global, given: &Given<'_>) -> Result<TokenForm, Stop> {
    match given.value(alloc, "-f")? {
        None | Some("kerberos") => Ok(TokenForm::Bare),
        Some("spnego") => Ok(TokenForm::Negotiated),
        Some(_) => Err(usage(alloc, "-f: expected kerberos or spnego")),
    }
}

// Whether the answer of an option is yes.
fn answer_of(
    alloc: Global,
    given: &Given<'_>,
    option: &str,
    otherwise: bool,
) -> Result<bool, Stop> {
    match given.value(alloc, option)? {
        None => Ok(otherwise),
        Some("yes") => Ok(true),
        Some("no") => Ok(false),
        Some(_) => Err(usage(alloc, format_args!("{option}: expected yes or no"))),
    }
}

fn protection_of(alloc: Global, given: &Given<'_>) -> Result<Option<Protection>, Stop> {
    match given.value(alloc, "-p")? {
        None | Some("sealed") => Ok(Some(Protection::Sealed)),
        Some("checksum") => Ok(Some(Protection::Checksum)),
        Some("bare") => Ok(None),
        Some(_) => Err(usage(alloc, "-p: expected sealed, checksum or bare")),
    }
}

// The hash of the channel bindings of the given application data.
fn hash_of(alloc: Global, given: &Given<'_>) -> Result<[u8; 16], Stop> {
    let Some(data) = given.value(alloc, "-b")? else {
        return Ok(NO_BINDINGS);
    };
    match bindings_of(data.as_bytes()) {
        Some(hash) => Ok(hash),
        None => Err(usage(alloc, "-b: expected fewer than 4294967296 octets")),
    }
}
