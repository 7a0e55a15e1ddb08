//! What stock KDCs answer to AS requests without padata, and damaged copies. The requests that a client sends, and the suite, the salt and
//! the key that it makes of the answers, are compared with those of an independent encoder and of the KDCs' own tools. `data/hints.py`
//! says what the rows are.

ghost use Rattle.std.specs.Prelude.{◌≡◌, length};

mod texts;

use anyhow::{Context, bail};
use krb_client::{AsAsked, AskRefusal, ByKey, Client, Credential, TicketOptions, TicketRequest};
use krb_client_exchanges::{
    HintedClientRefusal, KeyHint, USUAL_SUITES, Wanted, client_by_hint, first_request_with,
    key_hint, key_hint_of_reply, suite_of_reply, taken_of_suites,
};
use krb_crypto::CipherSuite;
use krb_time::Moment;
use picky_asn1::date::GeneralizedTime;
use std::alloc::Global;
use test_support::rows::replay;
use test_support::{Row, Rows};
use texts::{granted_text, key_text, refused};

/// The nonce of each request, among its random bytes.
const NONCE: [u8; 4] = [16, 17, 18, 19];

/// The word for suites that the user didn't name.
const USUAL: &str = "usual";

#[derive(Clone, Copy)]
struct Hints;

/// A row: its kind, what the client goes by, and the octets that it takes or sends.
#[derive(Drop)]
struct Hinted<'a> {
    kind: &'a str,
    /// What an AS request asks of its ticket besides its end.
    options: TicketOptions,
    /// The suites that the client lists.
    suites: Vec<CipherSuite>,
    /// Whether its user named them.
    are_chosen: bool,
    realm: &'a str,
    name: Vec<Vec<u8>>,
    password: Vec<u8>,
    octets: Vec<u8>,
}

/// Replays the rows on hints.
pub(crate) fn replay_hints(rt: &HostRuntime) -> anyhow::Result<()> {
    replay(rt, &mut Hints, "hints.txt")
}

impl Rows for Hints {
    const COLUMNS: &'static str = "|";

    fn agrees(&mut self, rt: &HostRuntime, row: &mut Row<'_>) -> anyhow::Result<bool> {
        let _label = row.word();
        let hinted = hinted_of(rt.alloc(), row)?;
        is_outcome(rt.alloc(), &hinted, row.word())
    }
}

/// Returns whether what the client makes of a row's octets, or sends, is as expected.
fn is_outcome(alloc: Global, row: &Hinted<'_>, expected: &str) -> anyhow::Result<bool> {
    let text = match row.kind {
        "request" => return is_request(alloc, row),
        "padata" => return is_request_with_padata(alloc, row, expected),
        "service" | "renewal" => return is_further_request(alloc, row, expected),
        "error" => text_of_error(alloc, row),
        "reply" => text_of_reply(alloc, row),
        "suite" => text_of_suite(alloc, row),
        _ => bail!("no such kind"),
    };
    Ok(text?.as_str() == expected)
}

/// Reads a row up to what is expected.
fn hinted_of<'a>(alloc: Global, row: &mut Row<'a>) -> anyhow::Result<Hinted<'a>> {
    let (kind, options) = kind_of(row.word())?;
    let text = row.word();
    let suites = suites_of(alloc, text)?;
    Ok(Hinted {
        kind,
        options,
        suites,
        are_chosen: !text.ends_with(USUAL),
        realm: row.word(),
        name: row.name(alloc),
        password: row.octets(alloc),
        octets: row.octets(alloc),
    })
}

/// Reads a kind, and behind it the options of a request and its rtime.
fn kind_of(text: &str) -> anyhow::Result<(&str, TicketOptions)> {
    let mut options = TicketOptions::plain();
    let mut words = text.split_whitespace();
    let kind = words.next().context("no kind")?;
    for word in words {
        match word {
            "forwardable" => options.forwardable = true,
            "proxiable" => options.proxiable = true,
            "renewable" => options.renewable = true,
            _ => options.rtime = GeneralizedTime::from_text(word.as_bytes()),
        }
    }
    Ok((kind, options))
}

/// Reads the numbers of suites, or the usual ones. The word `usual` behind numbers says that the user named none.
fn suites_of(alloc: Global, text: &str) -> anyhow::Result<Vec<CipherSuite>> {
    if text == USUAL {
        return Ok(Vec::from_slice(alloc, &USUAL_SUITES)?);
    }
    let numbers = text.strip_suffix(USUAL).unwrap_or(text);
    let mut suites = Vec::new(alloc);
    for word in numbers.split_whitespace() {
        let number = word.parse::<usize>()?;
        let suite = CipherSuite::try_from(number).ok().context("no suite")?;
        suites.push(suite)?;
    }
    Ok(suites)
}

/// Returns whether the client's first request has these octets.
fn is_request(alloc: Global, row: &Hinted<'_>) -> anyhow::Result<bool> {
    let suite = CipherSuite::Aes256CtsHmacSha196;
    let client = Client::new(alloc, row.realm.as_bytes(), &row.name, suite)?;
    let (request, _) = ask(alloc, row, &client)?;
    Ok(request == row.octets)
}

/// The client's first request, and what it remembers of it.
fn ask(alloc: Global, row: &Hinted<'_>, client: &Client) -> anyhow::Result<(Vec<u8>, AsAsked)> {
    let service = krbtgt(alloc, row.realm)?;
    let words = words();
    let request = TicketRequest {
        service: &service,
        till: till()?,
        moment: moment()?,
        words: &words,
    };
    let asked = first_request_with(alloc, client, &row.suites, row.options, &request)?;
    Ok(asked)
}

/// The end that each request asks for.
fn till() -> anyhow::Result<GeneralizedTime> {
    GeneralizedTime::from_text(b"20370101000000Z").context("no time")
}

/// The moment of each request.
fn moment() -> anyhow::Result<Moment> {
    Moment::from_text(b"20260101000000Z").context("no moment")
}

/// The random bytes of each request.
fn words() -> [u8; 96]
    ensures { length result ≡ 96 }
{
    let mut words = [0; 96];
    words[16..20].copy_from_slice(&NONCE);
    words
}

/// What the client makes of an error.
fn text_of_error(alloc: Global, row: &Hinted<'_>) -> anyhow::Result<String> {
    match key_hint(alloc, &row.suites, &row.octets) {
        Ok(hint) => text_of_key(alloc, row, &hint),
        Err(refusal) => refused(alloc, &refusal),
    }
}

/// The key that the client makes by a hint.
fn text_of_key(alloc: Global, row: &Hinted<'_>, hint: &KeyHint) -> anyhow::Result<String> {
    match client_of(alloc, row, hint) {
        Ok((_client, means)) => key_text(alloc, hint, &means),
        Err(refusal) => refused(alloc, &refusal),
    }
}

/// What the client makes of a reply.
fn text_of_reply(alloc: Global, row: &Hinted<'_>) -> anyhow::Result<String> {
    match key_hint_of_reply(alloc, &row.suites, &row.octets) {
        Ok(hint) => text_of_hinted(alloc, row, &hint),
        Err(refusal) => refused(alloc, &refusal),
    }
}

/// What the client makes of a reply, by its hint.
fn text_of_hinted(alloc: Global, row: &Hinted<'_>, hint: &KeyHint) -> anyhow::Result<String> {
    match client_of(alloc, row, hint) {
        Ok((client, means)) => text_of_grant(alloc, row, hint, &client, &means),
        Err(refusal) => refused(alloc, &refusal),
    }
}

/// The key that the client makes by a hint, and what it takes of the reply under this key.
fn text_of_grant(
    alloc: Global,
    row: &Hinted<'_>,
    hint: &KeyHint,
    client: &Client,
    means: &ByKey,
) -> anyhow::Result<String> {
    let key = key_text(alloc, hint, means)?;
    let (_request, asked) = ask(alloc, row, client)?;
    let taken = client.take_as_reply(alloc, means, &asked, &row.octets);
    match taken_of_suites(&row.suites, taken) {
        Ok(credential) => granted_text(alloc, &key, &credential),
        Err(refusal) => refused(alloc, &refusal),
    }
}

/// The number of the suite of a reply's enc-part.
fn text_of_suite(alloc: Global, row: &Hinted<'_>) -> anyhow::Result<String> {
    match suite_of_reply(alloc, &row.suites, &row.octets) {
        Ok(suite) => Ok(format!(in alloc; "suite {}", u8::from(suite))?),
        Err(refusal) => refused(alloc, &refusal),
    }
}

/// Returns whether the client's request with an encrypted timestamp ends with this body.
fn is_request_with_padata(alloc: Global, row: &Hinted<'_>, expected: &str) -> anyhow::Result<bool> {
    let suite = CipherSuite::Aes256CtsHmacSha196;
    let (client, means) = Client::by_password(
        alloc,
        row.realm.as_bytes(),
        &row.name,
        suite,
        &row.password,
    )?;
    let service = krbtgt(alloc, row.realm)?;
    let words = words();
    let request = TicketRequest {
        service: &service,
        till: till()?,
        moment: moment()?,
        words: &words,
    };
    let made = client.as_request_with(alloc, &means, &row.suites, row.options, &request);
    ends_with(alloc, made, expected)
}

/// Returns whether the client's request for a service ticket, or to renew, by what a reply grants, ends with this body.
fn is_further_request(alloc: Global, row: &Hinted<'_>, expected: &str) -> anyhow::Result<bool> {
    let hint = key_hint_of_reply(alloc, &row.suites, &row.octets)?;
    let (client, means) = client_of(alloc, row, &hint)?;
    let (_request, asked) = ask(alloc, row, &client)?;
    let granting = client.take_as_reply(alloc, &means, &asked, &row.octets)?;
    if row.kind == "renewal" {
        is_renewal_by(alloc, row, &client, &granting, expected)
    } else {
        is_request_by(alloc, row, &client, &granting, expected)
    }
}

fn is_request_by(
    alloc: Global,
    row: &Hinted<'_>,
    client: &Client,
    granting: &Credential,
    expected: &str,
) -> anyhow::Result<bool> {
    let words = words();
    let request = TicketRequest {
        service: &row.name,
        till: till()?,
        moment: moment()?,
        words: &words,
    };
    let made = client.tgs_request_of_suites(alloc, granting, &row.suites, &request);
    ends_with(alloc, made, expected)
}

fn is_renewal_by(
    alloc: Global,
    row: &Hinted<'_>,
    client: &Client,
    granting: &Credential,
    expected: &str,
) -> anyhow::Result<bool> {
    let service = krbtgt(alloc, row.realm)?;
    let words = words();
    let request = TicketRequest {
        service: &service,
        till: till()?,
        moment: moment()?,
        words: &words,
    };
    let options = TicketOptions::renewal(granting.flags());
    let made = client.tgs_request_with(alloc, granting, &row.suites, options, &request);
    ends_with(alloc, made, expected)
}

/// Whether a request ends with the octets of these digits.
fn ends_with<T: Drop>(
    alloc: Global,
    made: Result<(Vec<u8>, T), AskRefusal>,
    digits: &str,
) -> anyhow::Result<bool> {
    let (request, _asked) = made?;
    let body = hex::decode(alloc, digits)?;
    Ok(request.ends_with(&body) && !body.is_empty())
}

/// The client of a row, by the hint.
fn client_of(
    alloc: Global,
    row: &Hinted<'_>,
    hint: &KeyHint,
) -> Result<(Client, ByKey), HintedClientRefusal> {
    let wanted = if row.are_chosen {
        Wanted::Chosen(&row.suites)
    } else {
        Wanted::Usual
    };
    let realm = row.realm.as_bytes();
    client_by_hint(alloc, wanted, realm, &row.name, &row.password, hint)
}

/// The components of the realm's own service.
fn krbtgt(alloc: Global, realm: &str) -> anyhow::Result<Vec<Vec<u8>>> {
    let first = Vec::from_slice(alloc, b"krbtgt")?;
    let second = Vec::from_slice(alloc, realm.as_bytes())?;
    Ok(vec![in alloc; first, second]?)
}
