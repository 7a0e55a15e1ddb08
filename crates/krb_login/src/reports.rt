//! What `-v` says of requests and answers. No text has a key or a password.

use krb_client::read_error_code;
use krb_client_exchanges::KeyHint;
use krb_commands::Printable;
use krb_constants::error_names::ErrorCode;
use krb_crypto::CipherSuite;
use krb_settings::suite_name;
use std::alloc::{AllocError, Global};

/// A request, with the suites that it lists.
#[derive(Clone, Copy)]
pub(crate) enum Expected<'a> {
    /// The one without padata, whose answer says of which suite the client's key is.
    First(&'a [CipherSuite]),
    /// The one with an encrypted timestamp, in the suite of the client's key.
    Timestamp(CipherSuite),
    /// The one by certificate.
    Certificate(&'a [CipherSuite]),
    /// The one for a service ticket.
    Ticket(&'a [CipherSuite]),
    /// The one to renew a ticket-granting ticket.
    Renewal(&'a [CipherSuite]),
}

impl Expected<'_> {
    /// What the request is called.
    pub(crate) fn title(self) -> &'static str {
        match self {
            Expected::First(_) => "AS-REQ without padata",
            Expected::Timestamp(_) => "AS-REQ with an encrypted timestamp",
            Expected::Certificate(_) => "AS-REQ by certificate",
            Expected::Ticket(_) => "TGS-REQ",
            Expected::Renewal(_) => "TGS-REQ to renew",
        }
    }

    /// The names of its suites, with blanks between them.
    pub(crate) fn suites_text(self, alloc: Global) -> Result<String, AllocError> {
        match self {
            Expected::First(suites)
            | Expected::Certificate(suites)
            | Expected::Ticket(suites)
            | Expected::Renewal(suites) => suites_text(alloc, suites),
            Expected::Timestamp(suite) => suites_text(alloc, &[suite]),
        }
    }
}

fn suites_text(alloc: Global, suites: &[CipherSuite]) -> Result<String, AllocError> {
    let mut text = String::new(alloc);
    let mut blank = "";
    for suite in suites {
        text.push_str(blank)?;
        text.push_str(suite_name(*suite))?;
        blank = " ";
    }
    Ok(text)
}

/// What an answer is: an error with its code, or what the client takes for a reply.
pub(crate) fn outcome_text(alloc: Global, answer: &[u8]) -> Result<String, AllocError> {
    match read_error_code(alloc, answer)? {
        Some(code) => format!(in alloc; "{}", ErrorCode(code)),
        None => String::from_str(alloc, "a reply"),
    }
}

/// What the KDC names: the suite, and the salt with what isn't printable escaped. A salt is no secret.
pub(crate) fn hint_text(alloc: Global, hint: &KeyHint) -> Result<String, AllocError> {
    let suite = suite_name(hint.suite);
    match &hint.salt {
        Some(salt) => {
            let salt = Printable(salt.as_bytes());
            format!(in alloc; "the KDC names {suite} with the salt \"{salt}\"")
        }
        None => format!(in alloc; "the KDC names {suite} with the default salt"),
    }
}
