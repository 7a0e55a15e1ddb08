//! A context with a web server (RFC 4559).

use crate::arguments::Asked;
use crate::party::Party;
use crate::tokens::{first_token, say_established, take_answer};
use base64::DecodeAllocError;
use base64::engine::general_purpose::STANDARD;
use decision_tables::if_passed;
use gss_initiator::{Initiated, Pending, Progress, Taken};
use krb_commands::{RandomFile, Stop, print_line, read_input, refused};
use picky_asn1_der::both;

/// How many octets the server's answer may have in base64.
const ANSWER_LIMIT: u64 = 65_536;

/// Prints the first token, takes the server's answer, if one is due, and prints the last token, if one is due.
pub(crate) fn negotiate(
    rt: &HostRuntime,
    asked: &Asked<'_>,
    party: &Party,
    random: &RandomFile<'_>,
) -> Result<(), Stop> {
    let Initiated { token, progress } = first_token(rt, asked, party, random)?;
    let printed = print_token(rt, &token);
    drop(token);
    let concluded = match if_passed(progress, printed)? {
        Progress::Established(context) => {
            drop(context);
            Ok(())
        }
        Progress::ContinueNeeded(pending) => conclude(rt, asked, pending),
    };
    if concluded.is_ok() {
        say_established(rt, asked);
    }
    concluded
}

// Prints a token as a field of a request.
fn print_token(rt: &HostRuntime, token: &[u8]) -> Result<(), Stop> {
    let text = STANDARD.encode(rt.alloc(), token)?;
    print_line(rt, format_args!("Authorization: Negotiate {text}"))
}

fn conclude(rt: &HostRuntime, asked: &Asked<'_>, pending: Pending) -> Result<(), Stop> {
    let (pending, answer) = both(Ok(pending), answer_of(rt))?;
    let Taken { context, reply } = take_answer(rt.alloc(), asked, pending, &answer)?;
    drop(context);
    let printed = match &reply {
        Some(reply) => print_token(rt, reply),
        None => Ok(()),
    };
    drop(reply);
    printed
}

// The server's token, of which standard input has the base64.
fn answer_of(rt: &HostRuntime) -> Result<Vec<u8>, Stop> {
    let text = read_input(rt, ANSWER_LIMIT)?;
    if text.is_empty() {
        return Err(refused(
            rt.alloc(),
            "standard input: ended: expected the server's token in base64",
        ));
    }
    match STANDARD.decode(rt.alloc(), text.trim_ascii_end()) {
        Ok(token) => Ok(token),
        Err(DecodeAllocError::OutOfMemory) => Err(Stop::Memory),
        Err(_) => Err(refused(
            rt.alloc(),
            "standard input: expected the server's token in base64",
        )),
    }
}
