//! What the KDC's answer to the first request says.
ghost use Rattle.std.specs.Prelude.{◌≡◌};
ghost use Rattle.krb_client_exchanges.specs.Refusals.{IsHinted};
ghost use Rattle.krb_client_exchanges.specs.AnswerHints.{answered, hint_in_answer, is_unreadable, suite_for, suite_or};
ghost use Rattle.krb_client_exchanges.specs.Courses.{Judges};
ghost use Rattle.krb_client_exchanges.specs.Taking.{judged_hint, not_hinted};
ghost use Rattle.krb_client_exchanges.specs.declared.fault.LoginRefusal.TheVariants.{NotHinted};

use crate::fault::{ExchangeFault, LoginRefusal};
use crate::{HintRefusal, KeyHint, key_hint, key_hint_of_reply, suite_of_reply};
use krb_client::Client;
use krb_crypto::CipherSuite;
use std::alloc::Global;

/// What a KDC's answer says of a client's key, and whether it is a reply.
#[derive(Debug, Drop, PartialEq, Eq)]
pub struct AnswerHint {
    /// The suite and the salt.
    pub hint: KeyHint,
    /// Whether the answer is a reply. Else it is an error, which asks for preauthentication.
    pub is_reply: bool,
}

/// What a KDC's answer to a request without padata says of the client's key. An error has the suite and salt in its METHOD-DATA, a reply
/// in its padata and its enc-part (RFC 4120, sections 3.1.3, 5.2.7.5). The suite is one of these.
///
/// Neither is authenticated yet: whoever is on the network can choose among the suites, and the salt.
pub fn hint_in_answer(
    alloc: Global,
    suites: &[CipherSuite],
    answer: &[u8],
) -> Result<AnswerHint, HintRefusal>
    ensures { IsHinted (hint_in_answer suites.now answer.now) result }
{
    let hinted = key_hint(alloc, suites, answer);
    if is_unreadable(&hinted) {
        return answered(true, key_hint_of_reply(alloc, suites, answer));
    }
    answered(false, hinted)
}

// Whether the answer is no error.
fn is_unreadable(hinted: &Result<KeyHint, HintRefusal>) -> bool
    ensures { result ≡ is_unreadable hinted.now }
{
    match hinted {
        Err(HintRefusal::Unreadable) => true,
        _ => false,
    }
}

// The hint of an answer, which is a reply or an error.
fn answered(is_reply: bool, hinted: Result<KeyHint, HintRefusal>) -> Result<AnswerHint, HintRefusal>
    ensures { result ≡ answered is_reply hinted }
{
    match hinted {
        Ok(hint) => Ok(AnswerHint { hint, is_reply }),
        Err(refusal) => Err(refusal),
    }
}

/// The hint of an answer, or why the login ends.
pub(crate) fn answer_of<F>(
    alloc: Global,
    suites: &[CipherSuite],
    answer: &[u8],
) -> Result<AnswerHint, ExchangeFault<F>>
    ensures { Judges NotHinted (hint_in_answer suites.now answer.now) result }
{
    judged_hint(hint_in_answer(alloc, suites, answer))
}

/// The suite of the client that judges a reply, or why the login ends.
pub(crate) fn suite_of<F>(
    alloc: Global,
    client: &Client,
    suites: &[CipherSuite],
    reply: &[u8],
) -> Result<CipherSuite, ExchangeFault<F>>
    ensures { Judges NotHinted (suite_for client.now.suite suites.now reply.now) result }
{
    judged_hint(suite_for(alloc, client.suite(), suites, reply))
}

// The suite that the KDC chose for its reply, or the client's own where it is no reply.
fn suite_for(
    alloc: Global,
    own: CipherSuite,
    suites: &[CipherSuite],
    reply: &[u8],
) -> Result<CipherSuite, HintRefusal>
    ensures { IsHinted (suite_for own suites.now reply.now) result }
{
    suite_or(own, suite_of_reply(alloc, suites, reply))
}

fn suite_or(
    own: CipherSuite,
    chosen: Result<CipherSuite, HintRefusal>,
) -> Result<CipherSuite, HintRefusal>
    ensures { result ≡ suite_or own chosen }
{
    match chosen {
        Err(HintRefusal::Unreadable) => Ok(own),
        chosen => chosen,
    }
}

// What was hinted, or why the login ends.
fn judged_hint<T: Drop, F>(hinted: Result<T, HintRefusal>) -> Result<T, ExchangeFault<F>>
    ensures { result ≡ judged_hint hinted }
{
    match hinted {
        Ok(value) => Ok(value),
        Err(refusal) => Err(not_hinted(refusal)),
    }
}

fn not_hinted<F>(refusal: HintRefusal) -> ExchangeFault<F>
    ensures { result ≡ not_hinted refusal }
{
    match refusal {
        HintRefusal::Memory => ExchangeFault::Memory,
        refusal => ExchangeFault::Refused(LoginRefusal::NotHinted(refusal)),
    }
}
