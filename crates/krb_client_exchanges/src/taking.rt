//! Replies that are taken.
ghost use Rattle.std.specs.Prelude.{◌≡◌};
ghost use Rattle.decision_tables.specs.Tables.{as_made};
ghost use Rattle.krb_client.specs.AsReply.{takes_as_reply};
ghost use Rattle.krb_client.specs.TgsReply.{takes_tgs_reply};
ghost use Rattle.krb_client_exchanges.specs.Grants.{taken_of_suites};
ghost use Rattle.krb_client_exchanges.specs.Courses.{Judges};
ghost use Rattle.krb_client_exchanges.specs.Taking.{judged_taken, not_taken};
ghost use Rattle.krb_client_exchanges.specs.declared.fault.LoginRefusal.TheVariants.{NotTaken};

use crate::fault::{ExchangeFault, LoginRefusal};
use crate::names::client_with;
use crate::taken_of_suites;
use krb_client::{AsAsked, Client, Credential, Means, TakeRefusal, TgsAsked};
use krb_crypto::CipherSuite;
use std::alloc::Global;

/// What is taken of the reply to an AS request, with a session key of one of these suites.
pub(crate) fn take_first<M: Means, F>(
    alloc: Global,
    client: &Client,
    suites: &[CipherSuite],
    means: &M,
    asked: &AsAsked,
    reply: &[u8],
) -> Result<Credential, ExchangeFault<F>>
    ensures { Judges NotTaken (as_made (taken_of_suites suites.now) (takes_as_reply client.now (M.means means.now) asked.now reply.now)) result }
{
    let taken = client.take_as_reply(alloc, means, asked, reply);
    judged_taken(taken_of_suites(suites, taken))
}

/// The same, by the client with this suite.
pub(crate) fn take_in<M: Means, F>(
    alloc: Global,
    client: &Client,
    suite: CipherSuite,
    suites: &[CipherSuite],
    means: &M,
    asked: &AsAsked,
    reply: &[u8],
) -> Result<Credential, ExchangeFault<F>>
    ensures { Judges NotTaken (as_made (taken_of_suites suites.now) (takes_as_reply (record client.now { suite = suite }) (M.means means.now) asked.now reply.now)) result }
{
    let own = client_with(alloc, client, suite)?;
    take_first(alloc, &own, suites, means, asked, reply)
}

/// What is taken of the reply to a TGS request, with a session key of one of these suites.
pub(crate) fn take_further<F>(
    alloc: Global,
    client: &Client,
    suites: &[CipherSuite],
    asked: &TgsAsked,
    reply: &[u8],
) -> Result<Credential, ExchangeFault<F>>
    ensures { Judges NotTaken (as_made (taken_of_suites suites.now) (takes_tgs_reply client.now asked.now reply.now)) result }
{
    let taken = client.take_tgs_reply(alloc, asked, reply);
    judged_taken(taken_of_suites(suites, taken))
}

// What was taken, or why the exchange ends without a ticket.
fn judged_taken<F>(taken: Result<Credential, TakeRefusal>) -> Result<Credential, ExchangeFault<F>>
    ensures { result ≡ judged_taken taken }
{
    match taken {
        Ok(credential) => Ok(credential),
        Err(refusal) => Err(not_taken(refusal)),
    }
}

fn not_taken<F>(refusal: TakeRefusal) -> ExchangeFault<F>
    ensures { result ≡ not_taken refusal }
{
    match refusal {
        TakeRefusal::Memory => ExchangeFault::Memory,
        refusal => ExchangeFault::Refused(LoginRefusal::NotTaken(refusal)),
    }
}
