//! Contexts that are established.
ghost use Rattle.std.specs.Prelude.{◌≡◌, ◌≤◌, length, IfOk, IfErr};
ghost use Rattle.std.specs.Option.{option_map};
ghost use Rattle.krb_time.specs.Skew.{IsWithinDay};
ghost use Rattle.gss_acceptor.specs.Accepting.{IsEstablished, IsEstablishedAs, established_of};
ghost use Rattle.gss_acceptor.specs.declared.refusal.AcceptRefusal.TheVariants.{Memory};

use crate::answer::ap_rep_in;
use crate::checksum::{ContextFlags, InitialChecksum};
use crate::delegation::{Delegated, delegation};
use crate::judge::{Judged, judge};
use crate::refusal::AcceptRefusal;
use crate::terms::AcceptorTerms;
use gss_contexts::Context;
use krb_messages::data_types::{AuthorizationData, KerberosFlags, PrincipalName, Realm};
use krb_service::Admission;
use picky_asn1::date::GeneralizedTime;
use std::alloc::Global;
use std::marker::Model;

/// A context that is established: the client, its ticket's times, flags and authorization data, the flags that it asks for, what it
/// delegates, and the acceptor's end.
///
/// A context's tokens don't end with its ticket. A caller that requires this asks `Context::check_end` before each token: it refuses past the
/// ticket's endtime with the service's skew.
#[derive(Drop)]
pub struct Established {
    /// The client's realm.
    pub realm: Realm,
    /// The client, as its ticket names it.
    pub client: PrincipalName,
    /// The ticket's authtime: when the client authenticated itself for its first ticket (RFC 4120, section 5.3).
    pub authtime: GeneralizedTime,
    /// When the ticket starts: its starttime, or its authtime where it has no starttime (RFC 4120, section 5.3).
    pub starttime: GeneralizedTime,
    /// The ticket's endtime (RFC 4120, section 5.3).
    pub endtime: GeneralizedTime,
    /// The ticket's flags, which `krb_constants::ticket_flags` numbers (RFC 4120, section 5.3).
    pub ticket_flags: KerberosFlags,
    /// The ticket's authorization data, if it has any (RFC 4120, section 5.2.6). The acceptor doesn't judge it.
    pub authorization_data: Option<AuthorizationData>,
    /// The hash of the initiator's channel bindings, or zeros (RFC 4121, section 4.1.1.2). It was judged only if the acceptor has some.
    pub bindings: [u8; 16],
    /// The flags that the initiator asks for. By that of sequencing the context takes no token after a gap. Where the flag of mutual
    /// authentication and the AP-REQ's option mutual-required differ, the option decides whether there is an AP-REP. Each context
    /// protects messages in both ways.
    pub flags: ContextFlags,
    /// What the client delegates, if its flag says so (RFC 4121, section 4.1.1.1).
    pub delegated: Option<Delegated>,
    /// The acceptor's end of the context.
    pub context: Context,
    /// The token to send to the initiator, if there is one. No answer to it is due.
    pub reply: Option<Vec<u8>>,
}

impl Model for Established {
    ghost use Rattle.std.specs.Option.{option_map};
    ghost use Rattle.gss_acceptor.specs.Established.{EstablishedRecord};

    ghost Value = { EstablishedRecord };

    ghost view = { λ e. record {
      realm = e.realm;
      client = e.client;
      authtime = e.authtime;
      starttime = e.starttime;
      endtime = e.endtime;
      ticket_flags = e.ticket_flags;
      authorization_data = e.authorization_data;
      bindings = e.bindings;
      flags = e.flags;
      delegated = e.delegated;
      context = e.context;
      reply = option_map (λ v. v.items) e.reply;
    } };
}

/// The context that an admission establishes, with the token of its AP-REP, if there is one. `words`: random bytes, of which the first 64
/// count.
pub(crate) fn established_by(
    alloc: Global,
    terms: &AcceptorTerms,
    skew: u64,
    words: &[u8],
    admission: Admission,
) -> Result<Established, AcceptRefusal>
    requires skew { IsWithinDay skew }
    requires enough { 64 ≤ length words.now }
    ensures { IsEstablished terms.now skew words.now admission result }
{
    match judge(terms, skew, words, &admission) {
        Ok(judged) => established_as(alloc, admission, judged),
        Err(refusal) => {
            drop(admission);
            Err(refusal)
        }
    }
}

// The context that was judged so, with what its client delegates.
fn established_as(
    alloc: Global,
    admission: Admission,
    judged: Judged,
) -> Result<Established, AcceptRefusal>
    ensures { IsEstablishedAs admission judged result }
{
    let flags = judged.initial.flags;
    match delegation(alloc, flags, &admission.session, &admission.checksum) {
        Ok(delegated) => answered(alloc, admission, judged, delegated),
        Err(refusal) => {
            drop(admission);
            drop(judged);
            Err(refusal)
        }
    }
}

// The context that was judged so, with the token of its AP-REP, if there is one.
fn answered(
    alloc: Global,
    mut admission: Admission,
    judged: Judged,
    delegated: Option<Delegated>,
) -> Result<Established, AcceptRefusal>
    ensures made { IfOk result (λ e. e ≡ established_of admission judged delegated) }
    ensures refused { IfErr result (λ e. e ≡ Memory) }
{
    let message = admission.reply.take();
    match ap_rep_in(alloc, message) {
        Ok(reply) => Ok(completed(admission, judged, delegated, reply)),
        Err(_) => {
            drop(admission);
            drop(judged);
            drop(delegated);
            Err(AcceptRefusal::Memory)
        }
    }
}

// The context with its client and the answer to it.
fn completed(
    admission: Admission,
    judged: Judged,
    delegated: Option<Delegated>,
    reply: Option<Vec<u8>>,
) -> Established
    ensures { result ≡ record { realm = admission.realm; client = admission.client; authtime = admission.authtime; starttime = admission.starttime; endtime = admission.endtime; ticket_flags = admission.flags; authorization_data = admission.authorization_data; bindings = judged.initial.bindings; flags = judged.initial.flags; delegated = delegated; context = judged.context; reply = option_map (λ v. v.items) reply } }
{
    let Judged { initial, context } = judged;
    let Admission {
        realm,
        client,
        authtime,
        starttime,
        endtime,
        flags: ticket_flags,
        authorization_data,
        ..
    } = admission;
    let InitialChecksum { bindings, flags } = initial;
    Established {
        realm,
        client,
        authtime,
        starttime,
        endtime,
        ticket_flags,
        authorization_data,
        bindings,
        flags,
        delegated,
        context,
        reply,
    }
}
