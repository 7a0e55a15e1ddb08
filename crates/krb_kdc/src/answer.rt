//! Answers from accounts that are looked up.
ghost use Rattle.std.specs.Prelude.{◌⊎◌, Some, IfErr, IfOk, OnOk};
ghost use Rattle.std.specs.Option.{option_copied};
ghost use Rattle.krb_messages.specs.RandomBytes.{AreEnoughForReply};
ghost use Rattle.krb_realm_accounts.specs.Accounts.{Look};
ghost use Rattle.krb_kdc_exchanges.specs.Requests.{body_of, client_of, service_of};
ghost use Rattle.krb_messages.specs.Padata.{padata_in};
ghost use Rattle.krb_messages.specs.Messages.{IsAsReq, IsTgsReq};
ghost use Rattle.picky_asn1.specs.Bytes.{Bytes};
ghost use Rattle.picky_asn1_der.specs.Found.{IsFound};
ghost use Rattle.krb_messages.specs.TicketGranting.{krbtgt_of};
ghost use Rattle.krb_kdc_exchanges.specs.Replies.{Replies, tgs_reply};
ghost use Rattle.krb_kdc.specs.Answers.{IsAnswerBy, MayRefuse};
ghost use Rattle.krb_kdc.specs.Calls.{call_with};
ghost use Rattle.krb_kdc.specs.Failing.{FailsAs, FailsFor, FailsNamed, FailsTgs};
ghost use Rattle.krb_kdc.specs.Faults.{MayFail};
ghost use Rattle.krb_kdc.specs.Involved.{IsNamedFetched, KnowsFurther, KnowsNamed};
ghost use Rattle.krb_kdc.specs.Seen.{IsTold};
ghost use Rattle.krb_kdc.specs.Sources.{AsksByCertificate, IsByCertificate, RepliesBy, as_reply_by};
ghost use Rattle.krb_kdc.specs.Tickets.{IsTgsReqTicket};

use crate::always::Always;
use crate::begins::begins_request;
use crate::call::LookupCall;
use crate::fault::{LookupFault, LookupRefusal};
use crate::few::fetch;
use crate::lookup::Lookup;
use crate::observer::{Observer, Unobserved};
use crate::pkinit_source::PkinitSource;
use crate::seen::{Seen, SeenRequest};
use crate::ticket::fetch_client;
use krb_kdc_exchanges::{
    GrantedTicket, Pkinit, as_reply, named_in, read_as_req, read_tgs_req, service_of, tgs_reply,
};
use krb_messages::data_types::{EncTicketPartInner, PrincipalName};
use krb_messages::krbtgt_of;
use krb_messages::messages::KdcReq;
use krb_realm_accounts::Accounts;
use std::alloc::Global;

/// Returns the reply to a message, of a realm whose accounts are looked up (RFC 4120, sections 3.1 and 3.3). It is the reply of the realm
/// with all accounts that `lookup` holds, though at most three are looked up. There is exactly one: [`has_reply`](crate::laws::has_reply), and
/// `one_reply` of `krb_kdc_exchanges`.
///
/// `Unreadable` says that the bytes are the one encoding of no AS request and of no TGS request. If they begin with the identifier octet
/// of neither, that is answered with no look-up, and however little memory there is. `Fault` says that an account was not looked up, or
/// that memory ran out. Then there is no reply, and no KRB-ERROR takes its place.
pub fn answer_by<L: Lookup, P: Pkinit>(
    alloc: Global,
    lookup: &L,
    call: &LookupCall<'_>,
    pkinit: &P,
    message: &[u8],
) -> Result<Vec<u8>, LookupRefusal>
    requires { AreEnoughForReply call.now.words.now }
    ensures answer { (all : Look) → L.holds lookup.now all → IsAnswerBy (Replies (call_with call.now all) (P.rows pkinit.now) message.now) result }
    ensures refusal { IfErr result (MayRefuse (FailsFor (L.holds lookup.now) (L.may_fail lookup.now) call.now.realm.now message.now) message.now) }
{
    let source = Always { pkinit };
    answer_observed(alloc, lookup, call, &source, &mut Unobserved, message)
}

/// Returns the same, where what judges requests by certificate is given for the AS request that was read. An observer sees each request
/// with the outcome of its reply. The message is decoded once.
///
/// `Fault` is also returned if nothing is given for an AS request. That comes before the faults of its look-ups.
pub fn answer_observed<L: Lookup, S: PkinitSource, O: Observer>(
    alloc: Global,
    lookup: &L,
    call: &LookupCall<'_>,
    source: &S,
    observer: &mut O,
    message: &[u8],
) -> Result<Vec<u8>, LookupRefusal>
    requires { AreEnoughForReply call.now.words.now }
    ensures answer { (all : Look) → L.holds lookup.now all → IsAnswerBy (RepliesBy S.Given.rows (S.gives source.now) (call_with call.now all) message.now) result }

    // Whatever the look-up holds, the reply is one of the realm with some accounts.
    ensures some { IfOk result (λ reply. (all : Look) × RepliesBy S.Given.rows (S.gives source.now) (call_with call.now all) message.now (Some reply.items)) }
    ensures refusal { IfErr result (MayRefuse
        (λ fault. FailsFor (L.holds lookup.now) (L.may_fail lookup.now) call.now.realm.now message.now fault ⊎ (AsksByCertificate message.now × S.may_fail source.now fault))
        message.now) }

    // What the observer saw is of this message and of this reply.
    ensures told { IfOk result (λ reply. IsTold O.sees (L.holds lookup.now) call.now.realm.now message.now observer.old observer.new reply.items) }
{
    if !begins_request(message) {
        return Err(LookupRefusal::Unreadable);
    }
    if let Some(request) = read_as_req(alloc, message)? {
        let answered = as_answer(alloc, lookup, call, source, observer, &request);
        drop(request);
        let reply = answered?;
        return Ok(reply);
    }
    if let Some(request) = read_tgs_req(alloc, message)? {
        let answered = tgs_answer(alloc, lookup, call, observer, &request);
        drop(request);
        let reply = answered?;
        return Ok(reply);
    }
    Err(LookupRefusal::Unreadable)
}

// Returns the reply to an AS request.
fn as_answer<L: Lookup, S: PkinitSource, O: Observer>(
    alloc: Global,
    lookup: &L,
    call: &LookupCall<'_>,
    source: &S,
    observer: &mut O,
    request: &KdcReq,
) -> Result<Vec<u8>, LookupFault>
    requires { AreEnoughForReply call.now.words.now }
    ensures answer { (all : Look) → L.holds lookup.now all
        → IfOk result (λ reply. (pkinit : S.Given) × S.gives source.now request.now pkinit × (as_reply_by (call_with call.now all) (S.Given.rows pkinit) request.now).gives (Some reply.items)) }
    ensures some { IfOk result (λ reply. (all : Look)
        × ((pkinit : S.Given) × S.gives source.now request.now pkinit × (as_reply_by (call_with call.now all) (S.Given.rows pkinit) request.now).gives (Some reply.items))) }
    ensures fault { IfErr result (MayFail (λ fault. FailsAs (L.may_fail lookup.now) request.now fault ⊎ (IsByCertificate request.now × S.may_fail source.now fault))) }
    ensures told { (message : Bytes) → IsAsReq message request.now
        → IfOk result (λ reply. IsTold O.sees (L.holds lookup.now) call.now.realm.now message observer.old observer.new reply.items) }
{
    let pkinit = source.pkinit_for(alloc, request)?;
    let few = named_accounts(alloc, lookup, request)?;
    let reply = as_reply(alloc, &call.with(&few), &pkinit, request)?;
    see_as(alloc, observer, request, &few, reply.outcome);
    Ok(reply.bytes)
}

// Returns the reply to a TGS request.
fn tgs_answer<L: Lookup, O: Observer>(
    alloc: Global,
    lookup: &L,
    call: &LookupCall<'_>,
    observer: &mut O,
    request: &KdcReq,
) -> Result<Vec<u8>, LookupFault>
    requires { AreEnoughForReply call.now.words.now }
    ensures answer { (all : Look) → L.holds lookup.now all → IfOk result (λ reply. (tgs_reply (call_with call.now all) request.now).gives (Some reply.items)) }
    ensures some { IfOk result (λ reply. (all : Look) × (tgs_reply (call_with call.now all) request.now).gives (Some reply.items)) }
    ensures fault { IfErr result (MayFail (FailsTgs (L.holds lookup.now) (L.may_fail lookup.now) call.now request.now)) }
    ensures told { (message : Bytes) → IsTgsReq message request.now
        → IfOk result (λ reply. IsTold O.sees (L.holds lookup.now) call.now.realm.now message observer.old observer.new reply.items) }
{
    let further = further_accounts(alloc, lookup, call, request)?;
    let reply = tgs_reply(alloc, &call.with(&further.few), request)?;
    let ticket = further.ticket.as_ref();
    see_tgs(
        alloc,
        observer,
        request,
        ticket,
        &further.few,
        reply.outcome,
    );
    Ok(reply.bytes)
}

// Shows an observer an AS request, the accounts that it involves, and the outcome of its reply.
fn see_as<'a, O: Observer>(
    alloc: Global,
    observer: &mut O,
    request: &'a KdcReq,
    accounts: &'a Accounts,
    outcome: Result<GrantedTicket, u32>,
)
    ensures { O.sees observer.old (record { request = SeenRequest.As request.entry; accounts = accounts.entry; outcome = outcome }) observer.new }
{
    let request = SeenRequest::As(request);
    let seen = Seen {
        request,
        accounts,
        outcome,
    };
    observer.see(alloc, &seen);
}

// Shows an observer a TGS request, the part of its ticket if that opens, the accounts that it involves, and the outcome of its reply.
fn see_tgs<'a, O: Observer>(
    alloc: Global,
    observer: &mut O,
    request: &'a KdcReq,
    ticket: Option<&'a EncTicketPartInner>,
    accounts: &'a Accounts,
    outcome: Result<GrantedTicket, u32>,
)
    ensures { O.sees observer.old (record { request = SeenRequest.Tgs request.entry ticket.entry; accounts = accounts.entry; outcome = outcome }) observer.new }
{
    let request = SeenRequest::Tgs(request, ticket);
    let seen = Seen {
        request,
        accounts,
        outcome,
    };
    observer.see(alloc, &seen);
}

// Looks up the accounts of the client and of the service that an AS request names.
fn named_accounts<L: Lookup>(
    alloc: Global,
    lookup: &L,
    request: &KdcReq,
) -> Result<Accounts, LookupFault>
    ensures few { (all : Look) → L.holds lookup.now all
        → IfOk result (λ few. KnowsNamed all few (client_of (body_of request.now)) × KnowsNamed all few (service_of (body_of request.now))) }
    ensures fault { IfErr result (MayFail (FailsAs (L.may_fail lookup.now) request.now)) }
{
    let named = named_in(&request.req_body.0);
    let mut few = Accounts::new(alloc);
    fetch_named(alloc, lookup, &mut few, named.client)?;
    fetch_named(alloc, lookup, &mut few, named.service)?;
    Ok(few)
}

// What a TGS request involves: the accounts that were looked up, and the part of the ticket that it presents, if that opens.
#[derive(Drop)]
struct Further {
    few: Accounts,
    ticket: Option<EncTicketPartInner>,
}

// Looks up the accounts that a TGS request involves: of the ticket-granting service, of the ticket's client, and of the service.
fn further_accounts<L: Lookup>(
    alloc: Global,
    lookup: &L,
    call: &LookupCall<'_>,
    request: &KdcReq,
) -> Result<Further, LookupFault>
    ensures few { (all : Look) → L.holds lookup.now all → IfOk result (λ further. KnowsFurther all further.few (krbtgt_of call.now.realm.now) request.now) }
    ensures ticket { (all : Look) → L.holds lookup.now all
        → IfOk result (λ further. IsFound (IsTgsReqTicket further.few (krbtgt_of call.now.realm.now) (padata_in request.now)) further.ticket) }
    ensures fault { IfErr result (MayFail (FailsTgs (L.holds lookup.now) (L.may_fail lookup.now) call.now request.now)) }
{
    let granting = krbtgt_of(alloc, call.realm)?;
    let mut few = Accounts::new(alloc);
    fetch(alloc, lookup, &mut few, &granting)?;
    let ticket = fetch_client(alloc, lookup, &mut few, &granting, request)?;
    match fetch_named(alloc, lookup, &mut few, service_of(&request.req_body.0)) {
        Ok(()) => Ok(Further { few, ticket }),
        Err(fault) => {
            drop(ticket);
            Err(fault)
        }
    }
}

// Looks the account of a name up, if the name is given.
fn fetch_named<L: Lookup>(
    alloc: Global,
    lookup: &L,
    few: &mut Accounts,
    name: Option<&PrincipalName>,
) -> Result<(), LookupFault>
    ensures few { (all : Look) → L.holds lookup.now all → OnOk result (IsNamedFetched all (option_copied name.entry) few.old few.new) }
    ensures fault { IfErr result (MayFail (FailsNamed (L.may_fail lookup.now) (option_copied name.entry))) }
{
    match name {
        Some(name) => fetch(alloc, lookup, few, name.name_string.0.as_slice()),
        None => Ok(()),
    }
}
