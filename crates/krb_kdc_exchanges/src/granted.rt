//! A reply that grants a ticket.
ghost use Rattle.std.specs.Prelude.{IfOk};
ghost use Rattle.krb_messages.specs.RandomBytes.{AreEnoughForReply};
ghost use Rattle.krb_tickets.specs.Grant.{grant_of};
ghost use Rattle.krb_tickets.specs.Granted.{IsTicketReply};
ghost use Rattle.krb_tickets.specs.ReplyKeys.{reply_key_of};
ghost use Rattle.krb_kdc_exchanges.specs.Granting.{IsGrantedTicket};

use crate::span::Span;
use krb_crypto::CipherSuite;
use krb_realm_accounts::Account;
use krb_tickets::{Grant, ReplyKey, ticket_reply};
use std::alloc::{AllocError, Global};

/// A reply that grants a ticket, and what it shows of the ticket without a key.
#[derive(Drop)]
pub struct Granted {
    /// The reply's bytes.
    pub reply: Vec<u8>,
    /// The ticket.
    pub ticket: GrantedTicket,
}

/// What is known of a ticket that was granted, without a name and without a key.
#[derive(Clone, Copy, Debug, Drop)]
pub struct GrantedTicket {
    /// The suite of the service's key, under which the ticket's part is encrypted.
    pub suite: CipherSuite,
    /// The suite of the reply key.
    pub reply_suite: CipherSuite,
    /// When the ticket starts, and when it ends.
    pub span: Span,
}

/// Makes the reply that grants a ticket, under the reply key (RFC 4120, sections 3.1.3 and 3.3.3).
pub(crate) fn granted_reply(
    alloc: Global,
    grant: &Grant<'_>,
    under: &ReplyKey<'_>,
    service: &Account,
    words: &[u8],
) -> Result<Granted, AllocError>
    requires { AreEnoughForReply words.now }
    ensures reply { IfOk result (λ made. IsTicketReply (grant_of grant.now) (reply_key_of under.now) service.now words.now made.reply.items) }
    ensures ticket { IfOk result (λ made. IsGrantedTicket made.reply.items made.ticket) }
{
    let reply = ticket_reply(alloc, grant, under, service, words)?;
    let ticket = GrantedTicket {
        suite: service.suite(),
        reply_suite: under.key.suite(),
        span: Span {
            starttime: grant.starttime,
            endtime: grant.endtime,
        },
    };
    Ok(Granted { reply, ticket })
}
