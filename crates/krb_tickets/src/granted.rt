//! Granting a ticket, in an AS or a TGS exchange (RFC 4120, sections 3.1.3, 3.3.3).

ghost use Rattle.std.specs.Prelude.{IfOk};
ghost use Rattle.krb_messages.specs.RandomBytes.{AreEnoughForReply};
ghost use Rattle.krb_tickets.specs.Grant.{grant_of};
ghost use Rattle.krb_tickets.specs.Granted.{IsTicketReply};
ghost use Rattle.krb_tickets.specs.ReplyKeys.{reply_key_of};

use crate::confounder_at;
use crate::grant::{Grant, sealed_ticket};
use crate::reply::{ReplyKey, reply_bytes, sealed_reply};
use krb_messages::random_bytes::{REPLY_CONFOUNDER, TICKET_CONFOUNDER};
use krb_realm_accounts::Account;
use std::alloc::{AllocError, Global};

/// Makes the reply with the ticket (RFC 4120, section 5.4.2): the ticket's part under the service's key, with its kvno, and
/// the reply's own part under the reply key. Both confounders are random bytes at their places. It fails only if memory runs
/// out.
pub fn ticket_reply(
    alloc: Global,
    grant: &Grant<'_>,
    under: &ReplyKey<'_>,
    service: &Account,
    words: &[u8],
) -> Result<Vec<u8>, AllocError>
    requires { AreEnoughForReply words.now }
    ensures { IfOk result (λ bytes. IsTicketReply (grant_of grant.now) (reply_key_of under.now) service.now words.now bytes.items) }
{
    let confounder = confounder_at(service.suite(), words, TICKET_CONFOUNDER);
    let ticket = sealed_ticket(alloc, grant, service, confounder)?;
    let confounder = confounder_at(under.key.suite(), words, REPLY_CONFOUNDER);
    let part = sealed_reply(alloc, grant, under, confounder)?;
    let bytes = reply_bytes(alloc, under.exchange, under.pk_as_rep, grant, ticket, part)?;
    Ok(bytes)
}
