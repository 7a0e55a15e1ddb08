//! Copies of what messages hold.
ghost use Rattle.std.specs.Prelude.{◌≡◌, IfOk};

use krb_messages::data_types::Ticket;
use std::alloc::AllocError;

/// A copy of a ticket.
pub(crate) fn ticket_copy(ticket: &Ticket) -> Result<Ticket, AllocError>
    ensures { IfOk result (λ copy. copy ≡ ticket.now) }
{
    let copy = ticket.clone()?;
    Ok(copy)
}
