//! Tickets, and what clients and services show by them, by the names of their types.
use crate::{first_of, told_as};
use picky_krb::data_types::{
    Authenticator, AuthenticatorInner, EncApRepPart, EncApRepPartInner, EncTicketPart,
    EncTicketPartInner, Ticket, TicketInner,
};
use std::alloc::Global;
use test_support::{Answer, Recorded};

/// Whether such a value is read and written as expected; none for any other type.
pub fn agrees(alloc: Global, recorded: &Recorded<'_>) -> Option<Answer> {
    first_of(&[
        told_as::<Authenticator>(alloc, recorded, "Authenticator"),
        told_as::<AuthenticatorInner>(alloc, recorded, "AuthenticatorInner"),
        told_as::<EncApRepPart>(alloc, recorded, "EncApRepPart"),
        told_as::<EncApRepPartInner>(alloc, recorded, "EncApRepPartInner"),
        told_as::<EncTicketPart>(alloc, recorded, "EncTicketPart"),
        told_as::<EncTicketPartInner>(alloc, recorded, "EncTicketPartInner"),
        told_as::<Ticket>(alloc, recorded, "Ticket"),
        told_as::<TicketInner>(alloc, recorded, "TicketInner"),
    ])
}
