//! A KDC (RFC 4120): the replies to requests, from accounts that are looked up one by one in whatever holds them: memory, a file, a table
//! of a database, a directory.
//!
//! A request involves at most three accounts. [`answer_by`] looks these up and no others. [`Lookup`] is what holds them, and
//! [`Pkinit`](krb_kdc_exchanges::Pkinit) judges requests by certificate. [`answer_observed`] takes a [`PkinitSource`], which gives a
//! `Pkinit` for the AS request that was read, and an [`Observer`], which sees each request that is answered. `krb_memory_realms` and
//! `krb_realm_files` have realms over it.
//!
//! A reply of `answer_by` is that of the realm with all accounts that the `Lookup` holds. `Unreadable` is returned only for a message that
//! is no request, and `Fault` only for bytes that begin one (`BeginsRequest`). An account that can't be read is a fault, and neither a
//! missing account nor a KRB-ERROR. It stops only a message that involves it (`FailsFor`). What judges requests by certificate fails only
//! at one that asks so (`AsksByCertificate`). Accounts in memory can always be read. Each request has a reply (law `has_reply`), by
//! `one_reply` of `krb_kdc_exchanges` exactly one. What an `Observer` sees is of the message, of its reply and of the accounts (`IsTold`).
#![tactic(auto)]

mod always;
mod answer;
mod begins;
mod call;
mod fault;
mod few;
pub mod laws;
mod lookup;
mod observer;
mod pkinit_source;
mod seen;
mod ticket;

pub use answer::{answer_by, answer_observed};
pub use begins::begins_request;
pub use call::LookupCall;
pub use fault::{LookupFault, LookupRefusal, refusal_of};
pub use lookup::Lookup;
pub use observer::{Observer, Unobserved};
pub use pkinit_source::PkinitSource;
pub use seen::{Seen, SeenRequest};
pub use ticket::presented_part;
