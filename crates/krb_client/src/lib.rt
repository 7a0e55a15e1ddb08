//! A client: it asks a realm for a first ticket and for further ones, asks a service by what it was granted, and takes their
//! replies (RFC 4120, sections 3.1 to 3.3). How it authenticates itself is a trait, `Means`. A key that it shares with its realm is
//! one such means, `ByKey`. Its requests are made of a `TicketRequest` or a `ServiceRequest`. `AsAsked`, `TgsAsked` and `ApAsked` are
//! what it remembers of them.
//!
//! `Client::as_request`, `Client::tgs_request` and `Client::ap_request` write the one encoding of what the client asks, with what is sealed
//! in it (`AsksAs`, `AsksTgs`, `AsksAp`). `Client::as_request_of_suites` and `Client::tgs_request_of_suites` do so with the etypes of given
//! suites (`AsksAsOfSuites`, `AsksTgsOfSuites`), `Client::as_request_with` and `Client::tgs_request_with` with `TicketOptions`
//! (`AsksAsWith`, `AsksTgsWith`). `Client::take_as_reply`, `Client::take_tgs_reply` and `Client::take_ap_reply` accept a reply if and only
//! if it answers the request. The first reason against a reply decides the refusal (`IsTaken`). The key of `Client::by_password` is the
//! password's. `Credential::new` makes a credential of exactly its parts.
#![tactic(auto)]

mod agreement;
mod ap_reply;
mod ap_request;
mod as_reply;
mod as_request;
mod asked;
mod authenticator;
mod by_key;
mod client;
mod copies;
mod credential;
mod kdc_request;
mod means;
mod names;
mod options;
mod read;
mod refusal;
mod taking;
mod tgs_reply;
mod tgs_request;
mod ticket_request;

pub use agreement::agreement_part;
pub use ap_reply::tells;
pub use ap_request::ServiceRequest;
pub use asked::{ApAsked, AsAsked, TgsAsked};
pub use authenticator::ap_request as ap_request_with;
pub use by_key::ByKey;
pub use client::Client;
pub use credential::{Credential, TicketTimes};
pub use kdc_request::nonce_of;
pub use means::Means;
pub use options::TicketOptions;
pub use read::{open_ap_part, read_ap_reply, read_error_code};
pub use refusal::{AskRefusal, TakeRefusal};
pub use taking::is_of_type;
pub use ticket_request::TicketRequest;
