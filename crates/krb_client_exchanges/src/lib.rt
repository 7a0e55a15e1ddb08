//! The exchanges of a client with any KDC: how it learns its key's suite and salt, logs in, gets tickets, and keeps them in a credential
//! cache (RFC 4120, sections 3.1, 3.3, 5.2.7.5; RFC 4556). What carries requests to the KDC is the caller's own, as a trait ([`Kdc`]).
//!
//! A login by password or keytab first sends an AS request without padata, which lists the suites that the client takes ([`Wanted`]): by
//! default those of [`USUAL_SUITES`], which are of AES, with the default salt alone. The answer says of which suite and salt the client's
//! key is ([`hint_in_answer`]). After a reply the login is done. After error 25 there is one further request, in that suite, with an
//! encrypted timestamp. A login by certificate, a ticket for a service and a renewal are one request each. No error is authenticated, so no
//! other one is followed by a request.
//!
//! Where a [`Kdc`]'s events are known, [`log_in_by_password`], [`log_in_by_keytab`], [`log_in_by_certificate`], [`ticket_for`] and
//! [`renewed_ticket`] send exactly the requests of their courses, in their order, each at an occasion that they took for it. They return
//! what the course makes of the replies (`login_by_password`, `login_by_keytab`, `login_by_means`, `ticket_for`, `renewed_ticket`). So
//! whatever a KDC answers, it gets two requests at most (law `few_requests`), and no credential has a session key of a suite that wasn't
//! wanted (law `wanted_session_keys`). No answer brings a suite that wasn't listed (law `no_answer_weakens`), nor another salt where the
//! user named no suites (law `default_salt_alone`). `first_request` writes the one encoding of an AS request without padata
//! (`first_request_bytes`). AS requests ask for what the options of their [`Occasion`] say. Without an option the first one is that of
//! `first_request` (law `plain_first`). `key_hint` and `key_hint_of_reply` return what the tables `error_hint` and `reply_hint` give: suite
//! and salt of the first entry whose suite is a given one. For a reply that is the suite of its enc-part; without PA-ETYPE-INFO2 it gives
//! this suite and no salt. `s2kparams` other than the suite's own are refused. The key of `client_by_hint` is that of the password and this
//! salt, or of the default one where the KDC names none. What our realm writes of an account is read as its suite, where that is a given
//! one, and as its salt, where that is a GeneralString (law `hint_of_method_data`). `cache_of` returns the cache whose default principal is
//! the client, and whose credentials are exactly those that are given, in their order (`login_cache`).
#![tactic(auto)]

mod agile;
mod answer;
mod asking;
mod by_hint;
mod caches;
mod certified;
mod credentials;
mod entries;
mod fault;
mod grants;
mod hint;
mod kdc;
pub mod laws;
mod login;
mod names;
mod occasion;
mod parameters;
mod reading;
mod refusal;
mod renewal;
mod secret;
mod sending;
mod service_ticket;
mod taking;
mod wanted;

pub use agile::log_in_by_agile_certificate;
pub use answer::{AnswerHint, hint_in_answer};
pub use asking::{first_request, first_request_with};
pub use by_hint::client_by_hint;
pub use caches::cache_of;
pub use certified::log_in_by_certificate;
pub use fault::{ExchangeFault, LoginRefusal};
pub use grants::taken_of_suites;
pub use hint::{KeyHint, key_hint, key_hint_of_reply, suite_of_reply};
pub use kdc::Kdc;
pub use login::{log_in_by_keytab, log_in_by_password};
pub use occasion::{OCCASION_WORDS, Occasion};
pub use refusal::{HintRefusal, HintedClientRefusal};
pub use renewal::renewed_ticket;
pub use secret::keytab_suites;
pub use service_ticket::ticket_for;
pub use wanted::{USUAL_SUITES, Wanted, is_one_of};
