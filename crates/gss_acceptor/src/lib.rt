//! An acceptor of the GSS-API (RFC 2743) for the mechanism Kerberos (RFC 4121), bare or negotiated by SPNEGO (RFC 4178), over a
//! service that admits each request once.
//!
//! `Acceptor::accept` and `Acceptor::resume` do what the table of tokens says, and refuse what it refuses (`Handles`). An AP-REQ makes a
//! context if and only if its service admits it (`Admitter`) and the admission fits a context, unless memory runs out (`Establishes`,
//! `judged`). The service has one key, or a keytab's keys, which may be replaced while it runs: no client and time begins two contexts (law
//! `once_for_ever`). The context has the name, times, flags, authorization data and bindings that the client presented, and its key or the
//! acceptor's subkey (law `established_as_presented`). It has what the client delegates, if its flag says so, and no other delegation than the
//! session key of its ticket opens (`delegation`). Where SPNEGO doesn't offer Kerberos first, a context is handed out only after the
//! initiator's MIC was verified (law `established_under_mic`).
#![tactic(auto)]

mod accepted;
mod acceptor;
mod answer;
mod checksum;
mod conclude;
mod context;
pub mod context_flags;
mod delegation;
mod elements;
mod established;
mod exchange;
mod judge;
pub mod laws;
mod mechanism;
mod negotiation;
mod refusal;
mod response;
mod terms;
mod token;

pub use accepted::{Accepted, Continuation, Negotiation};
pub use acceptor::Acceptor;
pub use answer::{NegState, neg_token_resp};
pub use checksum::{BINDINGS, ContextFlags, InitialChecksum};
pub use conclude::mic_for_mic;
pub use context::number_of;
pub use delegation::{DLG_OPT, Delegated};
pub use elements::{element_of, joined, octets_in};
pub use established::Established;
pub use mechanism::{Mechanism, kerberos_in};
pub use refusal::AcceptRefusal;
pub use terms::AcceptorTerms;
pub use token::{AP_REP_FRONT, AP_REQ_FRONT, content_of};
